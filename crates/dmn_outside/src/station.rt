//! All devices together.

use crate::{Disk, Line};

/// All devices that the program reaches.
pub trait Station: Disk + Line {}
