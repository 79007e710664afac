//! Frames on a line: a kind, a length and a body, taken in whatever pieces the line gives them.
#![tactic(auto)]

mod body;
mod frame;
mod head;
mod laws;
mod limits;
mod reading;
mod short;

pub use body::{Body, Kept, read_body};
pub use frame::short_frame;
pub use head::{Head, read_head};
pub use laws::each_text_is_cut_once;
pub use limits::{FRONT, HEAD, LONGEST_BODY};
pub use reading::Reading;
pub use short::Short;
