//! The numbers of frames.

/// The bytes of a frame's head: its kind or its status, and its body's length.
pub const HEAD: u32 = 5;

/// The length of the longest body that is read.
pub const LONGEST_BODY: u32 = 16_777_216;

/// As many bytes of a body as are read to answer a question, whose body is shorter.
pub const FRONT: usize = 64;
