//! The numbers of a journal.

/// What stands behind a journal's first gate.
pub const MAGIC: [u8; 7] = *b"DMNJ001";

/// The kind of a record whose body is that of a Connect.
pub const CONNECT: u8 = 1;

/// The kind of a record whose body is the hash of a block that was taken back.
pub const DISCONNECT: u8 = 2;

/// The length of the longest body of a Connect.
pub const LONGEST_BODY: usize = 16_777_216;
