//! Why a caller's bytes are no request.

use thiserror::Error;

/// Why a caller's bytes are no request: the first check that they fail, in the order of the checks.
#[derive(Clone, Copy, Debug, PartialEq, Eq, Error)]
pub enum HttpFault {
    /// As many bytes came as a head may have, and its end was not among them.
    #[error("the head is too long")]
    HeadTooLong,
    /// The head is not in its form, or has more fields than are read.
    #[error("the head is not in its form")]
    BadHead,
    /// There is a field of the name Transfer-Encoding.
    #[error("a transfer encoding is not read")]
    Encoding,
    /// No route has the path.
    #[error("no route has this path")]
    NoRoute,
    /// The path's route has another method.
    #[error("the path has another method")]
    Method,
    /// A value in the path is not in its form.
    #[error("a value of the path is not in its form")]
    BadPath,
    /// The length of the body is not told by one field with decimal digits.
    #[error("the length of the body is not told")]
    Length,
    /// The body is longer than is read.
    #[error("the body is too long")]
    BodyTooLong,
    /// The body departs from its form at this byte, counted from its first one.
    #[error("the body departs from its form at byte {at}")]
    BadRequest { at: usize },
}
