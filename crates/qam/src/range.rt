// The error of a number that is out of its range.
use thiserror::Error;

/// A number is outside the range of the type that was asked for.
#[derive(Clone, Copy, PartialEq, Eq, Debug, Error)]
#[error("out of range")]
pub struct OutOfRange;
