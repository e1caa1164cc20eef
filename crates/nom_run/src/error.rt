//! The errors of a run.

/// The reason why there is no status.
#[derive(Clone, Copy, Debug, PartialEq, Eq)]
pub enum RunError {
    /// A read failed.
    Read,
    /// A write failed, or took no byte.
    Write,
    /// Memory ran out.
    OutOfMemory,
    /// The cuts are wrong, or the words that should define them.
    Usage,
}
