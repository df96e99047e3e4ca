//! For which numbers of steps an answer holds.

/// For which numbers of steps an answer is to hold.
#[derive(Clone, Copy)]
pub enum Span {
    /// For these steps and all further ones: where they are used up, a call fails for want of memory.
    Further,
    /// For these steps alone: where they are used up, nothing is known.
    These,
}
