//! What a reader of slices answers.

/// What a reader of slices answers.
#[derive(Clone, Copy, Debug, PartialEq, Eq)]
pub enum SliceStep {
    /// The slice was read whole.
    SliceEnd,
    /// The bytes taken don't determine the slice's next decision.
    NeedBytes,
    /// All bytes of the chunk were taken, and the next decision would have more than 192 bits past their end in use.
    Exhausted,
}
