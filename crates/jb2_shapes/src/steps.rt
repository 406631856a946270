//! What readers of shapes answer.

/// What a reader of a shape answers.
#[derive(Clone, Copy, Debug, PartialEq, Eq)]
pub enum ShapeStep {
    /// Every pixel was read.
    Done,
    /// The bytes that arrived don't determine the next pixel.
    NeedBytes,
    /// All bytes of the chunk arrived, and the next pixel would have more than 192 bits past their end in use.
    Exhausted,
}
