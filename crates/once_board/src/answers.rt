//! What claims and looks answer.

/// What a claim answers.
#[derive(Clone, Copy, Debug, PartialEq, Eq)]
pub enum Claiming {
    /// Exactly where the place's word was 0: now the place is claimed by this seat.
    Won,
    /// Exactly where the place's word was this other one. A place that is private to a right of the seat never is.
    Taken(u64),
}

/// What a look answers.
#[derive(Debug, Drop)]
pub enum Looking<T> {
    /// The place's value. The word that was read was 2.
    Value(T),
    /// Exactly where the word that was read is this one, below 2: the place isn't open.
    NotYet(u64),
    /// Exactly where the word that was read is this one, 3: a seat has the turn of the place.
    Busy(u64),
    /// The word that was read was 2, and there was no memory for a share of the value. The value is at its place again, and
    /// the seat knows it.
    OutOfMemory,
}
