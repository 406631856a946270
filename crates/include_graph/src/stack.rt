//! Where a walk over outlines stands.

/// A file on the path of a walk.
#[derive(Clone, Copy, Debug, PartialEq, Eq)]
pub(crate) struct Frame {
    pub file: u32,
    /// How many items of its outline were passed.
    pub passed: usize,
}

/// Where a file is on a walk.
#[derive(Clone, Copy, Debug, PartialEq, Eq)]
pub(crate) enum Mark {
    /// The walk wasn't there.
    Ahead,
    /// It is on the path.
    OnPath,
    /// It was left.
    Left,
}
