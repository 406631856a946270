//! Whose rules a file is read by.

/// Whose rules a file is read by.
#[derive(Clone, Copy, Debug, PartialEq, Eq)]
pub enum Role {
    /// A page's.
    Page,
    /// An included file's.
    Included,
}
