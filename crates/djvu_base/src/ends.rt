//! How the bytes of a file end.

/// What is known of a file once no more of its bytes come.
#[derive(Clone, Copy, Debug, PartialEq, Eq)]
pub enum FileEnd {
    /// The bytes are all of the file.
    Whole,
    /// The file broke off after these bytes: reading it failed.
    Broken,
}
