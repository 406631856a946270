//! How calls of the outside fail.
use thiserror::Error;

/// Why a folder didn't list its names or open a file.
#[derive(Debug, Drop, Error)]
pub enum FolderFault {
    /// The folder failed, and its count of faults rose.
    #[error("the folder failed")]
    Failed,
    /// There was no memory for the answer.
    #[error("out of memory")]
    OutOfMemory,
}

/// Why a sink didn't take a whole piece.
#[derive(Debug, Drop, Error)]
pub enum SinkFault {
    /// The sink failed, and its count of faults rose.
    #[error("the sink failed")]
    Failed,
    /// There was no memory for the piece, and nothing of it was taken.
    #[error("out of memory")]
    OutOfMemory,
}

/// A read that failed. The folder's count of faults rose.
#[derive(Clone, Copy, Debug, PartialEq, Eq)]
pub struct Failed;
