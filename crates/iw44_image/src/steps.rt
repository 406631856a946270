//! What an image answers, and where it stands in a chunk.

use crate::planes::Channel;
use djvu_base::FaultKind;

/// What an image answers.
#[derive(Clone, Copy, Debug, PartialEq, Eq)]
pub enum IwStep {
    /// The layer's size in pixels: once, after the first header, before any plane is made.
    Sized { width: u32, height: u32 },
    /// All slices of the chunk were read, and all its data came.
    ChunkDone,
    /// The bytes so far don't determine what comes next, or the chunk's data aren't all there.
    NeedBytes,
    /// The chunk's first fault. This is answered from then on.
    Refused(FaultKind),
    /// There was no memory for the planes. The image is as it was.
    OutOfMemory,
}

/// Where an image stands in a chunk, or before one.
#[derive(Clone, Copy, Debug, PartialEq, Eq)]
pub(crate) enum Stage {
    /// Before the chunk's header, or without a chunk.
    Header,
    /// In a slice of a plane, so many of the chunk's slices of the image being done.
    Slice {
        channel: Channel,
        done: u8,
        count: u8,
    },
    /// Behind all slices of the chunk, of which there were so many.
    Rest {
        count: u8,
    },
    /// The chunk was refused.
    Refused(FaultKind),
}
