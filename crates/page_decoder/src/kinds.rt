//! Kinds of chunks.
ghost use Rattle.std.specs.Prelude.{◌≡◌};
ghost use Rattle.page_decoder.specs.Kinds.{kind_of};

use crate::page::{is_info, is_mask};
use iff_chunks::is_refused;
use include_graph::{is_dictionary, is_include};

/// What a chunk is for.
#[derive(Clone, Copy, Debug, PartialEq, Eq)]
pub enum ChunkKind {
    /// `INFO`: the page's size and its turn.
    Info,
    /// `INCL`: the name of an included file.
    Include,
    /// `Djbz`: a dictionary of shapes.
    Dictionary,
    /// `Sjbz`: which pixels stand in front.
    Mask,
    /// `FG44`: the colours of these.
    Front,
    /// `BG44`: the colours of all others.
    Back,
    /// A file that has one is refused.
    Refused,
    /// Every other one is passed over.
    Passed,
}

impl ChunkKind {
    /// The kind of a chunk with this identifier.
    pub fn of(id: [u8; 4]) -> ChunkKind
        ensures { result ≡ kind_of id }
    {
        if is_info(id) {
            ChunkKind::Info
        } else if is_include(id) {
            ChunkKind::Include
        } else if is_dictionary(id) {
            ChunkKind::Dictionary
        } else if is_mask(id) {
            ChunkKind::Mask
        } else if id.as_slice() == b"FG44".as_slice() {
            ChunkKind::Front
        } else if id.as_slice() == b"BG44".as_slice() {
            ChunkKind::Back
        } else if is_refused(id) {
            ChunkKind::Refused
        } else {
            ChunkKind::Passed
        }
    }
}
