//! The places of the grammar at which a walker can stand.
ghost use Rattle.std.specs.Prelude.{◌≡◌, ◌+◌, ◌^◌, ◌<◌, length};
ghost use Rattle.iff_chunks.specs.Chunks.{is_padded};
ghost use Rattle.iff_chunks.specs.Told.{IsSound, Feeds};

use crate::answers::{breaks, ends};
use crate::chunks::{chunk, data, data_end, pad};
use crate::gathering::Gathered;
use crate::heads::{kind, length, magic, start, word};
use crate::walker::WalkStep;
use djvu_base::FaultKind;

/// Where a chunk may begin.
#[derive(Clone, Copy, Debug, PartialEq, Eq)]
pub struct ChunkPlace {
    /// In the file.
    pub offset: u32,
    /// How many bytes the FORM has from here on.
    pub left: u32,
    /// Whether no chunk stands before it.
    pub is_first: bool,
}

/// A chunk whose header was told.
#[derive(Clone, Copy, Debug, PartialEq, Eq)]
pub struct OpenChunk {
    /// Of its identifier in the file.
    pub offset: u32,
    /// Of its data.
    pub length: u32,
    /// How many bytes the FORM has behind the data.
    pub behind: u32,
}

/// A place of the grammar.
#[derive(Clone, Copy, Debug, PartialEq, Eq)]
pub enum Stage {
    /// No byte arrived.
    Start,
    /// So many bytes of the magic arrived, at least one.
    Magic {
        matched: usize,
    },
    /// So many bytes of the FORM's word arrived. The FORM is at this offset.
    Word {
        offset: u32,
        matched: usize,
    },
    /// The FORM's word arrived, and these bytes of its length.
    Length {
        offset: u32,
        got: Gathered,
    },
    /// The FORM's length arrived, and these bytes of its kind.
    Kind {
        offset: u32,
        length: u32,
        got: Gathered,
    },
    /// These bytes of a chunk's header arrived.
    Header {
        place: ChunkPlace,
        got: Gathered,
    },
    /// So many bytes of the chunk's data are to come, at least one.
    Data {
        chunk: OpenChunk,
        left: usize,
    },
    /// The data arrived, and the chunk's end is to be told.
    DataEnd {
        chunk: OpenChunk,
    },
    /// The chunk's end was told, and its pad byte is to come.
    Pad {
        chunk: OpenChunk,
    },
    /// The FORM's end was told, or is told next.
    Ended,
    /// The file can't be read on: why, and where.
    Broken {
        kind: FaultKind,
        offset: u32,
    },
}

/// How a walker goes on from a piece: the bytes that it used, where it stands then, and what it answers.
#[derive(Clone, Copy, Debug, PartialEq, Eq)]
pub struct Fed {
    pub used: usize,
    pub stage: Stage,
    pub step: WalkStep,
}

impl Fed {
    /// The same behind bytes that were used before.
    pub fn behind(self, passed: usize) -> Fed
        requires { self.used + passed < 2 ^ 64 }
        ensures { result ≡ record { used = passed + self.used; stage = self.stage; step = self.step } }
    {
        Fed {
            used: passed + self.used,
            stage: self.stage,
            step: self.step,
        }
    }
}

impl OpenChunk {
    /// Whether a pad byte comes behind the data.
    pub fn is_padded(self) -> bool
        ensures { result ≡ is_padded self.length self.behind }
    {
        self.length % 2 == 1 && 0 < self.behind
    }
}

impl Stage {
    /// How a walker at this place goes on from a piece.
    pub fn feed(self, piece: &[u8]) -> Fed
        requires { IsSound self }
        ensures { Feeds self piece.now result }
    {
        match self {
            Stage::Start => start(piece),
            Stage::Magic { matched } => magic(matched, piece),
            Stage::Word { offset, matched } => word(offset, matched, piece),
            Stage::Length { offset, got } => length(offset, got, piece),
            Stage::Kind {
                offset,
                length,
                got,
            } => kind(offset, length, got, piece),
            Stage::Header { place, got } => chunk(place, got, piece),
            Stage::Data { chunk, left } => data(chunk, left, piece),
            Stage::DataEnd { chunk } => data_end(chunk, piece),
            Stage::Pad { chunk } => pad(chunk, piece),
            Stage::Ended => ends(),
            Stage::Broken { kind, offset } => breaks(0, kind, offset),
        }
    }
}
