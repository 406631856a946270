//! What a file is whose bytes end.
ghost use Rattle.std.specs.Prelude.{◌≡◌, ◌<◌};
ghost use Rattle.iff_chunks.specs.Told.{IsSound, Closes, StaysClosed, cut_before_pad};
ghost use Rattle.iff_chunks.specs.declared.stages.Stage.TheVariants as stage;

use crate::answers::truncated;
use crate::chunks::place_behind;
use crate::gathering::Gathered;
use crate::stages::{ChunkPlace, OpenChunk, Stage};
use crate::walker::WalkStep;
use djvu_base::FaultKind;

impl Stage {
    /// What the file is for a walker at this place, where no more bytes come: its FORM ended, or it is broken.
    pub fn end(self) -> WalkStep
        requires { IsSound self }
        ensures closes { Closes self result }
        ensures stays { StaysClosed self result }
    {
        match self {
            Stage::Start
            | Stage::Magic { .. }
            | Stage::Word { .. }
            | Stage::Length { .. }
            | Stage::Kind { .. } => truncated(0),
            Stage::Header { place, got } => cut_at(place, got),
            Stage::Data { chunk, .. } => truncated(chunk.offset),
            Stage::DataEnd { chunk } => cut_behind_data(chunk),
            Stage::Pad { chunk } => cut_before_pad(chunk),
            Stage::Ended => WalkStep::FormEnd,
            Stage::Broken { kind, offset } => WalkStep::Broken { kind, offset },
        }
    }
}

/// The bytes end where a chunk may begin, or in its header.
fn cut_at(place: ChunkPlace, got: Gathered) -> WalkStep
    requires { IsSound (stage.Header place got) }
    ensures { Closes (stage.Header place got) result }
{
    if place.left == 0 {
        return WalkStep::FormEnd;
    }
    if place.left < 8 {
        return WalkStep::Broken {
            kind: FaultKind::ShortHeader,
            offset: place.offset,
        };
    }
    if place.is_first && got.count() == 0 {
        truncated(0)
    } else {
        truncated(place.offset)
    }
}

/// The bytes end behind the data of a chunk.
fn cut_behind_data(chunk: OpenChunk) -> WalkStep
    requires { IsSound (stage.DataEnd chunk) }
    ensures { Closes (stage.DataEnd chunk) result }
{
    if chunk.is_padded() {
        cut_before_pad(chunk)
    } else {
        cut_at(place_behind(chunk), Gathered::new())
    }
}

/// The bytes end before the pad byte of a chunk, which may be missing where it is the last byte of the FORM.
fn cut_before_pad(chunk: OpenChunk) -> WalkStep
    requires { 0 < chunk.behind }
    ensures { result ≡ cut_before_pad chunk.offset chunk.behind }
{
    if chunk.behind == 1 {
        WalkStep::FormEnd
    } else {
        truncated(chunk.offset)
    }
}
