//! The chunks of a FORM.
ghost use Rattle.std.specs.Prelude.{◌≡◌, ◌≢◌, ◌+◌, ◌<◌, ◌≤◌, ◌^◌, ◌-◌, None, true, false, length};
ghost use Rattle.std.specs.List.{list_all};
ghost use Rattle.iff_chunks.specs.Chunks.{header_fault, is_id_byte, is_padded};
ghost use Rattle.iff_chunks.specs.declared.stages.Stage.TheVariants as stage;
ghost use Rattle.iff_chunks.specs.Gathering.{gathered};
ghost use Rattle.iff_chunks.specs.Told.{Feeds, IsGathering, IsPlace, IsChunk, begun, data_stage};

use crate::answers::{breaks, ends, need_bytes};
use crate::gathering::{Gathered, four, number};
use crate::slices::{first, rest_of};
use crate::stages::{ChunkPlace, Fed, OpenChunk, Stage};
use crate::walker::WalkStep;
use djvu_base::FaultKind;

/// A chunk may begin, and these bytes of its header arrived.
pub fn chunk(place: ChunkPlace, got: Gathered, piece: &[u8]) -> Fed
    requires fits { IsPlace place }
    requires some { IsGathering got 8 }
    ensures feeds { Feeds (stage.Header place got) piece.now result }
    ensures no_data { result.step ≢ WalkStep.Data }
{
    if place.left == 0 {
        return ends();
    }
    if place.left < 8 {
        return breaks(0, FaultKind::ShortHeader, place.offset);
    }
    let (got, used) = got.fill(8, piece);
    if got.count() < 8 {
        return need_bytes(piece, Stage::Header { place, got });
    }
    begun(place, got.bytes(), used)
}

/// All eight bytes of a chunk's header arrived.
fn begun(place: ChunkPlace, header: &[u8], used: usize) -> Fed
    requires room { 8 ≤ place.left }
    requires eight { length header.now ≡ 8 }
    ensures { result ≡ begun place header.now used }
{
    let id = first(header, 4);
    let length = number(rest_of(header, 4));
    let left = place.left - 8;
    if let Some(fault) = header_fault(id, length, left) {
        return breaks(used, fault, place.offset);
    }
    let chunk = OpenChunk {
        offset: place.offset,
        length,
        behind: left - length,
    };
    Fed {
        used,
        stage: with_data(chunk),
        step: WalkStep::Header {
            id: four(id),
            offset: chunk.offset,
            length,
        },
    }
}

/// Why a chunk with this identifier and length can't stand in front of so many bytes of the FORM.
fn header_fault(id: &[u8], length: u32, left: u32) -> Option<FaultKind>
    ensures fault { result ≡ header_fault id.now length left }
    ensures fits { result ≡ None → length ≤ left }
{
    if !is_id(id) {
        Some(FaultKind::BadId)
    } else if left < length {
        Some(FaultKind::Overrun)
    } else {
        None
    }
}

/// Whether all bytes are printable ASCII.
fn is_id(id: &[u8]) -> bool
    ensures { result ≡ list_all is_id_byte id.now }
{
    id.iter().all(|byte| 0x20 <= *byte && *byte <= 0x7E)
}

/// Where a walker stands behind a chunk's header.
fn with_data(chunk: OpenChunk) -> Stage
    ensures { result ≡ data_stage chunk }
{
    if chunk.length == 0 {
        Stage::DataEnd { chunk }
    } else {
        Stage::Data {
            chunk,
            left: chunk.length as usize,
        }
    }
}

/// So many bytes of the chunk's data are to come.
pub fn data(chunk: OpenChunk, left: usize, piece: &[u8]) -> Fed
    requires some { 0 < left }
    requires part { left ≤ chunk.length }
    requires fits { IsChunk chunk }
    ensures { Feeds (stage.Data chunk left) piece.now result }
{
    if piece.is_empty() {
        need_bytes(piece, Stage::Data { chunk, left })
    } else if piece.len() < left {
        Fed {
            used: piece.len(),
            stage: Stage::Data {
                chunk,
                left: left - piece.len(),
            },
            step: WalkStep::Data,
        }
    } else {
        Fed {
            used: left,
            stage: Stage::DataEnd { chunk },
            step: WalkStep::Data,
        }
    }
}

/// The chunk's data arrived.
pub fn data_end(chunk: OpenChunk, piece: &[u8]) -> Fed
    requires { IsChunk chunk }
    ensures { Feeds (stage.DataEnd chunk) piece.now result }
{
    let stage = if chunk.is_padded() {
        Stage::Pad { chunk }
    } else {
        Stage::Header {
            place: place_behind(chunk),
            got: Gathered::new(),
        }
    };
    Fed {
        used: 0,
        stage,
        step: WalkStep::ChunkEnd,
    }
}

/// Where a chunk may begin behind the data of this one, which have no pad byte.
pub fn place_behind(chunk: OpenChunk) -> ChunkPlace
    requires { IsChunk chunk }
    ensures { result ≡ record { offset = chunk.offset + 8 + chunk.length; left = chunk.behind; is_first = false } }
{
    ChunkPlace {
        offset: chunk.offset + 8 + chunk.length,
        left: chunk.behind,
        is_first: false,
    }
}

/// Where a chunk may begin behind the pad byte of this one.
fn place_behind_pad(chunk: OpenChunk) -> ChunkPlace
    requires fits { IsChunk chunk }
    requires some { 0 < chunk.behind }
    ensures { result ≡ record { offset = chunk.offset + 9 + chunk.length; left = chunk.behind - 1; is_first = false } }
{
    ChunkPlace {
        offset: chunk.offset + 9 + chunk.length,
        left: chunk.behind - 1,
        is_first: false,
    }
}

/// The chunk's pad byte is to come.
pub fn pad(chunk_before: OpenChunk, piece: &[u8]) -> Fed
    requires fits { IsChunk chunk_before }
    requires padded { is_padded chunk_before.length chunk_before.behind ≡ true }
    ensures { Feeds (stage.Pad chunk_before) piece.now result }
{
    if piece.is_empty() {
        return need_bytes(
            piece,
            Stage::Pad {
                chunk: chunk_before,
            },
        );
    }
    let place = place_behind_pad(chunk_before);
    chunk(place, Gathered::new(), rest_of(piece, 1)).behind(1)
}
