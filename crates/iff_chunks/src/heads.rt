//! The bytes before the FORM's chunks.
ghost use Rattle.std.specs.Prelude.{◌≡◌, ◌≢◌, ◌+◌, ◌<◌, ◌≤◌, ◌^◌, None, length};
ghost use Rattle.iff_chunks.specs.Chunks.{length_fault};
ghost use Rattle.djvu_base.specs.Library.{file_limit};
ghost use Rattle.iff_chunks.specs.declared.stages.Stage.TheVariants as stage;
ghost use Rattle.iff_chunks.specs.Told.{Feeds, IsGathering, IsForm};

use crate::answers::{breaks, need_bytes};
use crate::fronts::{Match, match_on};
use crate::gathering::{Gathered, four, number};
use crate::slices::rest_of;
use crate::stages::{ChunkPlace, Fed, Stage};
use crate::walker::WalkStep;
use djvu_base::FaultKind;

/// What may stand before the FORM.
const MAGIC: [u8; 4] = *b"AT&T";

/// What a FORM begins with.
const FORM_WORD: [u8; 4] = *b"FORM";

/// No byte arrived.
pub fn start(piece: &[u8]) -> Fed
    ensures { Feeds stage.Start piece.now result }
{
    match piece.first() {
        None => need_bytes(piece, Stage::Start),
        Some(b'A') => magic(1, rest_of(piece, 1)).behind(1),
        Some(b'F') => word(0, 1, rest_of(piece, 1)).behind(1),
        Some(_) => breaks(1, FaultKind::NotForm, 0),
    }
}

/// So many bytes of the magic arrived.
pub fn magic(matched: usize, piece: &[u8]) -> Fed
    requires { matched < 4 }
    ensures feeds { Feeds (stage.Magic matched) piece.now result }
    ensures no_data { result.step ≢ WalkStep.Data }
{
    match match_on(&MAGIC, matched, piece) {
        Match::Whole { used } => word(4, 0, rest_of(piece, used)).behind(used),
        Match::Part { matched } => need_bytes(piece, Stage::Magic { matched }),
        Match::Differs { used } => breaks(used, FaultKind::NotForm, 0),
    }
}

/// So many bytes of the FORM's word arrived.
pub fn word(offset: u32, matched: usize, piece: &[u8]) -> Fed
    requires early { offset ≤ 4 }
    requires some { matched < 4 }
    ensures feeds { Feeds (stage.Word offset matched) piece.now result }
    ensures no_data { result.step ≢ WalkStep.Data }
{
    match match_on(&FORM_WORD, matched, piece) {
        Match::Whole { used } => {
            length(offset, Gathered::new(), rest_of(piece, used)).behind(used)
        }
        Match::Part { matched } => need_bytes(piece, Stage::Word { offset, matched }),
        Match::Differs { used } => breaks(used, FaultKind::NotForm, 0),
    }
}

/// These bytes of the FORM's length arrived.
pub fn length(offset: u32, got: Gathered, piece: &[u8]) -> Fed
    requires early { offset ≤ 4 }
    requires some { IsGathering got 4 }
    ensures feeds { Feeds (stage.Length offset got) piece.now result }
    ensures no_data { result.step ≢ WalkStep.Data }
{
    let (got, used) = got.fill(4, piece);
    if got.count() < 4 {
        return need_bytes(piece, Stage::Length { offset, got });
    }
    let length = number(got.bytes());
    match length_fault(offset, length) {
        Some(fault) => breaks(used, fault, 0),
        None => kind(offset, length, Gathered::new(), rest_of(piece, used)).behind(used),
    }
}

/// Why a FORM at this offset can't have this length.
fn length_fault(offset: u32, length: u32) -> Option<FaultKind>
    requires { offset ≤ 4 }
    ensures fault { result ≡ length_fault offset length }
    ensures fits { result ≡ None → IsForm offset length }
{
    if length < 4 {
        Some(FaultKind::NotForm)
    } else if form_limit() - 8 - offset < length {
        Some(FaultKind::TooLarge)
    } else {
        None
    }
}

/// No FORM ends behind this byte of a file.
fn form_limit() -> u32
    ensures limit { result ≡ file_limit }
    ensures large { 12 ≤ result }
    ensures small { result < 2 ^ 32 }
{
    2_097_152
}

/// These bytes of the FORM's kind arrived.
pub fn kind(offset: u32, length: u32, got: Gathered, piece: &[u8]) -> Fed
    requires form { IsForm offset length }
    requires some { IsGathering got 4 }
    ensures feeds { Feeds (stage.Kind offset length got) piece.now result }
    ensures no_data { result.step ≢ WalkStep.Data }
{
    let (got, used) = got.fill(4, piece);
    if got.count() < 4 {
        return need_bytes(
            piece,
            Stage::Kind {
                offset,
                length,
                got,
            },
        );
    }
    let place = ChunkPlace {
        offset: offset + 12,
        left: length - 4,
        is_first: true,
    };
    let got_kind = four(got.bytes());
    Fed {
        used,
        stage: Stage::Header {
            place,
            got: Gathered::new(),
        },
        step: WalkStep::Form {
            kind: got_kind,
            length,
        },
    }
}
