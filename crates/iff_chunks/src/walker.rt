//! The walker.
ghost use Rattle.std.specs.Prelude.{◌≡◌, ◌≢◌, ℕ, ◌<◌, ◌++◌, List, [], take};
ghost use Rattle.djvu_base.specs.Library.{mark_of};
ghost use Rattle.iff_chunks.specs.Chunks.{Chunk, Tail, chunks_of, chunks_in_all, end_of};
ghost use Rattle.iff_chunks.specs.Chunks as chunks;
ghost use Rattle.iff_chunks.specs.Ends.{closed, tail_of, broken_end, IsSaid};
ghost use Rattle.iff_chunks.specs.Events.{Event, events_of, IsOpen, IsLast, Settles, is_event};
ghost use Rattle.iff_chunks.specs.Told.{Told, Over, IsSound};
ghost use Rattle.iff_chunks.specs.Walk.{IsFed};

use crate::stages::Stage;
use djvu_base::{FaultKind, FileEnd};
use std::marker::Model;

/// What a walker answers to a piece.
#[derive(Clone, Copy, Debug, PartialEq, Eq)]
pub enum WalkStep {
    /// The FORM's kind, and its length in bytes, which counts the kind and the chunks.
    Form {
        kind: [u8; 4],
        length: u32,
    },
    /// A chunk's identifier, the offset of the identifier in the file, and the length of its data in bytes.
    Header {
        id: [u8; 4],
        offset: u32,
        length: u32,
    },
    /// The used bytes, at least one, are data of the chunk.
    Data,
    /// All data of the chunk arrived. Its pad byte isn't waited for.
    ChunkEnd,
    /// The piece is used up, and the FORM isn't.
    NeedBytes,
    /// The FORM ended. It is answered from then on.
    FormEnd,
    /// The file can't be read on: why, and where. It is answered from then on.
    Broken {
        kind: FaultKind,
        offset: u32,
    },
}

impl WalkStep {
    /// Whether the answer tells an event. `NeedBytes`, `FormEnd` and `Broken` tell none.
    pub fn is_event(self) -> bool
        ensures { result ≡ is_event self }
    {
        !matches!(
            self,
            WalkStep::NeedBytes | WalkStep::FormEnd | WalkStep::Broken { .. }
        )
    }
}

/// Where a file ends.
#[derive(Clone, Copy, Debug, PartialEq, Eq)]
pub enum WalkEnd {
    /// Its FORM ended.
    FormEnd,
    /// It can't be read on: why, and where.
    Broken { kind: FaultKind, offset: u32 },
}

/// Walks over a file that arrives in pieces, and keeps none of its bytes but those of a header.
///
/// Contracts speak of it by `Told taken told walker`: it took these bytes, and told these events of them; and by
/// `Over answer walker`: it answered so, and answers nothing else any more.
#[derive(Debug, Drop)]
pub struct Walker {
    stage: Stage,
}

impl Model for Walker {
    ghost use Rattle.iff_chunks.specs.declared.stages.Stage.{Stage};
    ghost use Rattle.iff_chunks.specs.Told.{IsSound};

    ghost Value = { Stage };

    ghost view = { λ a. a.stage };

    ghost invariant = { λ a. IsSound a.stage };
}

impl Walker {
    /// A walker that took no byte.
    pub fn new() -> Walker
        ensures { Told [] [] result }
    {
        Walker {
            stage: Stage::Start,
        }
    }

    /// Goes on over the next piece of the file, up to one event (EA IFF 85, 'Chunks'). Answers how many bytes of the
    /// piece it used, and the event. Takes no memory. The rest of the piece is to be fed again.
    ///
    /// `Broken` is one of `NotForm`, `TooLarge`, `ShortHeader`, `BadId` and `Overrun`.
    pub fn feed(&mut self, piece: &[u8]) -> (usize, WalkStep)
        // The events, their order, where the FORM ends or the file breaks, and where more bytes are asked for.
        ensures fed { IsFed self.old piece.now result.0 result.1 self.new }

        // More bytes are asked for wherever every event was told and the FORM goes on.
        ensures only_then { (taken : List ℕ) (told : List Event) → Told taken told self.old → events_of (chunks_of (taken ++ piece.now)) ≡ told
            → IsOpen (chunks_of (taken ++ piece.now)).tail → result.1 ≡ WalkStep.NeedBytes }

        // Every other answer comes with the byte that settles it: before that one, every event was told, and the FORM goes on.
        ensures no_later { (taken : List ℕ) (told : List Event) (fewer : ℕ) → Told taken told self.old → result.1 ≢ WalkStep.Data → fewer < result.0 →
            (events_of (chunks_of (taken ++ take fewer piece.now)) ≡ told) × IsOpen (chunks_of (taken ++ take fewer piece.now)).tail }

        // The FORM's end and a break are answered again and again, and use nothing.
        ensures over { IsLast result.1 → Over result.1 self.new }
        ensures stays { (answer : WalkStep) → Over answer self.old → (result ≡ (0, answer)) × Over answer self.new }
    {
        let fed = self.stage.feed(piece);
        self.stage = fed.stage;
        (fed.used, fed.step)
    }

    /// Says that no more bytes come, and answers `FormEnd` or `Broken` for all bytes that were taken, whatever was told
    /// of them. Takes no memory.
    ///
    /// `Broken` is one of those of `feed`, or `Truncated` where the bytes end before the FORM does. Of a FORM whose last
    /// byte is a pad byte, that one may be missing.
    pub fn end(&mut self) -> WalkStep
        ensures all { (taken : List ℕ) (told : List Event) → Told taken told self.old → Settles result (chunks_in_all taken).tail }

        // From then on it is answered again and again.
        ensures over { Over result self.new }
        ensures stays { (answer : WalkStep) → Over answer self.old → result ≡ answer }
    {
        let step = self.stage.end();
        self.stage = last_stage(step);
        step
    }

    /// Says that no more bytes come, and answers where the file ends, of which `arrived` bytes came. Takes no memory.
    ///
    /// `Broken` is one of those of `end`. Where the reading failed, `Read` takes the place of `Truncated`. Its place is the
    /// caller's count `arrived`, whatever that is: the walker counts no bytes.
    pub fn finish(&mut self, end: FileEnd, arrived: u32) -> WalkEnd
        ensures ends { (taken : List ℕ) (told : List Event) → Told taken told self.old →
            tail_of result ≡ closed (mark_of end) arrived (chunks_of taken).whole (chunks_of taken).tail }

        // From then on the walker answers what `end` does, again and again, and the end is said by that answer.
        ensures over { (answer : WalkStep) × Over answer self.new × IsSaid (mark_of end) arrived answer result
            × ((taken : List ℕ) (told : List Event) → Told taken told self.old → Settles answer (chunks_in_all taken).tail) }
        ensures stays { (answer : WalkStep) → Over answer self.old → IsSaid (mark_of end) arrived answer result × Over answer self.new }
    {
        match self.end() {
            WalkStep::Broken { kind, offset } => broken_so(end, arrived, kind, offset),
            _ => WalkEnd::FormEnd,
        }
    }
}

/// Where a file of so many bytes ends that can't be read on, by what is known of its end.
fn broken_so(end: FileEnd, arrived: u32, kind: FaultKind, offset: u32) -> WalkEnd
    ensures said { result ≡ broken_end (mark_of end) arrived kind offset }
    ensures tail { (whole : List Chunk) (tail : Tail) → end_of whole tail ≡ chunks.Broken kind offset
        → tail_of result ≡ closed (mark_of end) arrived whole tail }
{
    match (end, kind) {
        (FileEnd::Broken, FaultKind::Truncated) => WalkEnd::Broken {
            kind: FaultKind::Read,
            offset: arrived,
        },
        _ => WalkEnd::Broken { kind, offset },
    }
}

/// Where a walker stands that answers so, and nothing else any more.
fn last_stage(answer: WalkStep) -> Stage
    ensures over { IsLast answer → Over answer result }
    ensures sound { IsSound result }
{
    match answer {
        WalkStep::Broken { kind, offset } => Stage::Broken { kind, offset },
        _ => Stage::Ended,
    }
}
