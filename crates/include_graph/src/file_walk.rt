//! A walk over a file that arrives in pieces, with the items of its outline so far.
ghost use Rattle.std.specs.Prelude.{◌≡◌, ◌≢◌, ℕ, ◌+◌, ◌<◌, ◌^◌, ◌++◌, List, [], length, IfOk};
ghost use Rattle.djvu_base.specs.Library.{Open, mark_of};
ghost use Rattle.include_graph.specs.Fed.{FedBy, IsReading, IsWalking, PausesSo, answer_of, ended_so, outline_read, progress_of};

use crate::outline::Outline;
use crate::progress::Progress;
use crate::reader::OutlineStep;
use djvu_base::{FileEnd, Items};
use iff_chunks::{WalkEnd, WalkStep, Walker, first, rest_of};
use std::alloc::{AllocError, Global};

/// Walks over a file, and keeps the items of its outline.
#[derive(Debug, Drop)]
pub(crate) struct FileWalk {
    alloc: Global,
    walker: Walker,
    arrived: u32,
    progress: Progress,
}

impl FileWalk {
    /// A walk over a file of which no byte came.
    pub(crate) fn new(alloc: Global) -> FileWalk
        ensures { IsReading Open [] result }
    {
        FileWalk {
            alloc,
            walker: Walker::new(),
            arrived: 0,
            progress: Progress::new(alloc),
        }
    }

    /// Goes on with the next bytes of a file whose outline isn't known.
    pub(crate) fn read(&mut self, piece: &[u8]) -> OutlineStep
        ensures { (bytes : List ℕ) → IsReading Open bytes self.old → FedBy result Open (bytes ++ piece.now) self.new }
    {
        self.arrived = counted(self.arrived, piece);
        let walked = self.walk(piece);
        answer_of(walked)
    }

    /// Over all events that the piece settles, or up to the last item.
    fn walk(&mut self, piece: &[u8]) -> Result<OutlineStep, AllocError>
        ensures { IfOk result (λ step. (bytes : List ℕ) → IsWalking bytes piece.now self.old → FedBy step Open (bytes ++ piece.now) self.new) }
    {
        iff_chunks::laws::chunks_stay();
        let mut rest = piece;
        'events: loop {
            let (used, step) = self.walker.feed(rest);
            if !step.is_event() {
                return self.at_pause(step);
            }
            self.progress.apply(self.alloc, step, first(rest, used))?;
            if self.progress.is_known() {
                return Ok(OutlineStep::Done);
            }
            rest = rest_of(rest, used);
        }
    }

    /// Where the walker's answer tells no event.
    fn at_pause(&mut self, step: WalkStep) -> Result<OutlineStep, AllocError>
        ensures { IfOk result (λ answer. PausesSo step self.old answer self.new) }
    {
        match step {
            WalkStep::FormEnd => Ok(OutlineStep::Done),
            WalkStep::Broken { kind, offset } => {
                self.progress.refuse(kind, offset)?;
                Ok(OutlineStep::Done)
            }
            WalkStep::NeedBytes => Ok(OutlineStep::NeedBytes),
            WalkStep::Form { .. } => Ok(OutlineStep::NeedBytes),
            WalkStep::Header { .. } => Ok(OutlineStep::NeedBytes),
            WalkStep::Data => Ok(OutlineStep::NeedBytes),
            WalkStep::ChunkEnd => Ok(OutlineStep::NeedBytes),
        }
    }

    /// No more bytes come of a file whose outline isn't known, and it ends so.
    pub(crate) fn close(&mut self, end: FileEnd) -> OutlineStep
        ensures fed { (bytes : List ℕ) → IsReading Open bytes self.old → FedBy result (mark_of end) bytes self.new }
        ensures settles { result ≢ OutlineStep.NeedBytes }
    {
        iff_chunks::laws::bounds();
        let last = self.walker.finish(end, self.arrived);
        let ended = self.at_end(last);
        answer_of(ended)
    }

    /// Behind the last event, where the file ends so.
    fn at_end(&mut self, last: WalkEnd) -> Result<OutlineStep, AllocError>
        ensures { IfOk result (λ step. (step ≡ OutlineStep.Done) × (progress_of self.new.progress ≡ ended_so last (progress_of self.old.progress))) }
    {
        if let WalkEnd::Broken { kind, offset } = last {
            self.progress.refuse(kind, offset)?;
        }
        Ok(OutlineStep::Done)
    }

    /// The outline of the items.
    pub(crate) fn into_outline(self) -> Outline
        ensures { result ≡ outline_read self }
    {
        Outline {
            items: Items::of(self.progress.items),
        }
    }
}

/// What is answered from then on.
fn answer_of(found: Result<OutlineStep, AllocError>) -> OutlineStep
    ensures { result ≡ answer_of found }
{
    match found {
        Ok(step) => step,
        Err(_) => OutlineStep::OutOfMemory,
    }
}

/// How many bytes came with this piece, where so many came before.
fn counted(arrived: u32, piece: &[u8]) -> u32
    ensures { arrived + length piece.now < 2 ^ 32 → result ≡ arrived + length piece.now }
{
    match u32::try_from(piece.len()) {
        Ok(count) => arrived.saturating_add(count),
        Err(_) => u32::MAX,
    }
}
