//! The reader of a file before a chunk, and at its end.
ghost use Rattle.std.specs.Prelude.{◌≡◌, ◌≢◌, ◌<◌, ◌≤◌, ◌^◌, ℕ, suc, List, [], length, map, true, None};
ghost use Rattle.djvu_base.specs.Meter.{TicksExactly, ticked};
ghost use Rattle.djvu_base.specs.Name.{IsAscending};
ghost use Rattle.zp_table.specs.declared.rows.Row.{Row};
ghost use Rattle.iff_chunks.specs.declared.walker.WalkStep.TheVariants as step;
ghost use Rattle.include_graph.specs.Verdicts.{outline_in};
ghost use Rattle.page_decoder.specs.Given.{Given};
ghost use Rattle.page_decoder.specs.PageRead.{Left};
ghost use Rattle.page_decoder.specs.Kinds.{kind_of};
ghost use Rattle.page_decoder.specs.Decoder.{RiseTogether};
ghost use Rattle.page_decoder.specs.Kept.{IsReady};
ghost use Rattle.page_decoder.specs.Opened.{decisions_of};
ghost use Rattle.page_decoder.specs.Resolving.{IsPlaced, home_of, known_of};
ghost use Rattle.page_decoder.specs.FileReading.{SameFile, IsTold, ComesTo, decisions_in};
ghost use Rattle.page_decoder.specs.FileSteps.{IsHeld, IsKnown, IsEntering, MayLackMemory, HasClosed, HasLeft, Adds, HasResolved, ResolvesBefore, Begins, stop_of};

use crate::closing::ChunkCame;
use crate::decoder::PageStep;
use crate::file_reader::{ChunkAtHand, FileReader, Stage};
use crate::headers::Head;
use crate::kinds::ChunkKind;
use crate::resolving::{Include, Resolution};
use djvu_base::{Meter, Name};
use include_graph::Outline;
use jb2_records::FileResult;
use std::sync::Arc;

impl FileReader {
    /// At the end of the chunk at hand.
    pub(crate) fn at_chunk_end<M: Meter>(&mut self, meter: &mut M) -> Option<PageStep>
        ensures comes { (given : Given) (rest taken : List ℕ) → IsTold given rest step.ChunkEnd taken self.old → ComesTo given rest result self.old self.new }
        ensures walker { self.new.walker ≡ self.old.walker }
        ensures stage { self.new.stage ≡ self.old.stage }
        ensures rise { RiseTogether (decisions_in self.old) (decisions_in self.new) (M.count meter.old) (M.count meter.new) }
        ensures home { SameFile self.old self.new }
    {
        iff_chunks::laws::layout();
        iff_chunks::laws::order();
        iff_chunks::laws::bounds();
        match self.chunk.take() {
            None => None,
            Some(chunk) => self.close(chunk, meter),
        }
    }

    /// Closes a chunk whose data are all there.
    pub(crate) fn close<M: Meter>(&mut self, chunk: ChunkAtHand, meter: &mut M) -> Option<PageStep>
        ensures closes { HasClosed chunk result self.old self.new }
        ensures walker { self.new.walker ≡ self.old.walker }
        ensures stage { self.new.stage ≡ self.old.stage }
        ensures chunk { self.new.chunk ≡ self.old.chunk }
        ensures rise { (ticks : ℕ) × TicksExactly ticks (ticked (decisions_of chunk.opened) self.old.decisions) self.new.decisions
            × TicksExactly ticks (M.count meter.old) (M.count meter.new) }
        ensures home { SameFile self.old self.new }
    {
        let ChunkAtHand { head, opened } = chunk;
        let chunks = self.chunks.saturating_add(1);
        let closed = self.kept.close(self.alloc, opened, chunks, meter);
        self.decisions = self.decisions.saturating_add(closed.decisions);
        self.leave(head, chunks, closed.came)
    }

    /// With this chunk so many are complete, and it came to this.
    pub(crate) fn leave(&mut self, head: Head, chunks: u32, came: ChunkCame) -> Option<PageStep>
        ensures { HasLeft head chunks came result self.old self.new }
    {
        match came {
            ChunkCame::Drew(notice) => {
                self.chunks = chunks;
                self.drawn = self.drawn.saturating_add(1);
                Some(PageStep::Drew(notice))
            }
            ChunkCame::Left => {
                self.chunks = chunks;
                None
            }
            ChunkCame::Include(name) => self.add(Include::new(name, head.offset), chunks),
            ChunkCame::Refused(kind) => Some(self.refused(kind, head.offset)),
            ChunkCame::OutOfMemory => Some(PageStep::OutOfMemory),
        }
    }

    /// One include more is pending.
    pub(crate) fn add(&mut self, include: Include, chunks: u32) -> Option<PageStep>
        ensures { Adds include chunks result self.old self.new }
    {
        match self.includes.add(include) {
            Ok(()) => {
                self.chunks = chunks;
                None
            }
            Err(_) => Some(PageStep::OutOfMemory),
        }
    }

    /// Into the chunk whose header was read, behind all that it brings.
    pub(crate) fn enter(
        &mut self,
        names: &[Name],
        outlines: &[Option<Arc<Outline>>],
        results: &[Option<FileResult>],
        head: Head,
    ) -> Option<PageStep>
        requires ascending { IsAscending names.now }
        requires few { length names.now < 2 ^ 32 }
        requires places { IsPlaced (length names.now) outlines.now }
        requires before { self.old.stage ≡ Stage.Before head }
        requires held { IsHeld self.old }
        ensures comes { (given : Given) (rest : List ℕ) → IsKnown names.now (known_of (map outline_in outlines.now) results.now) given
            → IsEntering given rest head self.old → ComesTo given rest result self.old self.new }
        ensures fewer { result ≡ None → (self.new.walker ≡ self.old.walker) × (self.new.stage ≡ Stage.Walking) }
        ensures rise { decisions_in self.new ≡ decisions_in self.old }
        ensures home { SameFile self.old self.new }
    {
        match self.resolve_before(names, outlines, results, head) {
            Some(stop) => Some(stop),
            None => self.begin(head),
        }
    }

    /// Resolves the pending includes, where the chunk is one before which they are resolved. Answers what stops this.
    pub(crate) fn resolve_before(
        &mut self,
        names: &[Name],
        outlines: &[Option<Arc<Outline>>],
        results: &[Option<FileResult>],
        head: Head,
    ) -> Option<PageStep>
        requires ascending { IsAscending names.now }
        requires few { length names.now < 2 ^ 32 }
        requires places { IsPlaced (length names.now) outlines.now }
        ensures resolves { (table : List Row) (left : Left) → ResolvesBefore (kind_of head.id)
            (home_of self.old.role table names.now self.old.file) (known_of (map outline_in outlines.now) results.now) left result
            self.old.includes self.new.includes }
        ensures rest { self.new ≡ record self.old { includes = self.new.includes } }
    {
        match ChunkKind::of(head.id) {
            ChunkKind::Dictionary | ChunkKind::Mask => self.resolve(names, outlines, results),
            ChunkKind::Info
            | ChunkKind::Include
            | ChunkKind::Front
            | ChunkKind::Back
            | ChunkKind::Refused
            | ChunkKind::Passed => None,
        }
    }

    /// Resolves the pending includes. Answers what stops this.
    pub(crate) fn resolve(
        &mut self,
        names: &[Name],
        outlines: &[Option<Arc<Outline>>],
        results: &[Option<FileResult>],
    ) -> Option<PageStep>
        requires ascending { IsAscending names.now }
        requires few { length names.now < 2 ^ 32 }
        requires places { IsPlaced (length names.now) outlines.now }
        ensures resolves { (table : List Row) (left : Left) → HasResolved
            (home_of self.old.role table names.now self.old.file) (known_of (map outline_in outlines.now) results.now) left result
            self.old.includes self.new.includes }
        ensures rest { self.new ≡ record self.old { includes = self.new.includes } }
    {
        let resolution = self
            .includes
            .resolve(self.alloc, self.role, names, self.file, outlines, results);
        answer_of(resolution)
    }

    /// Begins the chunk with this header.
    pub(crate) fn begin(&mut self, head: Head) -> Option<PageStep>
        requires { IsReady (kind_of head.id) head.size self.old.kept.layers }
        ensures answer { MayLackMemory result }
        ensures begun { result ≡ None → Begins head self.old self.new }
        ensures rest { result ≢ None → self.new ≡ record self.old { kept = self.new.kept } }
        ensures layers { self.new.kept.layers ≡ self.old.kept.layers }
        ensures home { SameFile self.old self.new }
    {
        let begun = self
            .kept
            .begin(self.alloc, &self.table, self.includes.inherited(), head);
        match begun {
            Ok(opened) => {
                self.chunk = Some(ChunkAtHand { head, opened });
                self.stage = Stage::Walking;
                None
            }
            Err(_) => Some(PageStep::OutOfMemory),
        }
    }
}

/// What is answered where the resolving of includes stops.
fn answer_of(resolution: Resolution) -> Option<PageStep>
    ensures { result ≡ stop_of resolution }
{
    match resolution {
        Resolution::Resolved => None,
        Resolution::NeedOutline(file) => Some(PageStep::NeedOutline(file)),
        Resolution::NeedFile(file) => Some(PageStep::NeedFile(file)),
        Resolution::Refused(fault) => Some(PageStep::Refused(fault)),
        Resolution::OutOfMemory => Some(PageStep::OutOfMemory),
    }
}
