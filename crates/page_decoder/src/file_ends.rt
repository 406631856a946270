//! The reader of a file behind all events of the bytes so far.
ghost use Rattle.std.specs.Prelude.{◌≡◌, ◌<◌, ◌^◌, ℕ, List, length, map, None};
ghost use Rattle.djvu_base.specs.Name.{IsAscending};
ghost use Rattle.iff_chunks.specs.Chunks.{chunks_of};
ghost use Rattle.iff_chunks.specs.Events.{Event, IsOpen};
ghost use Rattle.iff_chunks.specs.Told.{Told};
ghost use Rattle.include_graph.specs.Verdicts.{outline_in};
ghost use Rattle.page_decoder.specs.Given.{Given};
ghost use Rattle.page_decoder.specs.Decoder.{RiseTogether};
ghost use Rattle.page_decoder.specs.Resolving.{IsPlaced, known_of, role_of};
ghost use Rattle.page_decoder.specs.FileReading.{SameFile, Answers, Counts, IsTold, IsPaused, IsClosing, mark_by, decisions_in};
ghost use Rattle.page_decoder.specs.FileSteps.{IsKnown, IsFinishing, IsBehind, Advances, close_by, lacks_info};

use crate::decoder::PageStep;
use crate::file_reader::{FileClose, FileReader, Stage};
use crate::open_chunks::OpenStep;
use crate::roles::Role;
use djvu_base::{FaultKind, FileEnd, Meter, Name};
use iff_chunks::{WalkEnd, WalkStep};
use include_graph::Outline;
use jb2_records::FileResult;
use std::sync::Arc;

impl FileReader {
    /// At the end of the bytes, behind which the file ends so.
    pub(crate) fn at_bytes_end<M: Meter>(
        &mut self,
        names: &[Name],
        outlines: &[Option<Arc<Outline>>],
        results: &[Option<FileResult>],
        end: Option<FileEnd>,
        meter: &mut M,
    ) -> PageStep
        requires ascending { IsAscending names.now }
        requires few { length names.now < 2 ^ 32 }
        requires places { IsPlaced (length names.now) outlines.now }
        ensures answers { (given : Given) (rest taken : List ℕ) → IsKnown names.now (known_of (map outline_in outlines.now) results.now) given
            → given.mark ≡ mark_by end
            → IsTold given rest WalkStep.NeedBytes taken self.old → Answers given rest result self.old self.new }
        ensures rise { RiseTogether (decisions_in self.old) (decisions_in self.new) (M.count meter.old) (M.count meter.new) }
        ensures home { SameFile self.old self.new }
    {
        iff_chunks::laws::layout();
        iff_chunks::laws::order();
        let behind = self.behind_bytes(end);
        self.at_pause(names, outlines, results, behind, meter)
    }

    /// What stands behind all bytes that the walker took, where the file ends so.
    pub(crate) fn behind_bytes(&mut self, end: Option<FileEnd>) -> FileClose
        ensures behind { (bytes : List ℕ) (told : List Event) → Told bytes told self.old.walker → Counts bytes self.old.arrived → IsOpen (chunks_of bytes).tail
            → IsBehind (mark_by end) bytes result }
        ensures rest { self.new ≡ record self.old { walker = self.new.walker } }
        ensures waits { end ≡ None → (result ≡ FileClose.Waits) × (self.new ≡ self.old) }
    {
        iff_chunks::laws::bounds();
        match end {
            None => FileClose::Waits,
            Some(end) => close_of(self.walker.finish(end, self.arrived)),
        }
    }

    /// Behind all events of the file, in front of this.
    pub(crate) fn at_pause<M: Meter>(
        &mut self,
        names: &[Name],
        outlines: &[Option<Arc<Outline>>],
        results: &[Option<FileResult>],
        behind: FileClose,
        meter: &mut M,
    ) -> PageStep
        requires ascending { IsAscending names.now }
        requires few { length names.now < 2 ^ 32 }
        requires places { IsPlaced (length names.now) outlines.now }
        ensures answers { (given : Given) (rest : List ℕ) → IsKnown names.now (known_of (map outline_in outlines.now) results.now) given
            → IsPaused given rest behind self.old → Answers given rest result self.old self.new }
        ensures rise { RiseTogether (decisions_in self.old) (decisions_in self.new) (M.count meter.old) (M.count meter.new) }
        ensures home { SameFile self.old self.new }
    {
        iff_chunks::laws::layout();
        iff_chunks::laws::order();
        jb2_records::laws::more_bytes_go_on();
        iw44_image::laws::layers_grow();
        include_graph::laws::verdicts_stay();
        match self.advance(meter) {
            Some(answer) => answer,
            None => self.at_close(names, outlines, results, behind),
        }
    }

    /// Reads the chunk at hand on, as far as its data go. Answers why it can't be read on.
    pub(crate) fn advance<M: Meter>(&mut self, meter: &mut M) -> Option<PageStep>
        ensures advances { Advances result self.old.file self.old.chunk self.new.chunk }
        ensures rest { self.new ≡ record self.old { chunk = self.new.chunk } }
        ensures rise { RiseTogether (decisions_in self.old) (decisions_in self.new) (M.count meter.old) (M.count meter.new) }
    {
        match &mut self.chunk {
            None => None,
            Some(chunk) => match chunk.opened.advance(meter) {
                OpenStep::NeedBytes => None,
                OpenStep::Refused(kind) => {
                    let offset = chunk.head.offset;
                    Some(self.refused(kind, offset))
                }
                OpenStep::OutOfMemory => Some(PageStep::OutOfMemory),
            },
        }
    }

    /// Behind all acts of the file.
    pub(crate) fn at_close(
        &mut self,
        names: &[Name],
        outlines: &[Option<Arc<Outline>>],
        results: &[Option<FileResult>],
        behind: FileClose,
    ) -> PageStep
        requires ascending { IsAscending names.now }
        requires few { length names.now < 2 ^ 32 }
        requires places { IsPlaced (length names.now) outlines.now }
        ensures answers { (given : Given) (rest : List ℕ) → IsKnown names.now (known_of (map outline_in outlines.now) results.now) given
            → IsClosing given rest behind self.old → Answers given rest result self.old self.new }
        ensures rise { decisions_in self.new ≡ decisions_in self.old }
        ensures home { SameFile self.old self.new }
    {
        match behind {
            FileClose::Waits => PageStep::NeedBytes,
            FileClose::Breaks { kind, offset } => self.refused(kind, offset),
            FileClose::Over => self.at_form_end(names, outlines, results),
        }
    }

    /// Behind the FORM.
    pub(crate) fn at_form_end(
        &mut self,
        names: &[Name],
        outlines: &[Option<Arc<Outline>>],
        results: &[Option<FileResult>],
    ) -> PageStep
        requires ascending { IsAscending names.now }
        requires few { length names.now < 2 ^ 32 }
        requires places { IsPlaced (length names.now) outlines.now }
        ensures answers { (given : Given) (rest : List ℕ) → IsKnown names.now (known_of (map outline_in outlines.now) results.now) given
            → IsClosing given rest FileClose.Over self.old → Answers given rest result self.old self.new }
        ensures rise { decisions_in self.new ≡ decisions_in self.old }
        ensures home { SameFile self.old self.new }
    {
        self.drop_chunk();
        if lacks_info(self.role, self.chunks) {
            return self.refused(FaultKind::NoInfo, self.origin);
        }
        self.stage = Stage::AtEnd;
        self.finish(names, outlines, results)
    }

    /// Leaves the chunk at hand, whose decisions count.
    pub(crate) fn drop_chunk(&mut self)
        ensures { self.new ≡ record self.old { chunk = None; decisions = decisions_in self.old } }
    {
        if let Some(chunk) = self.chunk.take() {
            self.decisions = self.decisions.saturating_add(chunk.opened.decisions());
        }
    }

    /// Resolves the includes that are pending at the FORM's end.
    pub(crate) fn finish(
        &mut self,
        names: &[Name],
        outlines: &[Option<Arc<Outline>>],
        results: &[Option<FileResult>],
    ) -> PageStep
        requires ascending { IsAscending names.now }
        requires few { length names.now < 2 ^ 32 }
        requires places { IsPlaced (length names.now) outlines.now }
        ensures answers { (given : Given) (rest : List ℕ) → IsKnown names.now (known_of (map outline_in outlines.now) results.now) given
            → IsFinishing given rest self.old → Answers given rest result self.old self.new }
        ensures rise { decisions_in self.new ≡ decisions_in self.old }
        ensures home { SameFile self.old self.new }
    {
        match self.resolve(names, outlines, results) {
            None => PageStep::Finished,
            Some(stop) => stop,
        }
    }
}

/// A page has a chunk.
fn lacks_info(role: Role, chunks: u32) -> bool
    ensures { result ≡ lacks_info (role_of role) chunks }
{
    match role {
        Role::Page => chunks == 0,
        Role::Included => false,
    }
}

/// What stands behind all bytes of a file that ends so.
fn close_of(end: WalkEnd) -> FileClose
    ensures { result ≡ close_by end }
{
    match end {
        WalkEnd::FormEnd => FileClose::Over,
        WalkEnd::Broken { kind, offset } => FileClose::Breaks { kind, offset },
    }
}
