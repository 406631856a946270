//! The reader of a file at the events that the file's walker tells.
ghost use Rattle.std.specs.Prelude.{◌≡◌, ◌-◌, ◌<◌, ◌≤◌, ◌^◌, ℕ, List, length, drop, map, false, None, IsSome};
ghost use Rattle.djvu_base.specs.Name.{IsAscending};
ghost use Rattle.iff_chunks.specs.Events.{is_event};
ghost use Rattle.include_graph.specs.Verdicts.{outline_in, fault_at};
ghost use Rattle.page_decoder.specs.Given.{Given};
ghost use Rattle.page_decoder.specs.PageRead.{Left};
ghost use Rattle.page_decoder.specs.Headers.{form_fault, header_fault};
ghost use Rattle.page_decoder.specs.Decoder.{RiseTogether};
ghost use Rattle.page_decoder.specs.Resolving.{IsPlaced, known_of, role_of};
ghost use Rattle.page_decoder.specs.FileReading.{SameFile, IsLike, Stands, IsGiven, IsTold, ComesTo, mark_by, decisions_in, left_over, stage_left};
ghost use Rattle.page_decoder.specs.FileSteps.{IsKnown, AtHeader, MayLackMemory, TakesData, fault_answer, origin_so, origin_with, counted_with};

use crate::decoder::PageStep;
use crate::file_reader::{FileClose, FileReader, Stage};
use crate::headers::{Head, form_fault, header_fault};
use djvu_base::{Fault, FaultKind, FileEnd, Meter, Name, Place};
use iff_chunks::{WalkStep, first};
use include_graph::Outline;
use jb2_records::FileResult;
use std::sync::Arc;

impl FileReader {
    /// Up to the next event of the file.
    pub(crate) fn walk<M: Meter>(
        &mut self,
        names: &[Name],
        outlines: &[Option<Arc<Outline>>],
        results: &[Option<FileResult>],
        rest: &[u8],
        end: Option<FileEnd>,
        meter: &mut M,
    ) -> (usize, Option<PageStep>)
        requires ascending { IsAscending names.now }
        requires few { length names.now < 2 ^ 32 }
        requires places { IsPlaced (length names.now) outlines.now }
        requires walking { self.old.stage ≡ Stage.Walking }
        ensures comes { (before given : Given) → IsGiven names.now (map outline_in outlines.now) results.now rest.now end before given
            → Stands before self.old → ComesTo given (drop result.0 rest.now) result.1 self.old self.new }
        ensures within { result.0 ≤ length rest.now }
        ensures fewer { result.1 ≡ None → left_over self.new (length rest.now - result.0) < left_over self.old (length rest.now) }
        ensures rise { RiseTogether (decisions_in self.old) (decisions_in self.new) (M.count meter.old) (M.count meter.new) }
        ensures home { SameFile self.old self.new }
    {
        jb2_records::laws::more_bytes_go_on();
        iw44_image::laws::layers_grow();
        include_graph::laws::verdicts_stay();
        let (used, event) = self.walker.feed(rest);
        let taken = first(rest, used);
        self.count(taken);
        let answer = self.at_event(names, outlines, results, event, taken, end, meter);
        (used, answer)
    }

    /// Counts bytes that the walker took.
    pub(crate) fn count(&mut self, taken: &[u8])
        ensures { self.new ≡ record self.old {
          origin = origin_with self.old.arrived taken.now self.old.origin;
          arrived = counted_with self.old.arrived taken.now;
        } }
    {
        if self.arrived == 0 {
            self.origin = origin_behind(self.origin, taken);
        }
        self.arrived = counted(self.arrived, taken);
    }

    /// At an answer of the walker, for which it took these bytes.
    pub(crate) fn at_event<M: Meter>(
        &mut self,
        names: &[Name],
        outlines: &[Option<Arc<Outline>>],
        results: &[Option<FileResult>],
        event: WalkStep,
        taken: &[u8],
        end: Option<FileEnd>,
        meter: &mut M,
    ) -> Option<PageStep>
        requires ascending { IsAscending names.now }
        requires few { length names.now < 2 ^ 32 }
        requires places { IsPlaced (length names.now) outlines.now }
        ensures comes { (given : Given) (rest : List ℕ) → IsKnown names.now (known_of (map outline_in outlines.now) results.now) given
            → given.mark ≡ mark_by end
            → IsTold given rest event taken.now self.old → ComesTo given rest result self.old self.new }
        ensures fewer { result ≡ None → (self.new.walker ≡ self.old.walker) × (stage_left self.new.stage ≤ 1) }
        ensures events { is_event event ≡ false → IsSome result }
        ensures rise { RiseTogether (decisions_in self.old) (decisions_in self.new) (M.count meter.old) (M.count meter.new) }
        ensures home { SameFile self.old self.new }
    {
        iff_chunks::laws::layout();
        iff_chunks::laws::order();
        iff_chunks::laws::never_cut();
        jb2_records::laws::more_bytes_go_on();
        iw44_image::laws::layers_grow();
        include_graph::laws::verdicts_stay();
        match event {
            WalkStep::Form { kind, .. } => self.at_form(kind),
            WalkStep::Header { id, offset, length } => self.at_header(Head {
                id,
                offset,
                size: length,
            }),
            WalkStep::Data => self.at_data(taken),
            WalkStep::ChunkEnd => self.at_chunk_end(meter),
            WalkStep::NeedBytes => Some(self.at_bytes_end(names, outlines, results, end, meter)),
            WalkStep::FormEnd => Some(self.at_pause(
                names,
                outlines,
                results,
                FileClose::Over,
                meter,
            )),
            WalkStep::Broken { kind, offset } => Some(self.at_pause(
                names,
                outlines,
                results,
                FileClose::Breaks { kind, offset },
                meter,
            )),
        }
    }

    /// The answer of a fault of this file at this offset.
    pub(crate) fn refused(&self, kind: FaultKind, offset: u32) -> PageStep
        ensures { result ≡ PageStep.Refused (fault_at kind self.now.file offset) }
    {
        PageStep::Refused(Fault {
            kind,
            place: Place {
                file: self.file,
                offset,
            },
        })
    }

    /// At the FORM's kind.
    pub(crate) fn at_form(&self, kind: [u8; 4]) -> Option<PageStep>
        ensures { result ≡ fault_answer self.now.file 0 (form_fault (role_of self.now.role) kind) }
    {
        match form_fault(self.role, kind) {
            Some(kind) => Some(self.refused(kind, 0)),
            None => None,
        }
    }

    /// At the header of a chunk.
    pub(crate) fn at_header(&mut self, head: Head) -> Option<PageStep>
        ensures judged { (left : Left) → self.old.chunks ≡ left.chunks → IsLike left.decoded self.old.kept
            → AtHeader (header_fault (role_of self.old.role) left head) head result self.old self.new }
        ensures walker { self.new.walker ≡ self.old.walker }
        ensures stage { result ≡ None → self.new.stage ≡ Stage.Before head }
        ensures rise { decisions_in self.new ≡ decisions_in self.old }
        ensures home { SameFile self.old self.new }
    {
        match header_fault(self.role, self.chunks, &self.kept, head) {
            Some(kind) => Some(self.refused(kind, head.offset)),
            None => {
                self.stage = Stage::Before(head);
                None
            }
        }
    }

    /// At data of the chunk at hand.
    pub(crate) fn at_data(&mut self, taken: &[u8]) -> Option<PageStep>
        ensures answer { MayLackMemory result }
        ensures rest { self.new ≡ record self.old { chunk = self.new.chunk } }
        ensures chunk { result ≡ None → TakesData taken.now self.old.chunk self.new.chunk }
        ensures rise { decisions_in self.new ≡ decisions_in self.old }
    {
        match &mut self.chunk {
            None => None,
            Some(chunk) => match chunk.opened.push(taken) {
                Ok(()) => None,
                Err(_) => Some(PageStep::OutOfMemory),
            },
        }
    }
}

/// Where the FORM's first chunk may begin, in a file that begins with these bytes.
fn origin_behind(origin: u32, bytes: &[u8]) -> u32
    ensures { result ≡ origin_so origin bytes.now }
{
    match bytes {
        [] => origin,
        [b'A', ..] => 16,
        _ => 12,
    }
}

/// How many bytes came with these, where so many came before.
fn counted(arrived: u32, taken: &[u8]) -> u32
    ensures { result ≡ counted_with arrived taken.now }
{
    match u32::try_from(taken.len()) {
        Ok(count) => arrived.saturating_add(count),
        Err(_) => u32::MAX,
    }
}
