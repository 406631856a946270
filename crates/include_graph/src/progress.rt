//! How far the reading of an outline came, by the events that a walker told.
ghost use Rattle.std.specs.Prelude.{◌≡◌, ℕ, [], IfOk, if◌then◌else◌};
ghost use Rattle.iff_chunks.specs.Events.{Begun, Header, Data, ChunkEnd};
ghost use Rattle.include_graph.specs.Included.{is_include};
ghost use Rattle.include_graph.specs.Reading.{Passing, InInclude, at_start, after_event, after_step, with_fault, is_known};
ghost use Rattle.include_graph.specs.Fed.{place_of, progress_of};

use crate::included::{chunk_fault, include_name, is_dictionary, is_include, kind_fault};
use crate::outline::OutlineItem;
use djvu_base::FaultKind;
use iff_chunks::WalkStep;
use std::alloc::{AllocError, Global};

/// Where the reading of an outline stands.
#[derive(Debug, Drop)]
pub(crate) enum Place {
    /// In no chunk, or in one that isn't an include.
    Passing,
    /// In an `INCL` at this offset, with the data of it that arrived.
    InInclude { offset: u32, bytes: Vec<u8> },
    /// Behind the last item.
    Known,
}

/// The items that were read, and where the reading stands.
#[derive(Debug, Drop)]
pub(crate) struct Progress {
    pub place: Place,
    pub has_dictionary: bool,
    pub items: Vec<OutlineItem>,
}

impl Progress {
    /// Nothing was read.
    pub(crate) fn new(alloc: Global) -> Progress
        ensures { progress_of result ≡ at_start }
    {
        Progress {
            place: Place::Passing,
            has_dictionary: false,
            items: Vec::new(alloc),
        }
    }

    /// Whether no item can come any more.
    pub(crate) fn is_known(&self) -> bool
        ensures { result ≡ is_known (progress_of self.now).place }
    {
        matches!(self.place, Place::Known)
    }

    /// Goes on with an answer of the walker, for which it used these bytes.
    pub(crate) fn apply(
        &mut self,
        alloc: Global,
        step: WalkStep,
        used: &[u8],
    ) -> Result<(), AllocError>
        ensures { IfOk result (λ done. progress_of self.new ≡ after_step (progress_of self.old) step used.now) }
    {
        match step {
            WalkStep::Form { kind, .. } => self.at_form(kind),
            WalkStep::Header { id, offset, .. } => self.at_header(alloc, id, offset),
            WalkStep::Data => self.at_data(used),
            WalkStep::ChunkEnd => self.at_chunk_end(alloc),
            WalkStep::NeedBytes => Ok(()),
            WalkStep::FormEnd => Ok(()),
            WalkStep::Broken { .. } => Ok(()),
        }
    }

    /// The FORM's kind is there.
    fn at_form(&mut self, kind: [u8; 4]) -> Result<(), AllocError>
        ensures { IfOk result (λ done. (size : ℕ) → progress_of self.new ≡ after_event (progress_of self.old) (Begun kind size)) }
    {
        if !matches!(self.place, Place::Passing) {
            return Ok(());
        }
        match kind_fault(kind) {
            Some(fault) => self.refuse(fault, 0),
            None => Ok(()),
        }
    }

    /// A chunk's header is there.
    fn at_header(&mut self, alloc: Global, id: [u8; 4], offset: u32) -> Result<(), AllocError>
        ensures { IfOk result (λ done. (size : ℕ) → progress_of self.new ≡ after_event (progress_of self.old) (Header id offset size)) }
    {
        if !matches!(self.place, Place::Passing) {
            return Ok(());
        }
        match chunk_fault(self.has_dictionary, id) {
            Some(fault) => self.refuse(fault, offset),
            None => {
                self.place = opened(alloc, id, offset);
                self.has_dictionary = self.has_dictionary || is_dictionary(id);
                Ok(())
            }
        }
    }

    /// Data of the chunk arrived.
    fn at_data(&mut self, used: &[u8]) -> Result<(), AllocError>
        ensures { IfOk result (λ done. progress_of self.new ≡ after_event (progress_of self.old) (Data used.now)) }
    {
        match &mut self.place {
            Place::InInclude { bytes, .. } => bytes.extend_from_slice(used),
            Place::Passing => Ok(()),
            Place::Known => Ok(()),
        }
    }

    /// All data of the chunk arrived.
    fn at_chunk_end(&mut self, alloc: Global) -> Result<(), AllocError>
        ensures { IfOk result (λ done. progress_of self.new ≡ after_event (progress_of self.old) ChunkEnd) }
    {
        let Place::InInclude { offset, bytes } = &self.place else {
            return Ok(());
        };
        let offset = *offset;
        match include_name(alloc, bytes.as_slice())? {
            Some(name) => {
                self.items.push(OutlineItem::Include { name, offset })?;
                self.place = Place::Passing;
                Ok(())
            }
            None => self.refuse(FaultKind::BadIncludeName, offset),
        }
    }

    /// The file has a fault of form, and no item comes after it.
    pub(crate) fn refuse(&mut self, kind: FaultKind, offset: u32) -> Result<(), AllocError>
        ensures { IfOk result (λ done. progress_of self.new ≡ with_fault kind offset (progress_of self.old)) }
    {
        self.items.push(OutlineItem::Broken { kind, offset })?;
        self.place = Place::Known;
        Ok(())
    }
}

/// Behind the header of a chunk.
fn opened(alloc: Global, id: [u8; 4], offset: u32) -> Place
    ensures { place_of result ≡ (if is_include id then InInclude offset [] else Passing) }
{
    if is_include(id) {
        Place::InInclude {
            offset,
            bytes: Vec::new(alloc),
        }
    } else {
        Place::Passing
    }
}
