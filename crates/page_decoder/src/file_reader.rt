//! The reader of a file, as a page or as an included file: it goes on over the file's bytes, piece by piece, up to the next drawing
//! or to where the reading stands, and keeps none of them but those that its walker and the chunk at hand keep.
ghost use Rattle.std.specs.Prelude.{◌≡◌, ◌-◌, ◌<◌, ◌≤◌, ◌^◌, ℕ, List, [], length, drop, map, None};
ghost use Rattle.std.specs.Arc.{arc_value};
ghost use Rattle.djvu_base.specs.Name.{IsAscending};
ghost use Rattle.djvu_base.specs.Library as library;
ghost use Rattle.include_graph.specs.Verdicts.{outline_in};
ghost use Rattle.page_decoder.specs.Given.{Given, Known};
ghost use Rattle.page_decoder.specs.PageRead.{or_else};
ghost use Rattle.page_decoder.specs.Found.{CanDrawLast};
ghost use Rattle.page_decoder.specs.Decoder.{RiseTogether};
ghost use Rattle.page_decoder.specs.Resolving.{IsPlaced, home_of};
ghost use Rattle.page_decoder.specs.FileReading.{SameFile, Stands, IsReady, IsGiven, Answers, ComesTo, decisions_in, dictionary_in, left_over};
ghost use Rattle.page_decoder.specs.FileSteps.{IsHeld};

use crate::decoder::PageStep;
use crate::headers::Head;
use crate::kept::Kept;
use crate::open_chunks::Open;
use crate::resolving::Includes;
use crate::roles::Role;
use djvu_base::{FaultKind, FileEnd, Meter, Name};
use iff_chunks::{Walker, rest_of};
use include_graph::Outline;
use jb2_records::{FileResult, SharedDictionary};
use layer_compose::Layers;
use std::alloc::Global;
use std::sync::Arc;
use zp_table::Table;

/// Where the reading of a file stands.
#[derive(Clone, Copy, Debug, PartialEq, Eq)]
pub(crate) enum Stage {
    /// In front of the next event of the file: within the chunk at hand, if there is one.
    Walking,
    /// Behind the header of a chunk: what it brings comes before its data.
    Before(Head),
    /// Behind the FORM's end: the pending includes are all that is left.
    AtEnd,
}

/// A chunk whose data are arriving.
#[derive(Drop)]
pub(crate) struct ChunkAtHand {
    pub head: Head,
    pub opened: Open,
}

/// What stands behind the events of a file.
#[derive(Clone, Copy, Debug, PartialEq, Eq)]
pub(crate) enum FileClose {
    /// More bytes may come.
    Waits,
    /// The file can't be read on: why, and at which offset.
    Breaks { kind: FaultKind, offset: u32 },
    /// The FORM has ended.
    Over,
}

/// Reads a file whose bytes come piece by piece.
#[derive(Drop)]
pub(crate) struct FileReader {
    pub alloc: Global,
    pub role: Role,
    pub table: Arc<Table>,
    /// The file's number among the folder's names.
    pub file: u32,
    pub walker: Walker,
    /// How many bytes the walker took.
    pub arrived: u32,
    /// Where the first chunk of the FORM may begin.
    pub origin: u32,
    pub stage: Stage,
    pub chunk: Option<ChunkAtHand>,
    pub kept: Kept,
    pub includes: Includes,
    /// How many chunks are complete, and how many of them brought a drawing.
    pub chunks: u32,
    pub drawn: u32,
    /// The decisions of the chunks before the one at hand.
    pub decisions: u64,
}

impl FileReader {
    /// The reader of a file with this number, of which no byte came.
    pub(crate) fn new(alloc: Global, role: Role, table: Arc<Table>, file: u32) -> FileReader
        ensures stands { (names : List (List ℕ)) (known : Known) →
            Stands (record { home = home_of role (arc_value table) names file; known = known; bytes = []; mark = library.Open }) result }
        ensures drawn { result.drawn ≡ 0 }
        ensures decisions { decisions_in result ≡ 0 }
        ensures layers { result.kept.layers ≡ None }
    {
        table.len();
        FileReader {
            alloc,
            role,
            table,
            file,
            walker: Walker::new(),
            arrived: 0,
            origin: 12,
            stage: Stage::Walking,
            chunk: None,
            kept: Kept::new(),
            includes: Includes::new(alloc),
            chunks: 0,
            drawn: 0,
            decisions: 0,
        }
    }

    /// Reads on, where these names, outlines and results are known, over the next bytes of the file, behind which it ends so.
    /// Answers how many bytes it used, and what it came to. The rest is to be given again.
    pub(crate) fn run<M: Meter>(
        &mut self,
        names: &[Name],
        outlines: &[Option<Arc<Outline>>],
        results: &[Option<FileResult>],
        piece: &[u8],
        end: Option<FileEnd>,
        meter: &mut M,
    ) -> (usize, PageStep)
        requires ascending { IsAscending names.now }
        requires few { length names.now < 2 ^ 32 }
        requires places { IsPlaced (length names.now) outlines.now }
        requires ready { IsReady names.now (map outline_in outlines.now) results.now piece.now end self.old }
        ensures answers { (before given : Given) → IsGiven names.now (map outline_in outlines.now) results.now piece.now end before given
            → Stands before self.old → Answers given (drop result.0 piece.now) result.1 self.old self.new }
        ensures within { result.0 ≤ length piece.now }
        ensures rise { RiseTogether (decisions_in self.old) (decisions_in self.new) (M.count meter.old) (M.count meter.new) }
        ensures home { SameFile self.old self.new }
    {
        jb2_records::laws::more_bytes_go_on();
        iw44_image::laws::layers_grow();
        include_graph::laws::verdicts_stay();
        let mut rest = piece;
        'events: loop {
            let (used, answer) = self.go_on(names, outlines, results, rest, end, meter);
            rest = rest_of(rest, used);
            if let Some(answer) = answer {
                return (piece.len() - rest.len(), answer);
            }
        }
    }

    /// One step further: up to the next event of the file, or into the chunk whose header was read. Answers where the reading stops.
    fn go_on<M: Meter>(
        &mut self,
        names: &[Name],
        outlines: &[Option<Arc<Outline>>],
        results: &[Option<FileResult>],
        rest: &[u8],
        end: Option<FileEnd>,
        meter: &mut M,
    ) -> (usize, Option<PageStep>)
        requires ascending { IsAscending names.now }
        requires few { length names.now < 2 ^ 32 }
        requires places { IsPlaced (length names.now) outlines.now }
        requires held { IsHeld self.old }
        ensures comes { (before given : Given) → IsGiven names.now (map outline_in outlines.now) results.now rest.now end before given
            → Stands before self.old → ComesTo given (drop result.0 rest.now) result.1 self.old self.new }
        ensures within { result.0 ≤ length rest.now }
        ensures fewer { result.1 ≡ None → left_over self.new (length rest.now - result.0) < left_over self.old (length rest.now) }
        ensures rise { RiseTogether (decisions_in self.old) (decisions_in self.new) (M.count meter.old) (M.count meter.new) }
        ensures home { SameFile self.old self.new }
    {
        jb2_records::laws::more_bytes_go_on();
        iw44_image::laws::layers_grow();
        include_graph::laws::verdicts_stay();
        match self.stage {
            Stage::Walking => self.walk(names, outlines, results, rest, end, meter),
            Stage::Before(head) => (0, self.enter(names, outlines, results, head)),
            Stage::AtEnd => (0, Some(self.finish(names, outlines, results))),
        }
    }

    /// The decisions of the file's own chunks that were read.
    pub(crate) fn decisions(&self) -> u64
        ensures { result ≡ decisions_in self.now }
    {
        match &self.chunk {
            None => self.decisions,
            Some(chunk) => self.decisions.saturating_add(chunk.opened.decisions()),
        }
    }

    /// The layers of the last drawing.
    pub(crate) fn layers(&self) -> &Option<Layers>
        ensures layers { result.now ≡ self.now.kept.layers }
        ensures drawable { CanDrawLast result.now }
    {
        self.kept.layers()
    }

    /// The layers of the last drawing, handed out.
    pub(crate) fn into_layers(self) -> Option<Layers>
        ensures layers { result ≡ self.kept.layers }
        ensures drawable { CanDrawLast result }
    {
        self.kept.into_layers()
    }

    /// The dictionary that the file gives: its own, or else the first one of its includes.
    pub(crate) fn dictionary(&self) -> &Option<SharedDictionary>
        ensures { result.now ≡ dictionary_in self.now }
    {
        either(self.kept.dictionary(), self.includes.inherited())
    }
}

/// The first of two dictionaries that is there.
fn either<'a>(
    own: &'a Option<SharedDictionary>,
    inherited: &'a Option<SharedDictionary>,
) -> &'a Option<SharedDictionary>
    ensures { result.now ≡ or_else own.now inherited.now }
{
    match own {
        Some(_) => own,
        None => inherited,
    }
}
