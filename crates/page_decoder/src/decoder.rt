//! The decoder of a page, which is fed its bytes piece by piece and given what it asks for of other files.
ghost use Rattle.std.specs.Prelude.{◌≡◌, ◌≢◌, ◌≤◌, ◌<◌, ◌^◌, ◌++◌, ℕ, List, [], length, take, true, false, Option, Some, None, IsErr, OnOk, OnErr, MatchOption, ⊤};
ghost use Rattle.std.specs.Arc.{arc_value};
ghost use Rattle.djvu_base.specs.Name.{IsAscending};
ghost use Rattle.djvu_base.specs.Library.{Open, mark_of};
ghost use Rattle.djvu_base.specs.Meter.{ticked, TicksExactly};
ghost use Rattle.page_decoder.specs.Given.{Page, Known, Given};
ghost use Rattle.page_decoder.specs.PageRead.{Ending, NeedOutline, NeedFile};
ghost use Rattle.page_decoder.specs.Read.{read};
ghost use Rattle.page_decoder.specs.Resolving.{result_in};
ghost use Rattle.page_decoder.specs.Found.{CanDraw, CanDrawLast};
ghost use Rattle.page_decoder.specs.Decoder.{next_entry, answer_at, answer_to, decisions_to, drawn_with, end_with, without_bytes, RiseTogether, KnowsNothing, KnowsOutline, KnowsResult, Shows};
ghost use Rattle.page_decoder.specs.PageFed.{Fed, StaysSo, standing_without, standing_after, standing_at};

use crate::file_reader::FileReader;
use crate::other_files::OtherFiles;
use crate::roles::Role;
use crate::unread::Unread;
use djvu_base::{Fault, FileEnd, Items, Meter, Name, Notice};
use include_graph::Outline;
use jb2_records::FileResult;
use layer_compose::Layers;
use std::alloc::{AllocError, Global};
use std::marker::Model;
use std::sync::Arc;
use zp_table::Table;

/// What the decoder of a page answers.
#[derive(Debug, Drop)]
pub enum PageStep {
    /// A chunk is complete, and its drawing is the next one.
    Drew(Notice),
    /// The bytes so far don't determine the next decision, header, end of a chunk or end of the FORM.
    NeedBytes,
    /// An include of the page is resolved, and the outline of the file with this number wasn't given.
    NeedOutline(u32),
    /// An include of the page is resolved, and what the file with this number gives wasn't given.
    NeedFile(u32),
    /// The FORM ended, and every include was resolved. It is answered from then on.
    Finished,
    /// The page's first fault. It is answered from then on.
    Refused(Fault),
    /// There was no memory, in this call or an earlier one, or for a file that was given. It is answered from then on.
    OutOfMemory,
}

/// Where a page stands.
#[derive(Clone, Copy, Debug, PartialEq, Eq)]
pub(crate) enum Standing {
    /// The reading goes on over what came since the last answer.
    Going,
    /// The answer that is given again, until something comes that may lift it.
    NeedBytes,
    NeedOutline(u32),
    NeedFile(u32),
    /// The answer that is given from then on.
    Finished,
    Refused(Fault),
    Failed,
}

/// Reads a page whose bytes come piece by piece. It keeps those that it hasn't used yet, and what was given of other files.
///
/// Contracts speak of it by `Fed given decoder`: it was fed these bytes and told this of their end, and these outlines and results
/// were given. What it answers is what the reading of that tells, entry by entry. `stands` is the end at which the page stands,
/// `drawn` how many notices were drawn, and `failed` says that there was no memory.
#[derive(Drop)]
pub struct PageDecoder {
    names: Arc<Items<Name>>,
    reader: FileReader,
    others: OtherFiles,
    unread: Unread,
    end: Option<FileEnd>,
    standing: Standing,
}

impl Model for PageDecoder {
    ghost use Rattle.std.specs.Arc.{arc_value};
    ghost use Rattle.page_decoder.specs.PageFed.{Decoding, IsDecoder, decoding_of};

    ghost Value = { Decoding };

    ghost view = { λ a. decoding_of (record {
      names = arc_value a.names;
      reader = a.reader;
      others = a.others;
      unread = a.unread;
      end = a.end;
      standing = a.standing;
    }) };

    ghost invariant = { λ a. IsDecoder (record {
      names = arc_value a.names;
      reader = a.reader;
      others = a.others;
      unread = a.unread;
      end = a.end;
      standing = a.standing;
    }) };
}

impl PageDecoder {
    /// The decoder of the page with this number among a folder's names, which ascend. Takes no memory.
    #[tactic(auto, unfolding(crate::specs::PageFed::Fed))]
    pub fn new(alloc: Global, table: Arc<Table>, names: Arc<Items<Name>>, file: u32) -> PageDecoder
        requires ascending { IsAscending (arc_value names) }
        requires few { length (arc_value names) < 2 ^ 32 }
        ensures fed { (known : Known) → KnowsNothing known → Fed (record {
          home = record { role = Page; table = arc_value table; names = arc_value names; file = file };
          known = known;
          bytes = [];
          mark = Open;
        }) result }
        ensures home { result.home ≡ record { role = Page; table = arc_value table; names = arc_value names; file = file } }
        ensures mark { result.mark ≡ Open }
        ensures drawn { result.drawn ≡ 0 }
        ensures decisions { result.decisions ≡ 0 }
        ensures layers { result.layers ≡ None }
        ensures stands { result.stands ≡ None }
        ensures failed { result.failed ≡ false }
    {
        let count = names.slice().len();
        PageDecoder {
            names,
            reader: FileReader::new(alloc, Role::Page, table, file),
            others: OtherFiles::new(alloc, count),
            unread: Unread::new(alloc),
            end: None,
            standing: Standing::Going,
        }
    }

    /// The next bytes of the page's file, whose end wasn't told. They are kept until they are used, but none behind the page's end.
    /// Where there is no memory for them, the page has failed; a page that has failed answers so again.
    #[tactic(auto, unfolding(crate::specs::PageFed::Fed))]
    pub fn feed(&mut self, piece: &[u8]) -> Result<(), AllocError>
        requires { self.old.mark ≡ Open }
        ensures fed { (given : Given) → Fed given self.old → Fed (record given { bytes = given.bytes ++ piece.now }) self.new }
        ensures ok { OnOk result ((self.new.failed ≡ false) × (self.new.stands ≡ without_bytes self.old.stands)) }
        ensures err { OnErr result (self.new.failed ≡ true) }
        ensures failed { self.old.failed ≡ true → IsErr result }
        ensures mark { self.new.mark ≡ Open }
        ensures to_ask { self.new.to_ask ≡ self.old.to_ask }
        ensures stays { StaysSo self.old self.new }
    {
        crate::page_laws::growth();
        crate::page_laws::needs();
        match self.standing {
            Standing::Failed => Err(AllocError),
            Standing::Finished | Standing::Refused(_) => Ok(()),
            Standing::Going
            | Standing::NeedBytes
            | Standing::NeedOutline(_)
            | Standing::NeedFile(_) => self.keep(piece),
        }
    }

    /// Keeps bytes, where there was memory so far.
    #[tactic(auto, unfolding(crate::specs::PageFed::Fed))]
    fn keep(&mut self, piece: &[u8]) -> Result<(), AllocError>
        requires open { self.old.mark ≡ Open }
        requires going { self.old.failed ≡ false }
        ensures fed { (given : Given) → Fed given self.old → Fed (record given { bytes = given.bytes ++ piece.now }) self.new }
        ensures ok { OnOk result ((self.new.failed ≡ false) × (self.new.stands ≡ without_bytes self.old.stands)) }
        ensures err { OnErr result (self.new.failed ≡ true) }
        ensures mark { self.new.mark ≡ Open }
        ensures to_ask { self.new.to_ask ≡ self.old.to_ask }
        ensures stays { StaysSo self.old self.new }
    {
        crate::page_laws::growth();
        crate::page_laws::needs();
        match self.unread.push(piece) {
            Ok(()) => {
                self.standing = self.standing.without_bytes();
                Ok(())
            }
            Err(error) => {
                self.standing = Standing::Failed;
                Err(error)
            }
        }
    }

    /// No more bytes come, and the file ends so. A further call changes nothing. Takes no memory.
    #[tactic(auto, unfolding(crate::specs::PageFed::Fed))]
    pub fn end(&mut self, end: FileEnd)
        ensures fed { self.old.mark ≡ Open → (given : Given) → Fed given self.old → Fed (record given { mark = mark_of end }) self.new }
        ensures mark { self.old.mark ≡ Open → self.new.mark ≡ mark_of end }
        ensures stands { self.old.mark ≡ Open → self.new.stands ≡ without_bytes self.old.stands }
        ensures failed { self.new.failed ≡ self.old.failed }
        ensures to_ask { self.new.to_ask ≡ self.old.to_ask }
        ensures stays { StaysSo self.old self.new }
        ensures again { self.old.mark ≢ Open → self.new ≡ self.old }
    {
        crate::page_laws::growth();
        crate::page_laws::needs();
        if self.end.is_none() {
            self.end = Some(end);
            self.standing = self.standing.without_bytes();
        }
    }

    /// The outline of a file, for which the page asked. Where there is no memory for it, the page has failed.
    #[tactic(auto, unfolding(crate::specs::PageFed::Fed))]
    pub fn give_outline(&mut self, file: u32, outline: Arc<Outline>) -> Result<(), AllocError>
        requires { self.old.stands ≡ Some (NeedOutline file) }
        ensures fed { (given : Given) (known : Known) → KnowsOutline file (arc_value outline) given.known known → Fed given self.old
            → Fed (record given { known = known }) self.new }
        ensures ok { OnOk result ((self.new.failed ≡ false) × (self.new.stands ≡ None)) }
        ensures err { OnErr result (self.new.failed ≡ true) }
        ensures mark { self.new.mark ≡ self.old.mark }
        ensures to_ask { OnOk result (self.new.to_ask < self.old.to_ask) }
        ensures stays { StaysSo self.old self.new }
    {
        crate::page_laws::growth();
        crate::page_laws::needs();
        let given = self.others.give_outline(file, outline);
        self.standing = standing_after(&given);
        given
    }

    /// What a file gives, for which the page asked. Where there is no memory for it, the page has failed; where there was none for the
    /// file's decoding, it fails with the next step.
    #[tactic(auto, unfolding(crate::specs::PageFed::Fed))]
    pub fn give_file(&mut self, file: u32, gift: FileResult) -> Result<(), AllocError>
        requires { self.old.stands ≡ Some (NeedFile file) }
        ensures fed { (given : Given) (known : Known) → KnowsResult file (result_in gift) given.known known → Fed given self.old
            → Fed (record given { known = known }) self.new }
        ensures ok { OnOk result ((self.new.failed ≡ false) × (self.new.stands ≡ None)) }
        ensures err { OnErr result (self.new.failed ≡ true) }
        ensures mark { self.new.mark ≡ self.old.mark }
        ensures to_ask { OnOk result (gift ≢ FileResult.NoMemory → self.new.to_ask < self.old.to_ask) }
        ensures stays { StaysSo self.old self.new }
    {
        crate::page_laws::growth();
        crate::page_laws::needs();
        let given = self.others.give_file(file, gift);
        self.standing = standing_after(&given);
        given
    }

    /// Goes on to the next entry of the page's reading: the next drawing, or behind all drawings what the reading stands at. A need is
    /// answered again at no cost, until something comes that may lift it.
    #[tactic(auto, unfolding(crate::specs::PageFed::Fed))]
    pub fn step<M: Meter>(&mut self, meter: &mut M) -> PageStep
        // For all that was fed and given, the next entry of its reading, and the decisions up to it.
        ensures answer { (given : Given) → Fed given self.old → result ≢ PageStep.OutOfMemory →
            result ≡ answer_to (next_entry (read given) self.old.drawn) }
        ensures decisions { (given : Given) → Fed given self.old → result ≢ PageStep.OutOfMemory →
            TicksExactly (decisions_to (next_entry (read given) self.old.drawn) (read given)) 0 self.new.decisions }
        // Whatever is answered, decisions are at most the reading's, and the layers are those of the last drawing that was told.
        ensures at_most { (given : Given) → Fed given self.old → self.new.decisions ≤ ticked (read given).left.told.decisions 0 }
        ensures shows { (given : Given) → Fed given self.old → Shows self.new.layers self.new.drawn (read given).left.told }
        ensures fed { (given : Given) → Fed given self.old → Fed given self.new }

        // The meter rises by as much as the decisions do.
        ensures rise { RiseTogether self.old.decisions self.new.decisions (M.count meter.old) (M.count meter.new) }

        // What stands then, and what is answered again.
        ensures drawn { self.new.drawn ≡ drawn_with result self.old.drawn }
        ensures stands { self.new.stands ≡ end_with result }
        ensures failed { result ≡ PageStep.OutOfMemory → self.new.failed ≡ true }
        ensures going { result ≢ PageStep.OutOfMemory → self.new.failed ≡ false }
        ensures again { (end : Ending) → self.old.stands ≡ Some end →
            (result ≡ answer_at end) × (self.new ≡ self.old) × (M.count meter.new ≡ M.count meter.old) }
        ensures failed_again { self.old.failed ≡ true →
            (result ≡ PageStep.OutOfMemory) × (self.new ≡ self.old) × (M.count meter.new ≡ M.count meter.old) }
        ensures home { self.new.home ≡ self.old.home }
        ensures mark { self.new.mark ≡ self.old.mark }
        ensures to_ask { self.new.to_ask ≡ self.old.to_ask }
    {
        match self.standing {
            Standing::Going => self.read_on(meter),
            Standing::NeedBytes => PageStep::NeedBytes,
            Standing::NeedOutline(file) => PageStep::NeedOutline(file),
            Standing::NeedFile(file) => PageStep::NeedFile(file),
            Standing::Finished => PageStep::Finished,
            Standing::Refused(fault) => PageStep::Refused(fault),
            Standing::Failed => PageStep::OutOfMemory,
        }
    }

    /// Reads on over the bytes that weren't used yet.
    #[tactic(auto, unfolding(crate::specs::PageFed::Fed))]
    fn read_on<M: Meter>(&mut self, meter: &mut M) -> PageStep
        requires going { self.old.kept.standing ≡ Standing.Going }
        ensures answer { (given : Given) → Fed given self.old → result ≢ PageStep.OutOfMemory →
            result ≡ answer_to (next_entry (read given) self.old.drawn) }
        ensures decisions { (given : Given) → Fed given self.old → result ≢ PageStep.OutOfMemory →
            TicksExactly (decisions_to (next_entry (read given) self.old.drawn) (read given)) 0 self.new.decisions }
        ensures fed { (given : Given) → Fed given self.old → Fed given self.new }
        ensures rise { RiseTogether self.old.decisions self.new.decisions (M.count meter.old) (M.count meter.new) }
        ensures drawn { self.new.drawn ≡ drawn_with result self.old.drawn }
        ensures stands { self.new.stands ≡ end_with result }
        ensures failed { result ≡ PageStep.OutOfMemory → self.new.failed ≡ true }
        ensures reads { result ≢ PageStep.OutOfMemory → self.new.failed ≡ false }
        ensures home { self.new.home ≡ self.old.home }
        ensures mark { self.new.mark ≡ self.old.mark }
        ensures to_ask { self.new.to_ask ≡ self.old.to_ask }
    {
        crate::page_laws::growth();
        crate::page_laws::needs();
        let (used, answer) = self.reader.run(
            self.names.slice(),
            self.others.outlines(),
            self.others.results(),
            self.unread.bytes(),
            self.end,
            meter,
        );
        self.unread.forget(used);
        self.standing = standing_at(&answer);
        answer
    }

    /// The decisions of the page's own chunks that were read.
    pub fn decisions(&self) -> u64
        ensures { result ≡ self.now.decisions }
    {
        self.reader.decisions()
    }

    /// The layers of the last drawing, which can be drawn: none before the first notice was drawn.
    pub fn layers(&self) -> Option<&Layers>
        ensures layers { MatchOption result (self.now.layers ≡ None) (λ layers. self.now.layers ≡ Some layers.now) }
        ensures drawable { MatchOption result ⊤ (λ layers. CanDraw layers.now) }
    {
        self.reader.layers().as_ref()
    }

    /// The layers that `layers` tells, handed out. Takes no memory.
    pub fn take(self) -> Option<Layers>
        ensures layers { result ≡ self.layers }
        ensures drawable { CanDrawLast result }
    {
        self.reader.into_layers()
    }
}

impl Standing {
    /// More bytes came, or their end.
    fn without_bytes(self) -> Standing
        ensures { result ≡ standing_without self }
    {
        match self {
            Standing::NeedBytes => Standing::Going,
            Standing::Going => Standing::Going,
            Standing::NeedOutline(file) => Standing::NeedOutline(file),
            Standing::NeedFile(file) => Standing::NeedFile(file),
            Standing::Finished => Standing::Finished,
            Standing::Refused(fault) => Standing::Refused(fault),
            Standing::Failed => Standing::Failed,
        }
    }
}

/// Where a page stands behind a gift.
fn standing_after(given: &Result<(), AllocError>) -> Standing
    ensures { result ≡ standing_after given.now }
{
    match given {
        Ok(_) => Standing::Going,
        Err(_) => Standing::Failed,
    }
}

/// Where a page stands with this answer.
fn standing_at(answer: &PageStep) -> Standing
    ensures { result ≡ standing_at answer.now }
{
    match answer {
        PageStep::Drew(_) => Standing::Going,
        PageStep::NeedBytes => Standing::NeedBytes,
        PageStep::NeedOutline(file) => Standing::NeedOutline(*file),
        PageStep::NeedFile(file) => Standing::NeedFile(*file),
        PageStep::Finished => Standing::Finished,
        PageStep::Refused(fault) => Standing::Refused(*fault),
        PageStep::OutOfMemory => Standing::Failed,
    }
}
