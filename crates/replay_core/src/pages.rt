//! What a core keeps of a page: its decoder until it ends, its last notice, and its layers until they are taken.
ghost use Rattle.std.specs.Prelude.{◌≡◌, ◌<◌, ◌^◌, ℕ, List, length, Option, Some, false, slice_get, IfOk, OnOk};
ghost use Rattle.std.specs.Arc.{arc_value};
ghost use Rattle.djvu_base.specs.Name.{IsAscending};
ghost use Rattle.djvu_base.specs.Library.{Open, File, Library};
ghost use Rattle.zp_table.specs.declared.rows.Row.{Row};
ghost use Rattle.zp_table.specs.Rows.{IsTable};
ghost use Rattle.page_decoder.specs.Results.{Result as Gift};
ghost use Rattle.page_decoder.specs.Libraries.{LibraryGoesOn};
ghost use Rattle.replay_core.specs.Counts.{PageCount};
ghost use Rattle.replay_core.specs.Machine.{PageState, fed, ended};
ghost use Rattle.replay_core.specs.CorePages.{PageStands, Fails, IsBegun, seen_of};
ghost use Rattle.replay_core.specs.CoreSteps.{without_decoder};

use djvu_base::{Fault, FileEnd, Items, Name, Notice, Share};
use layer_compose::Layers;
use page_decoder::PageDecoder;
use std::alloc::{AllocError, Global};
use std::marker::Model;
use std::sync::Arc;
use zp_table::Table;

/// How a page of a core has ended.
#[derive(Clone, Copy, Debug, PartialEq, Eq)]
pub enum CoreEnd {
    /// It is complete.
    Finished,
    /// It has this fault, its first.
    Refused(Fault),
    /// There was no memory for it, or for a file that it reaches.
    OutOfMemory,
}

/// A page of a core.
#[derive(Drop)]
pub(crate) struct CorePage {
    pub file: u32,
    /// Until the page ends.
    pub decoder: Option<PageDecoder>,
    /// The last notice that was drawn.
    pub last: Option<Notice>,
    /// The decisions of the page's own chunks so far.
    pub decisions: u64,
    /// How it ended, once its decoder is gone.
    pub end: CoreEnd,
    /// Its layers, from its end on until they are taken.
    pub layers: Option<Layers>,
    pub taken: bool,
    /// The end of its file was told.
    pub closed: bool,
}

impl Model for CorePage {
    ghost use Rattle.replay_core.specs.CorePages.{PagePart, IsPagePart};

    ghost Value = { PagePart };

    ghost view = { λ a. record {
      file = a.file;
      decoder = a.decoder;
      last = a.last;
      decisions = a.decisions;
      end = a.end;
      layers = a.layers;
      taken = a.taken;
      closed = a.closed;
    } };

    ghost invariant = { λ a. IsPagePart (record {
      file = a.file;
      decoder = a.decoder;
      last = a.last;
      decisions = a.decisions;
      end = a.end;
      layers = a.layers;
      taken = a.taken;
      closed = a.closed;
    }) };
}

impl CorePage {
    /// A page of which no byte came. Takes no memory.
    pub(crate) fn new(
        alloc: Global,
        table: Arc<Table>,
        names: Arc<Items<Name>>,
        file: u32,
    ) -> CorePage
        requires ascending { IsAscending (arc_value names) }
        requires few { length (arc_value names) < 2 ^ 32 }
        ensures begun { IsBegun (arc_value table) (arc_value names) file result }
        ensures table { IsTable (arc_value table) }
    {
        table.len();
        CorePage {
            file,
            decoder: Some(PageDecoder::new(alloc, table, names, file)),
            last: None,
            decisions: 0,
            end: CoreEnd::OutOfMemory,
            layers: None,
            taken: false,
            closed: false,
        }
    }

    /// The next bytes of its file, whose end wasn't told. Errs where there was no memory for the page, now or before.
    pub(crate) fn feed(&mut self, piece: &[u8]) -> Result<(), AllocError>
        requires { self.old.closed ≡ false }
        ensures stands { (table : List Row) (library later : Library) (results : ℕ → Option Gift) (page : PageState) (count : PageCount) (it : File)
            → IsTable table → LibraryGoesOn library later → slice_get library page.file ≡ Some it → it.mark ≡ Open
            → slice_get later page.file ≡ Some (fed piece.now it)
            → PageStands table library results page count self.old → PageStands table later results page count self.new }
        ensures fails { Fails (seen_of self.old) (seen_of self.new) }
        ensures ok { OnOk result (seen_of self.new ≡ seen_of self.old) }
        ensures closed { self.new.closed ≡ false }
    {
        page_decoder::page_laws::growth();
        page_decoder::page_laws::libraries::libraries_go_on();
        let Some(decoder) = &mut self.decoder else {
            return self.standing();
        };
        let fed = decoder.feed(piece);
        if fed.is_err() {
            self.fail();
        }
        fed
    }

    /// There was no memory for it. Its decoder goes.
    fn fail(&mut self)
        ensures { self.new ≡ without_decoder self.old }
    {
        self.end = CoreEnd::OutOfMemory;
        drop(self.decoder.take());
    }

    /// What a page answers to bytes that has ended.
    fn standing(&self) -> Result<(), AllocError> {
        match self.end {
            CoreEnd::Finished | CoreEnd::Refused(_) => Ok(()),
            CoreEnd::OutOfMemory => Err(AllocError),
        }
    }

    /// Its file, whose end wasn't told, ends so.
    pub(crate) fn close(&mut self, how: FileEnd)
        requires { self.old.closed ≡ false }
        ensures stands { (table : List Row) (library later : Library) (results : ℕ → Option Gift) (page : PageState) (count : PageCount) (it : File)
            → IsTable table → LibraryGoesOn library later → slice_get library page.file ≡ Some it → it.mark ≡ Open
            → slice_get later page.file ≡ Some (ended how it)
            → PageStands table library results page count self.old → PageStands table later results page count self.new }
        ensures seen { seen_of self.new ≡ seen_of self.old }
    {
        page_decoder::page_laws::growth();
        page_decoder::page_laws::libraries::libraries_go_on();
        self.closed = true;
        if let Some(decoder) = &mut self.decoder {
            decoder.end(how);
        }
    }

    /// The last notice that was drawn.
    pub(crate) fn look(&self) -> Result<Option<Notice>, AllocError>
        ensures { IfOk result (λ notice. notice ≡ self.now.last) }
    {
        match &self.last {
            Some(notice) => Ok(Some(notice.share()?)),
            None => Ok(None),
        }
    }
}
