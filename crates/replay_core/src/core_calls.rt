//! The core: pages of a folder, drawn as the bytes of its files come.
ghost use Rattle.std.specs.Prelude.{◌≡◌, ◌<◌, ◌^◌, ℕ, length, map, replicate, Some, None, IfOk, OnOk, All, slice_get};
ghost use Rattle.std.specs.Arc.{arc_value};
ghost use Rattle.djvu_base.specs.Name.{IsAscending};
ghost use Rattle.djvu_base.specs.Meter.{ticked};
ghost use Rattle.replay_core.specs.Counts.{Counts, PageCount, no_counts};
ghost use Rattle.replay_core.specs.CoreFiles.{both};
ghost use Rattle.replay_core.specs.CorePages.{untouched};
ghost use Rattle.replay_core.specs.Core.{Stands, AreApart, AreEmpty, ArePages, OnlyFails, SameFrame};
ghost use Rattle.replay_core.specs.Machine.{State, Feed, End, Look, Looked, state_after, answer, start};

use crate::files::CoreFile;
use crate::pages::CorePage;
use djvu_base::{Fault, FileEnd, Items, Name, Notice};
use jb2_records::FileResult;
use std::alloc::{AllocError, Global};
use std::marker::Model;
use std::sync::Arc;
use zp_table::Table;

/// What a step on a page answers.
#[derive(Debug, Drop)]
pub enum CoreStep {
    /// The next notice of the page.
    Drew(Notice),
    /// The page's bytes so far don't determine the next decision, header, end of a chunk or end of the FORM.
    NeedBytes,
    /// An include is resolved, and the outline of the file with this number isn't known: the file is open.
    NeedFile(u32),
    /// The page is complete. It is answered from then on.
    Finished,
    /// The page's first fault. It is answered from then on.
    Refused(Fault),
    /// There was no memory for this page, or for a file that it reaches. It is answered from then on.
    OutOfMemory,
}

/// Pages of a folder, drawn as the bytes of its files come. Each file that a page reaches is decoded once.
///
/// Contracts speak of it by `Stands state counts core`: the state of the machine, and what was decoded so far. They see the state
/// table, the folder's names, and of each page its file, how it ended, and whether its layers were taken.
#[derive(Drop)]
pub struct Core {
    pub(crate) alloc: Global,
    pub(crate) table: Arc<Table>,
    pub(crate) names: Arc<Items<Name>>,
    pub(crate) files: Vec<CoreFile>,
    pub(crate) pages: Vec<CorePage>,
    /// What files give that were decoded, each at its number.
    pub(crate) results: Vec<Option<FileResult>>,
}

impl Model for Core {
    ghost use Rattle.std.specs.Arc.{arc_value};
    ghost use Rattle.replay_core.specs.Core.{CoreSeen, IsCore, core_of};

    ghost Value = { CoreSeen };

    ghost view = { λ a. core_of (arc_value a.table) (arc_value a.names) (record {
      files = a.files.items;
      pages = a.pages.items;
      results = a.results.items;
    }) };

    ghost invariant = { λ a. IsCore (arc_value a.names) (record {
      files = a.files.items;
      pages = a.pages.items;
      results = a.results.items;
    }) };
}

impl Core {
    /// A core for these pages, by the numbers of their files among a folder's names. No byte came yet.
    #[tactic(auto, unfolding(crate::specs::Core::Stands))]
    pub fn new(
        alloc: Global,
        names: Vec<Name>,
        pages: Vec<u32>,
        table: Arc<Table>,
    ) -> Result<Core, AllocError>
        requires ascending { IsAscending names.items }
        requires few { length names.items < 2 ^ 32 }
        requires below { All (λ page. page < length names.items) pages.items }
        requires apart { AreApart pages.items }
        ensures stands { IfOk result (λ core. Stands (start names.items pages.items) (no_counts (length names.items) pages.items) core) }
        ensures table { IfOk result (λ core. core.table ≡ arc_value table) }
        ensures names { IfOk result (λ core. core.names ≡ names.items) }
        ensures pages { IfOk result (λ core. core.pages ≡ map untouched pages.items) }
    {
        table.len();
        let count = names.len();
        let names = Arc::new(alloc, Items::of(names))?;
        let mut files = new_files(alloc, count)?;
        let begun = begin_pages(alloc, &table, &names, pages.as_slice(), &mut files)?;
        let results = no_results(alloc, count)?;
        Ok(Core {
            alloc,
            table,
            names,
            files,
            pages: begun,
            results,
        })
    }

    /// The next piece of a file. A file that has ended takes none. Errs where there was no memory, now or before, for the file's
    /// outline or for the page that it is: a page that is in want of it answers `OutOfMemory` from then on.
    #[tactic(auto, unfolding(crate::specs::Core::Stands))]
    pub fn feed(&mut self, file: u32, piece: &[u8]) -> Result<(), AllocError>
        requires { file < length self.old.names }
        ensures stands { (state : State) (counts : Counts) → Stands state counts self.old
            → Stands (state_after self.old.table state (Feed file piece.now)) counts self.new }
        ensures fails { OnlyFails file self.old.pages self.new.pages }
        ensures ok { OnOk result (self.new.pages ≡ self.old.pages) }
        ensures frame { SameFrame self.old self.new }
    {
        if self.files[file as usize].end().is_some() {
            return Ok(());
        }
        page_decoder::page_laws::growth();
        page_decoder::page_laws::libraries::libraries_go_on();
        include_graph::laws::lists();
        page_decoder::page_laws::included_files();
        page_decoder::page_laws::made::made_stays();
        page_decoder::page_laws::libraries::results_are_the_librarys();
        crate::laws::counts::counts_stay_within();
        let its = &mut self.files[file as usize];
        let read = its.feed(piece);
        match its.page() {
            Some(page) => both(read, self.pages[page].feed(piece)),
            None => read,
        }
    }

    /// The end of a file. Only the first counts. Takes no memory but for the file's outline.
    #[tactic(auto, unfolding(crate::specs::Core::Stands))]
    pub fn end(&mut self, file: u32, how: FileEnd)
        requires { file < length self.old.names }
        ensures stands { (state : State) (counts : Counts) → Stands state counts self.old
            → Stands (state_after self.old.table state (End file how)) counts self.new }
        ensures pages { self.new.pages ≡ self.old.pages }
        ensures frame { SameFrame self.old self.new }
    {
        if self.files[file as usize].end().is_some() {
            return;
        }
        page_decoder::page_laws::growth();
        page_decoder::page_laws::libraries::libraries_go_on();
        include_graph::laws::lists();
        page_decoder::page_laws::included_files();
        page_decoder::page_laws::made::made_stays();
        page_decoder::page_laws::libraries::results_are_the_librarys();
        crate::laws::counts::counts_stay_within();
        let its = &mut self.files[file as usize];
        its.close(how);
        if let Some(page) = its.page() {
            self.pages[page].close(how);
        }
    }

    /// The last notice that was drawn of a page, or none. The viewer makes no difference.
    #[tactic(auto, unfolding(crate::specs::Core::Stands))]
    pub fn look(&mut self, viewer: u32, page: u32) -> Result<Option<Notice>, AllocError>
        requires { page < length self.old.pages }
        ensures shown { (state : State) (counts : Counts) → Stands state counts self.old
            → IfOk result (λ notice. answer self.old.table state (Look viewer page) ≡ Looked notice) }
        ensures same { self.new ≡ self.old }
    {
        self.pages[page as usize].look()
    }

    /// The decisions of the page's own chunks so far.
    #[tactic(auto, unfolding(crate::specs::Core::Stands))]
    pub fn decisions(&self, page: u32) -> u64
        requires { page < length self.now.pages }
        ensures { (state : State) (counts : Counts) (it : PageCount) → Stands state counts self.now → slice_get counts.pages page ≡ Some it
            → result ≡ ticked it.decisions 0 }
    {
        self.pages[page as usize].decisions
    }
}

/// Ok where both are.
fn both(one: Result<(), AllocError>, other: Result<(), AllocError>) -> Result<(), AllocError>
    ensures { result ≡ both one other }
{
    match one {
        Ok(()) => other,
        Err(error) => Err(error),
    }
}

/// So many files of which no byte came, and which are no pages.
fn new_files(alloc: Global, count: usize) -> Result<Vec<CoreFile>, AllocError>
    ensures { IfOk result (λ files. AreEmpty count files.items) }
{
    let mut files = Vec::new(alloc);
    for _ in 0..count {
        files.push(CoreFile::new(alloc))?;
    }
    Ok(files)
}

/// Nothing is known of what so many files give.
fn no_results(alloc: Global, count: usize) -> Result<Vec<Option<FileResult>>, AllocError>
    ensures { IfOk result (λ results. results.items ≡ replicate count None) }
{
    let mut results = Vec::new(alloc);
    for _ in 0..count {
        results.push(None)?;
    }
    Ok(results)
}

/// The pages of these files, of which no byte came. Each file is told its page.
fn begin_pages(
    alloc: Global,
    table: &Arc<Table>,
    names: &Arc<Items<Name>>,
    pages: &[u32],
    files: &mut Vec<CoreFile>,
) -> Result<Vec<CorePage>, AllocError>
    requires ascending { IsAscending (arc_value names.now) }
    requires few { length (arc_value names.now) < 2 ^ 32 }
    requires apart { AreApart pages.now }
    requires below { All (λ page. page < length files.old.items) pages.now }
    requires empty { AreEmpty (length files.old.items) files.old.items }
    ensures { IfOk result (λ begun. ArePages (arc_value table.now) (arc_value names.now) (length files.old.items) pages.now begun.items files.new.items) }
{
    let mut begun = Vec::new(alloc);
    let mut place = 0;
    'pages: while place < pages.len() {
        let file = pages[place];
        let page = CorePage::new(alloc, table.clone()?, names.clone()?, file);
        files[file as usize].set_page(place);
        begun.push(page)?;
        place += 1;
    }
    Ok(begun)
}
