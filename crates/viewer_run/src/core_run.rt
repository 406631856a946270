//! A run of one core over the files of a folder: each file is read whole, and once.
ghost use Rattle.std.specs.Prelude.{◌≡◌, ◌<◌, ◌^◌, ◌++◌, ℕ, [], false, map, length, replicate, Some, IfOk, slice_get};
ghost use Rattle.djvu_base.specs.Library.{Files, names_of};
ghost use Rattle.page_decoder.specs.Found.{CanDrawLast};
ghost use Rattle.replay_core.specs.CorePages.{untouched};
ghost use Rattle.replay_core.specs.Counts.{Counts, no_counts};
ghost use Rattle.replay_core.specs.Machine.{PageState, State, start, unread_page};
ghost use Rattle.viewer_words.specs.Lines.{name_at, notice_line};
ghost use Rattle.viewer_run.specs.CoreRun.{Follows, ComesSo, FaultsSo, CanDraw, CanStep, OpensSo, StopsForMemory, ToHalt, ToEnd};
ghost use Rattle.viewer_run.specs.Found.{FaultFits};
ghost use Rattle.viewer_run.specs.Plan.{numbers_of};
ghost use Rattle.viewer_run.specs.Shown.{AreDistinct};
ghost use Rattle.viewer_run.specs.Start.{HasNames};

use crate::numbers::{copy_names, numbers_of};
use crate::tables::SharedTable;
use crate::texts::PageFound;
use djvu_base::{Fault, Items, Meter, Name, Notice};
use djvu_outside::{Folder, Stop, read_file};
use replay_core::{Core, CoreStep};
use std::alloc::{AllocError, Global};
use viewer_words::notice_line;

/// A core, the names of the folder's files, and which of them were read.
#[derive(Drop)]
pub struct CoreRun {
    pub core: Core,
    pub names: Items<Name>,
    /// The files of the pages, by their numbers among the names.
    pub pages: Items<u32>,
    /// Which files were read, by their numbers.
    pub read: Vec<bool>,
    /// Whether the reading of a file failed.
    pub broken: bool,
}

/// How far a page was drawn.
#[derive(Debug, Drop)]
pub enum Halt {
    /// Up to where it needs the file of this number.
    Need(u32),
    /// To its end, with its fault where it has one.
    End(Option<Fault>),
}

impl CoreRun {
    /// A core for these pages of a folder with these names. Nothing was read yet.
    pub fn begin(
        alloc: Global,
        table: &SharedTable,
        names: Items<Name>,
        pages: &[Name],
    ) -> Result<CoreRun, AllocError>
        requires listed { HasNames names pages.now }
        requires distinct { AreDistinct pages.now }
        ensures follows { IfOk result (λ run. Follows (start names (numbers_of names pages.now)) (no_counts (length names) (numbers_of names pages.now)) run) }
        ensures names { IfOk result (λ run. run.names ≡ names) }
        ensures pages { IfOk result (λ run. run.pages ≡ numbers_of names pages.now) }
        ensures read { IfOk result (λ run. run.read.items ≡ replicate (length names) false) }
        ensures table { IfOk result (λ run. run.core.table ≡ table.now) }
        ensures fresh { IfOk result (λ run. run.core.pages ≡ map untouched (numbers_of names pages.now)) }
        ensures sound { IfOk result (λ run. run.broken ≡ false) }
    {
        let numbers = numbers_of(alloc, names.slice(), pages)?;
        let mut files = Vec::new(alloc);
        files.extend_from_slice(numbers.as_slice())?;
        let copies = copy_names(alloc, names.slice())?;
        let read = no_flags(alloc, names.slice().len())?;
        let table = table.share()?;
        table.len();
        let core = Core::new(alloc, copies, numbers, table)?;
        Ok(CoreRun {
            core,
            names,
            pages: Items::of(files),
            read,
            broken: false,
        })
    }

    /// Reads a file that wasn't read yet, feeds the core with it and ends it. Errs where there is no memory.
    pub fn read<F: Folder>(&mut self, alloc: Global, file: u32, folder: &mut F) -> Result<(), Stop>
        requires over { (told : Files) → F.files folder.old ≡ Some told → self.old.names ≡ names_of told }
        requires unread { slice_get self.old.read.items file ≡ Some false }
        requires listed { file < length self.old.names }
        requires core { self.old.core.names ≡ self.old.names }
        ensures comes { (state : State) (counts : Counts) → Follows state counts self.old
            → ComesSo result (F.files folder.old) file state counts self.old self.new (F.failures folder.old) (F.failures folder.new)
            (F.faults folder.old) (F.faults folder.new) }
        ensures counts { FaultsSo result self.old.broken self.new.broken (F.faults folder.old) (F.faults folder.new) }
        ensures same_files { F.files folder.new ≡ F.files folder.old }
        ensures memory { StopsForMemory result }
    {
        let read = read_file(alloc, folder, &self.names.slice()[file as usize])?;
        self.core.feed(file, read.bytes.as_slice())?;
        self.core.end(file, read.end);
        self.read[file as usize] = true;
        self.broken = self.broken || read.is_broken();
        Ok(())
    }

    /// Draws a page to its end, and puts the lines of its notices into `lines`. Its file is read where it wasn't yet, and so is each
    /// file that the page needs. The page's layers are taken from the core.
    pub fn draw<F: Folder, M: Meter>(
        &mut self,
        alloc: Global,
        page: u32,
        lines: &mut Vec<u8>,
        folder: &mut F,
        meter: &mut M,
    ) -> Result<PageFound, Stop>
        requires over { (told : Files) → F.files folder.old ≡ Some told → self.old.names ≡ names_of told }
        requires can { CanDraw page self.old }
        requires empty { lines.old.items ≡ [] }
        ensures ends { (state : State) (counts : Counts) (file : ℕ) → Follows state counts self.old → slice_get state.pages page ≡ Some (unread_page file)
            → ToEnd result (F.files folder.old) page file state counts self.old self.new lines.new.items
            (F.failures folder.old) (F.failures folder.new) (M.count meter.old) (M.count meter.new) }
        ensures counts { FaultsSo result self.old.broken self.new.broken (F.faults folder.old) (F.faults folder.new) }
        ensures same_files { F.files folder.new ≡ F.files folder.old }
        ensures memory { StopsForMemory result }
        ensures drawable { IfOk result (λ found. CanDrawLast found.layers) }
        ensures fits { IfOk result (λ found. FaultFits self.old.names found.fault) }
    {
        page_decoder::page_laws::shows();
        page_decoder::page_laws::libraries::libraries_go_on();
        page_decoder::page_laws::libraries::faults_stand_in_files();
        replay_core::laws::states_go_on();
        replay_core::laws::needs_are_open();
        replay_core::laws::drawn_are_notices();
        replay_core::laws::standing::standing_counts();
        self.open(alloc, page, folder)?;
        'needs: loop {
            match self.to_halt(alloc, page, lines, meter)? {
                Halt::Need(file) => self.read(alloc, file, folder)?,
                Halt::End(fault) => {
                    return Ok(PageFound {
                        fault,
                        layers: self.core.take(page),
                    });
                }
            }
        }
    }

    /// Reads the file of a page, unless it was read before.
    fn open<F: Folder>(&mut self, alloc: Global, page: u32, folder: &mut F) -> Result<(), Stop>
        requires over { (told : Files) → F.files folder.old ≡ Some told → self.old.names ≡ names_of told }
        requires can { CanDraw page self.old }
        ensures opens { (state : State) (counts : Counts) (file count : ℕ) → Follows state counts self.old → slice_get self.old.pages page ≡ Some file
            → OpensSo result (F.files folder.old) page file state counts self.old self.new (F.failures folder.old) (F.failures folder.new) count }
        ensures can { IfOk result (λ done. CanStep page self.new) }
        ensures counts { FaultsSo result self.old.broken self.new.broken (F.faults folder.old) (F.faults folder.new) }
        ensures same_files { F.files folder.new ≡ F.files folder.old }
        ensures memory { StopsForMemory result }
    {
        page_decoder::page_laws::libraries::libraries_go_on();
        replay_core::laws::states_go_on();
        let file = self.pages.slice()[page as usize];
        if self.read[file as usize] {
            return Ok(());
        }
        self.read(alloc, file, folder)
    }

    /// Steps a page whose file was read up to where it needs another, or to its end, and adds the lines of its notices.
    fn to_halt<M: Meter>(
        &mut self,
        alloc: Global,
        page: u32,
        lines: &mut Vec<u8>,
        meter: &mut M,
    ) -> Result<Halt, Stop>
        requires can { CanStep page self.old }
        ensures halts { (state : State) (counts : Counts) (here : PageState) → Follows state counts self.old → slice_get state.pages page ≡ Some here
            → ToHalt result page here state counts self.old self.new lines.old.items lines.new.items (M.count meter.old) (M.count meter.new) }
        ensures memory { StopsForMemory result }
    {
        page_decoder::page_laws::drawings::ascend();
        replay_core::laws::needs_are_open();
        'steps: for _ in 0..u64::MAX {
            match self.core.step(page, meter) {
                CoreStep::Drew(notice) => self.add_line(alloc, page, &notice, lines)?,
                CoreStep::NeedFile(file) => return Ok(Halt::Need(file)),
                CoreStep::Finished => return Ok(Halt::End(None)),
                CoreStep::Refused(fault) => return Ok(Halt::End(Some(fault))),
                CoreStep::OutOfMemory => return Err(Stop::Memory),
                CoreStep::NeedBytes => unreachable!(),
            }
        }
        unreachable!()
    }

    /// Adds the line of a page's notice.
    fn add_line(
        &self,
        alloc: Global,
        page: u32,
        notice: &Notice,
        lines: &mut Vec<u8>,
    ) -> Result<(), AllocError>
        requires listed { (file : ℕ) × (slice_get self.now.pages page ≡ Some file) × (file < length self.now.names) }
        ensures line { (file : ℕ) → slice_get self.now.pages page ≡ Some file → IfOk result (λ done.
            lines.new.items ≡ lines.old.items ++ notice_line (name_at self.now.names file) notice.now.chunks notice.now.sum) }
        ensures small { notice.now.chunks < 2 ^ 32 }
    {
        let file = self.pages.slice()[page as usize];
        let name = &self.names.slice()[file as usize];
        let line = notice_line(alloc, name, notice.chunks(), notice.sum())?;
        lines.extend_from_slice(line.as_slice())?;
        Ok(())
    }
}

/// As many flags, none of them set.
fn no_flags(alloc: Global, count: usize) -> Result<Vec<bool>, AllocError>
    ensures { IfOk result (λ flags. flags.items ≡ replicate count false) }
{
    vec![in alloc; false; count]
}
