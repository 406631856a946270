//! What stands before the pages: the words, the listing, the number of names, the words that name files, and the table.
ghost use Rattle.std.specs.Prelude.{◌≡◌, ◌≢◌, true, false, [], Some, Err, IfOk, map};
ghost use Rattle.djvu_base.specs.Library.{Files, names_of, library_of};
ghost use Rattle.viewer_words.specs.Words.{words_of};
ghost use Rattle.djvu_outside.specs.Parts.{FolderStops};
ghost use Rattle.viewer_words.specs.declared.commands.TableChoice.{TableChoice};
ghost use Rattle.viewer_words.specs.Files.{named_files, table_before};
ghost use Rattle.page_decoder.specs.Libraries.{names_in};
ghost use Rattle.viewer_run.specs.Plan.{line_by_names, plan_of, plan_of_draw, plan_of_info, draws, asks_no_folder};
ghost use Rattle.viewer_run.specs.Shown.{AreDistinct};
ghost use Rattle.viewer_run.specs.Start.{Starts, StartsFor, CanShow, HasNames, IsOver, ReadsNone, line_of, plan_by};

use crate::tables::{SharedTable, choose_table};
use djvu_base::{Items, Name};
use djvu_outside::{Folder, FolderFault, Stop};
use std::alloc::{AllocError, Global};
use viewer_words::{
    Command, TableChoice, WordsError, folder_line, read_words, table_line, unlisted_line,
    words_line,
};

/// The most names that a folder may have.
const NAME_LIMIT: usize = 1_024;

/// What is done with each page.
#[derive(Debug, Drop)]
pub enum Mode {
    /// It is drawn, with this state table.
    Draw(SharedTable),
    /// Its chunks are listed.
    Info,
}

/// What a run does.
#[derive(Debug, Drop)]
pub enum Front {
    /// It is refused, and this line says why.
    Refused(Items<u8>),
    /// It does this with these pages, over a folder with these names.
    Accepted {
        names: Items<Name>,
        mode: Mode,
        pages: Items<Name>,
    },
}

/// What a run with these words does over this folder. Only where the words fit is the folder listed, and only where what
/// they name is listed is the table read.
pub fn find_front<F: Folder>(
    alloc: Global,
    words: &[Items<u8>],
    folder: &mut F,
) -> Result<Front, Stop>
    ensures told { (told : Files) → F.files folder.old ≡ Some told
        → IfOk result (λ front. plan_by front ≡ plan_of (library_of told) words.now) }
    ensures failure { (told : Files) → F.files folder.old ≡ Some told → StartsFor result words.now (F.failures folder.old) (F.failures folder.new) }
    ensures over { (told : Files) → F.files folder.old ≡ Some told → IfOk result (λ front. IsOver (names_of told) front) }
    ensures can_show { IfOk result CanShow }
    ensures reads_none { draws (words_of words.now) ≡ false → IfOk result ReadsNone }
    ensures stops { FolderStops result (F.faults folder.old) (F.faults folder.new) }
    ensures same_files { F.files folder.new ≡ F.files folder.old }
    ensures alone { asks_no_folder (words_of words.now) ≡ true
        → (folder.new ≡ folder.old) × (result ≢ Err Stop.Folder) × IfOk result (λ front. plan_by front ≡ plan_of [] words.now) }
{
    viewer_words::laws::named_files_are_words();
    match read_words(alloc, words) {
        Ok(Command::Draw { table, pages }) => { front_of_draw(alloc, words, &table, pages, folder) }
        Ok(Command::Info { pages }) => front_of_info(alloc, words, pages, folder),
        Err(WordsError::Refused(number)) => {
            Ok(Front::Refused(Items::of(words_line(alloc, number)?)))
        }
        Err(WordsError::OutOfMemory) => Err(Stop::Memory),
    }
}

/// What a run with these words that is to draw these pages, with this table, does over this folder.
fn front_of_draw<F: Folder>(
    alloc: Global,
    words: &[Items<u8>],
    table: &TableChoice,
    pages: Items<Name>,
    folder: &mut F,
) -> Result<Front, Stop>
    requires distinct { AreDistinct pages }
    requires named { map (λ file. file.1) (named_files words.now) ≡ table_before table.now pages }
    ensures told { (told : Files) → F.files folder.old ≡ Some told
        → IfOk result (λ front. plan_by front ≡ plan_of_draw (library_of told) (named_files words.now) table.now pages) }
    ensures failure { (told : Files) → F.files folder.old ≡ Some told → Starts result table.now (F.failures folder.old) (F.failures folder.new) }
    ensures over { (told : Files) → F.files folder.old ≡ Some told → IfOk result (λ front. IsOver (names_of told) front) }
    ensures can_show { IfOk result CanShow }
    ensures stops { FolderStops result (F.faults folder.old) (F.faults folder.new) }
    ensures same_files { F.files folder.new ≡ F.files folder.old }
{
    let names = match list_names(alloc, words, folder)? {
        Ok(names) => names,
        Err(line) => return Ok(Front::Refused(line)),
    };
    match choose_table(alloc, table, folder)? {
        Ok(table) => Ok(Front::Accepted {
            names,
            mode: Mode::Draw(table),
            pages,
        }),
        Err(fault) => {
            let line = table_line(alloc, fault.row, fault.why.word())?;
            Ok(Front::Refused(Items::of(line)))
        }
    }
}

/// What a run with these words that is to list the chunks of these files does over this folder.
fn front_of_info<F: Folder>(
    alloc: Global,
    words: &[Items<u8>],
    pages: Items<Name>,
    folder: &mut F,
) -> Result<Front, Stop>
    requires distinct { AreDistinct pages }
    requires named { map (λ file. file.1) (named_files words.now) ≡ pages }
    ensures told { (told : Files) → F.files folder.old ≡ Some told
        → IfOk result (λ front. plan_by front ≡ plan_of_info (library_of told) (named_files words.now) pages) }
    ensures failure { (told : Files) → F.files folder.old ≡ Some told → Starts result TableChoice.Djvu (F.failures folder.old) (F.failures folder.new) }
    ensures over { (told : Files) → F.files folder.old ≡ Some told → IfOk result (λ front. IsOver (names_of told) front) }
    ensures can_show { IfOk result CanShow }
    ensures reads_none { IfOk result ReadsNone }
    ensures stops { FolderStops result (F.faults folder.old) (F.faults folder.new) }
    ensures same_files { F.files folder.new ≡ F.files folder.old }
{
    match list_names(alloc, words, folder)? {
        Ok(names) => Ok(Front::Accepted {
            names,
            mode: Mode::Info,
            pages,
        }),
        Err(line) => Ok(Front::Refused(line)),
    }
}

/// The names of this folder, or the line by which these words are refused, if the files that they name don't fit its list.
fn list_names<F: Folder>(
    alloc: Global,
    words: &[Items<u8>],
    folder: &mut F,
) -> Result<Result<Items<Name>, Items<u8>>, Stop>
    ensures told { (told : Files) → F.files folder.old ≡ Some told
        → IfOk result (λ found. line_of found ≡ line_by_names (names_in (library_of told)) (named_files words.now)) }
    ensures names { (told : Files) → F.files folder.old ≡ Some told → IfOk result (λ found. IfOk found (λ names. names ≡ names_of told)) }
    ensures failure { (told : Files) (table : TableChoice) → F.files folder.old ≡ Some told
        → Starts result table (F.failures folder.old) (F.failures folder.new) }
    ensures fits { IfOk result (λ found. IfOk found (λ names. HasNames names (map (λ file. file.1) (named_files words.now)))) }
    ensures stops { FolderStops result (F.faults folder.old) (F.faults folder.new) }
    ensures same_files { F.files folder.new ≡ F.files folder.old }
{
    let names = match folder.list(alloc) {
        Ok(names) => names,
        Err(FolderFault::Failed) => return Err(Stop::Folder),
        Err(FolderFault::OutOfMemory) => return Err(Stop::Memory),
    };
    match line_by_names(alloc, names.as_slice(), words)? {
        Some(line) => Ok(Err(line)),
        None => Ok(Ok(Items::of(names))),
    }
}

/// The line by which these words are refused over a folder with these names, if there is one.
fn line_by_names(
    alloc: Global,
    names: &[Name],
    words: &[Items<u8>],
) -> Result<Option<Items<u8>>, AllocError>
    ensures { IfOk result (λ line. line ≡ line_by_names names.now (named_files words.now)) }
{
    if NAME_LIMIT < names.len() {
        return Ok(Some(Items::of(folder_line(alloc, names.len())?)));
    }
    unlisted_line(alloc, names, words)
}
