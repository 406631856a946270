//! Words of commands, and lines of reports.
ghost use Rattle.std.specs.Prelude.{◌≡◌, IfSome, length};

use djvu_base::{Fault, FaultKind, Items, Name, Place};
use std::alloc::Global;
use std::process::Abort;
use std::test::Fail;
use viewer_words::{
    Command, TableChoice, WordsError, chunk_line, fault_line, folder_line, form_line, notice_line,
    read_words, words_line,
};

/// What is said of words: which command they are, with the last words as its pages, or which word is refused.
#[derive(Clone, Copy, Debug, PartialEq, Eq)]
enum Said {
    /// A drawing by this table. The first page's word has this number.
    Draw(Table, usize),
    /// A listing. The first page's word has this number.
    Info(usize),
    Refused(usize),
}

#[derive(Clone, Copy, Debug, PartialEq, Eq)]
enum Table {
    Djvu,
    Flat,
    /// The table in the file that word 2 names.
    File,
}

const ROWS: [(&[&[u8]], Said); 35] = [
    (&[], Said::Refused(0)),
    (&[b""], Said::Refused(0)),
    (&[b"p"], Said::Refused(0)),
    (&[b"--help"], Said::Refused(0)),
    (&[b"Draw", b"p"], Said::Refused(0)),
    (&[b"draws", b"p"], Said::Refused(0)),
    (&[b"replay", b"s", b"p"], Said::Refused(0)),
    (&[b"show", b"--workers", b"0", b"p"], Said::Refused(0)),
    (&[b"exercise", b"1"], Said::Refused(0)),
    (&[b"--table", b"flat", b"draw", b"p"], Said::Refused(0)),
    (&[b"draw"], Said::Refused(1)),
    (&[b"info"], Said::Refused(1)),
    (&[b"draw", b"--", b"p"], Said::Refused(1)),
    (&[b"draw", b"--table=flat", b"p"], Said::Refused(1)),
    (&[b"info", b"--table", b"flat", b"p"], Said::Refused(1)),
    (&[b"info", b"\xFF", b"--"], Said::Refused(1)),
    (&[b"draw", b"--table"], Said::Refused(2)),
    (&[b"draw", b"--table", b"--", b"p"], Said::Refused(2)),
    (&[b"draw", b"--table", b"\xFF", b"p"], Said::Refused(2)),
    (&[b"draw", b"p", b"p"], Said::Refused(2)),
    (&[b"draw", b"p", b"--table", b"flat"], Said::Refused(2)),
    (&[b"draw", b"--table", b"flat"], Said::Refused(3)),
    (
        &[b"draw", b"--table", b"flat", b"--table", b"djvu", b"p"],
        Said::Refused(3),
    ),
    (&[b"info", b"p", b"q", b"..", b"p"], Said::Refused(3)),
    (&[b"info", b"p", b"q", b"p", b".."], Said::Refused(3)),
    (&[b"draw", b"--table", b"t", b"p", b"p"], Said::Refused(4)),
    (&[b"draw", b"p"], Said::Draw(Table::Djvu, 1)),
    (
        &[b"draw", b"q", b"-", b"draw", b"p"],
        Said::Draw(Table::Djvu, 1),
    ),
    (
        &[b"draw", b"--table", b"djvu", b"p"],
        Said::Draw(Table::Djvu, 3),
    ),
    (
        &[b"draw", b"--table", b"flat", b"q", b"p"],
        Said::Draw(Table::Flat, 3),
    ),
    (
        &[b"draw", b"--table", b"a table", b"p"],
        Said::Draw(Table::File, 3),
    ),
    (
        &[b"draw", b"--table", b"p", b"p"],
        Said::Draw(Table::File, 3),
    ),
    (
        &[b"draw", b"--table", b"-flat", b"flat"],
        Said::Draw(Table::File, 3),
    ),
    (&[b"info", b"p"], Said::Info(1)),
    (&[b"info", b"info", b"page 2"], Said::Info(1)),
];

fn list_of(alloc: Global, words: &[&[u8]]) -> Option<Vec<Items<u8>>> {
    let mut list = Vec::new(alloc);
    for word in words {
        list.push(Items::of(Vec::from_slice(alloc, word).ok()?))
            .ok()?;
    }
    Some(list)
}

/// `draw` and so many pages, named by their numbers.
fn numbered_pages(alloc: Global, count: u32) -> Option<Vec<Items<u8>>> {
    let mut list = list_of(alloc, &[b"draw"])?;
    for number in 0..count {
        let name = format!(in alloc; "{number}").ok()?;
        list.push(Items::of(name.into_bytes())).ok()?;
    }
    Some(list)
}

/// The number of the word from which on these pages stand, if they are the last words.
fn first_page(words: &[Items<u8>], pages: &[Name]) -> Option<usize> {
    let first = words.len().checked_sub(pages.len())?;
    words
        .iter()
        .skip(first)
        .zip(pages)
        .all(|(word, page)| word.slice() == page.bytes())
        .then_some(first)
}

/// `None` where the pages or the table's file have other names, or where there is no memory.
fn said_of(alloc: Global, words: &[Items<u8>]) -> Option<Said> {
    match read_words(alloc, words) {
        Ok(command) => command_said(words, command),
        Err(WordsError::Refused(number)) => Some(Said::Refused(number)),
        Err(WordsError::OutOfMemory) => None,
    }
}

fn command_said(words: &[Items<u8>], command: Command) -> Option<Said> {
    match command {
        Command::Draw { table, pages } => {
            let table = table_said(words, &table)?;
            first_page(words, pages.slice()).map(|first| Said::Draw(table, first))
        }
        Command::Info { pages } => first_page(words, pages.slice()).map(Said::Info),
    }
}

fn table_said(words: &[Items<u8>], table: &TableChoice) -> Option<Table> {
    match table {
        TableChoice::Djvu => Some(Table::Djvu),
        TableChoice::Flat => Some(Table::Flat),
        TableChoice::File(name) => {
            (words.get(2)?.slice() == name.bytes()).then_some(Table::File)
        }
    }
}

#[test]
fn words_are_read(rt: HostRuntime) -> Result<(), Fail> {
    for (number, (words, said)) in ROWS.into_iter().enumerate() {
        let list = list_of(rt.alloc(), words).ok_or("no memory")?;
        assert_eq!(rt;
            said_of(rt.alloc(), list.as_slice()),
            Some(said),
            "row {number}"
        );
    }
    let most = numbered_pages(rt.alloc(), 1_024).ok_or("no memory")?;
    assert_eq!(rt;
        said_of(rt.alloc(), most.as_slice()),
        Some(Said::Draw(Table::Djvu, 1))
    );
    let more = numbered_pages(rt.alloc(), 1_026).ok_or("no memory")?;
    assert_eq!(rt;
        said_of(rt.alloc(), more.as_slice()),
        Some(Said::Refused(1_025))
    );
    Ok(())
}

/// The names of a folder of two files.
fn two_names(alloc: Global) -> Option<Vec<Name>>
    ensures { IfSome result (λ names. length names.items ≡ 2) }
{
    let first = Name::read(alloc, b"a b").ok()??;
    let second = Name::read(alloc, b"p").ok()??;
    Vec::from_array(alloc, [first, second]).ok()
}

fn expect_line(rt: &impl Abort, line: Vec<u8>, wanted: &[u8]) {
    assert_eq!(rt; line.as_slice(), wanted);
}

fn fault_at(file: u32, offset: u32) -> Fault
    ensures { result.place.file ≡ file }
{
    Fault {
        kind: FaultKind::CyclicInclude,
        place: Place { file, offset },
    }
}

#[test]
fn lines_are_written(rt: HostRuntime) -> Result<(), Fail> {
    let alloc = rt.alloc();
    let names = two_names(alloc).ok_or("no memory")?;
    let page = &names[1];
    expect_line(
        &rt,
        notice_line(alloc, page, 1, 6_437_475_000)?,
        b"p: chunk 1 sum 6437475000\n",
    );
    let fault = fault_at(0, 2_097_151);
    expect_line(
        &rt,
        fault_line(alloc, page, &fault, names.as_slice())?,
        b"p: cyclic-include a b 2097151\n",
    );
    expect_line(
        &rt,
        form_line(alloc, page, *b"DJVU", 34)?,
        b"p: form DJVU 34\n",
    );
    expect_line(
        &rt,
        chunk_line(alloc, page, *b"Sjbz", 34, 4)?,
        b"p: chunk Sjbz 34 4\n",
    );
    expect_line(&rt, words_line(alloc, 0)?, b"words 0\n");
    expect_line(&rt, folder_line(alloc, 1_025)?, b"folder 1025\n");
    Ok(())
}
