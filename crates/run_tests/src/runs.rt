//! Runs over folders and sinks in memory, of which each call fails in turn.
ghost use Rattle.std.specs.Prelude.{◌≡◌, IfSome};
ghost use Rattle.djvu_base.specs.Name.{IsAscending, is_ascending};
ghost use Rattle.djvu_base.specs.Library.{names_of};

mod cases;
mod files;
mod layers;
mod libraries;
mod masks;

use cases::{
    BLANK, BOTH_LINES, BOTH_RASTERS, COMMANDS, Case, DRAW_P, DRAWN, LINE, MASKED, NONE, RASTER,
    REFUSED,
};
use djvu_base::{CountMeter, Items, Name};
use djvu_outside::{Folder, MemoryFolder, MemorySink, Sink, SureFolder, SureSink};
use layers::LAYERS;
use masks::MASKS;
use std::alloc::Global;
use std::process::Abort;
use viewer_run::run;

/// What a run came to.
#[derive(Drop)]
struct Came {
    status: u8,
    out: Vec<u8>,
    report: Vec<u8>,
    ticks: u64,
}

/// The calls of the folder and of both sinks that fail, by their numbers.
#[derive(Clone, Copy)]
struct Failing {
    folder: Option<u64>,
    out: Option<u64>,
    report: Option<u64>,
}

const SOUND: Failing = Failing {
    folder: None,
    out: None,
    report: None,
};

fn list_of(alloc: Global, number: Option<u64>) -> Option<Vec<u64>> {
    let mut list = Vec::new(alloc);
    if let Some(number) = number {
        list.push(number).ok()?;
    }
    Some(list)
}

fn words_of(alloc: Global, words: &[&[u8]]) -> Option<Vec<Items<u8>>> {
    let mut list = Vec::new(alloc);
    for word in words {
        list.push(Items::of(Vec::from_slice(alloc, word).ok()?))
            .ok()?;
    }
    Some(list)
}

/// The files `p` and `q`.
fn two_files(alloc: Global, p: &[u8], q: &[u8]) -> Option<Vec<(Name, Items<u8>)>>
    ensures { IfSome result (λ files. IsAscending (names_of files.items)) }
{
    let first = Name::read(alloc, b"p".as_slice()).ok()??;
    let second = Name::read(alloc, b"q".as_slice()).ok()??;
    let p = Items::of(Vec::from_slice(alloc, p).ok()?);
    let q = Items::of(Vec::from_slice(alloc, q).ok()?);
    Vec::from_array(alloc, [(first, p), (second, q)]).ok()
}

/// Runs the words over a folder and sinks. Answers the status and the meter's count.
fn ran<F: Folder, S: Sink>(
    alloc: Global,
    words: &[Items<u8>],
    folder: &mut F,
    out: &mut S,
    report: &mut S,
) -> (u8, u64) {
    let mut meter = CountMeter::new();
    let status = run(alloc, words, folder, out, report, &mut meter);
    (status.0, meter.count())
}

/// What a run came to with this status, these bytes in its sinks, and this count of its meter.
fn came_with(alloc: Global, (status, ticks): (u8, u64), out: &[u8], report: &[u8]) -> Option<Came> {
    Some(Came {
        status,
        out: Vec::from_slice(alloc, out).ok()?,
        report: Vec::from_slice(alloc, report).ok()?,
        ticks,
    })
}

/// Runs the words over these files.
fn came_to(
    alloc: Global,
    files: Vec<(Name, Items<u8>)>,
    words: &[&[u8]],
    failing: Failing,
) -> Option<Came>
    requires { IsAscending (names_of files.items) }
{
    let words = words_of(alloc, words)?;
    let mut folder = MemoryFolder::new(alloc, files, list_of(alloc, failing.folder)?).ok()?;
    let mut out = MemorySink::new(alloc, list_of(alloc, failing.out)?);
    let mut report = MemorySink::new(alloc, list_of(alloc, failing.report)?);
    let came = ran(alloc, words.as_slice(), &mut folder, &mut out, &mut report);
    came_with(alloc, came, out.bytes(), report.bytes())
}

/// Runs the words over the files `p`, with these bytes, and `q`, a blank page.
fn came_over(alloc: Global, p: &[u8], words: &[&[u8]], failing: Failing) -> Option<Came> {
    let files = two_files(alloc, p, BLANK)?;
    came_to(alloc, files, words, failing)
}

/// Asserts what a run came to that reads no decision.
fn expect_came(
    rt: &impl Abort,
    came: Option<Came>,
    status: u8,
    out: &[u8],
    report: &[u8],
    number: usize,
) {
    expect_counted(rt, came, (status, 0), out, report, number);
}

/// Asserts what a run came to, and by how much the meter rose.
fn expect_counted(
    rt: &impl Abort,
    came: Option<Came>,
    (status, ticks): (u8, u64),
    out: &[u8],
    report: &[u8],
    number: usize,
) {
    let Some(came) = came else {
        panic!(rt; "case {number}: no memory")
    };
    assert_eq!(rt; came.status, status, "case {number}: the status");
    assert_eq!(rt; came.out.as_slice(), out, "case {number}: the output");
    assert_eq!(rt; came.report.as_slice(), report, "case {number}: the report");
    assert_eq!(rt; came.ticks, ticks, "case {number}: the meter");
}

/// Runs what each case says, and asserts what it wants.
fn expect_cases(rt: &impl Abort, alloc: Global, cases: &[Case]) {
    for (number, case) in cases.iter().enumerate() {
        let came = came_over(alloc, case.page, case.words, SOUND);
        expect_counted(
            rt,
            came,
            (case.status, case.ticks),
            case.out,
            case.report,
            number,
        );
    }
}

#[test]
fn drawn_and_refused_pages(rt: HostRuntime) {
    for (number, page) in DRAWN.into_iter().enumerate() {
        let came = came_over(rt.alloc(), page, DRAW_P, SOUND);
        expect_came(&rt, came, 0, RASTER, LINE, number);
    }
    for (number, (page, report)) in REFUSED.into_iter().enumerate() {
        let came = came_over(rt.alloc(), page, DRAW_P, SOUND);
        expect_came(&rt, came, 1, NONE, report, number);
    }
}

#[test]
fn commands(rt: HostRuntime) {
    expect_cases(&rt, rt.alloc(), &COMMANDS);
}

#[test]
fn layers_of_pages(rt: HostRuntime) {
    expect_cases(&rt, rt.alloc(), &MASKS);
    expect_cases(&rt, rt.alloc(), &LAYERS);
}

/// Draws two pages with a mask each.
fn came_of_masks(alloc: Global, failing: Failing) -> Option<Came> {
    let files = two_files(alloc, MASKED, MASKED)?;
    let words: &[&[u8]] = &[b"draw", b"--table", b"flat", b"p", b"q"];
    came_to(alloc, files, words, failing)
}

/// Where a sink fails at a page, that page was read, and the next one isn't. Each takes 29 decisions.
#[test]
fn failing_sinks_of_masks(rt: HostRuntime) {
    let lines: &[u8] = b"p: chunk 1 sum 765\np: chunk 2 sum 0\n";
    let all_lines: &[u8] =
        b"p: chunk 1 sum 765\np: chunk 2 sum 0\nq: chunk 1 sum 765\nq: chunk 2 sum 0\n";
    let black: &[u8] = b"P6\n1 1\n255\n\0\0\0";
    let cases: [(Option<u64>, Option<u64>, u64, &[u8], &[u8]); 6] = [
        (None, Some(0), 29, NONE, NONE),
        (Some(0), None, 29, NONE, lines),
        (Some(1), None, 29, b"P6\n1 1\n255\n", lines),
        (None, Some(1), 58, black, lines),
        (Some(2), None, 58, black, all_lines),
        (
            Some(3),
            None,
            58,
            b"P6\n1 1\n255\n\0\0\0P6\n1 1\n255\n",
            all_lines,
        ),
    ];
    for (number, (out_call, report_call, ticks, out, report)) in cases.into_iter().enumerate() {
        let failing = Failing {
            folder: None,
            out: out_call,
            report: report_call,
        };
        let came = came_of_masks(rt.alloc(), failing);
        expect_counted(&rt, came, (4, ticks), out, report, number);
    }
}

/// Each call of the folder and of both sinks that drawing two blank pages makes fails in turn. The folder lists; for each
/// page it opens, and reads until a read gives nothing. The report gets one line for each page; the output gets for each a
/// raster's head and its rows.
#[test]
fn failing_calls(rt: HostRuntime) {
    let first_lost: &[u8] = b"p: read p 0\nq: chunk 1 sum 765\n";
    let second_lost: &[u8] = b"p: chunk 1 sum 765\nq: read q 0\n";
    let cases: [(Option<u64>, Option<u64>, Option<u64>, u8, &[u8], &[u8]); 16] = [
        (Some(0), None, None, 3, NONE, NONE),
        (Some(1), None, None, 3, RASTER, first_lost),
        (Some(2), None, None, 3, RASTER, first_lost),
        // All bytes had arrived.
        (Some(3), None, None, 3, BOTH_RASTERS, BOTH_LINES),
        (Some(4), None, None, 3, RASTER, second_lost),
        (Some(5), None, None, 3, RASTER, second_lost),
        (Some(6), None, None, 3, BOTH_RASTERS, BOTH_LINES),
        (Some(7), None, None, 0, BOTH_RASTERS, BOTH_LINES),
        (None, Some(0), None, 4, NONE, LINE),
        (None, Some(1), None, 4, &BOTH_RASTERS[..11], LINE),
        (None, Some(2), None, 4, RASTER, BOTH_LINES),
        (None, Some(3), None, 4, &BOTH_RASTERS[..25], BOTH_LINES),
        (None, Some(4), None, 0, BOTH_RASTERS, BOTH_LINES),
        (None, None, Some(0), 4, NONE, NONE),
        (None, None, Some(1), 4, RASTER, LINE),
        // The folder failed before, too.
        (Some(1), None, Some(1), 4, NONE, b"p: read p 0\n"),
    ];
    for (number, (folder, out_call, report_call, status, out, report)) in cases
        .into_iter()
        .enumerate()
    {
        let failing = Failing {
            folder,
            out: out_call,
            report: report_call,
        };
        let words: &[&[u8]] = &[b"draw", b"p", b"q"];
        let came = came_over(rt.alloc(), BLANK, words, failing);
        expect_came(&rt, came, status, out, report, number);
    }
}

/// A table's file that can't be opened or read ends the run, and nothing is put. Where it is a page as well, it is read
/// again. Where a page isn't listed, the table isn't read.
#[test]
fn failing_tables(rt: HostRuntime) {
    let words: &[&[u8]] = &[b"draw", b"--table", b"p", b"p", b"q"];
    let table = b"\x80\0\0\0\0\0";
    let refused: &[u8] = b"p: not-form p 0\nq: chunk 1 sum 765\n";
    let lost: &[u8] = b"p: read p 0\nq: chunk 1 sum 765\n";
    let cases: [(u64, u8, &[u8], &[u8]); 6] = [
        (0, 3, NONE, NONE),
        (1, 3, NONE, NONE),
        (2, 3, NONE, NONE),
        (3, 3, NONE, NONE),
        (4, 3, RASTER, lost),
        (10, 1, RASTER, refused),
    ];
    for (number, (call, status, out, report)) in cases.into_iter().enumerate() {
        let failing = Failing {
            folder: Some(call),
            ..SOUND
        };
        let came = came_over(rt.alloc(), table, words, failing);
        expect_came(&rt, came, status, out, report, number);
    }
    let unlisted: &[&[u8]] = &[b"draw", b"--table", b"p", b"r"];
    let failing = Failing {
        folder: Some(1),
        ..SOUND
    };
    let came = came_over(rt.alloc(), table, unlisted, failing);
    expect_came(&rt, came, 2, NONE, b"words 3\n", 6);
}

/// Whether the names of these files ascend.
fn ascend(files: &[(Name, Items<u8>)]) -> bool
    ensures { result ≡ is_ascending (names_of files.now) }
{
    let Some((first, others)) = files.split_first() else {
        return true;
    };
    let Some((next, _)) = others.split_first() else {
        return true;
    };
    first.0.bytes().cmp(next.0.bytes()).is_lt() && ascend(others)
}

/// 1,025 files, with numbers of four digits as their names.
fn crowd(alloc: Global) -> Option<Vec<(Name, Items<u8>)>>
    ensures { IfSome result (λ files. IsAscending (names_of files.items)) }
{
    let mut files = Vec::new(alloc);
    for number in 1_000..2_025_u32 {
        let name = format!(in alloc; "{number}").ok()?;
        let name = Name::read(alloc, name.as_bytes()).ok()??;
        files.push((name, Items::of(Vec::new(alloc)))).ok()?;
    }
    ascend(files.as_slice()).then_some(files)
}

/// Draws a page in a folder that has too many names.
fn came_in_crowd(alloc: Global) -> Option<Came> {
    let files = crowd(alloc)?;
    came_to(alloc, files, &[b"draw", b"1000"], SOUND)
}

/// Draws both pages over a folder and sinks that never fail.
fn sure_came(alloc: Global) -> Option<Came> {
    let words = words_of(alloc, &[b"draw", b"p", b"q"])?;
    let mut folder = SureFolder::new(alloc, two_files(alloc, BLANK, BLANK)?);
    let mut out = SureSink::new(alloc);
    let mut report = SureSink::new(alloc);
    let came = ran(alloc, words.as_slice(), &mut folder, &mut out, &mut report);
    came_with(alloc, came, out.bytes(), report.bytes())
}

#[test]
fn other_folders(rt: HostRuntime) {
    let crowded = came_in_crowd(rt.alloc());
    expect_came(&rt, crowded, 2, NONE, b"folder 1025\n", 0);
    expect_came(&rt, sure_came(rt.alloc()), 0, BOTH_RASTERS, BOTH_LINES, 1);
}
