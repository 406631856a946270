//! A whole run.
ghost use Rattle.std.specs.Prelude.{◌≡◌, ◌≢◌, ℕ, ◌<◌, ◌≤◌, ◌++◌, List, [], Some, Err, IfOk, true, false};
ghost use Rattle.djvu_base.specs.Library.{Files, library_of};
ghost use Rattle.djvu_base.specs.Meter.{TicksExactly};
ghost use Rattle.djvu_outside.specs.Faults.{Failure};
ghost use Rattle.djvu_outside.specs.Parts.{Gives, OneRises, SinkStops, SinksEnd};
ghost use Rattle.viewer_words.specs.Words.{words_of};
ghost use Rattle.viewer_run.specs.Plan.{draws, asks_no_folder};
ghost use Rattle.viewer_run.specs.EarlyFailures.{front_failed};
ghost use Rattle.viewer_run.specs.Runs.{Run, FolderEnds, outside};
ghost use Rattle.viewer_run.specs.Ended.{Runs, RunCounts, around};

use crate::front::{Front, find_front};
use crate::pages::show_pages;
use djvu_base::{Items, Meter};
use djvu_outside::{Folder, Sink, Status, Stop, put_text};
use std::alloc::Global;

/// Does what the words say, each word the list of its bytes. Rasters go to `out`, lines to `report`, and each decision that a
/// page's reading takes ticks the meter.
///
/// Where nothing outside fails, both sinks grow by what the definition `offline` says of the folder's files, the status is the
/// definition's, and the meter rises by its work. The status is 0 where every page was drawn or listed, 1 where one was
/// refused, 2 where the run was. Where the folder failed, it is 3: nothing is written where it was the listing or the table
/// that failed, and else the pages are those of the files as far as they came. It is 4 where a sink failed, and 5 where there
/// was no memory; then both sinks grow by prefixes of what would have been written, and the meter by at most the work.
pub fn run<F: Folder, S: Sink, E: Sink, M: Meter>(
    alloc: Global,
    words: &[Items<u8>],
    folder: &mut F,
    out: &mut S,
    report: &mut E,
    meter: &mut M,
) -> Status
    // What is put, the status below 4 and the work that the meter counts, by the failures that the folder met; with 4 and 5 a
    // prefix of it, and at most as much work.
    ensures told { (told : Files) → F.files folder.old ≡ Some told →
        Run told words.now result.0 (outside (F.failures folder.old) (S.given out.old) (E.given report.old) (M.count meter.old))
        (outside (F.failures folder.new) (S.given out.new) (E.given report.new) (M.count meter.new)) }
    ensures untouched { (told : Files) (added : List Failure) → F.files folder.old ≡ Some told → F.failures folder.new ≡ F.failures folder.old ++ added
        → front_failed (library_of told) words.now added ≡ true →
        result.0 < 4 → (out.new ≡ out.old) × (report.new ≡ report.old) }

    // Words that ask for nothing of a folder: a run over no files, whatever the folder is.
    ensures alone { asks_no_folder (words_of words.now) ≡ true →
        (folder.new ≡ folder.old) × Run [] words.now result.0 (outside [] (S.given out.old) (E.given report.old) (M.count meter.old))
        (outside [] (S.given out.new) (E.given report.new) (M.count meter.new)) }

    // 3 comes where the folder failed, and a lower status where it didn't. 4 comes where a sink failed, and no other does.
    ensures folder_ends { FolderEnds result.0 (F.faults folder.old) (F.faults folder.new) }
    ensures sink_failed { result.0 ≡ 4 → OneRises (S.faults out.old) (S.faults out.new) (E.faults report.old) (E.faults report.new) }
    ensures sinks_kept { result.0 ≢ 4 → (S.faults out.new ≡ S.faults out.old) × (E.faults report.new ≡ E.faults report.old) }

    // The meter is only ticked; not at all where nothing is to be drawn, or the run is refused, which puts no raster either.
    ensures only_ticks { (ticks : ℕ) × TicksExactly ticks (M.count meter.old) (M.count meter.new) }
    ensures still { draws (words_of words.now) ≡ false → meter.new ≡ meter.old }
    ensures refused { result.0 ≡ 2 → (out.new ≡ out.old) × (meter.new ≡ meter.old) }

    ensures statuses { result.0 ≤ 5 }
    ensures same_files { F.files folder.new ≡ F.files folder.old }
{
    match carry_out(alloc, words, folder, out, report, meter) {
        Ok(status) => status,
        Err(stop) => stop.status(),
    }
}

/// Does what the words say, up to where the run stops.
fn carry_out<F: Folder, S: Sink, E: Sink, M: Meter>(
    alloc: Global,
    words: &[Items<u8>],
    folder: &mut F,
    out: &mut S,
    report: &mut E,
    meter: &mut M,
) -> Result<Status, Stop>
    ensures told { (told : Files) → F.files folder.old ≡ Some told →
        Runs told words.now result (around (F.failures folder.old) (S.given out.old) (E.given report.old) (M.count meter.old))
        (around (F.failures folder.new) (S.given out.new) (E.given report.new) (M.count meter.new)) }
    ensures alone { asks_no_folder (words_of words.now) ≡ true →
        (folder.new ≡ folder.old) × Runs [] words.now result (around [] (S.given out.old) (E.given report.old) (M.count meter.old))
        (around [] (S.given out.new) (E.given report.new) (M.count meter.new)) }
    ensures early { IfOk result (λ status. status.0 < 4) }
    ensures counts { RunCounts result (F.faults folder.old) (F.faults folder.new) }
    ensures sinks_end { SinksEnd result (S.faults out.old) (S.faults out.new) (E.faults report.old) (E.faults report.new) }
    ensures untouched { result ≡ Err Stop.Folder → (out.new ≡ out.old) × (report.new ≡ report.old) }
    ensures only_ticks { (ticks : ℕ) × TicksExactly ticks (M.count meter.old) (M.count meter.new) }
    ensures still { draws (words_of words.now) ≡ false → meter.new ≡ meter.old }
    ensures refused { IfOk result (λ status. status.0 ≡ 2 → (out.new ≡ out.old) × (meter.new ≡ meter.old)) }
    ensures same_files { F.files folder.new ≡ F.files folder.old }
{
    match find_front(alloc, words, folder)? {
        Front::Refused(line) => refuse(line.slice(), report),
        Front::Accepted { names, mode, pages } => {
            let pages = pages.slice();
            let shown = show_pages(alloc, names, &mode, pages, folder, out, report, meter)?;
            Ok(shown.status())
        }
    }
}

/// Refuses a run by this line.
fn refuse<E: Sink>(line: &[u8], report: &mut E) -> Result<Status, Stop>
    ensures report_text { Gives result (E.given report.old) (E.given report.new) line.now }
    ensures status { IfOk result (λ status. status.0 ≡ 2) }
    ensures stops { SinkStops result (E.faults report.old) (E.faults report.new) }
{
    put_text(report, line)?;
    Ok(Status::RUN_REFUSED)
}
