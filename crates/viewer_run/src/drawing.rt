//! Pages that are drawn, one after the other.
ghost use Rattle.std.specs.Prelude.{◌≡◌, ℕ, Some, slice_get};
ghost use Rattle.djvu_base.specs.Library.{Files, library_of, names_of};
ghost use Rattle.djvu_base.specs.Meter.{TicksExactly};
ghost use Rattle.djvu_outside.specs.Parts.{SinksEnd, NeverFolder};
ghost use Rattle.replay_core.specs.Counts.{Counts};
ghost use Rattle.replay_core.specs.Machine.{State, unread_page};
ghost use Rattle.viewer_words.specs.Lines.{name_at};
ghost use Rattle.viewer_run.specs.CoreRun.{Follows, FaultsSo};
ghost use Rattle.viewer_run.specs.Drawing.{IsNext, PutsSo};
ghost use Rattle.viewer_run.specs.Ended.{around};
ghost use Rattle.viewer_run.specs.Plan.{Draws, numbers_of};
ghost use Rattle.viewer_run.specs.Shown.{Shows, PagesCount, AreDistinct};
ghost use Rattle.viewer_run.specs.Start.{HasNames};

use crate::core_run::CoreRun;
use crate::shown::Shown;
use crate::tables::SharedTable;
use crate::texts::put_page;
use djvu_base::{Items, Meter, Name};
use djvu_outside::{Folder, Sink, Stop};
use std::alloc::Global;

/// Draws these pages of a folder with these names, one after the other, with this state table. A file that was read isn't read again, and no
/// page's layers stand while another page is drawn.
pub fn draw_pages<F: Folder, S: Sink, E: Sink, M: Meter>(
    alloc: Global,
    table: &SharedTable,
    names: Items<Name>,
    pages: &[Name],
    folder: &mut F,
    out: &mut S,
    report: &mut E,
    meter: &mut M,
) -> Result<Shown, Stop>
    requires listed { HasNames names pages.now }
    requires distinct { AreDistinct pages.now }
    requires over { (told : Files) → F.files folder.old ≡ Some told → names ≡ names_of told }
    ensures told { (told : Files) → F.files folder.old ≡ Some told →
        Shows (library_of told) (Draws table.now (numbers_of names pages.now)) result
        (around (F.failures folder.old) (S.given out.old) (E.given report.old) (M.count meter.old))
        (around (F.failures folder.new) (S.given out.new) (E.given report.new) (M.count meter.new)) }
    ensures counts { PagesCount result (F.faults folder.old) (F.faults folder.new) }
    ensures sinks_end { SinksEnd result (S.faults out.old) (S.faults out.new) (E.faults report.old) (E.faults report.new) }
    ensures no_folder { NeverFolder result }
    ensures only_ticks { (ticks : ℕ) × TicksExactly ticks (M.count meter.old) (M.count meter.new) }
    ensures same_files { F.files folder.new ≡ F.files folder.old }
{
    page_decoder::page_laws::libraries::libraries_go_on();
    page_decoder::page_laws::libraries::reached_files_stay();
    replay_core::laws::counts::counts_are_work();
    replay_core::laws::counts::counts_stay_within();
    replay_core::laws::standing::standing_counts();
    replay_core::laws::standing::ended_counts();
    let mut run = CoreRun::begin(alloc, table, names, pages)?;
    let mut refused = false;
    for at in 0..pages.len() {
        let page = &pages[at];
        let is_refused = draw_page(alloc, &mut run, at as u32, page, folder, out, report, meter)?;
        refused |= is_refused;
    }
    Ok(Shown {
        refused,
        broken: run.broken,
    })
}

/// Draws a page of this name, and puts what it came to. Answers whether it was refused.
fn draw_page<F: Folder, S: Sink, E: Sink, M: Meter>(
    alloc: Global,
    run: &mut CoreRun,
    page: u32,
    name: &Name,
    folder: &mut F,
    out: &mut S,
    report: &mut E,
    meter: &mut M,
) -> Result<bool, Stop>
    requires over { (told : Files) → F.files folder.old ≡ Some told → run.old.names ≡ names_of told }
    requires next { IsNext page run.old }
    ensures puts { (state : State) (counts : Counts) (file : ℕ) → Follows state counts run.old → slice_get state.pages page ≡ Some (unread_page file)
        → name.now ≡ name_at run.old.names file
        → PutsSo result (F.files folder.old) page file state counts run.old run.new
        (around (F.failures folder.old) (S.given out.old) (E.given report.old) (M.count meter.old))
        (around (F.failures folder.new) (S.given out.new) (E.given report.new) (M.count meter.new)) }
    ensures counts { FaultsSo result run.old.broken run.new.broken (F.faults folder.old) (F.faults folder.new) }
    ensures sinks_end { SinksEnd result (S.faults out.old) (S.faults out.new) (E.faults report.old) (E.faults report.new) }
    ensures no_folder { NeverFolder result }
    ensures same_files { F.files folder.new ≡ F.files folder.old }
{
    page_decoder::page_laws::libraries::libraries_go_on();
    let mut lines = Vec::new(alloc);
    let found = run.draw(alloc, page, &mut lines, folder, meter)?;
    put_page(
        alloc,
        run.names.slice(),
        name,
        lines.as_slice(),
        &found,
        out,
        report,
    )?;
    Ok(found.fault.is_some())
}
