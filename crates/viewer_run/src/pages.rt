//! The pages of a run.
ghost use Rattle.std.specs.Prelude.{◌≡◌, ℕ, Some};
ghost use Rattle.djvu_base.specs.Library.{Files, library_of, names_of};
ghost use Rattle.djvu_base.specs.Meter.{TicksExactly};
ghost use Rattle.djvu_outside.specs.Parts.{SinksEnd, NeverFolder};
ghost use Rattle.viewer_run.specs.Ended.{around};
ghost use Rattle.viewer_run.specs.Plan.{numbers_of};
ghost use Rattle.viewer_run.specs.Shown.{Shows, PagesCount, AreDistinct};
ghost use Rattle.viewer_run.specs.Start.{HasNames, plan_for};

use crate::drawing::draw_pages;
use crate::front::Mode;
use crate::listing::list_pages;
use crate::shown::Shown;
use djvu_base::{Items, Meter, Name};
use djvu_outside::{Folder, Sink, Stop};
use std::alloc::Global;

/// Does this with these pages of a folder with these names, one after the other.
pub fn show_pages<F: Folder, S: Sink, E: Sink, M: Meter>(
    alloc: Global,
    names: Items<Name>,
    mode: &Mode,
    pages: &[Name],
    folder: &mut F,
    out: &mut S,
    report: &mut E,
    meter: &mut M,
) -> Result<Shown, Stop>
    requires listed { HasNames names pages.now }
    requires distinct { AreDistinct pages.now }
    requires over { (told : Files) → F.files folder.old ≡ Some told → names ≡ names_of told }
    ensures told { (told : Files) → F.files folder.old ≡ Some told →
        Shows (library_of told) (plan_for mode.now (numbers_of names pages.now)) result
        (around (F.failures folder.old) (S.given out.old) (E.given report.old) (M.count meter.old))
        (around (F.failures folder.new) (S.given out.new) (E.given report.new) (M.count meter.new)) }
    ensures counts { PagesCount result (F.faults folder.old) (F.faults folder.new) }
    ensures sinks_end { SinksEnd result (S.faults out.old) (S.faults out.new) (E.faults report.old) (E.faults report.new) }
    ensures no_folder { NeverFolder result }
    ensures only_ticks { (ticks : ℕ) × TicksExactly ticks (M.count meter.old) (M.count meter.new) }
    ensures still { mode.now ≡ Mode.Info → meter.new ≡ meter.old }
    ensures same_files { F.files folder.new ≡ F.files folder.old }
{
    match mode {
        Mode::Draw(table) => { draw_pages(alloc, table, names, pages, folder, out, report, meter) }
        Mode::Info => list_pages(alloc, pages, folder, report),
    }
}
