//! What a core decodes comes to the work of its pages: clauses of functions that do nothing.
ghost use Rattle.std.specs.Prelude.{◌≡◌, ◌≤◌, List};
ghost use Rattle.djvu_base.specs.Library.{Library};
ghost use Rattle.zp_table.specs.declared.rows.Row.{Row};
ghost use Rattle.zp_table.specs.Rows.{IsTable};
ghost use Rattle.page_decoder.specs.Libraries.{run, work_of, LibraryGoesOn};
ghost use Rattle.replay_core.specs.Counts.{Counts, files_of, counted, step_decisions, CountsWithin, CountsAll};
ghost use Rattle.replay_core.specs.Machine.{PageState};

/// Where nothing is decoded but what pages ask for, each file once, this is at most the work of the pages; and where all of that
/// is decoded, it is their work.
pub fn counts_are_work()
    ensures most { (table : List Row) (library : Library) (counts : Counts) → CountsWithin table library counts
        → counted counts ≤ work_of table library (files_of counts.pages) }
    ensures all { (table : List Row) (library : Library) (counts : Counts) → CountsWithin table library counts
        → CountsAll table library counts → counted counts ≡ work_of table library (files_of counts.pages) }
{}

/// Up to what a step tells, a page has no more decisions than it has in the library of then.
pub fn steps_count_within()
    ensures { (table : List Row) (library : Library) (page : PageState)
        → step_decisions table library page ≤ (run table library page.file).left.told.decisions }
{
    page_decoder::page_laws::drawings::ascend();
}

/// What wasn't decoded beyond what pages ask for isn't so in a library that goes on, either.
pub fn counts_stay_within()
    ensures { (table : List Row) (library later : Library) (counts : Counts) → IsTable table → LibraryGoesOn library later
        → CountsWithin table library counts → CountsWithin table later counts }
{
    page_decoder::page_laws::libraries::libraries_go_on();
    page_decoder::page_laws::libraries::reached_files_stay();
}
