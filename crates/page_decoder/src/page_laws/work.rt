//! Laws of the work of pages: each is a clause of a function that does nothing.
ghost use Rattle.std.specs.Prelude.{◌≤◌, ℕ, Bool, List, ◌++◌};
ghost use Rattle.std.specs.List.{filter};
ghost use Rattle.djvu_base.specs.Library.{Library};
ghost use Rattle.zp_table.specs.declared.rows.Row.{Row};
ghost use Rattle.page_decoder.specs.Libraries.{work_of};

/// The work of some of the pages is at most that of all: of those before and behind others, and of those that pass a test.
pub fn work_of_some()
    ensures before { (table : List Row) (library : Library) (pages others : List ℕ) → work_of table library pages ≤ work_of table library (pages ++ others) }
    ensures behind { (table : List Row) (library : Library) (others pages : List ℕ) → work_of table library pages ≤ work_of table library (others ++ pages) }
    ensures passing { (table : List Row) (library : Library) (passes : ℕ → Bool) (pages : List ℕ)
        → work_of table library (filter passes pages) ≤ work_of table library pages }
{}
