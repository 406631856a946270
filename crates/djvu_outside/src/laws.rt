//! Laws and worked values of the definitions, as clauses of functions that do nothing.
ghost use Rattle.std.specs.Prelude.{◌≡◌, true, false, [], ◌∷◌, Some, None, codes};
ghost use Rattle.djvu_base.specs.Library.{Library, Whole, Broken};
ghost use Rattle.djvu_outside.specs.Calls.{numbered_from_0, number_after, fails_at, is_failing, after_call, failures_left};
ghost use Rattle.djvu_outside.specs.Cut.{cut};
ghost use Rattle.djvu_outside.specs.Faults.{Listing, Reading};
ghost use Rattle.djvu_outside.specs.Folders.{with_slash};

/// Where no reading failed, no file is cut.
pub fn nothing_is_cut()
    ensures { (library : Library) → cut [] library ≡ library }
{}

/// A library of two files, cut at the first failure of each file's reading.
pub fn worked_cuts()
    ensures cut { cut (Listing ∷ Reading (codes "b") 2 ∷ Reading (codes "b") 1 ∷ [])
        (record { name = codes "a"; bytes = 1 ∷ 2 ∷ 3 ∷ []; mark = Whole } ∷ record { name = codes "b"; bytes = 4 ∷ 5 ∷ 6 ∷ []; mark = Whole } ∷ []) ≡
        record { name = codes "a"; bytes = 1 ∷ 2 ∷ 3 ∷ []; mark = Whole } ∷ record { name = codes "b"; bytes = 4 ∷ 5 ∷ []; mark = Broken } ∷ [] }
{}

/// Three calls of which the first and the third fail, the last number of a call, and paths.
pub fn worked_calls()
    ensures first { is_failing (numbered_from_0 (0 ∷ 2 ∷ [])) ≡ true }
    ensures second { is_failing (after_call (numbered_from_0 (0 ∷ 2 ∷ []))) ≡ false }
    ensures third { is_failing (after_call (after_call (numbered_from_0 (0 ∷ 2 ∷ [])))) ≡ true }
    ensures left { failures_left (after_call (numbered_from_0 (0 ∷ 2 ∷ []))) ≡ 1 }
    ensures next_number { number_after (Some 0) ≡ Some 1 }
    ensures last_number { number_after (Some 18_446_744_073_709_551_615) ≡ None }
    ensures after_last { fails_at None (0 ∷ []) ≡ false }
    ensures path { with_slash (codes "a") ≡ codes "a/" }
    ensures no_path { with_slash [] ≡ [] }
{}
