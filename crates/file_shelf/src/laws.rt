//! Laws of shelves, as clauses of functions that do nothing.
ghost use Rattle.std.specs.Prelude.{◌≡◌, ℕ, Some};
ghost use Rattle.once_board.specs.declared.holds.Hold.{Hold};
ghost use Rattle.once_board.specs.Numbers.{times};
ghost use Rattle.once_board.specs.Places.{record_of};
ghost use Rattle.once_board.specs.Told.{IsSound};

use djvu_base::Share;

/// Each result that a seat with all parts knows is of a file that is once among its claims: some seat that was joined into it
/// claimed the file, and no other did.
pub fn results_have_one_claim<R: Share>()
    ensures { (h : Hold R) (file : ℕ) (x : R) → IsSound R.fits h → h.parts ≡ 4_294_967_296 → (record_of h.places file).value ≡ Some x
        → times file h.claims ≡ 1 }
{}
