//! Worked values of the definitions and the rule in plain words, as clauses of functions that do nothing.
ghost use Rattle.std.specs.Prelude.{◌≡◌, List, [], ◌∷◌, Option, Some, None};
ghost use Rattle.atomic_table.specs.Table.{State};
ghost use Rattle.once_board.specs.declared.holds.Seen.{Seen};
ghost use Rattle.once_board.specs.declared.owners.Owner.{Owner};
ghost use Rattle.once_board.specs.declared.owners.Owner.TheVariants.{Free, Private};
ghost use Rattle.once_board.specs.Numbers.{times, without, part_given};
ghost use Rattle.once_board.specs.Places.{owner_of};
ghost use Rattle.once_board.specs.Holds.{won, saw, put_at, looked, split_kept, split_off, joined, told};
ghost use Rattle.once_board.specs.Rule.{Rule};
ghost use Rattle.once_board.specs.Stated.{Stated};
ghost use Rattle.once_board.specs.Worked.{fresh, record_at, known};

use djvu_base::Share;

/// The rule that holds of a board between any two steps, in plain words. The call does nothing.
pub fn rule_in_words<T: Share>()
    ensures { (owners : List Owner) (s : State (Option T) (Seen T)) → Rule T.fits owners s → Stated T.fits owners s }
{}

/// Numbers in lists, and owners.
pub fn worked_numbers()
    ensures twice { times 4 (3 ∷ 4 ∷ 4 ∷ []) ≡ 2 }
    ensures none { times 5 (3 ∷ 4 ∷ 4 ∷ []) ≡ 0 }
    ensures one_less { without 4 (3 ∷ 4 ∷ 4 ∷ []) ≡ 3 ∷ 4 ∷ [] }
    ensures no_part { part_given 1 ≡ 0 }
    ensures one_part { part_given 2 ≡ 1 }
    ensures owner { owner_of (Free ∷ Private 7 ∷ []) 1 ≡ Private 7 }
    ensures after_the_last { owner_of (Free ∷ Private 7 ∷ []) 2 ≡ Free }
{}

/// What is known of a place after claims, puts and looks: the word, the value, the number of readings and the last word read.
pub fn worked_records()
    ensures claim { record_at 3 (won 3 fresh) ≡ known 1 None 0 0 }
    ensures other_place { record_at 2 (won 3 fresh) ≡ known 0 None 0 0 }
    ensures put { record_at 3 (put_at 3 7 (won 3 fresh)) ≡ known 2 (Some 7) 0 0 }
    ensures put_keeps_readings { record_at 1 (put_at 1 7 (saw 1 0 fresh)) ≡ known 2 (Some 7) 1 0 }
    ensures two_looks { record_at 1 (saw 1 3 (saw 1 1 fresh)) ≡ known 3 None 2 3 }
    ensures value { record_at 1 (looked 1 7 (saw 1 1 fresh)) ≡ known 2 (Some 7) 2 2 }
    ensures claims { (won 1 (won 3 fresh)).claims ≡ 1 ∷ 3 ∷ [] }
{}

/// What seats know and hold once they are split, joined and told.
pub fn worked_seats()
    ensures joined { record_at 0 (joined (saw 0 1 fresh) (put_at 0 7 (won 0 fresh))) ≡ known 2 (Some 7) 1 1 }
    ensures joined_the_other_way { record_at 0 (joined (put_at 0 7 (won 0 fresh)) (saw 0 1 fresh)) ≡ known 2 (Some 7) 1 0 }
    ensures joined_claims { (joined (won 1 fresh) (won 3 fresh)).claims ≡ 1 ∷ 3 ∷ [] }
    ensures joined_parts { (joined fresh fresh).parts ≡ 4 }
    ensures told_value { record_at 0 (told fresh (looked 0 7 fresh)) ≡ known 2 (Some 7) 0 0 }
    ensures told_no_claim { (told fresh (won 3 fresh)).claims ≡ [] }
    ensures right_goes { (split_off (Some 5) fresh).rights ≡ 5 ∷ [] }
    ensures right_is_gone { (split_kept (Some 5) fresh).rights ≡ 4 ∷ 6 ∷ [] }
    ensures part_goes { (split_off None fresh).parts ≡ 1 }
    ensures part_is_gone { (split_kept None fresh).parts ≡ 1 }
    ensures claims_stay { (split_off None (won 3 fresh)).claims ≡ [] }
    ensures readings_stay { record_at 1 (split_off None (saw 1 2 fresh)) ≡ known 2 None 0 0 }
{}
