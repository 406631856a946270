//! Laws and worked values of the definition of places, as clauses of functions that do nothing.
ghost use Rattle.std.specs.Prelude.{◌≡◌, ℕ, ℤ, pos, negsuc, ◌≤ℤ◌, true, false, List, [], ◌∷◌};
ghost use Rattle.jb2_places.specs.Place.{Placement, Placed, placed, row_left, row_bottom, bottom_at, baseline, median, absolute_place};
ghost use Rattle.jb2_places.specs.Worked.{first, second, third, fourth, fifth, next_line, last, spot_after};

/// In whatever order three numbers come, their median is the middle one. Where two are equal, it is that one, wherever the
/// third lies.
pub fn medians()
    ensures ascending { (a b c : ℤ) → a ≤ℤ b → b ≤ℤ c → median a b c ≡ b }
    ensures last_two { (a b c : ℤ) → a ≤ℤ b → b ≤ℤ c → median a c b ≡ b }
    ensures first_two { (a b c : ℤ) → a ≤ℤ b → b ≤ℤ c → median b a c ≡ b }
    ensures turned { (a b c : ℤ) → a ≤ℤ b → b ≤ℤ c → median b c a ≡ b }
    ensures turned_back { (a b c : ℤ) → a ≤ℤ b → b ≤ℤ c → median c a b ≡ b }
    ensures descending { (a b c : ℤ) → a ≤ℤ b → b ≤ℤ c → median c b a ≡ b }
    ensures first_apart { (a b : ℤ) → median a b b ≡ b }
    ensures middle_apart { (a b : ℤ) → median b a b ≡ b }
    ensures last_apart { (a b : ℤ) → median b b a ≡ b }
{}

/// The first box of a row sets the row's left side, bottom and baseline. A further box leaves the left side and bottom.
/// Where the two latest bottoms are equal, one mark can't move the line: they are its baseline still.
pub fn rows()
    ensures sets_left { (image_height : ℕ) (before : List Placed) (box : Placement) → box.new_row ≡ true →
        row_left (placed image_height before box ∷ before) ≡ (placed image_height before box).left }
    ensures sets_bottom { (image_height : ℕ) (before : List Placed) (box : Placement) → box.new_row ≡ true →
        row_bottom image_height (placed image_height before box ∷ before) ≡ (placed image_height before box).bottom }
    ensures sets_baseline { (image_height : ℕ) (before : List Placed) (box : Placement) → box.new_row ≡ true →
        baseline image_height (placed image_height before box ∷ before) ≡ (placed image_height before box).bottom }
    ensures keeps_left { (image_height : ℕ) (before : List Placed) (box : Placement) → box.new_row ≡ false →
        row_left (placed image_height before box ∷ before) ≡ row_left before }
    ensures keeps_bottom { (image_height : ℕ) (before : List Placed) (box : Placement) → box.new_row ≡ false →
        row_bottom image_height (placed image_height before box ∷ before) ≡ row_bottom image_height before }
    ensures keeps_baseline { (image_height : ℕ) (before : List Placed) (start box : Placed) → start.new_row ≡ true → box.new_row ≡ false →
        baseline image_height (box ∷ start ∷ before) ≡ start.bottom }
    ensures keeps_line { (image_height : ℕ) (before : List Placed) (box : Placed) → box.new_row ≡ false →
        bottom_at image_height before 0 ≡ bottom_at image_height before 1 → baseline image_height (box ∷ before) ≡ bottom_at image_height before 0 }
{}

/// Five boxes of a line, the last of which stands by a median that is neither the latest nor the oldest of the three
/// bottoms, then two of the next line, and boxes whose left side and top are given.
pub fn worked_places()
    ensures first { spot_after 0 first ≡ record { left = pos 0; bottom = pos 90 } }
    ensures second { spot_after 1 second ≡ record { left = pos 5; bottom = pos 87 } }
    ensures third { spot_after 2 third ≡ record { left = pos 11; bottom = pos 95 } }
    ensures fourth { spot_after 3 fourth ≡ record { left = pos 11; bottom = pos 99 } }
    ensures fifth { spot_after 4 fifth ≡ record { left = pos 15; bottom = pos 96 } }
    ensures next_line { spot_after 5 next_line ≡ record { left = pos 0; bottom = pos 77 } }
    ensures last { spot_after 6 last ≡ record { left = pos 7; bottom = pos 79 } }
    ensures absolute { absolute_place (pos 3) (pos 20) (pos 5) ≡ record { left = pos 2; bottom = pos 15 } }
    ensures below { absolute_place (pos 1) (pos 1) (pos 5) ≡ record { left = pos 0; bottom = negsuc 3 } }
{}
