//! Laws and worked values of the definitions, as clauses of functions that do nothing.
ghost use Rattle.std.specs.Prelude.{◌≡◌, ◌≤◌, ◌+◌, ◌^◌, ◌-◌, ℕ, min, true, false, [], ◌∷◌, codes, Some, None};
ghost use Rattle.djvu_base.specs.Name.{is_name, is_before, is_ascending};
ghost use Rattle.djvu_base.specs.Library.{Whole, library_within, contents_of, file_named};
ghost use Rattle.djvu_base.specs.Meter.{ticked_once, ticked};
ghost use Rattle.djvu_base.specs.Turn.{turn_of};
ghost use Rattle.djvu_base.specs.declared.turns.Turn.TheVariants as turn;

/// Ticks add up, and a count that they raise never falls.
pub fn ticks_add_up()
    ensures none { (count : ℕ) → ticked 0 count ≡ count }
    ensures one { (count : ℕ) → ticked 1 count ≡ ticked_once count }
    ensures both { (more ticks count : ℕ) → ticked more (ticked ticks count) ≡ ticked (more + ticks) count }
    ensures never_falls { (ticks count : ℕ) → count ≤ ticked ticks count }
    ensures from_zero { (ticks : ℕ) → ticked ticks 0 ≡ min ticks (2 ^ 64 - 1) }
{}

/// Bytes that are names, and bytes that aren't.
pub fn worked_names()
    ensures plain { is_name (codes "p") ≡ true }
    ensures three_dots { is_name (codes "...") ≡ true }
    ensures two_bytes_of_utf8 { is_name (0xC3 ∷ 0xA9 ∷ []) ≡ true }
    ensures empty { is_name [] ≡ false }
    ensures dot { is_name (codes ".") ≡ false }
    ensures two_dots { is_name (codes "..") ≡ false }
    ensures slash { is_name (codes "a/b") ≡ false }
    ensures control { is_name (0x1F ∷ []) ≡ false }
    ensures no_utf8 { is_name (0xFF ∷ []) ≡ false }
{}

/// Which names stand before others, and which lists of names ascend.
pub fn worked_orders()
    ensures first_byte { is_before (codes "a") (codes "b") ≡ true }
    ensures other_way { is_before (codes "b") (codes "a") ≡ false }
    ensures front { is_before (codes "a") (codes "aa") ≡ true }
    ensures capital { is_before (codes "B") (codes "a") ≡ true }
    ensures digits { is_before (codes "10") (codes "9") ≡ true }
    ensures same { is_before (codes "a") (codes "a") ≡ false }
    ensures ascending { is_ascending (codes "B" ∷ codes "a" ∷ codes "aa" ∷ []) ≡ true }
    ensures twice { is_ascending (codes "a" ∷ codes "a" ∷ []) ≡ false }
    ensures late { is_ascending (codes "a" ∷ codes "c" ∷ codes "b" ∷ []) ≡ false }
{}

/// Files of a folder of two, and its library where a file is cut after three bytes.
pub fn worked_files()
    ensures found { contents_of (codes "b") ((codes "a", 1 ∷ []) ∷ (codes "b", 2 ∷ []) ∷ []) ≡ Some (2 ∷ []) }
    ensures missing { contents_of (codes "c") ((codes "a", 1 ∷ []) ∷ (codes "b", 2 ∷ []) ∷ []) ≡ None }
    ensures cut { library_within 3 ((codes "a", 1 ∷ 2 ∷ 3 ∷ 4 ∷ []) ∷ (codes "b", 5 ∷ []) ∷ []) ≡
        record { name = codes "a"; bytes = 1 ∷ 2 ∷ 3 ∷ []; mark = Whole } ∷ record { name = codes "b"; bytes = 5 ∷ []; mark = Whole } ∷ [] }
    ensures named { file_named (codes "b") (library_within 3 ((codes "a", 1 ∷ []) ∷ (codes "b", 5 ∷ []) ∷ [])) ≡
        Some (record { name = codes "b"; bytes = 5 ∷ []; mark = Whole }) }
{}

/// Flags, and the turns that they say: their higher bits say nothing.
pub fn worked_turns()
    ensures right { turn_of (Some 0x05) ≡ turn.Right }
    ensures over { turn_of (Some 0x02) ≡ turn.Over }
    ensures left { turn_of (Some 0x06) ≡ turn.Left }
    ensures usual { turn_of (Some 0x01) ≡ turn.Upright }
    ensures all_three { turn_of (Some 0x07) ≡ turn.Upright }
    ensures higher_bits { turn_of (Some 0xFD) ≡ turn.Right }
    ensures none { turn_of None ≡ turn.Upright }
{}
