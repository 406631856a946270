//! Laws and worked values of the definitions, as clauses of functions that do nothing.
ghost use Rattle.std.specs.Prelude.{◌≡◌, ◌↔◌, ◌+◌, ◌<◌, ◌≤◌, ◌≤ℤ◌, ℕ, ℤ, pos, negsuc, Bool, true, false, List, [], ◌∷◌, ◌++◌, length, min, Option, Some, None, int_le, IsTrue};
ghost use Rattle.zp_table.specs.Listing.{flat_rows};
ghost use Rattle.zp_table.specs.declared.rows.Row.{Row};
ghost use Rattle.zp_table.specs.Rows.{IsTable};
ghost use Rattle.zp_decoder.specs.Decision.{Interval};
ghost use Rattle.zp_decoder.specs.Chunk.{Chunk, chunk, IsReady};
ghost use Rattle.zp_decoder.specs.Decoder.{Decoder, Fed};
ghost use Rattle.zp_decoder.specs.Runs.{IsStanding, room};
ghost use Rattle.zp_decoder.specs.States.{AreBelow, fresh};
ghost use Rattle.jb2_numbers.specs.declared.roots.Root.{Root};
ghost use Rattle.jb2_numbers.specs.Answer as answer;
ghost use Rattle.jb2_numbers.specs.Phases.{Known, implied, decided};
ghost use Rattle.jb2_numbers.specs.Contexts.{Name, is_same};
ghost use Rattle.jb2_numbers.specs.Kept.{Numbers, states_of};
ghost use Rattle.jb2_numbers.specs.Number.{Wanted, wanted, Reading, begun, steps, read_on, answer_at, answer_and_coded, phase_after, step, ArePossible, first_decisions, decisions_of};
ghost use Rattle.jb2_numbers.specs.Reader.{AreBounds, Reader, Reads, Stands};

/// With the table `flat`, in which each coded decision is a bit of the input inverted: the answer, and how many decisions
/// are coded.
pub fn worked_numbers()
    // The decisions are 1 0 0, then 1 0 1, and 0 0 for a negative number.
    ensures one { answer_and_coded (wanted Root.ShapeWidth (pos 0) (pos 262142)) (chunk flat_rows (0x7F ∷ []) true) (begun fresh None) ≡
        (answer.Number (pos 1), 3) }
    ensures two { answer_and_coded (wanted Root.ShapeWidth (pos 0) (pos 262142)) (chunk flat_rows (0x5F ∷ []) true) (begun fresh None) ≡
        (answer.Number (pos 2), 3) }
    ensures negative { answer_and_coded (wanted Root.NewRowX (negsuc 262142) (pos 262142)) (chunk flat_rows (0xFF ∷ []) true) (begun fresh None) ≡
        (answer.Number (negsuc 0), 2) }

    // Type 11 of 0 to 11 is 1111, and width 31 is 11111000000. The decisions, the last one first, have the implied ones
    // among them: a type's sign, and that it is below 15, 13 and 12.
    ensures eleven { answer_and_coded (wanted Root.RecordType (pos 0) (pos 11)) (chunk flat_rows (0x0F ∷ []) true) (begun fresh None) ≡
        (answer.Number (pos 11), 4) }
    ensures thirty_one { answer_and_coded (wanted Root.ShapeWidth (pos 0) (pos 262142)) (chunk flat_rows (0x07 ∷ 0xFF ∷ []) true) (begun fresh None) ≡
        (answer.Number (pos 31), 11) }

    ensures path_of_eleven { (read_on (wanted Root.RecordType (pos 0) (pos 11)) (chunk flat_rows (0x0F ∷ []) true) (begun fresh None)).decisions ≡
        false ∷ false ∷ true ∷ false ∷ true ∷ true ∷ true ∷ true ∷ [] }
    ensures path_of_thirty_one { (read_on (wanted Root.ShapeWidth (pos 0) (pos 262142)) (chunk flat_rows (0x07 ∷ 0xFF ∷ []) true)
        (begun fresh None)).decisions ≡
        false ∷ false ∷ false ∷ false ∷ false ∷ false ∷ true ∷ true ∷ true ∷ true ∷ true ∷ true ∷ [] }

    // A range of one value, even before a byte arrived.
    ensures alone { answer_and_coded (wanted Root.Match (pos 0) (pos 0)) (chunk flat_rows [] false) (begun fresh None) ≡ (answer.Number (pos 0), 0) }

    // Four bytes determine one decision.
    ensures needs_bytes { answer_and_coded (wanted Root.ShapeWidth (pos 0) (pos 262142)) (chunk flat_rows (0x00 ∷ 0x00 ∷ 0x00 ∷ 0x00 ∷ []) false)
        (begun fresh None) ≡ (answer.NeedBytes, 1) }
{}

/// Two names are the same exactly where root and decisions are.
pub fn names_differ()
    ensures same { (a b : Name) → IsTrue (is_same a b) ↔ (a ≡ b) }
    ensures parts { (a b : Name) → (a ≡ b) ↔ ((a.root ≡ b.root) × (a.decisions ≡ b.decisions)) }
{}

/// A number that is answered lies from its low bound to its high one: whatever was decoded, so long as each decision is
/// one that the bounds allow.
pub fn numbers_lie_within()
    ensures answered { (number : Wanted) (from : Chunk) (states : Name → ℕ) (place : Option Interval) (value : ℤ) → AreBounds number.low number.high →
        answer_at number from (read_on number from (begun states place)) ≡ answer.Number value →
        IsTrue (int_le number.low value) × IsTrue (int_le value number.high) }
    ensures known { (number : Wanted) (decisions : List Bool) (value : ℤ) → ArePossible number decisions → phase_after number decisions ≡ Known value →
        IsTrue (int_le number.low value) × IsTrue (int_le value number.high) }
{}

/// Each number between the bounds is reached by its own decisions, whether it or its size is at least the cutoff of each
/// phase, and by these alone. The bounds allow them, and those that the bounds imply are the number's own.
pub fn numbers_are_reached()
    ensures reached { (number : Wanted) (value : ℤ) → AreBounds number.low number.high → number.low ≤ℤ value → value ≤ℤ number.high →
        phase_after number (decisions_of number value) ≡ Known value }
    ensures possible { (number : Wanted) (value : ℤ) (count : ℕ) → AreBounds number.low number.high → number.low ≤ℤ value → value ≤ℤ number.high →
        ArePossible number (first_decisions count number value) }
    ensures alone { (number : Wanted) (value : ℤ) (decisions : List Bool) → AreBounds number.low number.high → ArePossible number decisions →
        phase_after number decisions ≡ Known value → decisions ≡ decisions_of number value }
    ensures implied { (number : Wanted) (value : ℤ) (count : ℕ) (bit : Bool) → AreBounds number.low number.high → number.low ≤ℤ value → value ≤ℤ number.high →
        implied (phase_after number (first_decisions count number value)) ≡ Some bit →
        bit ≡ decided value (phase_after number (first_decisions count number value)) }
    // Those of 11 among 0 to 11, the last one first.
    ensures eleven { decisions_of (wanted Root.RecordType (pos 0) (pos 11)) (pos 11) ≡ false ∷ false ∷ true ∷ false ∷ true ∷ true ∷ true ∷ true ∷ [] }
    ensures negative { decisions_of (wanted Root.NewRowX (negsuc 262142) (pos 262142)) (negsuc 0) ≡ false ∷ false ∷ [] }
{}

/// A number whose two bounds are one is that bound, and codes nothing: each of its decisions is implied, true exactly
/// where the bound is at least the cutoff.
pub fn one_value_codes_nothing()
    ensures answer { (number : Wanted) (from : Chunk) (states : Name → ℕ) (place : Option Interval) → AreBounds number.low number.high →
        number.low ≡ number.high → answer_at number from (read_on number from (begun states place)) ≡ answer.Number number.low }
    ensures nothing { (number : Wanted) (from : Chunk) (states : Name → ℕ) (place : Option Interval) → number.low ≡ number.high →
        (read_on number from (begun states place)).coded ≡ 0 }
    ensures states_stay { (number : Wanted) (from : Chunk) (states : Name → ℕ) (place : Option Interval) → number.low ≡ number.high →
        (read_on number from (begun states place)).states ≡ states }
    ensures place_stays { (number : Wanted) (from : Chunk) (states : Name → ℕ) (place : Option Interval) → number.low ≡ number.high →
        (read_on number from (begun states place)).place ≡ place }
{}

/// A number has at most 36 decisions. Read on, it is known then, or the next decision is coded and isn't decided.
pub fn numbers_end()
    ensures few { (number : Wanted) (from : Chunk) (states : Name → ℕ) (place : Option Interval) (count : ℕ) → AreBounds number.low number.high →
        length (steps count number from (begun states place)).decisions ≤ 36 }
    ensures possible { (number : Wanted) (from : Chunk) (states : Name → ℕ) (place : Option Interval) (count : ℕ) → AreBounds number.low number.high →
        ArePossible number (steps count number from (begun states place)).decisions }
    ensures last { (number : Wanted) (from : Chunk) (states : Name → ℕ) (place : Option Interval) → AreBounds number.low number.high →
        step number from (read_on number from (begun states place)) ≡ read_on number from (begun states place) }
{}

/// While a number is read, states stay rows of the table, and the decoder stands where decisions lead.
pub fn readings_stay_within()
    ensures states { (number : Wanted) (from : Chunk) (at : Reading) (count : ℕ) → IsReady from at.states at.place →
        AreBelow (length from.table) (steps count number from at).states }
    ensures standing { (number : Wanted) (from : Chunk) (at : Reading) (count : ℕ) → IsReady from at.states at.place →
        IsStanding (length from.payload) (steps count number from at).place }
{}

/// Each decision of a number that is coded leaves room for fewer.
pub fn readings_leave_room()
    ensures room { (number : Wanted) (from : Chunk) (at : Reading) (count : ℕ) → IsReady from at.states at.place →
        room from.payload (steps count number from at).place + (steps count number from at).coded ≤ room from.payload at.place + at.coded }
    ensures coded { (number : Wanted) (from : Chunk) (at : Reading) (count : ℕ) → IsReady from at.states at.place →
        at.coded ≤ (steps count number from at).coded }
{}

/// However the bytes of a chunk are cut: a number that was read as far as some of them go, and is read on with more, is the
/// one that is read from all of them.
pub fn cuts_change_nothing()
    ensures { (number : Wanted) (rows : List Row) (payload more : List ℕ) (ended : Bool) (states : Name → ℕ) (place : Option Interval) →
        AreBounds number.low number.high → IsReady (chunk rows payload false) states place →
        read_on number (chunk rows (payload ++ more) ended) (read_on number (chunk rows payload false) (begun states place)) ≡
        read_on number (chunk rows (payload ++ more) ended) (begun states place) }
{}

/// Where a reading stops after any number of steps, and goes on from there with more bytes, it comes to what it would have
/// come to with these bytes alone. A reading that stopped more than once is covered too: it goes on from any reading.
pub fn stops_change_nothing()
    ensures reading { (number : Wanted) (rows : List Row) (payload more : List ℕ) (ended : Bool) (at : Reading) (count : ℕ) →
        AreBounds number.low number.high → ArePossible number at.decisions → IsReady (chunk rows payload false) at.states at.place →
        read_on number (chunk rows (payload ++ more) ended) (steps count number (chunk rows payload false) at) ≡
        read_on number (chunk rows (payload ++ more) ended) at }
    // So a number that some bytes determine stays.
    ensures known { (number : Wanted) (rows : List Row) (payload more : List ℕ) (ended : Bool) (at : Reading) (value : ℤ) →
        AreBounds number.low number.high → ArePossible number at.decisions → IsReady (chunk rows payload false) at.states at.place →
        answer_at number (chunk rows payload false) (read_on number (chunk rows payload false) at) ≡ answer.Number value →
        read_on number (chunk rows (payload ++ more) ended) at ≡ read_on number (chunk rows payload false) at }
{}

/// Decisions that the bounds allow stay so while a number is read.
pub fn readings_stay_possible()
    ensures { (number : Wanted) (from : Chunk) (at : Reading) (count : ℕ) → AreBounds number.low number.high → ArePossible number at.decisions →
        ArePossible number (steps count number from at).decisions }
{}

/// A reader that has read nothing stands at the beginning of its number, over whatever its decoder was fed.
pub fn numbers_begin()
    ensures { (number : Wanted) (payload : List ℕ) (place : Option Interval) (reader : Reader) (contexts : Numbers) (zp : Decoder) (count : ℕ) →
        Reads number [] reader → Fed payload place zp →
        Stands number (chunk zp.table payload zp.ended) count (begun (states_of contexts) place) reader contexts zp count }
{}

/// A number from 0 to 11 has a decision that is coded, whatever it is.
pub fn types_are_coded()
    ensures { (root : Root) (from : Chunk) (states : Name → ℕ) (place : Option Interval) (value : ℤ) →
        answer_at (wanted root (pos 0) (pos 11)) from (read_on (wanted root (pos 0) (pos 11)) from (begun states place)) ≡ answer.Number value →
        0 < (read_on (wanted root (pos 0) (pos 11)) from (begun states place)).coded }
{}
