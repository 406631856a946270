//! Laws and worked values of the definitions, as clauses of functions that do nothing.
ghost use Rattle.std.specs.Prelude.{◌≡◌, ◌<◌, ℕ, Bool, true, false, List, [], ◌∷◌, None};
ghost use Rattle.zp_table.specs.declared.rows.Row.{Row};
ghost use Rattle.zp_table.specs.Rows.{IsTable};
ghost use Rattle.zp_table.specs.Listing.{djvu_rows};
ghost use Rattle.zp_decoder.specs.Decision.{Form, Adaptive, Pass, Iw};
ghost use Rattle.zp_decoder.specs.Runs.{IsFormOf, answers};
ghost use Rattle.zp_encoder.specs.Codes.{Codes, all_codes, codes_from, codes_after, IsAmong};
ghost use Rattle.zp_encoder.specs.Written.{Written, written, LeadTo, forms_of, bits_of, states_of, states_read};
ghost use Rattle.zp_encoder.specs.Digits.{number_of};

/// From a payload that has one of their codes, a decoder decides what was written, in order, and none of it is exhausted.
/// The states are those that were left.
pub fn codes_make_decisions()
    ensures answers { (rows : List Row) (payload : List ℕ) (decisions : List Written) (codes : Codes) → IsTable rows →
        LeadTo rows all_codes decisions codes → IsAmong payload codes → answers rows payload true None (forms_of decisions) ≡ bits_of decisions }
    ensures states { (rows : List Row) (payload : List ℕ) (decisions : List Written) (codes : Codes) → IsTable rows →
        LeadTo rows all_codes decisions codes → IsAmong payload codes → states_read rows payload (forms_of decisions) ≡ states_of decisions }
{}

/// Eight decisions, worked out by hand in `docs/zp.md`: their codes have 22 bits, and the byte 44 with ones behind it is one
/// of them.
pub fn worked_codes()
    ensures codes { LeadTo djvu_rows all_codes (written (Adaptive 0) true 145 ∷ written (Adaptive 145) true 145 ∷ written (Adaptive 145) true 145
        ∷ written (Adaptive 145) true 145 ∷ written (Adaptive 145) false 247 ∷ written (Adaptive 247) true 249 ∷ written Pass true 0 ∷ written Iw false 0 ∷ [])
        (codes_from 0x10a0c6 0x5136 6) }
    ensures among { IsAmong (0x44 ∷ []) (codes_from 0x10a0c6 0x5136 6) }
    ensures above { IsAmong (0x45 ∷ []) (codes_from 0x10a0c6 0x5136 6) → ⊥ }
    ensures number { number_of (0x44 ∷ 0x20 ∷ 0x82 ∷ []) ≡ 0x442082 }
{}
