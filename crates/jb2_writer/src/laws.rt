//! A law and worked values of the definitions, as clauses of functions that only call other laws.
ghost use Rattle.std.specs.Prelude.{◌≡◌, ◌≤◌, ℕ, true, false, List, [], ◌∷◌, length, pos, negsuc, Some, None};
ghost use Rattle.zp_table.specs.declared.rows.Row.{Row};
ghost use Rattle.zp_table.specs.Rows.{IsTable};
ghost use Rattle.zp_decoder.specs.Chunk.{chunk};
ghost use Rattle.bit_plane.specs.Pixels.{Pixels};
ghost use Rattle.jb2_numbers.specs.declared.roots.Root.TheVariants as root;
ghost use Rattle.jb2_records.specs.Records.{Record, Start, MarkBoth, MarkLibrary, RefineLibrary, RefineImage, Copy, Require, End, NewRow, SameRow};
ghost use Rattle.jb2_records.specs.Worked.{dot, dash, mark, dictionary, refined, copied, late, refining};
ghost use Rattle.jb2_writer.specs.Worked.{all_types, chunk_of_all_types};
ghost use Rattle.jb2_writer.specs.Coded.{number_coded};
ghost use Rattle.jb2_writer.specs.Fields.{match_coded, records_coded, bits_of};
ghost use Rattle.jb2_writer.specs.Refusal.{refused, dictionary_refused, mask_refused};
ghost use Rattle.jb2_records.specs.Limits.{shape_limit};
ghost use Rattle.jb2_records.specs.declared.purpose.Purpose.{Purpose};
ghost use Rattle.jb2_writer.specs.Contexts.{AreWritten};
ghost use Rattle.jb2_writer.specs.Decided.{AreReadBack, HavePlanes};

use bit_plane::laws::pixel_laws;
use jb2_numbers::laws::numbers_are_reached;
use jb2_records::laws::records_end;

/// Numbers, a mark of one black pixel and a library of it, chunks of other records, one of all twelve types, and refusals.
pub fn worked_records()
    ensures eleven { bits_of (number_coded root.RecordType (pos 0) (pos 11) (pos 11)) ≡ true ∷ true ∷ true ∷ true ∷ [] }
    ensures second { bits_of (match_coded (dot ∷ dash ∷ []) 1) ≡ true ∷ [] }
    ensures mark { bits_of (records_coded [] [] (Start 1 1 false ∷ MarkBoth dot (NewRow (pos 1) (pos 0)) ∷ End ∷ [])) ≡
        false ∷ true ∷ false ∷ false ∷ true ∷ false ∷ false ∷ false
        ∷ true ∷ false ∷ false ∷ true ∷ false ∷ false ∷ true ∷ false ∷ false ∷ true
        ∷ true ∷ true ∷ true ∷ false ∷ false ∷ true ∷ false ∷ true ∷ true ∷ true ∷ true ∷ [] }
    ensures mark_read { AreReadBack mark (Start 1 1 false ∷ MarkBoth dot (NewRow (pos 1) (pos 0)) ∷ End ∷ []) }
    ensures dictionary { length (bits_of (records_coded [] [] (Start 0 0 false ∷ MarkLibrary dot ∷ End ∷ []))) ≡ 18 }
    ensures dictionary_read { AreReadBack dictionary (Start 0 0 false ∷ MarkLibrary dot ∷ End ∷ []) }

    // A refined mark, a refined shape of a library, and copies of an inherited shape, which an earlier count of 0 doesn't keep
    // away.
    ensures refined_read { AreReadBack refined (Start 1 1 false ∷ MarkLibrary dot ∷ RefineImage 0 dot (NewRow (pos 1) (pos 0)) ∷ End ∷ []) }
    ensures refining_read { AreReadBack refining (Start 0 0 false ∷ MarkLibrary dot ∷ RefineLibrary 0 dash ∷ End ∷ []) }
    ensures copied_read { AreReadBack (copied (dot ∷ [])) (Require 1 ∷ Start 1 1 false ∷ Copy 0 (NewRow (pos 1) (pos 0)) ∷ End ∷ []) }
    ensures late_read { AreReadBack late (Require 0 ∷ Require 1 ∷ Start 1 1 false ∷ Copy 0 (NewRow (pos 1) (pos 0)) ∷ End ∷ []) }
    ensures late_coded { length (bits_of (records_coded (dot ∷ []) [] (Require 0 ∷ Require 1 ∷ Start 1 1 false
        ∷ Copy 0 (NewRow (pos 1) (pos 0)) ∷ End ∷ []))) ≡ 41 }

    // All twelve types.
    ensures all_coded { length (bits_of (records_coded [] [] all_types)) ≡ 241 }
    ensures all_read { AreReadBack chunk_of_all_types all_types }
    ensures all_good { mask_refused [] all_types ≡ None }

    // Refused: an end alone, a list without an end, what follows the end, a copy without a shape, and a dictionary's size.
    ensures good { mask_refused [] (Start 1 1 false ∷ MarkBoth dot (NewRow (pos 1) (pos 0)) ∷ End ∷ []) ≡ None }
    ensures no_start { mask_refused [] (End ∷ []) ≡ Some 0 }
    ensures no_end { dictionary_refused [] (Start 0 0 false ∷ []) ≡ Some 1 }
    ensures behind { mask_refused [] (Start 1 1 false ∷ End ∷ End ∷ []) ≡ Some 2 }
    ensures no_match { mask_refused [] (Start 1 1 false ∷ Copy 0 (SameRow (pos 1) (pos 0)) ∷ End ∷ []) ≡ Some 1 }
    ensures sized { dictionary_refused [] (Start 1 0 false ∷ End ∷ []) ≡ Some 0 }
    ensures far { mask_refused [] (Start 1 1 false ∷ MarkBoth dot (NewRow (pos 262143) (pos 0)) ∷ End ∷ []) ≡ Some 1 }
    ensures required { mask_refused (dot ∷ []) (Require 1 ∷ Start 1 1 false ∷ Require 1 ∷ End ∷ []) ≡ Some 2 }
{}

/// Where none of the records is refused, and a decoder decides their bits from the bytes of a whole chunk, a reading of the
/// chunk finds these records, in order and field by field, and their end.
pub fn written_records_are_read()
    ensures { (rows : List Row) (payload : List ℕ) (inherited : List Pixels) (purpose : Purpose) (records : List Record) → IsTable rows →
        length inherited ≤ shape_limit → HavePlanes records → refused inherited purpose records ≡ None →
        AreWritten rows payload (records_coded inherited [] records) →
        AreReadBack (record { chunk = chunk rows payload true; inherited = inherited; purpose = purpose }) records }
{
    pixel_laws();
    numbers_are_reached();
    records_end();
}
