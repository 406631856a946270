//! Laws and worked values of the definitions, as clauses of functions that do nothing.
ghost use Rattle.std.specs.Prelude.{◌≡◌, ◌<◌, ◌↔◌, ℕ, List, [], ◌∷◌, length, true, All, Some, None, sum_by};
ghost use Rattle.zp_table.specs.declared.rows.Row.{Row};
ghost use Rattle.zp_table.specs.declared.faults.TableFault.{TableFault};
ghost use Rattle.zp_table.specs.declared.faults.TableWhy.TheVariants.{Empty, TooMany, Short, Chance, Up, Down};
ghost use Rattle.zp_table.specs.Rows.{row, is_table, row_at, weighted_sum};
ghost use Rattle.zp_table.specs.Listing.{djvu_rows, flat_rows};
ghost use Rattle.zp_table.specs.Reading.{rows_in, bytes_of, fault_of, fault_of_length, first_fault, fault_at, IsWritten, IsFirstBadRow};

/// Bytes have no fault exactly where they are those of a table's rows, and then these rows are read. A fault of a row
/// is that of the first bad row.
pub fn tables_read()
    ensures accepted { (bytes : List ℕ) → All (λ byte. byte < 256) bytes → (fault_of bytes ≡ None) ↔ IsWritten bytes }
    ensures read_back { (rows : List Row) → rows_in (bytes_of rows) ≡ rows }
    ensures first { (count : ℕ) (rows : List Row) (fault : TableFault) → first_fault count 0 rows ≡ Some fault → IsFirstBadRow count rows fault }
{}

/// Sums over the 251 rows, as another program took them from the table of the format.
pub fn worked_listing()
    ensures table { is_table djvu_rows ≡ true }
    ensures rows { length djvu_rows ≡ 251 }
    ensures p { sum_by (λ r. r.p) djvu_rows ≡ 1_456_262 }
    ensures m { sum_by (λ r. r.m) djvu_rows ≡ 2_206_722 }
    ensures up { sum_by (λ r. r.up) djvu_rows ≡ 20_057 }
    ensures dn { sum_by (λ r. r.dn) djvu_rows ≡ 22_785 }
    ensures weighted { weighted_sum 1 djvu_rows ≡ 294_546_165 }
    ensures state_82 { row_at djvu_rows 82 ≡ row 0x0001 0x7fff 82 80 }
    ensures state_83 { row_at djvu_rows 83 ≡ row 0x5695 0 9 85 }
{}

/// Bytes that are a table, and bytes that aren't.
pub fn worked_reading()
    ensures flat { rows_in (0x80 ∷ 0 ∷ 0 ∷ 0 ∷ 0 ∷ 0 ∷ []) ≡ flat_rows }
    ensures no_fault { fault_of (0x80 ∷ 0 ∷ 0 ∷ 0 ∷ 0 ∷ 0 ∷ []) ≡ None }
    ensures empty { fault_of [] ≡ Some (fault_at 0 Empty) }
    ensures five_bytes { fault_of (0 ∷ 0 ∷ 0 ∷ 0 ∷ 0 ∷ []) ≡ Some (fault_at 0 Short) }
    ensures cut_row { fault_of_length 1535 ≡ Some (fault_at 255 Short) }
    ensures most { fault_of_length 1536 ≡ None }
    ensures too_many { fault_of_length 1537 ≡ Some (fault_at 256 TooMany) }
    ensures zeros { fault_of (0 ∷ 0 ∷ 0 ∷ 0 ∷ 0 ∷ 0 ∷ []) ≡ Some (fault_at 0 Chance) }
    ensures above { fault_of (0x80 ∷ 1 ∷ 0 ∷ 0 ∷ 1 ∷ 1 ∷ []) ≡ Some (fault_at 0 Chance) }
    ensures up { fault_of (0x80 ∷ 0 ∷ 0 ∷ 0 ∷ 1 ∷ 1 ∷ []) ≡ Some (fault_at 0 Up) }
    ensures down { fault_of (0x80 ∷ 0 ∷ 0 ∷ 0 ∷ 0 ∷ 1 ∷ []) ≡ Some (fault_at 0 Down) }
    ensures later { fault_of (0x80 ∷ 0 ∷ 0 ∷ 0 ∷ 1 ∷ 1 ∷ 0 ∷ 1 ∷ 0 ∷ 0 ∷ 0 ∷ 2 ∷ []) ≡ Some (fault_at 1 Down) }
{}
