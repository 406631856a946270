//! Laws of pools, as clauses of functions that do nothing.
ghost use Rattle.std.specs.Prelude.{◌≡◌, ℕ, ◌≤◌, ◌<◌, List, None};
ghost use Rattle.once_board.specs.declared.holds.Hold.{Hold};
ghost use Rattle.once_board.specs.Filled.{EndsByLast, count_of, used};
ghost use Rattle.once_board.specs.Holds.{Extends};
ghost use Rattle.once_board.specs.Places.{record_of};
ghost use Rattle.once_board.specs.Rows.{IsPrefix, row_values};
ghost use Rattle.once_board.specs.RowSeats.{rows_of};
ghost use Rattle.data_pool.specs.declared.pieces.Piece.{Piece};
ghost use Rattle.data_pool.specs.Pieces.{is_end};
ghost use Rattle.data_pool.specs.Pools.{PoolView, PoolSeatView, Feeds, KnowsOf, KnowsTo, IsSeatOf, place_of, pieces, put_pieces, row_seat};

/// What any seat knows of a file from its start is a prefix of what the file's feeder put, once one seat knows what both know.
pub fn reads_are_prefixes()
    ensures few { (pool : PoolView) (feeder reader : PoolSeatView) (all : Hold Piece) (file n : ℕ) → Feeds pool feeder file → KnowsOf pool feeder all
        → IsSeatOf pool reader → Extends reader.hold all → n ≤ 2_049 → KnowsTo reader file n → n ≤ used (count_of feeder.counts file) }
    ensures prefix { (pool : PoolView) (feeder reader : PoolSeatView) (all : Hold Piece) (file n : ℕ) → Feeds pool feeder file → KnowsOf pool feeder all
        → IsSeatOf pool reader → Extends reader.hold all → n ≤ 2_049 → KnowsTo reader file n → IsPrefix (pieces reader file n) (put_pieces feeder file) }
{}

/// A seat that knows what a file's feeder knows, and of the file no more, knows all that was put of it, and nothing else.
pub fn joined_seats_know_all()
    ensures all { (pool : PoolView) (feeder : PoolSeatView) (all : Hold Piece) (file : ℕ) → Feeds pool feeder file → KnowsOf pool feeder all
        → row_values (rows_of 2_049 (row_seat feeder)) all file (used (count_of feeder.counts file)) ≡ put_pieces feeder file }
    ensures nothing_else { (pool : PoolView) (feeder : PoolSeatView) (all : Hold Piece) (file at : ℕ) → Feeds pool feeder file → KnowsOf pool feeder all
        → at < 2_049 → used (count_of feeder.counts file) ≤ at → (record_of all.places (place_of file at)).value ≡ None }
{}

/// Of what a feeder put of a file, only the last piece may be an end, and so it is in each prefix.
pub fn files_end_by_their_last_piece()
    ensures put { (pool : PoolView) (feeder : PoolSeatView) (file : ℕ) → Feeds pool feeder file → EndsByLast is_end (put_pieces feeder file) }
    ensures prefix { (xs ys : List Piece) → IsPrefix xs ys → EndsByLast is_end ys → EndsByLast is_end xs }
{}
