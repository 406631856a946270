//! Laws of logs, as clauses of functions that do nothing.
ghost use Rattle.std.specs.Prelude.{◌≡◌, ℕ, ◌≤◌, ◌<◌, List, None};
ghost use Rattle.once_board.specs.declared.holds.Hold.{Hold};
ghost use Rattle.once_board.specs.Filled.{EndsByLast, count_of, used};
ghost use Rattle.once_board.specs.Holds.{Extends};
ghost use Rattle.once_board.specs.Places.{record_of};
ghost use Rattle.once_board.specs.Rows.{IsPrefix, row_values};
ghost use Rattle.once_board.specs.RowSeats.{rows_of};
ghost use Rattle.port_log.specs.declared.entries.Entry.{Entry};
ghost use Rattle.port_log.specs.Entries.{is_end};
ghost use Rattle.port_log.specs.Logs.{LogView, LogSeatView, Works, KnowsOf, KnowsTo, IsSeatOf, place_of, entries, announced_entries, row_seat};

/// What any seat knows of a page's log from its start is a prefix of what the page's worker announced, once one seat knows what
/// both know.
pub fn reads_are_prefixes()
    ensures few { (log : LogView) (worker reader : LogSeatView) (all : Hold Entry) (page n : ℕ) → Works log worker page → KnowsOf log worker all
        → IsSeatOf log reader → Extends reader.hold all → n ≤ 260 → KnowsTo reader page n → n ≤ used (count_of worker.counts page) }
    ensures prefix { (log : LogView) (worker reader : LogSeatView) (all : Hold Entry) (page n : ℕ) → Works log worker page → KnowsOf log worker all
        → IsSeatOf log reader → Extends reader.hold all → n ≤ 260 → KnowsTo reader page n → IsPrefix (entries reader page n) (announced_entries worker page) }
{}

/// A seat that knows what a page's worker knows, and of the page no more, knows all that was announced of it, and nothing else.
pub fn joined_seats_know_all()
    ensures all { (log : LogView) (worker : LogSeatView) (all : Hold Entry) (page : ℕ) → Works log worker page → KnowsOf log worker all
        → row_values (rows_of 260 (row_seat worker)) all page (used (count_of worker.counts page)) ≡ announced_entries worker page }
    ensures nothing_else { (log : LogView) (worker : LogSeatView) (all : Hold Entry) (page at : ℕ) → Works log worker page → KnowsOf log worker all
        → at < 260 → used (count_of worker.counts page) ≤ at → (record_of all.places (place_of page at)).value ≡ None }
{}

/// Of what a worker announced of a page, only the last entry may be an end, and so it is in each prefix.
pub fn logs_end_by_their_last_entry()
    ensures announced { (log : LogView) (worker : LogSeatView) (page : ℕ) → Works log worker page → EndsByLast is_end (announced_entries worker page) }
    ensures prefix { (xs ys : List Entry) → IsPrefix xs ys → EndsByLast is_end ys → EndsByLast is_end xs }
{}
