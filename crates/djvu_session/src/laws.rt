//! Laws of passes, over the definitions alone: each is a clause of a function that does nothing.
ghost use Rattle.std.specs.Prelude.{◌≡◌, ◌≢◌, ◌≤◌, ◌<◌, ◌%◌, ℕ, true, false, List, [], ◌∷◌, length, codes, All, Option, Some, None, slice_get, sum_by};
ghost use Rattle.djvu_base.specs.Announced.{Announced};
ghost use Rattle.djvu_base.specs.Library.{Open, Whole, Broken, Library};
ghost use Rattle.djvu_base.specs.Meter.{TicksExactly};
ghost use Rattle.jb2_records.specs.declared.results.FileResult.{FileResult};
ghost use Rattle.jb2_records.specs.declared.results.FileResult.TheVariants.{NoMemory};
ghost use Rattle.once_board.specs.declared.holds.Hold.{Hold};
ghost use Rattle.once_board.specs.Gathered.{Gathered, GatheredTwice};
ghost use Rattle.once_board.specs.Holds.{ClaimsAll, IsLawful, IsOnce};
ghost use Rattle.once_board.specs.Numbers.{times, total};
ghost use Rattle.once_board.specs.Rows.{IsPrefix};
ghost use Rattle.data_pool.specs.declared.pieces.Piece.{Piece};
ghost use Rattle.data_pool.specs.declared.pieces.Piece.TheVariants as piece;
ghost use Rattle.data_pool.specs.Pools.{put_pieces};
ghost use Rattle.port_log.specs.declared.entries.Entry.TheVariants.{Drew, Ended};
ghost use Rattle.port_log.specs.declared.entries.PageEnd.TheVariants as page_end;
ghost use Rattle.zp_table.specs.declared.rows.Row.{Row};
ghost use Rattle.zp_table.specs.Rows.{IsTable};
ghost use Rattle.page_decoder.specs.Results.{Result};
ghost use Rattle.page_decoder.specs.Given.{Page, Given, Within};
ghost use Rattle.page_decoder.specs.Read.{read};
ghost use Rattle.page_decoder.specs.Libraries.{names_in, given_in, res_of, run, is_reached, LibraryGoesOn, FileGoesOn};
ghost use Rattle.page_decoder.specs.Needs.{Built};
ghost use Rattle.djvu_session.specs.Arrived.{file_of, library_by};
ghost use Rattle.replay_core.specs.Counts.{counted, CountsWithin, CountsAll};
ghost use Rattle.djvu_session.specs.Passes.{Setup, SessionView, FeederView, PageState, DecoderView, ViewerView, IsFeederOf, IsSession, file_at};
ghost use Rattle.djvu_session.specs.Seen.{fed_pieces, held, result_at};
ghost use Rattle.djvu_session.specs.Keeps.{FeederKeeps, DecoderKeeps};
ghost use Rattle.djvu_session.specs.Looks.{last_notice, has_end};
ghost use Rattle.djvu_session.specs.Pages.{IsTold, entries_of};
ghost use Rattle.djvu_session.specs.Spent.{IsSpent, IsPublished, results_from, sum_of};
ghost use Rattle.djvu_session.specs.Everyone.{IsAll, state_in, counts_in, AllEnded, CountsGoOn};
ghost use Rattle.djvu_session.specs.Together.{AreTogether};

/// Files of whose pieces one has a prefix of another's go on to that one, and so do libraries.
pub fn pieces_go_on()
    ensures files { (name : List ℕ) (xs ys : List Piece) → IsPrefix xs ys → FileGoesOn (file_of name xs) (file_of name ys) }
    ensures libraries { (names : List (List ℕ)) (less more : ℕ → List Piece) → ((file : ℕ) → file < length names → IsPrefix (less file) (more file))
        → LibraryGoesOn (library_by names less) (library_by names more) }
    ensures names { (names : List (List ℕ)) (pieces : ℕ → List Piece) → names_in (library_by names pieces) ≡ names }
{}

/// The feeders hold of a file the pieces that the one feeder put whose right it is.
pub fn held_is_the_owners()
    ensures { (session : SessionView) (feeders : List FeederView) (owner file : ℕ) (pass : FeederView) → All FeederKeeps feeders
        → All (IsFeederOf session) feeders → file < session.pool.files
        → total (λ (f : FeederView). times (file % session.pool.feeders) f.pool.hold.rights) feeders ≡ 1 → slice_get feeders owner ≡ Some pass
        → 1 ≤ times (file % session.pool.feeders) pass.pool.hold.rights → fed_pieces feeders file ≡ put_pieces pass.pool file }
{}

/// What was told of a page stays true when more of the page is given, and where its file's bytes, their end and what is known of
/// other files are those of a library.
pub fn told_stays()
    ensures more { (less more : Given) (page : PageState) → IsTable less.home.table → Within less more → IsTold (read less) page → IsTold (read more) page }
    ensures run { (table : List Row) (library : Library) (results : ℕ → Option Result) (file : ℕ) (page : PageState) → IsTable table
        → Built table library results → IsTold (read (given_in Page table library file results)) page → IsTold (run table library file) page }
{
    page_decoder::page_laws::growth();
    page_decoder::page_laws::libraries::results_are_the_librarys();
}

/// A file that was decoded so was decoded so in each library that goes on, and whatever more is known.
pub fn spent_stays()
    ensures { (table : List Row) (library later : Library) (less more : ℕ → Option Result) (page file spent : ℕ) (result : FileResult) → IsTable table
        → LibraryGoesOn library later → ((other : ℕ) (it : Result) → less other ≡ Some it → more other ≡ Some it)
        → IsSpent table library less page file spent result → IsSpent table later more page file spent result }
{
    page_decoder::page_laws::included_files();
    page_decoder::page_laws::made::made_stays();
    page_decoder::page_laws::libraries::libraries_go_on();
    include_graph::laws::lists();
}

/// Results each of which was found by a decoding over the others are the library's. What was read for a file that was decoded so is
/// at most the file's decisions in the library, where a page reaches it; and it is these, if there was memory.
pub fn published_files_are_the_librarys()
    ensures built { (table : List Row) (library : Library) (known : ℕ → Option FileResult)
        → ((file : ℕ) (result : FileResult) → known file ≡ Some result → IsPublished table library known file result)
        → Built table library (results_from known) }
    ensures reached { (table : List Row) (library : Library) (results : ℕ → Option Result) (page file spent : ℕ) (result : FileResult) → IsTable table
        → Built table library results → IsSpent table library results page file spent result → is_reached table library file page ≡ true }
    ensures at_most { (table : List Row) (library : Library) (results : ℕ → Option Result) (page file spent : ℕ) (result : FileResult)
        → Built table library results → IsSpent table library results page file spent result → spent ≤ (res_of table library file).decisions }
    ensures all { (table : List Row) (library : Library) (results : ℕ → Option Result) (page file spent : ℕ) (result : FileResult)
        → Built table library results → IsSpent table library results page file spent result → result ≢ NoMemory
        → TicksExactly (res_of table library file).decisions 0 spent }
{
    page_decoder::page_laws::needs();
    page_decoder::page_laws::libraries::results_are_the_librarys();
}

/// What is told once all decoders' passes are joined, over a library that goes on from what each has seen: what they told of their
/// pages is true of the library; what they decoded is at most what its pages ask for, each file once, and all of it where every page
/// ended without want of memory; and this is the sum that the passes keep.
pub fn passes_tell_the_library()
    ensures told { (setup : Setup) (library : Library) (known : ℕ → Option FileResult) (passes : List DecoderView) (page : ℕ) (state : PageState)
        → AreTogether setup library known passes → state_in passes page ≡ Some state → IsTold (run setup.table library (file_at setup page)) state }
    ensures within { (setup : Setup) (library : Library) (known : ℕ → Option FileResult) (passes : List DecoderView)
        → AreTogether setup library known passes → CountsWithin setup.table library (counts_in setup passes) }
    ensures all { (setup : Setup) (library : Library) (known : ℕ → Option FileResult) (passes : List DecoderView)
        → AreTogether setup library known passes → AllEnded setup passes → CountsGoOn passes → CountsAll setup.table library (counts_in setup passes) }
    ensures sums { (setup : Setup) (library : Library) (known : ℕ → Option FileResult) (passes : List DecoderView)
        → AreTogether setup library known passes → sum_by sum_of passes ≡ counted (counts_in setup passes) }
{
    djvu_base::laws::ticks_add_up();
    page_decoder::page_laws::growth();
    page_decoder::page_laws::needs();
    page_decoder::page_laws::libraries::libraries_go_on();
    page_decoder::page_laws::libraries::results_are_the_librarys();
    told_stays();
    spent_stays();
    published_files_are_the_librarys();
}

/// Once all seats of the pool and of the shelf are joined, so that the shelf's have all parts, what `passes_tell_the_library` wants is
/// known of the decoders' passes: the library is what the feeders hold, and the results are those that the joined seat knows.
pub fn joined_passes_are_together()
    ensures { (session : SessionView) (feeders : List FeederView) (decoders : List DecoderView) (viewers : List ViewerView) (pool : Hold Piece)
        (shelf : Hold FileResult) → IsSession session → IsAll session feeders decoders viewers → All FeederKeeps feeders → All DecoderKeeps decoders
        → GatheredTwice (λ (f : FeederView). f.pool.hold) (λ (d : DecoderView). d.pool.hold) session.pool.board.owners session.kept.pool.hold feeders
        decoders pool → IsLawful pool
        → Gathered (λ (d : DecoderView). d.shelf.hold) session.shelf.owners session.kept.shelf.hold decoders shelf
        → IsLawful shelf → IsOnce shelf → ClaimsAll shelf
        → AreTogether session.setup (held session.setup.names feeders) (result_at shelf) decoders }
{
    data_pool::laws::reads_are_prefixes();
}

/// Files of pieces: with an end, broken off, and without one.
pub fn worked_pieces()
    ensures whole { file_of (codes "p") (piece.Bytes (1 ∷ 2 ∷ []) ∷ piece.Bytes (3 ∷ []) ∷ piece.End ∷ [])
        ≡ record { name = codes "p"; bytes = 1 ∷ 2 ∷ 3 ∷ []; mark = Whole } }
    ensures broken { file_of (codes "p") (piece.Bytes (1 ∷ []) ∷ piece.Broken ∷ []) ≡ record { name = codes "p"; bytes = 1 ∷ []; mark = Broken } }
    ensures no_memory { file_of (codes "p") (piece.Bytes (1 ∷ []) ∷ piece.NoMemory ∷ []) ≡ record { name = codes "p"; bytes = 1 ∷ []; mark = Open } }
    ensures arriving { file_of (codes "p") (piece.Bytes (1 ∷ []) ∷ []) ≡ record { name = codes "p"; bytes = 1 ∷ []; mark = Open } }
{}

/// Entries of a page that ended, and what a look shows of them.
pub fn worked_entries()
    ensures entries { (first last : Announced) → entries_of (record { notices = first ∷ last ∷ []; end = Some page_end.Finished; decisions = 0; layers = None })
        ≡ Drew first ∷ Drew last ∷ Ended page_end.Finished ∷ [] }
    ensures last { (first last : Announced) → last_notice (Drew first ∷ Drew last ∷ Ended page_end.Finished ∷ []) ≡ Some last }
    ensures ended { (first last : Announced) → has_end (Drew first ∷ Drew last ∷ Ended page_end.Finished ∷ []) ≡ true }
    ensures going { (first : Announced) → has_end (Drew first ∷ []) ≡ false }
    ensures none { last_notice (Ended page_end.NoMemory ∷ []) ≡ None }
{}
