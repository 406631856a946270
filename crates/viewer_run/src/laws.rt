//! Laws of the definitions, apart from a run: each is a clause of a function that changes nothing. `worked` has values of
//! them that are worked out.
ghost use Rattle.std.specs.Prelude.{◌≡◌, ◌≢◌, ◌<◌, ◌≤◌, ◌↔◌, ◌++◌, ℕ, false, List, [], length, Some};
ghost use Rattle.djvu_base.specs.Library.{Files, Library, library_of};
ghost use Rattle.djvu_outside.specs.Faults.{Failure};
ghost use Rattle.djvu_outside.specs.Puts.{to_out, to_report};
ghost use Rattle.zp_table.specs.declared.rows.Row.{Row};
ghost use Rattle.layer_compose.specs.declared.layers.Layers.{Layers};
ghost use Rattle.layer_compose.specs.Drawing.{raster_of};
ghost use Rattle.page_decoder.specs.PageRead.{last_layers};
ghost use Rattle.page_decoder.specs.Libraries.{names_in, run, Drawn, page_in};
ghost use Rattle.replay_core.specs.Machine.{page_notices, AllClosed};
ghost use Rattle.viewer_words.specs.Lines.{name_at};
ghost use Rattle.viewer_words.specs.Words.{words_of};
ghost use Rattle.viewer_run.specs.Plan.{draws, plan_of};
ghost use Rattle.viewer_run.specs.EarlyFailures.{front_may_fail, front_failed};
ghost use Rattle.viewer_run.specs.Statuses.{AllShown, IsRefused};
ghost use Rattle.viewer_run.specs.Rasters.{raster_text};
ghost use Rattle.viewer_run.specs.Texts.{lines_of, texts_of_page};
ghost use Rattle.viewer_run.specs.Offline.{Written, offline, IsOutcome};

pub mod worked;

/// Where nothing failed, a run comes to what the definition `offline` says of the library.
pub fn sound_folders()
    ensures { (library : Library) (words : List (List ℕ)) (texts : Written) → IsOutcome [] [] library words texts → texts ≡ offline library words }
{}

/// What the statuses say of an outcome, where the failures of the folder that is listed are `first`, and those of all folders
/// are `all`. It is 3 exactly where something failed. It is 2 exactly where nothing failed and the run is refused. Where
/// nothing failed, it is 0 exactly where the run is accepted and each page has a drawing, or each file that is listed ends
/// with its FORM; else it is 1 or 2. Where it is known whether the listing or the table failed, there is one outcome.
pub fn statuses_tell()
    ensures failed { (first all : List Failure) (library : Library) (words : List (List ℕ)) (texts : Written) → IsOutcome first all library words texts
        → (texts.status ≡ 3) ↔ (all ≢ []) }
    ensures refused { (first all : List Failure) (library : Library) (words : List (List ℕ)) (texts : Written) → IsOutcome first all library words texts
        → (texts.status ≡ 2) ↔ ((all ≡ []) × IsRefused (plan_of library words)) }
    ensures done { (files : Files) (words : List (List ℕ)) (texts : Written) → IsOutcome [] [] (library_of files) words texts
        → (texts.status ≡ 0) ↔ AllShown (library_of files) (plan_of (library_of files) words) }
    ensures below { (first all : List Failure) (library : Library) (words : List (List ℕ)) (texts : Written) → IsOutcome first all library words texts
        → texts.status ≤ 3 }
    ensures one { (first all : List Failure) (library : Library) (words : List (List ℕ)) (texts others : Written)
        → front_may_fail words first ≡ front_failed library words first →
        IsOutcome first all library words texts → IsOutcome first all library words others → texts ≡ others }
{
    page_decoder::page_laws::libraries::closed_libraries();
}

/// A run that draws no page, or is refused, has no work.
pub fn others_have_no_work()
    ensures others { (library : Library) (words : List (List ℕ)) → draws (words_of words) ≡ false → (offline library words).work ≡ 0 }
    ensures refused { (library : Library) (words : List (List ℕ)) → (offline library words).status ≡ 2 → (offline library words).work ≡ 0 }
{}

/// A page of a library whose files are all closed, which isn't refused, has a drawing, and what is put of it is its lines and the
/// raster of its last drawing.
pub fn unrefused_pages_are_drawn()
    ensures { (rows : List Row) (library : Library) (page : ℕ) → page < length library → AllClosed library
        → (texts_of_page rows library page).refused ≡ false →
        (layers : Layers) × (last_layers (run rows library page).left.told.drawings ≡ Some layers) × (page_in rows library page ≡ Drawn (raster_of layers))
        × ((texts_of_page rows library page).puts
        ≡ to_report (lines_of (name_at (names_in library) page) (page_notices rows library page)) ++ to_out (raster_text (raster_of layers))) }
{
    page_decoder::page_laws::libraries::closed_libraries();
    page_decoder::page_laws::shows();
}
