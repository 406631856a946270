//! Laws of the drawings of a reading: each is a clause of a function that does nothing.
ghost use Rattle.std.specs.Prelude.{◌≡◌, ◌≤◌, ℕ, true, List, Contains, Some, None};
ghost use Rattle.djvu_base.specs.Library.{Library};
ghost use Rattle.djvu_base.specs.Picture.{Picture};
ghost use Rattle.zp_table.specs.declared.rows.Row.{Row};
ghost use Rattle.page_decoder.specs.Found.{CanDraw};
ghost use Rattle.page_decoder.specs.Given.{Given};
ghost use Rattle.page_decoder.specs.PageRead.{Drawing, AscendFrom};
ghost use Rattle.page_decoder.specs.Read.{read};
ghost use Rattle.page_decoder.specs.Libraries.{run, drawing_at, draw, page_in, Drawn};
ghost use Rattle.page_decoder.specs.Needs.{are_bytes};

/// Drawings ascend: each stands behind more chunks than the one before it, and behind no fewer decisions. None stands behind more
/// than were read.
pub fn ascend()
    ensures order { (given : Given) → AscendFrom 0 0 (read given).left.told.drawings }
    ensures within { (given : Given) (drawing : Drawing) → Contains (read given).left.told.drawings drawing
        → (drawing.chunks ≤ (read given).left.chunks) × (drawing.decisions ≤ (read given).left.told.decisions) }
{}

/// Each drawing of a file of bytes can be drawn: its sides are from 1 to 65,535 pixels, its mask has its size, and its colours lie on
/// it by a reduction.
pub fn drawable()
    ensures { (given : Given) (drawing : Drawing) → are_bytes given.bytes ≡ true → Contains (read given).left.told.drawings drawing
        → CanDraw drawing.layers }
{
    iff_chunks::laws::order();
    iff_chunks::laws::layout();
}

/// What a page shows behind its first chunks: nothing before the first, the drawing that is told there, and behind the last of
/// them what the page is.
pub fn shown()
    ensures none { (table : List Row) (library : Library) (page : ℕ) → draw table library page 0 ≡ None }
    ensures told { (table : List Row) (library : Library) (page chunks : ℕ) (picture : Picture)
        → drawing_at chunks (run table library page).left.told.drawings ≡ Some picture → draw table library page chunks ≡ Some picture }
    ensures last { (table : List Row) (library : Library) (page chunks : ℕ) (picture : Picture) → (run table library page).left.chunks ≤ chunks
        → page_in table library page ≡ Drawn picture → draw table library page chunks ≡ Some picture }
{
    crate::page_laws::shows();
    ascend();
}
