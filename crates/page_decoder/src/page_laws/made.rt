//! Laws of results that are made, one out of others: each is a clause of a function that does nothing.
ghost use Rattle.std.specs.Prelude.{◌≡◌, ℕ, List, Option, Some};
ghost use Rattle.djvu_base.specs.Library.{Library};
ghost use Rattle.zp_table.specs.declared.rows.Row.{Row};
ghost use Rattle.zp_table.specs.Rows.{IsTable};
ghost use Rattle.page_decoder.specs.Results.{Result};
ghost use Rattle.page_decoder.specs.Given.{Page};
ghost use Rattle.page_decoder.specs.PageRead.{NeedFile};
ghost use Rattle.page_decoder.specs.Read.{read};
ghost use Rattle.page_decoder.specs.Libraries.{given_in, LibraryGoesOn};
ghost use Rattle.page_decoder.specs.Needs.{IsMade};

/// When the reading of a page needs a file, all is known that the file's decoding wants.
pub fn needed_files_are_made()
    ensures { (table : List Row) (library : Library) (results : ℕ → Option Result) (page file : ℕ)
        → (read (given_in Page table library page results)).end ≡ NeedFile file → IsMade table library results page file }
{
    crate::page_laws::needs();
    include_graph::laws::lists();
}

/// It stays so when the library goes on, and when more results are known.
pub fn made_stays()
    ensures { (table : List Row) (library later : Library) (less more : ℕ → Option Result) (page file : ℕ) → IsTable table → LibraryGoesOn library later
        → ((other : ℕ) (result : Result) → less other ≡ Some result → more other ≡ Some result) → IsMade table library less page file
        → IsMade table later more page file }
{
    crate::page_laws::needs();
    crate::page_laws::libraries::libraries_go_on();
    include_graph::laws::lists();
    include_graph::laws::outlines_stay();
}
