//! One form, read again: the law of plain pages, a clause of a function that does nothing.
ghost use Rattle.std.specs.Prelude.{◌≡◌};
ghost use Rattle.iff_chunks.specs.Chunks.{chunks_of};
ghost use Rattle.zp_table.specs.Rows.{IsTable};
ghost use Rattle.page_decoder.specs.Reading.{reading};
ghost use Rattle.page_decoder.specs.Given.{Page, Given};
ghost use Rattle.page_decoder.specs.Read.{read};
ghost use Rattle.page_decoder.specs.Plain.{IsPlainPage, IsReadSo};

/// A page with a mask at most, without included files, dictionaries, colours and turns, is what the shorter definition says, which
/// knows no other chunks. What is known of other files makes no difference.
pub fn plain_pages()
    ensures { (given : Given) → IsTable given.home.table → given.home.role ≡ Page → IsPlainPage (chunks_of given.bytes)
        → IsReadSo given.home.file (reading given.home.table given.mark given.bytes) (read given) }
{
    iff_chunks::laws::order();
    iff_chunks::laws::layout();
    jb2_records::laws::records_end();
}
