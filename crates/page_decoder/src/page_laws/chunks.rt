//! Laws of the chunks of a file: each is a clause of a function that does nothing.
ghost use Rattle.std.specs.Prelude.{◌≡◌, ◌≢◌, ℕ, true, List, length};
ghost use Rattle.zp_table.specs.declared.rows.Row.{Row};
ghost use Rattle.zp_table.specs.Rows.{IsTable};
ghost use Rattle.iw44_image.specs.Layer.{data_of};
ghost use Rattle.page_decoder.specs.Kinds.{kind_of};
ghost use Rattle.page_decoder.specs.Given.{Page, Home, Known};
ghost use Rattle.page_decoder.specs.PageRead.{Decoded, Left, at_start};
ghost use Rattle.page_decoder.specs.Headers.{Head, header_fault};
ghost use Rattle.page_decoder.specs.ChunkData.{Unfinished, came};
ghost use Rattle.page_decoder.specs.Acts.{Act};
ghost use Rattle.page_decoder.specs.Read.{On, at_header, step_through};
ghost use Rattle.page_decoder.specs.Needs.{HasBefore};

/// Behind the chunks of a page, a chunk whose header is right finds what it wants.
pub fn right_headers_are_ready()
    ensures { (home : Home) (known : Known) (acts : List Act) (left now : Left) (head : Head) (bytes : List ℕ) → home.role ≡ Page
        → step_through home known acts at_start ≡ On left → at_header home known head (header_fault home.role left head) left ≡ On now
        → length bytes ≡ head.size → HasBefore (kind_of head.id) home.table bytes now.decoded }
{}

/// A complete chunk leaves what it brings, or refuses the file. Nothing more of it is waited for.
pub fn complete_chunks_come_to_something()
    ensures { (table : List Row) (head : Head) (bytes : List ℕ) (decoded : Decoded) → IsTable table → HasBefore (kind_of head.id) table bytes decoded
        → (came table head (data_of bytes true) decoded).outcome ≢ Unfinished }
{
    jb2_records::laws::records_end();
    iw44_image::laws::complete_chunks_are_answered();
    iw44_image::laws::layers_go_on();
}
