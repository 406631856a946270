//! Laws of the short definition of a page with a mask at most, and values of it that are worked out: each is a clause of a
//! function that changes nothing.
ghost use Rattle.std.specs.Prelude.{◌≡◌, ◌≢◌, ℕ, ◌++◌, List, [], ◌∷◌, None, Some, take, drop, codes};
ghost use Rattle.djvu_base.specs.Library.{Mark, Open, Whole, Broken};
ghost use Rattle.djvu_base.specs.declared.faults.FaultKind.TheVariants.{Truncated, Read, NoInfo, SecondInfo, SecondMask, BadInfo, Unsupported, WrongForm, TooLarge, Overrun, BadId, MaskSize, Jb2NoStart, Jb2SecondStart, ZpExhausted};
ghost use Rattle.iff_chunks.specs.Worked.{form_with, header, sized_page, page, blank_file};
ghost use Rattle.zp_table.specs.declared.rows.Row.{Row};
ghost use Rattle.page_decoder.specs.Reading.{Finished, Fault, NeedBytes, reading, size_in, size_fault};
ghost use Rattle.page_decoder.specs.Worked.{mask_chunk, dot_bytes, dot_file, white, black, read, found};

/// A page that is finished has a drawing, and one whose file's end is known needs no more bytes.
pub fn ends()
    ensures drawn { (rows : List Row) (mark : Mark) (bytes : List ℕ) → (reading rows mark bytes).end ≡ Finished → (reading rows mark bytes).notices ≢ [] }
    ensures known { (rows : List Row) (mark : Mark) (bytes : List ℕ) → mark ≢ Open → (reading rows mark bytes).end ≢ NeedBytes }
{
    iff_chunks::laws::layout();
}

/// Pages that are finished, and pages that are refused, and for what.
pub fn worked_readings()
    ensures blank { read Whole blank_file ≡ found (white ∷ []) Finished 0 }
    ensures bare { read Whole (drop 4 blank_file) ≡ read Whole blank_file }
    ensures empty { read Whole [] ≡ found [] (Fault Truncated 0) 0 }
    ensures other_chunk { read Whole (page 30 (header (codes "TXTz") 0)) ≡ read Whole blank_file }
    ensures unread { read Whole (page 30 (header (codes "FGbz") 0)) ≡ found (white ∷ []) (Fault Unsupported 34) 0 }
    ensures overrun { read Whole (page 30 (header (codes "BG44") 100)) ≡ found (white ∷ []) (Fault Overrun 34) 0 }
    ensures too_large { read Whole (sized_page (0xFF ∷ 0xFF ∷ 0x04 ∷ 0x01 ∷ []) 22 []) ≡ found [] (Fault TooLarge 16) 0 }
    ensures no_columns { read Whole (sized_page (0x00 ∷ 0x00 ∷ 0x00 ∷ 0x01 ∷ []) 22 []) ≡ found [] (Fault BadInfo 16) 0 }
    ensures mask_first { read Whole (form_with (codes "DJVU") 12 (header (codes "Sjbz") 0)) ≡ found [] (Fault NoInfo 16) 0 }
    ensures no_chunk { (read Whole (form_with (codes "DJVU") 4 [])).end ≡ Fault NoInfo 16 }
    ensures no_chunk_bare { (read Whole (drop 4 (form_with (codes "DJVU") 4 []))).end ≡ Fault NoInfo 12 }
    ensures several { (read Whole (form_with (codes "DJVM") 4 [])).end ≡ Fault Unsupported 0 }
    ensures no_page { (read Whole (form_with (codes "DJVI") 4 [])).end ≡ Fault WrongForm 0 }
{}

/// Which of two faults comes first: that of the file's form, then in the order in which a header is judged, and a fault
/// that is seen before the bytes end.
pub fn worked_orders()
    ensures second_and_short { (read Whole (page 34 (header (codes "INFO") 4))).end ≡ Fault SecondInfo 34 }
    ensures first_and_unread { (read Whole (form_with (codes "DJVU") 12 (header (codes "FGbz") 0))).end ≡ Fault NoInfo 16 }
    ensures second_and_overrun { (read Whole (page 30 (header (codes "INFO") 100))).end ≡ Fault Overrun 34 }
    ensures second_and_bad_id { (read Whole (page 30 (header (0x49 ∷ 0x4E ∷ 0x46 ∷ 0x07 ∷ []) 0))).end ≡ Fault BadId 34 }
    ensures short_and_cut { (read Whole (form_with (codes "DJVU") 22 (header (codes "INFO") 4))).end ≡ Fault BadInfo 16 }
    ensures size_and_cut { (read Whole (form_with (codes "DJVU") 22 (header (codes "INFO") 10 ++ 0 ∷ 0 ∷ 0 ∷ 1 ∷ []))).end ≡ Fault BadInfo 16 }
    ensures cut { (read Whole (form_with (codes "DJVU") 22 (header (codes "INFO") 10 ++ 0 ∷ 0 ∷ 0 ∷ []))).end ≡ Fault Truncated 16 }
    ensures broken_off { (read Broken (form_with (codes "DJVU") 22 (header (codes "INFO") 10 ++ 0 ∷ 0 ∷ 0 ∷ []))).end ≡ Fault Read 27 }
    ensures broken_behind { read Broken blank_file ≡ read Whole blank_file }
    ensures arriving { (read Open (form_with (codes "DJVU") 22 (header (codes "INFO") 10 ++ 0 ∷ 0 ∷ 0 ∷ []))).end ≡ NeedBytes }
    ensures second_mask_and_cut { (read Whole (page 46 (mask_chunk 4 dot_bytes ++ header (codes "Sjbz") 4))).end ≡ Fault SecondMask 46 }
    ensures decoding_and_cut { read Whole (page 50 (mask_chunk 20 (0xB7 ∷ 0xFF ∷ 0xFF ∷ 0xFF ∷ 0xFF ∷ []))) ≡ found (white ∷ []) (Fault Jb2SecondStart 34) 9 }
    ensures decoding_and_broken_off { read Broken (page 50 (mask_chunk 20 (0xB7 ∷ 0xFF ∷ 0xFF ∷ 0xFF ∷ 0xFF ∷ [])))
        ≡ found (white ∷ []) (Fault Jb2SecondStart 34) 9 }
{}

/// Pages with masks: which drawings they have, where they end, and how many decisions were read.
pub fn worked_masks()
    ensures dot { read Whole dot_file ≡ found (white ∷ black 2 ∷ []) Finished 29 }

    // Bytes behind the end of the records are skipped.
    ensures longer { read Whole (page 36 (mask_chunk 6 (dot_bytes ++ 0x00 ∷ 0x00 ∷ []))) ≡ found (white ∷ black 2 ∷ []) Finished 29 }
    ensures behind_another { read Whole (page 42 (header (codes "TXTz") 0 ++ mask_chunk 4 dot_bytes)) ≡ found (white ∷ black 3 ∷ []) Finished 29 }

    // Of a chunk that is cut the decisions are read that its bytes determine, and it is never laid on the page.
    ensures cut_early { read Whole (take 44 dot_file) ≡ found (white ∷ []) (Fault Truncated 34) 0 }
    ensures cut_late { read Whole (take 48 (page 38 (mask_chunk 8 (dot_bytes ++ 0xFF ∷ 0xFF ∷ 0xFF ∷ 0xFF ∷ []))))
        ≡ found (white ∷ []) (Fault Truncated 34) 17 }
    ensures cut_behind { read Whole (page 50 (mask_chunk 20 (dot_bytes ++ 0xFF ∷ 0xFF ∷ 0xFF ∷ 0xFF ∷ []))) ≡ found (white ∷ []) (Fault Truncated 34) 29 }
    ensures broken_off { read Broken (take 44 dot_file) ≡ found (white ∷ []) (Fault Read 44) 0 }
    ensures arriving { read Open (take 44 dot_file) ≡ found (white ∷ []) NeedBytes 0 }

    // Faults.
    ensures no_start { read Whole (page 31 (mask_chunk 1 (0x0F ∷ []))) ≡ found (white ∷ []) (Fault Jb2NoStart 34) 4 }
    ensures past_the_end { read Whole (page 34 (mask_chunk 4 (0xB7 ∷ 0x60 ∷ 0xFC ∷ 0x1F ∷ []))) ≡ found (white ∷ []) (Fault ZpExhausted 34) 208 }
    ensures other_size { (read Whole (page 34 (mask_chunk 4 (0xA7 ∷ 0x6D ∷ 0x86 ∷ 0x87 ∷ [])))).end ≡ Fault MaskSize 34 }
    ensures no_data { (read Whole (page 30 (mask_chunk 0 []))).end ≡ Fault MaskSize 34 }
    ensures two_masks { read Whole (page 46 (mask_chunk 4 dot_bytes ++ mask_chunk 4 dot_bytes)) ≡ found (white ∷ black 2 ∷ []) (Fault SecondMask 46) 29 }
{}

/// Sizes of pages.
pub fn worked_sizes()
    ensures sizes { size_in (0x00 ∷ 0x02 ∷ 0x01 ∷ 0x03 ∷ []) ≡ record { width = 2; height = 259 } }
    ensures at_limit { size_fault (record { width = 8192; height = 8192 }) ≡ None }
    ensures past_limit { size_fault (record { width = 65535; height = 1025 }) ≡ Some TooLarge }
    ensures no_rows { size_fault (record { width = 1; height = 0 }) ≡ Some BadInfo }
{}
