//! Readings that are worked out, as clauses of functions that do nothing.
ghost use Rattle.std.specs.Prelude.{◌≡◌, [], ◌∷◌, ◌++◌, map, take, codes, Some, None};
ghost use Rattle.djvu_base.specs.Library.{Open, Whole};
ghost use Rattle.djvu_base.specs.declared.faults.FaultKind.TheVariants as fault;
ghost use Rattle.iff_chunks.specs.Chunks.{magic};
ghost use Rattle.iff_chunks.specs.Worked.{header, page, sized_page, form_with, form_of_length, info_bytes};
ghost use Rattle.include_graph.specs.Worked.{include_of};
ghost use Rattle.zp_table.specs.Listing.{flat_rows, djvu_rows};
ghost use Rattle.layer_compose.specs.Drawing.{raster_of};
ghost use Rattle.page_decoder.specs.Worked.{mask_chunk, dot_bytes, dot_file};
ghost use Rattle.page_decoder.specs.PageRead.{Drawing, Finished, NeedBytes, NeedOutline, NeedFile};
ghost use Rattle.page_decoder.specs.Read.{read};
ghost use Rattle.page_decoder.specs.Libraries.{run, draw, page_in, Drawn, work_of};
ghost use Rattle.page_decoder.specs.WorkedPages.{Tells, faulty, page_with, read_alone, run_alone, back_chunk, front_chunk, dictionary_chunk, grey_chunk, dot_dictionary, copying_mask, pair_page, dictionary_file, including_page, shared_dictionary, two_dictionaries, chain, marked_dictionary, other_count, round_about, white_pixel, black_pixel, whole_file};

/// Pages with a background of one pixel: grey without data, black, white, and with colours; of two pixels; and with half chroma.
pub fn worked_backgrounds()
    ensures grey { Tells (read_alone Whole (page 40 grey_chunk)) ((1, 765) ∷ (2, 381) ∷ []) 1 Finished }
    ensures black { Tells (read_alone Whole (page 40 (back_chunk 10 (0 ∷ 1 ∷ 0x81 ∷ 2 ∷ 0 ∷ 1 ∷ 0 ∷ 1 ∷ 0 ∷ 0x3F ∷ [])))) ((1, 765) ∷ (2, 0) ∷ []) 3 Finished }
    ensures white { Tells (read_alone Whole (page 40 (back_chunk 10 (0 ∷ 1 ∷ 0x81 ∷ 2 ∷ 0 ∷ 1 ∷ 0 ∷ 1 ∷ 0 ∷ 0x1F ∷ []))))
        ((1, 765) ∷ (2, 765) ∷ []) 3 Finished }
    ensures colours { Tells (read_alone Whole (page 39 (back_chunk 9 (0 ∷ 1 ∷ 1 ∷ 2 ∷ 0 ∷ 1 ∷ 0 ∷ 1 ∷ 0x80 ∷ [])))) ((1, 765) ∷ (2, 384) ∷ []) 3 Finished }
    ensures half { Tells (read_alone Whole (page 39 (back_chunk 9 (0 ∷ 1 ∷ 1 ∷ 2 ∷ 0 ∷ 1 ∷ 0 ∷ 1 ∷ 0 ∷ [])))) ((1, 765) ∷ (2, 384) ∷ []) 3 Finished }
    ensures pair { Tells (read_alone Whole (sized_page (0 ∷ 2 ∷ 0 ∷ 1 ∷ []) 40 (back_chunk 10 (0 ∷ 1 ∷ 0x81 ∷ 2 ∷ 0 ∷ 2 ∷ 0 ∷ 1 ∷ 0 ∷ 0x3F ∷ []))))
        ((1, 1530) ∷ (2, 0) ∷ []) 3 Finished }

    // A mask, and a foreground that colours it.
    ensures front { Tells (read_alone Whole (page 52 (mask_chunk 4 dot_bytes ++ front_chunk 9 (0 ∷ 1 ∷ 0x81 ∷ 2 ∷ 0 ∷ 1 ∷ 0 ∷ 1 ∷ 0 ∷ 0 ∷ []))))
        ((1, 765) ∷ (2, 0) ∷ (3, 381) ∷ []) 30 Finished }
{}

/// Layers of colour that are refused: for the end of the header, the serial, the version, a side of 0 and the size.
pub fn worked_refusals()
    ensures header { Tells (read_alone Whole (page 32 (back_chunk 1 (0 ∷ 0 ∷ [])))) ((1, 765) ∷ []) 0 (faulty fault.IwHeader 0 34) }
    ensures serial { Tells (read_alone Whole (page 32 (back_chunk 2 (1 ∷ 1 ∷ [])))) ((1, 765) ∷ []) 0 (faulty fault.IwSerial 0 34) }
    ensures version { Tells (read_alone Whole (page 40 (back_chunk 9 (0 ∷ 1 ∷ 0x81 ∷ 3 ∷ 0 ∷ 1 ∷ 0 ∷ 1 ∷ 0 ∷ 0 ∷ [])))) ((1, 765) ∷ []) 0
        (faulty fault.IwVersion 0 34) }
    ensures no_width { Tells (read_alone Whole (page 40 (back_chunk 9 (0 ∷ 1 ∷ 0x81 ∷ 2 ∷ 0 ∷ 0 ∷ 0 ∷ 1 ∷ 0 ∷ 0 ∷ [])))) ((1, 765) ∷ []) 0
        (faulty fault.IwHeader 0 34) }
    ensures size { Tells (read_alone Whole (page 40 (back_chunk 9 (0 ∷ 1 ∷ 0x81 ∷ 2 ∷ 0 ∷ 2 ∷ 0 ∷ 1 ∷ 0 ∷ 0 ∷ [])))) ((1, 765) ∷ []) 0
        (faulty fault.LayerSize 0 34) }
{}

/// Pages without included files: what they tell, and for what they are refused.
pub fn worked_pages()
    ensures blank { Tells (read_alone Whole (page 22 [])) ((1, 765) ∷ []) 0 Finished }
    ensures mask { Tells (read_alone Whole dot_file) ((1, 765) ∷ (2, 0) ∷ []) 29 Finished }
    ensures mask_arriving { Tells (read_alone Open (take 48 (page 38 (mask_chunk 8 (dot_bytes ++ 0xFF ∷ 0xFF ∷ 0xFF ∷ 0xFF ∷ [])))))
        ((1, 765) ∷ []) 17 NeedBytes }
    ensures mask_longer { Tells (read_alone Open (page 38 (mask_chunk 8 (dot_bytes ++ 0xFF ∷ 0xFF ∷ 0xFF ∷ 0xFF ∷ [])))) ((1, 765) ∷ (2, 0) ∷ []) 29 Finished }
    ensures cut { Tells (read_alone Whole (take 44 dot_file)) ((1, 765) ∷ []) 0 (faulty fault.Truncated 0 34) }
    ensures overrun { Tells (read_alone Whole (page 30 (back_chunk 100 []))) ((1, 765) ∷ []) 0 (faulty fault.Overrun 0 34) }
    ensures refused { Tells (read_alone Whole (page 30 (header (codes "FGbz") 0))) ((1, 765) ∷ []) 0 (faulty fault.Unsupported 0 34) }
    ensures passed_over { Tells (read_alone Whole (page 30 (header (codes "TXTz") 0))) ((1, 765) ∷ []) 0 Finished }
    ensures too_large { Tells (read_alone Whole (sized_page (0xFF ∷ 0xFF ∷ 0x04 ∷ 0x01 ∷ []) 22 [])) [] 0 (faulty fault.TooLarge 0 16) }
    ensures no_width { Tells (read_alone Whole (sized_page (0 ∷ 0 ∷ 0 ∷ 1 ∷ []) 22 [])) [] 0 (faulty fault.BadInfo 0 16) }
    ensures second_info { Tells (read_alone Whole (page 30 (header (codes "INFO") 0))) ((1, 765) ∷ []) 0 (faulty fault.SecondInfo 0 34) }
    ensures mask_first { Tells (read_alone Whole (form_with (codes "DJVU") 12 (header (codes "Sjbz") 0))) [] 0 (faulty fault.NoInfo 0 16) }
    ensures no_chunk { Tells (read_alone Whole (form_with (codes "DJVU") 4 [])) [] 0 (faulty fault.NoInfo 0 16) }
    ensures no_start { Tells (read_alone Whole (page 32 (mask_chunk 1 (0x0F ∷ 0 ∷ [])))) ((1, 765) ∷ []) 4 (faulty fault.Jb2NoStart 0 34) }
    ensures past_the_end { Tells (read_alone Whole (page 34 (mask_chunk 4 (0xB7 ∷ 0x60 ∷ 0xFC ∷ 0x1F ∷ [])))) ((1, 765) ∷ []) 208
        (faulty fault.ZpExhausted 0 34) }
    ensures no_mask { Tells (read (page_with djvu_rows Whole (page 30 (mask_chunk 0 [])))) ((1, 765) ∷ []) 4 (faulty fault.MaskSize 0 34) }
    ensures own_dictionary { Tells (read_alone Whole (page 48 (dot_dictionary ++ copying_mask))) ((1, 765) ∷ (3, 0) ∷ []) 52 Finished }
    ensures mark_in_dictionary { Tells (read_alone Whole (page 32 (dictionary_chunk 1 (0x7F ∷ 0 ∷ [])))) ((1, 765) ∷ []) 3 (faulty fault.Jb2Record 0 34) }
{}

/// Pages that are broken: at the head, at the end of their bytes, in a header, and in records.
pub fn worked_broken_pages()
    ensures length_3 { Tells (read_alone Whole (form_of_length (0 ∷ 0 ∷ 0 ∷ 3 ∷ []))) [] 0 (faulty fault.NotForm 0 0) }
    ensures no_header { Tells (read_alone Whole (take 16 (page 22 []))) [] 0 (faulty fault.Truncated 0 0) }
    ensures in_header { Tells (read_alone Whole (take 20 (page 22 []))) [] 0 (faulty fault.Truncated 0 16) }
    ensures three_left { Tells (read_alone Whole (page 25 (0 ∷ 0 ∷ 0 ∷ []))) ((1, 765) ∷ []) 0 (faulty fault.ShortHeader 0 34) }
    ensures bad_id { Tells (read_alone Whole (page 30 (header (0x42 ∷ 0x00 ∷ 0x34 ∷ 0x34 ∷ []) 0))) ((1, 765) ∷ []) 0 (faulty fault.BadId 0 34) }
    ensures too_long { Tells (read_alone Whole (magic ++ form_of_length (0x00 ∷ 0x1F ∷ 0xFF ∷ 0xF5 ∷ codes "DJVU"))) [] 0 (faulty fault.TooLarge 0 0) }
    ensures longest { Tells (read_alone Whole (magic
        ++ form_of_length (0x00 ∷ 0x1F ∷ 0xFF ∷ 0xF4 ∷ (codes "DJVU" ++ (header (codes "INFO") 10 ++ info_bytes))))) ((1, 765) ∷ []) 0
        (faulty fault.Truncated 0 34) }
    ensures second_start { Tells (read_alone Whole (page 32 (mask_chunk 2 (0xB7 ∷ 0xFF ∷ [])))) ((1, 765) ∷ []) 9 (faulty fault.Jb2SecondStart 0 34) }
    ensures no_match { Tells (read_alone Whole (page 32 (mask_chunk 2 (0xB7 ∷ 0x1F ∷ [])))) ((1, 765) ∷ []) 14 (faulty fault.Jb2NoMatch 0 34) }
    ensures sized_dictionary { Tells (read_alone Whole (page 32 (dictionary_chunk 1 (0xBF ∷ 0 ∷ [])))) ((1, 765) ∷ []) 6 (faulty fault.Jb2Dictionary 0 34) }
    ensures two_masks { Tells (read_alone Whole (page 46 (mask_chunk 4 dot_bytes ++ mask_chunk 4 dot_bytes))) ((1, 765) ∷ (2, 0) ∷ []) 29
        (faulty fault.SecondMask 0 46) }
    ensures two_dictionaries { Tells (read_alone Whole (page 42 (dot_dictionary ++ header (codes "Djbz") 0))) ((1, 765) ∷ []) 18
        (faulty fault.SecondDictionary 0 46) }
    ensures two_fronts { Tells (read_alone Whole (page 48 (front_chunk 9 (0 ∷ 1 ∷ 0x81 ∷ 2 ∷ 0 ∷ 1 ∷ 0 ∷ 1 ∷ 0 ∷ 0 ∷ []) ++ header (codes "FG44") 0)))
        ((1, 765) ∷ (2, 765) ∷ []) 1 (faulty fault.SecondFront 0 52) }
    ensures no_name { Tells (read_alone Whole (page 30 (header (codes "INCL") 0))) ((1, 765) ∷ []) 0 (faulty fault.BadIncludeName 0 34) }
{}

/// Pages that are turned: to the right, to the left, over, and not at all.
pub fn worked_turned_pages()
    ensures right { page_in flat_rows (whole_file (codes "p") (pair_page (0x05 ∷ []) 10 34) ∷ []) 0 ≡ Drawn
        (record { width = 1; height = 2; samples = 0 ∷ 0 ∷ 0 ∷ 255 ∷ 255 ∷ 255 ∷ [] }) }
    ensures left { page_in flat_rows (whole_file (codes "p") (pair_page (0x06 ∷ []) 10 34) ∷ []) 0 ≡ Drawn
        (record { width = 1; height = 2; samples = 255 ∷ 255 ∷ 255 ∷ 0 ∷ 0 ∷ 0 ∷ [] }) }
    ensures over { page_in flat_rows (whole_file (codes "p") (pair_page (0x02 ∷ []) 10 34) ∷ []) 0 ≡ Drawn
        (record { width = 2; height = 1; samples = 255 ∷ 255 ∷ 255 ∷ 0 ∷ 0 ∷ 0 ∷ [] }) }
    ensures other { page_in flat_rows (whole_file (codes "p") (pair_page (0x07 ∷ []) 10 34) ∷ []) 0 ≡ Drawn
        (record { width = 2; height = 1; samples = 0 ∷ 0 ∷ 0 ∷ 255 ∷ 255 ∷ 255 ∷ [] }) }
    ensures short { page_in flat_rows (whole_file (codes "p") (pair_page (0x00 ∷ []) 9 34) ∷ []) 0 ≡ Drawn
        (record { width = 2; height = 1; samples = 0 ∷ 0 ∷ 0 ∷ 255 ∷ 255 ∷ 255 ∷ [] }) }
{}

/// Pages that include files: two that share a dictionary, and their work; files that include each other; a file that is missing;
/// and a count of shapes that isn't the dictionary's.
pub fn worked_libraries()
    ensures first { Tells (run flat_rows shared_dictionary 1) ((1, 765) ∷ (3, 0) ∷ []) 34 Finished }
    ensures second { Tells (run flat_rows shared_dictionary 2) ((1, 765) ∷ (3, 0) ∷ []) 34 Finished }
    ensures work { work_of flat_rows shared_dictionary (1 ∷ 2 ∷ []) ≡ 86 }
    ensures round { Tells (run flat_rows round_about 2) ((1, 765) ∷ []) 0 (faulty fault.CyclicInclude 1 16) }
    ensures other_way { Tells (run flat_rows round_about 3) ((1, 765) ∷ []) 0 (faulty fault.CyclicInclude 0 16) }
    ensures missing { Tells (run_alone (page 32 (include_of 0x7A))) ((1, 765) ∷ []) 0 (faulty fault.MissingInclude 0 34) }
    ensures other_count { Tells (run flat_rows other_count 1) ((1, 765) ∷ []) 9 (faulty fault.Jb2Dictionary 1 44) }
    ensures other_work { work_of flat_rows other_count (1 ∷ []) ≡ 27 }
    ensures itself { Tells (run_alone (page 32 (include_of 0x70))) ((1, 765) ∷ []) 0 (faulty fault.NotIncludedForm 0 0) }
    ensures first_counts { Tells (run flat_rows (two_dictionaries 0x64 0x65) 2) ((1, 765) ∷ (4, 0) ∷ []) 34 Finished }
    ensures empty_hides { Tells (run flat_rows (two_dictionaries 0x65 0x64) 2) ((1, 765) ∷ []) 9 (faulty fault.Jb2Dictionary 2 54) }

    // An include is resolved late: a background comes before it, and a cut too.
    ensures missing_late { Tells (run_alone (page 50 (include_of 0x7A ++ grey_chunk))) ((1, 765) ∷ (3, 381) ∷ []) 1 (faulty fault.MissingInclude 0 34) }
    ensures cut_before { Tells (run_alone (take 50 (page 50 (include_of 0x7A ++ grey_chunk)))) ((1, 765) ∷ []) 0 (faulty fault.Truncated 0 44) }
{}

/// A page's own dictionary comes before those of its includes, which are decoded all the same; and the fault of an included file
/// is the page's.
pub fn worked_dictionaries()
    ensures own_hides { Tells (run flat_rows chain 2) ((1, 765) ∷ []) 17 (faulty fault.Jb2Dictionary 2 54) }
    ensures own_work { work_of flat_rows chain (2 ∷ []) ≡ 35 }
    ensures below { Tells (run flat_rows marked_dictionary 1) ((1, 765) ∷ []) 0 (faulty fault.Jb2Record 0 16) }
    ensures below_work { work_of flat_rows marked_dictionary (1 ∷ []) ≡ 3 }
{}

/// What a page shows behind its chunks: white behind the first, and behind an include that brings nothing; and how many decisions
/// the chunks had up to each drawing.
pub fn worked_drawings()
    ensures nothing { draw flat_rows shared_dictionary 1 0 ≡ None }
    ensures first { draw flat_rows shared_dictionary 1 1 ≡ Some white_pixel }
    ensures include { draw flat_rows shared_dictionary 1 2 ≡ Some white_pixel }
    ensures mask { draw flat_rows shared_dictionary 1 3 ≡ Some black_pixel }
    ensures beyond { draw flat_rows shared_dictionary 1 4 ≡ Some black_pixel }
    ensures decisions { map (λ (drawing : Drawing). drawing.decisions) (run flat_rows shared_dictionary 1).left.told.drawings ≡ 0 ∷ 34 ∷ [] }
{}

/// A page whose background comes before its dictionary: where the dictionary isn't there, and where it is.
pub fn worked_needs()
    ensures needs { Tells (run flat_rows (record { name = codes "d"; bytes = []; mark = Open }
        ∷ whole_file (codes "p") (page 64 (include_of 0x64 ++ (grey_chunk ++ copying_mask))) ∷ []) 1) ((1, 765) ∷ (3, 381) ∷ []) 1 (NeedFile 0) }
    ensures gives { Tells (run flat_rows (whole_file (codes "d") dictionary_file
        ∷ whole_file (codes "p") (page 64 (include_of 0x64 ++ (grey_chunk ++ copying_mask))) ∷ []) 1) ((1, 765) ∷ (3, 381) ∷ (4, 0) ∷ []) 35 Finished }
{}
