//! Values of the definitions, worked out: each is a clause of a function that does nothing.
ghost use Rattle.std.specs.Prelude.{◌≡◌, ℕ, ◌++◌, List, [], ◌∷◌, None, Some, length, true, false, codes};
ghost use Rattle.djvu_base.specs.Library.{Whole, Broken};
ghost use Rattle.djvu_outside.specs.Faults.{Listing, Reading};
ghost use Rattle.djvu_outside.specs.Puts.{to_out, to_report};
ghost use Rattle.zp_table.specs.Listing.{djvu_rows, flat_rows};
ghost use Rattle.viewer_words.specs.declared.commands.TableChoice.TheVariants.{File};
ghost use Rattle.viewer_words.specs.Lines.{folder_line, words_line};
ghost use Rattle.viewer_words.specs.Files.{NamedFile, first_unlisted};
ghost use Rattle.viewer_run.specs.Plan.{Refuses, Draws, Lists, plan_of, plan_of_draw, line_by_names};
ghost use Rattle.viewer_run.specs.EarlyFailures.{front_may_fail, front_failed};
ghost use Rattle.viewer_run.specs.Info.{info_lines};
ghost use Rattle.viewer_run.specs.Rasters.{raster_head};
ghost use Rattle.viewer_run.specs.Offline.{offline, written_cut};
ghost use Rattle.iff_chunks.specs.Worked.{form_with, header, page, blank_file};
ghost use Rattle.djvu_base.specs.Text.{newline};
ghost use Rattle.viewer_run.specs.Worked.{masked_file, cut_mask, file, white_pixel, black_pixel, pixel_line, black_line, draw_flat};

/// The head of a raster, and the chunks of files, in lines.
pub fn worked_infos()
    ensures head { raster_head 2550 3300 ≡ codes "P6" ++ (newline ++ (codes "2550 3300" ++ (newline ++ (codes "255" ++ newline)))) }
    ensures page { info_lines (codes "p" ∷ []) 0 Whole masked_file
        ≡ codes "p: form DJVU 34" ++ (newline ++ (codes "p: chunk INFO 16 10" ++ (newline ++ (codes "p: chunk Sjbz 34 4" ++ newline)))) }
    ensures overrun { info_lines (codes "p" ∷ []) 0 Whole (form_with (codes "DJVI") 12 (header (codes "Djbz") 1))
        ≡ codes "p: form DJVI 12" ++ (newline ++ (codes "p: overrun p 16" ++ newline)) }
    ensures broken_off { info_lines (codes "p" ∷ []) 0 Broken (form_with (codes "DJVM") 13 (header (codes "DIRM") 1))
        ≡ codes "p: form DJVM 13" ++ (newline ++ (codes "p: chunk DIRM 16 1" ++ (newline ++ (codes "p: read p 24" ++ newline)))) }
{}

/// What stands before the pages.
pub fn worked_fronts()
    ensures many { (names : List (List ℕ)) (files : List NamedFile) → length names ≡ 1025 → line_by_names names files ≡ Some (folder_line 1025) }
    ensures not_many { (names : List (List ℕ)) (files : List NamedFile) → length names ≡ 1024 → first_unlisted names files ≡ None
        → line_by_names names files ≡ None }
    ensures not_listed { line_by_names (codes "p" ∷ []) ((1, codes "p") ∷ (2, codes "q") ∷ (3, codes "r") ∷ []) ≡ Some (words_line 2) }
    ensures table_first { line_by_names (codes "p" ∷ []) ((2, codes "t") ∷ (3, codes "q") ∷ []) ≡ Some (words_line 2) }
    ensures listed { plan_of (file (codes "p") [] ∷ file (codes "q") [] ∷ []) (codes "info" ∷ codes "q" ∷ codes "p" ∷ []) ≡ Lists (1 ∷ 0 ∷ []) }
    ensures usual { plan_of (file (codes "p") [] ∷ []) (codes "draw" ∷ codes "p" ∷ []) ≡ Draws djvu_rows (0 ∷ []) }
    ensures flat { plan_of (file (codes "p") [] ∷ []) draw_flat ≡ Draws flat_rows (0 ∷ []) }
    ensures table { plan_of_draw (file (codes "p") [] ∷ file (codes "t") (0x80 ∷ 0 ∷ 0 ∷ 0 ∷ 0 ∷ 0 ∷ []) ∷ []) ((2, codes "t") ∷ (3, codes "p") ∷ [])
        (File (codes "t")) (codes "p" ∷ []) ≡ Draws flat_rows (0 ∷ []) }
    ensures no_table { plan_of_draw (file (codes "p") [] ∷ file (codes "t") (0 ∷ 0 ∷ 0 ∷ 0 ∷ 0 ∷ []) ∷ []) ((2, codes "t") ∷ (3, codes "p") ∷ [])
        (File (codes "t")) (codes "p" ∷ []) ≡ Refuses (codes "table 0 short" ++ newline) }
    ensures no_chance { plan_of_draw (file (codes "p") [] ∷ file (codes "t") (0x80 ∷ 0 ∷ 0 ∷ 0 ∷ 1 ∷ 0 ∷ 0 ∷ 0 ∷ 0 ∷ 0 ∷ 0 ∷ 0 ∷ []) ∷ [])
        ((2, codes "t") ∷ (3, codes "p") ∷ []) (File (codes "t")) (codes "p" ∷ []) ≡ Refuses (codes "table 1 chance" ++ newline) }
{}

/// All of a run over a few files.
pub fn worked_runs()
    ensures drawn { offline (file (codes "p") blank_file ∷ []) (codes "draw" ∷ codes "p" ∷ [])
        ≡ record { puts = to_report (pixel_line (codes "p")) ++ to_out white_pixel; status = 0; work = 0 } }
    ensures in_order { offline (file (codes "p") blank_file ∷ file (codes "q") blank_file ∷ []) (codes "draw" ∷ codes "p" ∷ codes "q" ∷ []) ≡
        record {
          puts = to_report (pixel_line (codes "p")) ++ (to_out white_pixel ++ (to_report (pixel_line (codes "q")) ++ to_out white_pixel));
          status = 0;
          work = 0;
        } }
    ensures second_info { offline (file (codes "p") (page 30 (header (codes "INFO") 0)) ∷ []) (codes "draw" ∷ codes "p" ∷ []) ≡
        record { puts = to_report (pixel_line (codes "p") ++ (codes "p: second-info p 34" ++ newline)); status = 1; work = 0 } }
    ensures twice { offline (file (codes "p") blank_file ∷ []) (codes "draw" ∷ codes "p" ∷ codes "p" ∷ [])
        ≡ record { puts = to_report (codes "words 2" ++ newline); status = 2; work = 0 } }
    ensures no_page { offline (file (codes "p") blank_file ∷ []) (codes "draw" ∷ [])
        ≡ record { puts = to_report (codes "words 1" ++ newline); status = 2; work = 0 } }
    ensures table { offline (file (codes "p") blank_file ∷ []) draw_flat
        ≡ record { puts = to_report (pixel_line (codes "p")) ++ to_out white_pixel; status = 0; work = 0 } }
    ensures no_table { offline (file (codes "p") blank_file ∷ file (codes "t") (0 ∷ 0 ∷ 0 ∷ 0 ∷ 0 ∷ []) ∷ [])
        (codes "draw" ∷ codes "--table" ∷ codes "t" ∷ codes "p" ∷ []) ≡
        record { puts = to_report (codes "table 0 short" ++ newline); status = 2; work = 0 } }
    ensures first_refused { offline (file (codes "p") [] ∷ file (codes "q") blank_file ∷ []) (codes "draw" ∷ codes "p" ∷ codes "q" ∷ []) ≡
        record { puts = to_report (codes "p: truncated p 0" ++ (newline ++ pixel_line (codes "q"))) ++ to_out white_pixel; status = 1; work = 0 } }
    ensures listing_failed { front_failed (file (codes "p") blank_file ∷ []) (codes "draw" ∷ codes "p" ∷ []) (Listing ∷ []) ≡ true }
    ensures no_front { front_may_fail (codes "draw" ∷ codes "p" ∷ []) (Reading (codes "p") 20 ∷ []) ≡ false }
    ensures reading_failed { written_cut (Reading (codes "p") 20 ∷ []) (file (codes "p") blank_file ∷ file (codes "q") blank_file ∷ [])
        (codes "draw" ∷ codes "p" ∷ codes "q" ∷ []) ≡
        record { puts = to_report (codes "p: read p 20" ++ (newline ++ pixel_line (codes "q"))) ++ to_out white_pixel; status = 3; work = 0 } }
{}

/// Runs over a page that has a mask, with the table `flat`.
pub fn worked_masks()
    ensures black { offline (file (codes "p") masked_file ∷ []) draw_flat
        ≡ record { puts = to_report (pixel_line (codes "p") ++ black_line (codes "p")) ++ to_out black_pixel; status = 0; work = 29 } }
    ensures no_start { offline (file (codes "p") (page 32 (header (codes "Sjbz") 1 ++ 0x0F ∷ 0x00 ∷ [])) ∷ []) draw_flat ≡
        record { puts = to_report (pixel_line (codes "p") ++ (codes "p: jb2-no-start p 34" ++ newline)); status = 1; work = 4 } }
    ensures cut { offline (file (codes "p") cut_mask ∷ []) draw_flat
        ≡ record { puts = to_report (pixel_line (codes "p") ++ (codes "p: truncated p 34" ++ newline)); status = 1; work = 17 } }
    ensures listed { offline (file (codes "p") cut_mask ∷ []) (codes "info" ∷ codes "p" ∷ []) ≡
        record {
          puts = to_report (codes "p: form DJVU 38"
              ++ (newline ++ (codes "p: chunk INFO 16 10" ++ (newline
              ++ (codes "p: chunk Sjbz 34 8" ++ (newline ++ (codes "p: truncated p 34" ++ newline)))))));
          status = 1;
          work = 0;
        } }
    ensures reading_failed { written_cut (Reading (codes "p") 48 ∷ []) (file (codes "p") cut_mask ∷ []) draw_flat ≡
        record { puts = to_report (pixel_line (codes "p") ++ (codes "p: read p 48" ++ newline)); status = 3; work = 17 } }
{}
