//! Runs of the machine that are worked out, as clauses of functions that do nothing.
ghost use Rattle.std.specs.Prelude.{◌≡◌, [], ◌∷◌, Some, None, codes};
ghost use Rattle.djvu_base.specs.Library.{Open, Whole, Broken};
ghost use Rattle.djvu_base.specs.declared.faults.FaultKind.TheVariants as fault;
ghost use Rattle.djvu_base.specs.declared.ends.FileEnd.TheVariants as file_end;
ghost use Rattle.zp_table.specs.Listing.{flat_rows};
ghost use Rattle.page_decoder.specs.PageRead.{Finished, NeedBytes, NeedFile};
ghost use Rattle.page_decoder.specs.WorkedPages.{faulty};
ghost use Rattle.replay_core.specs.Machine.{Feed, End, Taken, Drew, AtEnd, Looked, state_after_all, answers, start};
ghost use Rattle.replay_core.specs.Worked.{pixel_notice, alone, in_two_pieces, two_files, dictionary_last, broken_page};

/// A page in two pieces; one that is drawn before its dictionary is there; and one that breaks off.
pub fn worked_runs()
    ensures pieces { answers flat_rows alone in_two_pieces ≡
        Looked None ∷ Taken ∷ Drew (pixel_notice 1 255) ∷ AtEnd NeedBytes ∷ Looked (Some (pixel_notice 1 255))
        ∷ Taken ∷ Drew (pixel_notice 2 0) ∷ AtEnd Finished ∷ Looked (Some (pixel_notice 2 0)) ∷ [] }
    ensures late { answers flat_rows two_files dictionary_last ≡
        Taken ∷ Drew (pixel_notice 1 255) ∷ Drew (pixel_notice 3 127) ∷ AtEnd (NeedFile 0) ∷ Looked (Some (pixel_notice 3 127))
        ∷ Taken ∷ Drew (pixel_notice 4 0) ∷ AtEnd Finished ∷ AtEnd Finished ∷ Looked (Some (pixel_notice 4 0)) ∷ [] }
    ensures broken { answers flat_rows alone broken_page ≡
        Taken ∷ Drew (pixel_notice 1 255) ∷ AtEnd NeedBytes ∷ Taken ∷ AtEnd (faulty fault.Read 0 44)
        ∷ Taken ∷ Taken ∷ AtEnd (faulty fault.Read 0 44) ∷ Looked (Some (pixel_notice 1 255)) ∷ [] }
{}

/// A file that has ended takes nothing any more.
pub fn worked_ends()
    ensures { state_after_all flat_rows (start (codes "p" ∷ codes "q" ∷ []) (1 ∷ []))
        (Feed 0 (1 ∷ []) ∷ End 0 file_end.Broken ∷ Feed 0 (2 ∷ []) ∷ End 0 file_end.Whole
        ∷ Feed 1 (3 ∷ []) ∷ Feed 1 (4 ∷ []) ∷ End 2 file_end.Whole ∷ []) ≡ record {
          library = record { name = codes "p"; bytes = 1 ∷ []; mark = Broken } ∷ record { name = codes "q"; bytes = 3 ∷ 4 ∷ []; mark = Open } ∷ [];
          pages = record { file = 1; drawn = 0 } ∷ [];
        } }
{}
