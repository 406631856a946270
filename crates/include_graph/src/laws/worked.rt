//! Outlines and verdicts that are worked out, as clauses of functions that do nothing.
ghost use Rattle.std.specs.Prelude.{◌≡◌, [], ◌∷◌, Some, None, ◌++◌, take, codes};
ghost use Rattle.djvu_base.specs.Library.{Open, Whole};
ghost use Rattle.djvu_base.specs.Library as library;
ghost use Rattle.include_graph.specs.declared.outline.OutlineItem.TheVariants.{Include, Broken};
ghost use Rattle.djvu_base.specs.declared.faults.FaultKind.TheVariants as kind;
ghost use Rattle.include_graph.specs.declared.verdicts.Verdict.TheVariants.{Files, NeedOutline, Refused};
ghost use Rattle.iff_chunks.specs.Worked.{form_with, header};
ghost use Rattle.include_graph.specs.Included.{between_newlines};
ghost use Rattle.include_graph.specs.Outlines.{outline_of};
ghost use Rattle.include_graph.specs.Verdicts.{verdict_of};
ghost use Rattle.include_graph.specs.Worked.{included_file, include_of, includes_one, outline_with, two_includes, one_include, no_include, four_files};

/// Outlines of files: a file that includes another, a cut of it, and files with faults of form.
pub fn worked_outlines()
    ensures includes { outline_of Open (includes_one 0x62) ≡ one_include (codes "b") }
    ensures before_pad { outline_of Whole (take 25 (includes_one 0x62)) ≡ one_include (codes "b") }
    ensures goes_on { outline_of Open (take 25 (includes_one 0x62)) ≡ None }
    ensures truncated { outline_of Whole (take 24 (includes_one 0x62)) ≡ outline_with (Broken kind.Truncated 16 ∷ []) }
    ensures read { outline_of library.Broken (take 24 (includes_one 0x62)) ≡ outline_with (Broken kind.Read 24 ∷ []) }
    ensures of_page { outline_of Open (form_with (codes "DJVU") 20 []) ≡ outline_with (Broken kind.NotIncludedForm 0 ∷ []) }

    // A fault comes after the includes before it, and ends the list.
    ensures misplaced { outline_of Open (included_file 40 (include_of 0x62 ++ (header (codes "Sjbz") 4))) ≡ outline_with
        (Include (codes "b") 16 ∷ Broken kind.Misplaced 26 ∷ []) }
    ensures cut_misplaced { outline_of Whole (included_file 40 (header (codes "INFO") 10)) ≡ outline_with (Broken kind.Misplaced 16 ∷ []) }
    ensures layer { outline_of Open (included_file 40 (header (codes "BG44") 4)) ≡ outline_with (Broken kind.Misplaced 16 ∷ []) }
    ensures directory { outline_of Open (included_file 40 (header (codes "DIRM") 4)) ≡ outline_with (Broken kind.Unsupported 16 ∷ []) }
    ensures one_dictionary { outline_of Open (included_file 12 (header (codes "Djbz") 0)) ≡ no_include }
    ensures dictionaries { outline_of Open (included_file 20 (header (codes "Djbz") 0 ++ header (codes "Djbz") 0)) ≡ outline_with
        (Broken kind.SecondDictionary 24 ∷ []) }
    ensures no_name { outline_of Open (included_file 22 (header (codes "INCL") 1 ++ (0x0A ∷ 0x00 ∷ []))) ≡ outline_with (Broken kind.BadIncludeName 16 ∷ []) }
{}

/// Names between newlines.
pub fn worked_names()
    ensures both { between_newlines (0x0A ∷ 0x0A ∷ 0x61 ∷ 0x0A ∷ 0x62 ∷ 0x0A ∷ []) ≡ 0x61 ∷ 0x0A ∷ 0x62 ∷ [] }
    ensures none { between_newlines (0x61 ∷ []) ≡ 0x61 ∷ [] }
    ensures all { between_newlines (0x0A ∷ 0x0A ∷ []) ≡ [] }
{}

/// Verdicts on files of names `a` to `d`.
pub fn worked_verdicts()
    // `a` and `b` include each other: the fault stands in the other one.
    ensures each_other { verdict_of (four_files (one_include (codes "b") ∷ one_include (codes "a") ∷ [])) 0 ≡
        Refused (record { kind = kind.CyclicInclude; place = record { file = 1; offset = 16 } }) }
    ensures other_way { verdict_of (four_files (one_include (codes "b") ∷ one_include (codes "a") ∷ [])) 1 ≡
        Refused (record { kind = kind.CyclicInclude; place = record { file = 0; offset = 16 } }) }
    ensures itself { verdict_of (four_files (one_include (codes "a") ∷ [])) 0 ≡ Refused
        (record { kind = kind.CyclicInclude; place = record { file = 0; offset = 16 } }) }

    // `a` includes `b` and `c`, and both include `d`: each once, and `d` first.
    ensures diamond { verdict_of (four_files (two_includes (codes "b") (codes "c") ∷ one_include (codes "d") ∷ one_include (codes "d") ∷ no_include ∷ [])) 0 ≡
        Files (3 ∷ 1 ∷ 2 ∷ 0 ∷ []) }
    ensures missing_below { verdict_of (four_files (one_include (codes "b") ∷ two_includes (codes "c") (codes "z") ∷ no_include ∷ [])) 0 ≡
        Refused (record { kind = kind.MissingInclude; place = record { file = 1; offset = 26 } }) }
    ensures unknown_below { verdict_of (four_files (two_includes (codes "b") (codes "c") ∷ one_include (codes "d") ∷ None ∷ None ∷ [])) 0 ≡ NeedOutline 3 }
    ensures unknown_first { verdict_of (four_files (two_includes (codes "b") (codes "z") ∷ None ∷ [])) 0 ≡ NeedOutline 1 }
    ensures faulty_below { verdict_of (four_files (one_include (codes "b") ∷ outline_with (Broken kind.Truncated 16 ∷ []) ∷ [])) 0 ≡
        Refused (record { kind = kind.Truncated; place = record { file = 1; offset = 16 } }) }
    ensures four { verdict_of (four_files (one_include (codes "b") ∷ one_include (codes "c") ∷ one_include (codes "d") ∷ no_include ∷ [])) 0 ≡ Files
        (3 ∷ 2 ∷ 1 ∷ 0 ∷ []) }
{}
