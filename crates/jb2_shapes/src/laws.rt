//! Laws and worked values of the definitions, as clauses of functions that do nothing.
ghost use Rattle.std.specs.Prelude.{◌≡◌, ◌≢◌, ◌+◌, ◌≤◌, ℕ, ℤ, Bool, List, length, ◌++◌, true, false, [], ◌∷◌, replicate, Some, None, pos, negsuc};
ghost use Rattle.zp_table.specs.Listing.{flat_rows};
ghost use Rattle.zp_table.specs.declared.rows.Row.{Row};
ghost use Rattle.zp_decoder.specs.Decision.{interval};
ghost use Rattle.zp_decoder.specs.Chunk.{IsReady, chunk};
ghost use Rattle.zp_decoder.specs.Runs.{IsStanding, room};
ghost use Rattle.bit_plane.specs.Pixels.{Pixels, blank};
ghost use Rattle.bit_plane.specs.Ink.{ink_box_of, extent};
ghost use Rattle.zp_decoder.specs.States.{States, AreBelow, fresh, with_state};
ghost use Rattle.jb2_shapes.specs.Numbers.{number_of};
ghost use Rattle.jb2_shapes.specs.Shape.{Progress, reading_of, direct_context, direct_reading, progress, stands, empty_sketch};
ghost use Rattle.jb2_shapes.specs.Refined.{shift, column_shift, refined_context};
ghost use Rattle.jb2_shapes.specs.Worked.{dot, first, second, pixel_of_a_mark, refined_dot};
ghost use Rattle.jb2_shapes.specs.declared.steps.ShapeStep.TheVariants as step;

/// A context of a direct shape is named by ten colours, and one of a refined shape by eleven. One that moves leaves the
/// others, and no two have one number.
pub fn contexts_are_named()
    ensures ten { (shape : Pixels) (x y : ℤ) → length (direct_context shape x y) ≡ 10 }
    ensures eleven { (matched shape : Pixels) (right up x y : ℤ) → length (refined_context matched right up shape x y) ≡ 11 }
    ensures moved { (states : States) (colours : List Bool) (state : ℕ) → with_state states colours state colours ≡ state }
    ensures others { (states : States) (colours other : List Bool) (state : ℕ) → colours ≢ other → with_state states colours state other ≡ states other }
    ensures numbers { (colours other : List Bool) → number_of colours ≡ number_of other → colours ≡ other }
{}

/// However the bytes of a chunk are cut: a shape that was read as far as some of them go, and is read on with more, is the
/// one that is read from all of them.
pub fn cuts_change_nothing()
    ensures { (context : Pixels → ℤ → ℤ → List Bool) (rows : List Row) (payload more : List ℕ) (ended : Bool) (at : Progress) →
        IsReady (chunk rows payload false) at.states at.place →
        reading_of context rows (payload ++ more) ended (reading_of context rows payload false at).at ≡ reading_of context rows (payload ++ more) ended at }
{}

/// While a shape is read, states stay rows of the table, and the decoder stands where decisions lead.
pub fn readings_stay_within()
    ensures { (context : Pixels → ℤ → ℤ → List Bool) (rows : List Row) (payload : List ℕ) (ended : Bool) (at : Progress) →
        IsReady (chunk rows payload ended) at.states at.place →
        AreBelow (length rows) (reading_of context rows payload ended at).at.states × IsStanding (length payload) (reading_of context rows payload ended at).at.place }
{}

/// Each pixel that is read leaves room for fewer decisions, and pixels that were read stay read.
pub fn readings_leave_room()
    ensures room { (context : Pixels → ℤ → ℤ → List Bool) (rows : List Row) (payload : List ℕ) (ended : Bool) (at : Progress) →
        IsReady (chunk rows payload ended) at.states at.place →
        room payload (reading_of context rows payload ended at).at.place + (reading_of context rows payload ended at).at.sketch.number ≤ room payload at.place + at.sketch.number }
    ensures number { (context : Pixels → ℤ → ℤ → List Bool) (rows : List Row) (payload : List ℕ) (ended : Bool) (at : Progress) →
        IsReady (chunk rows payload ended) at.states at.place →
        at.sketch.number ≤ (reading_of context rows payload ended at).at.sketch.number }
{}

/// Shapes and shifts, worked out from the definitions. The shapes with the table of DjVu files were worked out by another
/// program.
pub fn worked_shapes()
    // Ink from 2 to 6 in a size of 4, and from 1 to 4 in a size of 3; and the other way round. Without ink.
    ensures wide { shift 4 (extent (pos 2) (pos 6)) (pos 6) ≡ pos 3 }
    ensures low { shift 3 (extent (pos 1) (pos 4)) (pos 4) ≡ pos 1 }
    ensures high { shift 2 (extent (pos 2) (pos 6)) (pos 6) ≡ pos 4 }
    ensures narrow { shift 5 (extent (pos 0) (pos 2)) (pos 2) ≡ negsuc 0 }
    ensures no_ink { column_shift (blank 4 3) (ink_box_of (blank 7 7)) ≡ negsuc 1 }

    // With the table of one row each bit 0 of the input is a black pixel: 010 for the row above, and 110 for the one below.
    ensures six { (direct_reading flat_rows (0x5A ∷ 0x00 ∷ 0x00 ∷ 0x00 ∷ 0x00 ∷ []) false (progress (empty_sketch 3 2) fresh None)).at.sketch.shape.black ≡
        false ∷ false ∷ true
        ∷ true ∷ false ∷ true ∷ [] }
    ensures pixel { pixel_of_a_mark ≡ stands step.Done (progress (record { shape = dot; number = 1 }) (with_state fresh (replicate 10 false) 0) (Some (interval 0 0x1A1F 18))) }
    ensures refined_pixel { refined_dot ≡ stands step.Done (progress (record { shape = dot; number = 1 })
        (with_state fresh (false ∷ false ∷ false ∷ false ∷ false ∷ false ∷ true ∷ false ∷ false ∷ false ∷ false ∷ []) 0) (Some (interval 0 0x1A1F 28))) }

    // With the table of DjVu files.
    ensures first { first.at.sketch.shape.black ≡
        true ∷ false ∷ false ∷ true ∷ true
        ∷ false ∷ false ∷ false ∷ false ∷ false
        ∷ false ∷ true ∷ false ∷ false ∷ false
        ∷ true ∷ true ∷ false ∷ false ∷ true ∷ [] }
    ensures first_place { first.at.place ≡ Some (interval 0x6ECA 0xCA53 17) }
    ensures second { second.at.sketch.shape.black ≡
        false ∷ false ∷ false ∷ false
        ∷ false ∷ false ∷ false ∷ false
        ∷ true ∷ false ∷ true ∷ false
        ∷ true ∷ true ∷ true ∷ false
        ∷ false ∷ true ∷ false ∷ true ∷ [] }
    ensures second_place { second.at.place ≡ Some (interval 0x4C5E 0xD4A4 36) }

    // Three bytes don't determine a pixel. Of an empty chunk 176 bits can be decided.
    ensures needs { direct_reading flat_rows (0x5A ∷ 0x00 ∷ 0x00 ∷ []) false (progress (empty_sketch 3 2) fresh None) ≡ stands step.NeedBytes (progress (empty_sketch 3 2) fresh None) }
    ensures exhausted { (direct_reading flat_rows [] true (progress (empty_sketch 31 31) fresh None)).answer ≡ step.Exhausted }
    ensures exhausted_at { (direct_reading flat_rows [] true (progress (empty_sketch 31 31) fresh None)).at.sketch.number ≡ 176 }
{}
