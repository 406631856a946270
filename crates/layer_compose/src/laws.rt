//! Laws of the definitions, and worked values: each is a clause of a function that does nothing.
ghost use Rattle.std.specs.Prelude.{◌≡◌, ℕ, suc, ◌+◌, ◌-◌, ◌*◌, ◌<◌, ◌≤◌, ◌⊎◌, true, [], ◌∷◌, ◌++◌, length, replicate, Option, Some, None};
ghost use Rattle.std.specs.Int.{div_ceil};
ghost use Rattle.djvu_base.specs.declared.turns.Turn.{Turn};
ghost use Rattle.djvu_base.specs.declared.turns.Turn.TheVariants.{Upright, Right, Over, Left};
ghost use Rattle.layer_compose.specs.declared.layers.Layers.{Layers};
ghost use Rattle.layer_compose.specs.Reduction.{is_reduced, reduction_of};
ghost use Rattle.layer_compose.specs.Drawing.{samples_of, raster_of, row_of, rows_of, sum_of, white_count, step_of, preview_of, drawing_width, drawing_height, turned, sample_from_top};
ghost use Rattle.layer_compose.specs.Laying.{IsSampleOf};
ghost use Rattle.layer_compose.specs.Worked.{dot, pair, pair_turned, corners, corners_turned, bare, fence, fence_turned, fence_seen_by_two, greys, one_grey, dark_pair, grey_dot, coloured, coloured_turned};

/// A layer's reduction is the least number from 1 to 12 that makes its size of the page's, and there is no other; without
/// one no such number does.
pub fn reductions_are_least()
    ensures fits { (page layer : ℕ × ℕ) (k : ℕ) → reduction_of page layer ≡ Some k → is_reduced page layer k ≡ true }
    ensures some { (page layer : ℕ × ℕ) (k : ℕ) → reduction_of page layer ≡ Some k → 1 ≤ k }
    ensures most { (page layer : ℕ × ℕ) (k : ℕ) → reduction_of page layer ≡ Some k → k ≤ 12 }
    ensures least { (page layer : ℕ × ℕ) (k other : ℕ) → reduction_of page layer ≡ Some k → 1 ≤ other → is_reduced page layer other ≡ true → k ≤ other }
    ensures none { (page layer : ℕ × ℕ) (k : ℕ) → reduction_of page layer ≡ None → 1 ≤ k → k ≤ 12 → is_reduced page layer k ≡ true → ⊥ }
{}

/// The rows of the drawing, one behind the other from the top, are the samples of its raster. So are blocks of rows.
pub fn rows_make_the_raster()
    ensures all { (layers : Layers) → samples_of layers ≡ rows_of layers 0 (drawing_height layers) }
    ensures none { (layers : Layers) (from : ℕ) → rows_of layers from 0 ≡ [] }
    ensures one { (layers : Layers) (y : ℕ) → rows_of layers y 1 ≡ row_of layers y }
    ensures next { (layers : Layers) (from count : ℕ) → rows_of layers from (suc count) ≡ rows_of layers from count ++ row_of layers (from + count) }
    ensures joined { (layers : Layers) (from count more : ℕ) →
        rows_of layers from (count + more) ≡ rows_of layers from count ++ rows_of layers (from + count) more }
    ensures length { (layers : Layers) (from count : ℕ) → length (rows_of layers from count) ≡ 3 * drawing_width layers * count }
{}

/// A page without layers is white.
pub fn white_without_layers()
    ensures samples { (layers : Layers) → layers.mask ≡ None → layers.back ≡ None →
        samples_of layers ≡ replicate (3 * drawing_width layers * drawing_height layers) 255 }
    ensures sum { (layers : Layers) → layers.mask ≡ None → layers.back ≡ None → sum_of layers ≡ 765 * (layers.width * layers.height) }
{}

/// Turning changes no sum.
pub fn turning_changes_no_sum()
    ensures { (layers : Layers) (turn : Turn) → sum_of (record layers { turn = turn }) ≡ sum_of layers }
{}

/// What is turned right four times is as it was. Turned right twice it is turned over, and turned left after that it is as
/// if it was turned right once. The samples are those of a page of this size, by column, row and channel.
pub fn turns_go_round()
    ensures four { (width height x y channel : ℕ) (sample : ℕ → ℕ → ℕ → ℕ) → x < width → y < height →
        turned Right height width (turned Right width height (turned Right height width (turned Right width height sample))) x y channel ≡ sample x y channel }
    ensures two { (width height x y channel : ℕ) (sample : ℕ → ℕ → ℕ → ℕ) → x < width → y < height →
        turned Right height width (turned Right width height sample) x y channel ≡ turned Over width height sample x y channel }
    ensures back { (width height x y channel : ℕ) (sample : ℕ → ℕ → ℕ → ℕ) → x < width → y < height →
        turned Left height width (turned Right width height sample) x y channel ≡ sample x y channel }
{}

/// Each sample of a drawing is black, white or a sample of one of its layers.
pub fn samples_come_from_layers()
    ensures { (layers : Layers) (x y channel : ℕ) → let sample = sample_from_top layers x y channel in
        (sample ≡ 0) ⊎ (sample ≡ 255) ⊎ IsSampleOf layers.front sample ⊎ IsSampleOf layers.back sample }
{}

/// Without colours the sum is 765 for each white pixel of the page.
pub fn sums_count_white()
    ensures { (layers : Layers) → layers.front ≡ None → layers.back ≡ None → sum_of layers ≡ 765 * white_count layers }
{}

/// A preview's step makes it at most 128 by 128, and no smaller one does.
pub fn previews_fit()
    ensures some { (width height : ℕ) → 1 ≤ step_of width height }
    ensures width { (width height : ℕ) → div_ceil width (step_of width height) ≤ 128 }
    ensures height { (width height : ℕ) → div_ceil height (step_of width height) ≤ 128 }
    ensures least { (width height step : ℕ) → 1 ≤ step → div_ceil width step ≤ 128 → div_ceil height step ≤ 128 → step_of width height ≤ step }
{}

/// Layers of every reduction of a page of 13 by 7, and one that has none. Two sizes come of several numbers.
pub fn worked_reductions()
    ensures one { reduction_of (13, 7) (13, 7) ≡ Some 1 }
    ensures two { reduction_of (13, 7) (7, 4) ≡ Some 2 }
    ensures three { reduction_of (13, 7) (5, 3) ≡ Some 3 }
    ensures four { reduction_of (13, 7) (4, 2) ≡ Some 4 }
    ensures five_and_six { reduction_of (13, 7) (3, 2) ≡ Some 5 }
    ensures seven_to_twelve { reduction_of (13, 7) (2, 1) ≡ Some 7 }
    ensures none { reduction_of (13, 7) (1, 1) ≡ None }
    ensures other { reduction_of (13, 7) (6, 4) ≡ None }
    ensures scan { reduction_of (2550, 3300) (850, 1100) ≡ Some 3 }
    ensures coarse { reduction_of (2550, 3300) (213, 275) ≡ Some 12 }
{}

/// Rasters, rows and sums of small pages with a mask, and previews of some.
#[tactic(auto, unfolding(crate::specs::Drawing::samples_of, crate::specs::Drawing::row_of, crate::specs::Drawing::preview_samples))]
pub fn worked_drawings()
    ensures dot { raster_of dot ≡ record { width = 1; height = 1; samples = 0 ∷ 0 ∷ 0 ∷ [] } }
    ensures dot_sum { sum_of dot ≡ 0 }
    ensures pair { raster_of pair ≡ record { width = 2; height = 1; samples = 0 ∷ 0 ∷ 0 ∷ 255 ∷ 255 ∷ 255 ∷ [] } }
    ensures pair_sum { sum_of pair ≡ 765 }
    ensures corners { raster_of corners ≡ record {
      width = 3;
      height = 2;
      samples =
          255 ∷ 255 ∷ 255 ∷ 0 ∷ 0 ∷ 0 ∷ 0 ∷ 0 ∷ 0 ∷
          0 ∷ 0 ∷ 0 ∷ 255 ∷ 255 ∷ 255 ∷ 255 ∷ 255 ∷ 255 ∷ [];
    } }
    ensures corners_top { row_of corners 0 ≡ 255 ∷ 255 ∷ 255 ∷ 0 ∷ 0 ∷ 0 ∷ 0 ∷ 0 ∷ 0 ∷ [] }
    ensures corners_sum { sum_of corners ≡ 2295 }
    ensures corners_seen { preview_of corners ≡ raster_of corners }
    ensures bare { raster_of bare ≡ record { width = 2; height = 2; samples = replicate 12 255 } }
    ensures bare_sum { sum_of bare ≡ 3060 }
    ensures fence_seen { preview_of fence ≡ fence_seen_by_two }
{}

/// Rasters and sums of small pages with colours. In the last one the background has four pixels for nine of the page, the
/// lower ones for two rows and the left ones for two columns.
#[tactic(auto, unfolding(crate::specs::Drawing::samples_of, crate::specs::Drawing::row_of, crate::specs::Drawing::preview_samples))]
pub fn worked_colours()
    ensures grey { raster_of (one_grey 0x7F) ≡ record { width = 1; height = 1; samples = 0x7F ∷ 0x7F ∷ 0x7F ∷ [] } }
    ensures grey_sum { sum_of (one_grey 0x7F) ≡ 381 }
    ensures black_sum { sum_of (one_grey 0) ≡ 0 }
    ensures white_sum { sum_of (one_grey 0xFF) ≡ 765 }
    ensures half_sum { sum_of (one_grey 0x80) ≡ 384 }
    ensures dark { raster_of dark_pair ≡ record { width = 2; height = 1; samples = replicate 6 0 } }
    ensures dark_sum { sum_of dark_pair ≡ 0 }
    ensures front { raster_of grey_dot ≡ record { width = 1; height = 1; samples = 0x7F ∷ 0x7F ∷ 0x7F ∷ [] } }
    ensures front_sum { sum_of grey_dot ≡ 381 }
    ensures coloured { raster_of coloured ≡ record {
      width = 3;
      height = 3;
      samples =
          10 ∷ 10 ∷ 10 ∷ 10 ∷ 10 ∷ 10 ∷ 1 ∷ 2 ∷ 3 ∷
          30 ∷ 30 ∷ 30 ∷ 30 ∷ 30 ∷ 30 ∷ 40 ∷ 40 ∷ 40 ∷
          1 ∷ 2 ∷ 3 ∷ 30 ∷ 30 ∷ 30 ∷ 40 ∷ 40 ∷ 40 ∷ [];
    } }
    ensures coloured_sum { sum_of coloured ≡ 582 }
    ensures coloured_seen { preview_of coloured ≡ raster_of coloured }
{}

/// Small pages that are turned.
#[tactic(auto, unfolding(crate::specs::Drawing::samples_of, crate::specs::Drawing::row_of, crate::specs::Drawing::preview_samples))]
pub fn worked_turns()
    ensures right { raster_of (pair_turned Right) ≡ record { width = 1; height = 2; samples = greys (0 ∷ 255 ∷ []) } }
    ensures left { raster_of (pair_turned Left) ≡ record { width = 1; height = 2; samples = greys (255 ∷ 0 ∷ []) } }
    ensures over { raster_of (pair_turned Over) ≡ record { width = 2; height = 1; samples = greys (255 ∷ 0 ∷ []) } }
    ensures upright { raster_of (pair_turned Upright) ≡ record { width = 2; height = 1; samples = greys (0 ∷ 255 ∷ []) } }
    ensures corners_right { raster_of (corners_turned Right) ≡ record { width = 2; height = 3; samples = greys (0 ∷ 255 ∷ 255 ∷ 0 ∷ 255 ∷ 0 ∷ []) } }
    ensures corners_over { raster_of (corners_turned Over) ≡ record { width = 3; height = 2; samples = greys (255 ∷ 255 ∷ 0 ∷ 0 ∷ 0 ∷ 255 ∷ []) } }
    ensures corners_left { raster_of (corners_turned Left) ≡ record { width = 2; height = 3; samples = greys (0 ∷ 255 ∷ 0 ∷ 255 ∷ 255 ∷ 0 ∷ []) } }
    ensures coloured_right { row_of (coloured_turned Right) 2 ≡ 40 ∷ 40 ∷ 40 ∷ 40 ∷ 40 ∷ 40 ∷ 1 ∷ 2 ∷ 3 ∷ [] }
    ensures fence_over { preview_of (fence_turned Over) ≡ record { width = 65; height = 1; samples = replicate 195 255 } }
    ensures right_sum { sum_of (pair_turned Right) ≡ 765 }
{}

/// Steps of previews.
pub fn worked_steps()
    ensures small { step_of 128 1 ≡ 1 }
    ensures more { step_of 129 1 ≡ 2 }
    ensures full { step_of 256 256 ≡ 2 }
    ensures over { step_of 1 257 ≡ 3 }
    ensures scan { step_of 2550 3300 ≡ 26 }
    ensures thin { step_of 1 65535 ≡ 512 }
    ensures empty { step_of 0 0 ≡ 1 }
{}
