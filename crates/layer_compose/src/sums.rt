//! Sums of the samples of rows, run by run: the sample of a run, times the pixels of it that are on one side of the mask.
ghost use Rattle.std.specs.Prelude.{◌≡◌, ℕ, ◌+◌, ◌*◌, ◌<◌, ◌≤◌, IfSome};
ghost use Rattle.layer_compose.specs.Laying.{Covers};
ghost use Rattle.layer_compose.specs.Sides.{shade_of, count_on, sum_on, run_of};
ghost use Rattle.layer_compose.specs.declared.sums.Side.TheVariants as side;

use crate::colours::Colour;
use bit_plane::Plane;
use djvu_base::Raster;

/// The pixels that a mask has, or all others.
#[derive(Clone, Copy, Debug)]
pub enum Side {
    Front,
    Back,
}

/// The sum of a layer's samples, or of a plain shade without a layer, at the pixels of a row that are on a side. The row
/// counts from the bottom, and its width is in pixels.
pub fn sum_on(
    side: Side,
    mask: &Option<Plane>,
    layer: &Option<Raster>,
    by: u32,
    width: u32,
    y: u32,
) -> u64
    requires by { 0 < by }
    requires word { by ≤ 64 }
    requires mask { IfSome mask.now (λ mask. (mask.width ≡ width) × (y < mask.height)) }
    requires covers { (x : ℕ) → x < width → Covers layer.now by x y }
    ensures sum { result ≡ sum_on side mask.now layer.now by width y }
    ensures most { result ≤ 765 * width }
{
    let run = run_of(layer, by);
    let mut total = 0;
    let mut x = 0;
    while x < width {
        let count = (width - x).min(run);
        let colour = Colour::in_layer(layer, shade_of(side), by, x, y);
        total += sum_of_run(colour, count_on(side, mask, x, y, count));
        x += count;
    }
    total
}

/// The sum of so many pixels of a colour.
fn sum_of_run(colour: Colour, count: u32) -> u64
    requires { count ≤ 64 }
    ensures sum { result ≡ (colour.red + colour.green + colour.blue) * count }
    ensures most { result ≤ 765 * count }
{
    colour.sum() * u64::from(count)
}

/// How many pixels of a row are on a side, of so many from a place on.
fn count_on(side: Side, mask: &Option<Plane>, x: u32, y: u32, count: u32) -> u32
    requires some { 0 < count }
    requires word { count ≤ 64 }
    requires mask { IfSome mask.now (λ mask. (x + count ≤ mask.width) × (y < mask.height)) }
    ensures count { result ≡ count_on side mask.now x y count }
    ensures most { result ≤ count }
{
    let masked = count_masked(mask, x, y, count);
    match side {
        Side::Front => masked,
        Side::Back => count - masked,
    }
}

/// How many pixels of a row a mask has, of so many from a place on.
fn count_masked(mask: &Option<Plane>, x: u32, y: u32, count: u32) -> u32
    requires some { 0 < count }
    requires word { count ≤ 64 }
    requires mask { IfSome mask.now (λ mask. (x + count ≤ mask.width) × (y < mask.height)) }
    ensures count { result ≡ count_on side.Front mask.now x y count }
    ensures most { result ≤ count }
{
    match mask {
        Some(mask) => mask.bits(x, y, count).count_ones(),
        None => 0,
    }
}

fn shade_of(side: Side) -> u8
    ensures { result ≡ shade_of side }
{
    match side {
        Side::Front => 0,
        Side::Back => 255,
    }
}

fn run_of(layer: &Option<Raster>, by: u32) -> u32
    ensures { result ≡ run_of layer.now by }
{
    match layer {
        Some(_) => by,
        None => 64,
    }
}
