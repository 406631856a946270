//! Rows of a page as it is coded: a layer is widened over a whole row, and another one laid over what a mask has of it.
ghost use Rattle.std.specs.Prelude.{◌≡◌, ℕ, ◌+◌, ◌*◌, ◌/◌, ◌^◌, ◌<◌, ◌≤◌, length, IfSome};
ghost use Rattle.bit_plane.specs.Pixels.{is_black_at};
ghost use Rattle.layer_compose.specs.Drawing.{picture_sample, layer_sample};
ghost use Rattle.layer_compose.specs.Laying.{Lays, Covers, below, in_run};

use crate::colours::Colour;
use bit_plane::Plane;
use djvu_base::Raster;

/// Lays a layer over a whole row, whose width is in pixels, or a grey without a layer. The row counts from the bottom.
pub fn lay_layer(layer: &Option<Raster>, shade: u8, by: u32, width: u32, y: u32, out: &mut [u8])
    requires by { 0 < by }
    requires row { IfSome layer.now (λ picture. y / by < picture.height) }
    requires columns { IfSome layer.now (λ picture. width ≤ picture.width * by) }
    requires room { length out.old ≡ 3 * width }
    ensures { Lays (below width) (λ x channel. layer_sample layer.now shade by x y channel) out.old out.new }
{
    match layer {
        Some(raster) => widen(raster, by as usize, width as usize, y / by, out),
        None => out.fill(shade),
    }
}

/// Lays each pixel of a raster's row over so many pixels, one behind the other, as far as the width goes.
fn widen(raster: &Raster, by: usize, width: usize, row: u32, out: &mut [u8])
    requires by { 0 < by }
    requires small { by < 2 ^ 32 }
    requires short { width < 2 ^ 32 }
    requires row { row < raster.now.height }
    requires columns { width ≤ raster.now.width * by }
    requires room { length out.old ≡ 3 * width }
    ensures { Lays (below width) (λ x channel. picture_sample raster.now (x / by) row channel) out.old out.new }
{
    let mut from = 0;
    for column in 0..raster.width() {
        let to = (from + by).min(width);
        let colour = Colour::of(raster, column, row);
        colour.lay_run(out, from, to);
        from = to;
    }
}

/// Lays the foreground, or black without one, over the pixels that a row of a mask has.
pub fn lay_masked(mask: &Plane, front: &Option<Raster>, by: u32, y: u32, out: &mut [u8])
    requires by { 0 < by }
    requires row { y < mask.now.height }
    requires covers { (x : ℕ) → x < mask.now.width → Covers front.now by x y }
    requires room { length out.old ≡ 3 * mask.now.width }
    ensures { Lays (λ x. is_black_at mask.now x y) (λ x channel. layer_sample front.now 0 by x y channel) out.old out.new }
{
    let width = mask.width();
    let mut x = 0;
    while x < width {
        let count = (width - x).min(64);
        let digits = mask.bits(x, y, count);
        lay_digits(front, by, x, y, digits, count, out);
        x += count;
    }
}

/// Lays the foreground over the pixels from a place on whose digits are 1, the lowest first. Each step goes on to the next
/// of them.
fn lay_digits(
    front: &Option<Raster>,
    by: u32,
    from: u32,
    y: u32,
    digits: u64,
    count: u32,
    out: &mut [u8],
)
    requires by { 0 < by }
    requires word { count ≤ 64 }
    requires digits { digits < 2 ^ count }
    requires ends { from + count < 2 ^ 32 }
    requires covers { (x : ℕ) → x < from + count → Covers front.now by x y }
    requires room { 3 * (from + count) ≤ length out.old }
    ensures { Lays (in_run digits from count) (λ x channel. layer_sample front.now 0 by x y channel) out.old out.new }
{
    let mut rest = digits;
    let mut done = 0;
    while rest != 0 {
        let skipped = rest.trailing_zeros();
        let x = from + done + skipped;
        let colour = Colour::in_layer(front, 0, by, x, y);
        colour.lay(out, x as usize);
        rest = rest >> skipped >> 1;
        done += skipped + 1;
    }
}
