//! Drawings of pages: each pixel, row, sum and preview against a look at the layers, upright and turned.
ghost use Rattle.std.specs.Prelude.{◌≡◌, ◌*◌, ◌≤◌, ◌<◌, IfOk, IfSome, Some, IsSome, vec_len};
ghost use Rattle.djvu_base.specs.Picture.{Picture};
ghost use Rattle.bit_plane.specs.Pixels.{area_limit};
ghost use Rattle.layer_compose.specs.Reduction.{reduction_of};
ghost use Rattle.layer_compose.specs.Drawing.{IsDrawable, MaskFits, drawing_width, drawing_height};

use bit_plane::Plane;
use djvu_base::{Raster, Turn};
use layer_compose::{Layers, reduction};
use std::alloc::{AllocError, Global};
use std::process::Abort;
use std::test::Fail;

const TURNS: [Turn; 4] = [Turn::Upright, Turn::Right, Turn::Over, Turn::Left];

/// A page of this size whose mask has a pattern without symmetry.
fn speckled(alloc: Global, width: u32, height: u32, turn: Turn) -> Result<Layers, AllocError>
    requires { width * height ≤ area_limit }
    ensures width { IfOk result (λ layers. layers.width ≡ width) }
    ensures height { IfOk result (λ layers. layers.height ≡ height) }
    ensures drawable { IfOk result (λ layers. IsDrawable layers) }
{
    let mut mask = Plane::new(alloc, width, height)?;
    for at in 0..width * height {
        let x = at % width;
        let y = at / width;
        if y < height && (u64::from(x) * 3 + u64::from(y) * 7) % 11 < 4 {
            mask.set(x, y);
        }
    }
    Ok(Layers {
        width,
        height,
        turn,
        mask: Some(mask),
        front: None,
        back: None,
    })
}

/// Samples without symmetry.
fn fill(samples: &mut [u8], step: u64) {
    for at in 0..samples.len() {
        samples[at] = ((at as u64).wrapping_mul(step) % 251) as u8;
    }
}

/// The layer of a page of this size at a reduction, or nothing where that isn't its reduction.
fn patterned(
    alloc: Global,
    page: (u32, u32),
    by: u32,
    step: u64,
) -> Result<Option<Raster>, AllocError>
    requires by { 0 < by }
    ensures { IfOk result (λ found. IfSome found (λ layer. IsSome (reduction_of page (layer.width, layer.height)))) }
{
    let width = page.0.div_ceil(by);
    let height = page.1.div_ceil(by);
    if width > 1_000 || height > 1_000 || reduction(page, (width, height)).is_none() {
        return Ok(None);
    }
    let mut samples = vec![in alloc; 0u8; 3 * width as usize * height as usize]?;
    fill(&mut samples, step);
    Ok(Some(Raster::new(width, height, samples)))
}

/// A page with a mask, and with colours at these reductions.
fn coloured(
    alloc: Global,
    size: (u32, u32),
    turn: Turn,
    front: u32,
    back: u32,
) -> Result<Layers, AllocError>
    requires area { size.0 * size.1 ≤ area_limit }
    requires front { 0 < front }
    requires back { 0 < back }
    ensures width { IfOk result (λ layers. layers.width ≡ size.0) }
    ensures drawable { IfOk result (λ layers. IsDrawable layers) }
{
    let layers = speckled(alloc, size.0, size.1, turn)?;
    let in_front = patterned(alloc, (layers.width, layers.height), front, 7)?;
    let behind = patterned(alloc, (layers.width, layers.height), back, 11)?;
    Ok(Layers {
        front: in_front,
        back: behind,
        ..layers
    })
}

/// A place of a page, from the bottom left.
#[derive(Clone, Copy)]
struct Place {
    column: u32,
    row: u32,
}

/// The place of the page that is seen at a place of the drawing.
fn place_seen(layers: &Layers, x: u32, y: u32) -> Option<Place> {
    let right = layers.width.checked_sub(1)?;
    let top = layers.height.checked_sub(1)?;
    let (column, row) = match layers.turn {
        Turn::Upright => (x, top.checked_sub(y)?),
        Turn::Right => (y, x),
        Turn::Over => (right.checked_sub(x)?, y),
        Turn::Left => (right.checked_sub(y)?, top.checked_sub(x)?),
    };
    Some(Place { column, row })
}

/// A sample of a layer, or a plain one.
fn layer_sample(
    layer: &Option<Raster>,
    plain: u8,
    by: u32,
    place: Place,
    channel: u64,
) -> Option<u8> {
    let Some(raster) = layer else {
        return Some(plain);
    };
    let column = u64::from(place.column).checked_div(u64::from(by))?;
    let row = u64::from(raster.height())
        .checked_sub(u64::from(place.row).checked_div(u64::from(by))?)?
        .checked_sub(1)?;
    let at = row
        .wrapping_mul(u64::from(raster.width()))
        .wrapping_add(column)
        .wrapping_mul(3)
        .wrapping_add(channel);
    raster.samples().get(usize::try_from(at).ok()?).copied()
}

/// The reductions of a page's front and back.
#[derive(Clone, Copy)]
struct By {
    front: u32,
    back: u32,
}

/// What a place of the drawing shows, by a look at the layers.
fn shade(layers: &Layers, by: By, x: u32, y: u32, channel: u64) -> Option<u8> {
    let place = place_seen(layers, x, y)?;
    let masked = match &layers.mask {
        Some(mask) => mask.get(i64::from(place.column), i64::from(place.row)),
        None => false,
    };
    if masked {
        layer_sample(&layers.front, 0, by.front, place, channel)
    } else {
        layer_sample(&layers.back, 255, by.back, place, channel)
    }
}

/// Looks at each sample of rows of so many pixels, which are so many steps apart.
fn compare(rt: &impl Abort, layers: &Layers, by: By, samples: &[u8], columns: u32, step: u32)
    requires { 0 < columns }
{
    let mut x = 0u32;
    let mut y = 0u32;
    let mut channel = 0u64;
    for sample in samples {
        let wanted = shade(
            layers,
            by,
            x.wrapping_mul(step),
            y.wrapping_mul(step),
            channel,
        );
        assert!(rt; Some(*sample) == wanted, "{x} {y}");
        channel = channel.wrapping_add(1) % 3;
        if channel == 0 {
            x = x.wrapping_add(1) % columns;
            if x == 0 {
                y = y.wrapping_add(1);
            }
        }
    }
}

/// Draws a page in each way, and compares.
fn draw_and_compare(
    rt: &impl Abort,
    alloc: Global,
    layers: &Layers,
    by: By,
    step: u32,
) -> Result<(), AllocError>
    requires step { 0 < step }
    requires drawable { IsDrawable layers.now }
{
    let width = layers.drawing_width();
    let height = layers.drawing_height();
    let columns = width.div_ceil(step);
    if width == 0 || columns == 0 {
        return Ok(());
    }
    let raster = layers.compose(alloc)?;
    assert_eq!(rt; (raster.width(), raster.height()), (width, height));
    compare(rt, layers, by, raster.samples(), width, 1);
    let mut sum = 0u64;
    for sample in raster.samples() {
        sum = sum.wrapping_add(u64::from(*sample));
    }
    assert_eq!(rt; layers.sum(), sum);
    let preview = layers.preview(alloc)?;
    assert_eq!(rt;
        (preview.width(), preview.height()),
        (columns, height.div_ceil(step))
    );
    compare(rt, layers, by, preview.samples(), columns, step);
    Ok(())
}

/// Writes each row on its own, and compares it with that row of the raster.
fn rows_and_compare(rt: &impl Abort, alloc: Global, layers: &Layers) -> Result<(), AllocError>
    requires { IsDrawable layers.now }
{
    let raster = layers.compose(alloc)?;
    let length = 3 * layers.drawing_width() as usize;
    let mut row = vec![in alloc; 7u8; length]?;
    for y in 0..layers.drawing_height() {
        layers.row(y, &mut row);
        let start = length * y as usize;
        assert!(rt;
            raster.samples().get(start..start + length) == Some(row.as_slice()),
            "{y}"
        );
    }
    Ok(())
}

const NO_COLOUR: By = By { front: 1, back: 1 };

#[test]
fn pages_with_a_mask(rt: HostRuntime) -> Result<(), Fail> {
    for turn in TURNS {
        let layers = speckled(rt.alloc(), 70, 5, turn)?;
        draw_and_compare(&rt, rt.alloc(), &layers, NO_COLOUR, 1)?;
        rows_and_compare(&rt, rt.alloc(), &layers)?;
    }
    Ok(())
}

#[test]
fn previews_of_some_pixels(rt: HostRuntime) -> Result<(), Fail> {
    for turn in TURNS {
        let wide = speckled(rt.alloc(), 130, 3, turn)?;
        draw_and_compare(&rt, rt.alloc(), &wide, NO_COLOUR, 2)?;
        let high = speckled(rt.alloc(), 65, 300, turn)?;
        draw_and_compare(&rt, rt.alloc(), &high, NO_COLOUR, 3)?;
    }
    Ok(())
}

#[test]
fn a_page_with_colours_is_turned(rt: HostRuntime) -> Result<(), Fail> {
    for turn in TURNS {
        let layers = coloured(rt.alloc(), (65, 300), turn, 12, 3)?;
        assert!(rt; layers.front.is_some() && layers.back.is_some());
        let by = By { front: 12, back: 3 };
        draw_and_compare(&rt, rt.alloc(), &layers, by, 3)?;
        rows_and_compare(&rt, rt.alloc(), &layers)?;
    }
    Ok(())
}

/// The reductions that the layers of a page of 13 by 7 have which are made by each number from 1 to 12.
const LEAST: [u32; 12] = [1, 2, 3, 4, 5, 5, 7, 7, 7, 7, 7, 7];

#[test]
fn every_reduction(rt: HostRuntime) -> Result<(), Fail> {
    let mut number = 1u32;
    for least in LEAST {
        let size = (13u32.div_ceil(number.max(1)), 7u32.div_ceil(number.max(1)));
        assert_eq!(rt; reduction((13, 7), size), Some(least));
        let layers = coloured(
            rt.alloc(),
            (13, 7),
            Turn::Upright,
            number.max(1),
            least.max(1),
        )?;
        let by = By {
            front: least,
            back: least,
        };
        draw_and_compare(&rt, rt.alloc(), &layers, by, 1)?;
        number = number.wrapping_add(1);
    }
    assert_eq!(rt; reduction((13, 7), (1, 1)), None);
    assert_eq!(rt; reduction((13, 7), (6, 4)), None);
    Ok(())
}

#[test]
fn a_page_without_layers(rt: HostRuntime) -> Result<(), Fail> {
    let layers = Layers {
        width: 70,
        height: 5,
        turn: Turn::Upright,
        mask: None,
        front: None,
        back: None,
    };
    draw_and_compare(&rt, rt.alloc(), &layers, NO_COLOUR, 1)?;
    rows_and_compare(&rt, rt.alloc(), &layers)?;
    assert_eq!(rt; layers.sum(), 267_750);
    Ok(())
}

#[test]
fn pages_without_pixels(rt: HostRuntime) -> Result<(), Fail> {
    let narrow = Layers {
        width: 0,
        height: 3,
        turn: Turn::Right,
        mask: None,
        front: None,
        back: None,
    };
    assert_eq!(rt; narrow.compose(rt.alloc())?.samples().len(), 0);
    assert_eq!(rt; narrow.preview(rt.alloc())?.width(), 3);
    assert_eq!(rt; narrow.sum(), 0);
    Ok(())
}
