//! The picture of an image's coefficients.
ghost use Rattle.std.specs.Prelude.{◌≡◌, ℕ, ◌+◌, ◌-◌, ◌*◌, ◌^◌, ◌<◌, ◌≤◌, ◌⊎◌, Bool, true, false, length, IfOk, IfSome, vec_len, vec_capacity};
ghost use Rattle.std.specs.List.{range_with_len};
ghost use Rattle.iw44_blocks.specs.Lattice.{IsWithin, values_by};
ghost use Rattle.iw44_blocks.specs.Plane.{IsSmall};
ghost use Rattle.iw44_image.specs.declared.headers.Header.{Header};
ghost use Rattle.iw44_image.specs.Samples.{Components, plane_samples, sample_of, sample_at, pixel, picture};
ghost use Rattle.iw44_image.specs.Rasters.{AreSamples, HaveSize, IsFull, AreShared, shared_place, shared_sample, colour_at, painted};

use crate::colours::{Colour, sample_of};
use crate::headers::Header;
use djvu_base::Raster;
use iw44_blocks::{Coefficients, Grid, laws as blocks};
use iw44_lifting::{inverse_in, inverse_quarter, laws as lifting};
use std::alloc::{AllocError, Global};

/// The samples of an image's planes, each from -128 to 127, rows from the bottom and each from the left.
#[derive(Debug, Drop)]
pub(crate) struct Samples {
    y: Vec<i8>,
    chroma: Option<ChromaSamples>,
}

#[derive(Debug, Drop)]
struct ChromaSamples {
    b: Vec<i8>,
    r: Vec<i8>,
}

impl Samples {
    /// Of a grey image.
    pub fn grey(alloc: Global, y: &Coefficients) -> Result<Samples, AllocError>
        requires small { IsSmall 32767 y.now }
        ensures { IfOk result (λ samples. (header : Header) (it : Components) → header.grey ≡ true → it.y ≡ y.now → AreSamples header it samples) }
    {
        Ok(Samples {
            y: plane_samples(alloc, y, false)?,
            chroma: None,
        })
    }

    /// Of an image with colours, whose chroma has half the size or not.
    pub fn coloured(
        alloc: Global,
        y: &Coefficients,
        b: &Coefficients,
        r: &Coefficients,
        half: bool,
    ) -> Result<Samples, AllocError>
        requires small_y { IsSmall 32767 y.now }
        requires small_b { IsSmall 32767 b.now }
        requires small_r { IsSmall 32767 r.now }
        ensures { IfOk result (λ samples. (header : Header) (it : Components) → header.grey ≡ false → header.half ≡ half → it.y ≡ y.now →
            it.b ≡ b.now → it.r ≡ r.now →
            AreSamples header it samples) }
    {
        let y = plane_samples(alloc, y, false)?;
        let b = plane_samples(alloc, b, half)?;
        let r = plane_samples(alloc, r, half)?;
        Ok(Samples {
            y,
            chroma: Some(ChromaSamples { b, r }),
        })
    }

    /// The picture of an image with this header.
    pub fn picture(&self, alloc: Global, header: Header) -> Result<Raster, AllocError>
        requires area { header.width * header.height ≤ 2 ^ 24 }
        requires samples { (it : Components) × AreSamples header it self.now × HaveSize header it }
        ensures { (it : Components) → AreSamples header it self.now → HaveSize header it → IfOk result (λ raster. raster ≡ picture header it) }
    {
        let samples = self.paint(alloc, header.width, header.height)?;
        Ok(Raster::new(header.width, header.height, samples))
    }

    /// The colour of the samples at a place of the lists.
    fn colour(&self, at: usize) -> Colour
        requires y { at < length self.now.y.items }
        requires chroma { IfSome self.now.chroma (λ chroma. (at < length chroma.b.items) × (at < length chroma.r.items)) }
        ensures { result ≡ colour_at self.now at }
    {
        match &self.chroma {
            None => Colour::grey(self.y[at]),
            Some(chroma) => Colour::of(self.y[at], chroma.b[at], chroma.r[at]),
        }
    }

    /// The picture of this size, in pixels.
    fn paint(&self, alloc: Global, width: u32, height: u32) -> Result<Vec<u8>, AllocError>
        requires area { width * height ≤ 2 ^ 24 }
        requires full { IsFull (width * height) self.now }
        ensures { IfOk result (λ out. out.items ≡ painted width height self.now (width * height)) }
    {
        let mut out = Vec::with_capacity(alloc, 3 * width as usize * height as usize)?;
        for row in 0..height {
            self.paint_row(width, height, row, &mut out);
        }
        Ok(out)
    }

    /// Adds a row, counted from the top, to those above it.
    fn paint_row(&self, width: u32, height: u32, row: u32, out: &mut Vec<u8>)
        requires area { width * height ≤ 2 ^ 24 }
        requires full { IsFull (width * height) self.now }
        requires row { row < height }
        requires above { out.old.items ≡ painted width height self.now (row * width) }
        requires count { vec_len out.old ≡ 3 * (row * width) }
        requires room { 3 * (width * height) ≤ vec_capacity out.old }
        ensures row { out.new.items ≡ painted width height self.now ((row + 1) * width) }
        ensures count { vec_len out.new ≡ 3 * ((row + 1) * width) }
        ensures room { vec_capacity out.new ≡ vec_capacity out.old }
    {
        let start = (height - 1 - row) as usize * width as usize;
        for x in 0..width {
            let colour = self.colour(start + x as usize);
            colour.put(out);
        }
    }
}

/// The samples of a plane. At half size a sample stands for two by two places.
pub(crate) fn plane_samples(
    alloc: Global,
    plane: &Coefficients,
    half: bool,
) -> Result<Vec<i8>, AllocError>
    requires small { IsSmall 32767 plane.now }
    ensures { IfOk result (λ samples. samples.items ≡ plane_samples half plane.now) }
{
    if half {
        half_samples(alloc, plane)
    } else {
        full_samples(alloc, plane)
    }
}

/// The samples of a plane of full size. One grid is made, of numbers of 32 bits: no value of the transform is larger.
fn full_samples(alloc: Global, plane: &Coefficients) -> Result<Vec<i8>, AllocError>
    requires small { IsSmall 32767 plane.now }
    ensures { IfOk result (λ samples. samples.items ≡ plane_samples false plane.now) }
{
    blocks::small_planes();
    let (width, height) = (plane.width(), plane.height());
    let mut grid: Grid<i32> = plane.grid_in(alloc)?;
    inverse_in(&mut grid, 1);
    grid_samples(alloc, &grid, false, width, height)
}

/// The samples of a plane of half size, out of a grid of a quarter of its places: no others are used.
fn half_samples(alloc: Global, plane: &Coefficients) -> Result<Vec<i8>, AllocError>
    requires small { IsSmall 32767 plane.now }
    ensures { IfOk result (λ samples. samples.items ≡ plane_samples true plane.now) }
{
    blocks::small_planes();
    lifting::even_places_alone();
    let (width, height) = (plane.width(), plane.height());
    let mut grid: Grid<i32> = plane.quarter_in(alloc)?;
    inverse_quarter(&mut grid);
    grid_samples(alloc, &grid, true, width, height)
}

/// The samples of a plane of this size, whose values stand in a grid.
fn grid_samples(
    alloc: Global,
    grid: &Grid<i32>,
    half: bool,
    width: u32,
    height: u32,
) -> Result<Vec<i8>, AllocError>
    requires small { IsWithin (2 ^ 31 - 1) grid.now }
    requires columns { AreShared half width grid.now.width }
    requires rows { AreShared half height grid.now.height }
    ensures { IfOk result (λ samples. samples.items ≡ values_by width (width * height) (shared_sample half grid.now)) }
{
    let mut samples = Vec::with_capacity(alloc, width as usize * height as usize)?;
    for y in 0..height {
        push_row(grid, half, width, y, &mut samples);
    }
    Ok(samples)
}

/// Adds the samples of a row to those of the rows below it.
fn push_row(grid: &Grid<i32>, half: bool, width: u32, y: u32, samples: &mut Vec<i8>)
    requires small { IsWithin (2 ^ 31 - 1) grid.now }
    requires columns { AreShared half width grid.now.width }
    requires row { shared_place half y < grid.now.height }
    requires below { samples.old.items ≡ values_by width (y * width) (shared_sample half grid.now) }
    requires count { vec_len samples.old ≡ y * width }
    requires room { (y + 1) * width ≤ vec_capacity samples.old }
    ensures row { samples.new.items ≡ values_by width ((y + 1) * width) (shared_sample half grid.now) }
    ensures count { vec_len samples.new ≡ (y + 1) * width }
    ensures room { vec_capacity samples.new ≡ vec_capacity samples.old }
{
    let row = shared_place(half, y);
    for x in 0..width {
        samples.push_reserved(sample_of(grid.value(shared_place(half, x), row)));
    }
}

fn shared_place(half: bool, place: u32) -> u32
    ensures { result ≡ shared_place half place }
{
    if half { place / 2 } else { place }
}
