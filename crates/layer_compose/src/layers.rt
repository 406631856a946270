//! The layers of a page, and what is drawn of them.
ghost use Rattle.std.specs.Prelude.{◌≡◌, ℕ, ◌+◌, ◌-◌, ◌*◌, ◌%◌, ◌<◌, ◌≤◌, ◌⊎◌, length, replicate, IfOk, None};
ghost use Rattle.layer_compose.specs.Drawing.{IsDrawable, in_mask, reduction_in, back_sample, sample_at, coded_sample, sample_from_top, samples_by, drawing_width, drawing_height, raster_of, row_of, rows_of, sum_of, step_of, preview_of};
ghost use Rattle.layer_compose.specs.Laying.{IsColour, row_sum};

use crate::colours::Colour;
use crate::reductions::{Reductions, reduction};
use crate::rows::{lay_layer, lay_masked};
use crate::sums::{Side, sum_on};
use bit_plane::Plane;
use djvu_base::{Raster, Turn};
use std::alloc::{AllocError, Global};

/// What is known of a page's pixels so far.
#[derive(Debug, Drop)]
pub struct Layers {
    /// Pixels from left to right, as the page is coded.
    pub width: u32,
    /// Pixels from bottom to top, as the page is coded.
    pub height: u32,
    /// How the drawing is turned against that.
    pub turn: Turn,
    /// Which pixels stand in front.
    pub mask: Option<Plane>,
    /// The colours of the pixels in front. Without them they are black.
    pub front: Option<Raster>,
    /// The colours of all others. Without them they are white.
    pub back: Option<Raster>,
}

impl Layers {
    /// Columns of the drawing: the page's width, or its height where it is turned by a quarter.
    pub fn drawing_width(&self) -> u32
        ensures value { result ≡ drawing_width self.now }
        ensures side { (result ≡ self.now.width) ⊎ (result ≡ self.now.height) }
    {
        match self.turn {
            Turn::Upright => self.width,
            Turn::Right => self.height,
            Turn::Over => self.width,
            Turn::Left => self.height,
        }
    }

    /// Rows of the drawing: the page's height, or its width where it is turned by a quarter.
    pub fn drawing_height(&self) -> u32
        ensures value { result ≡ drawing_height self.now }
        ensures side { (result ≡ self.now.width) ⊎ (result ≡ self.now.height) }
    {
        match self.turn {
            Turn::Upright => self.height,
            Turn::Right => self.width,
            Turn::Over => self.height,
            Turn::Left => self.width,
        }
    }

    /// Writes the samples of a row of the drawing, counted from the top: three for each pixel, from the left.
    pub fn row(&self, y: u32, out: &mut [u8])
        requires drawable { IsDrawable self.now }
        requires row { y < drawing_height self.now }
        requires room { length out.old ≡ 3 * drawing_width self.now }
        ensures { out.new ≡ row_of self.now y }
    {
        match self.turn {
            Turn::Upright => self.upright_rows(y, 1, out),
            Turn::Right | Turn::Over | Turn::Left => self.row_by_steps(
                y,
                1,
                self.drawing_width(),
                out,
            ),
        }
    }

    /// Writes the samples of so many rows of the drawing, one behind the other, from a row on.
    pub fn rows(&self, from: u32, count: u32, out: &mut [u8])
        requires drawable { IsDrawable self.now }
        requires rows { from + count ≤ drawing_height self.now }
        requires room { length out.old ≡ 3 * drawing_width self.now * count }
        ensures { out.new ≡ rows_of self.now from count }
    {
        match self.turn {
            Turn::Upright => self.upright_rows(from, count, out),
            Turn::Right | Turn::Over | Turn::Left => self.turned_rows(from, count, out),
        }
    }

    /// The sum of all samples of the drawing, three for each pixel.
    pub fn sum(&self) -> u64
        requires drawable { IsDrawable self.now }
        ensures { result ≡ sum_of self.now }
    {
        if self.front.is_none() && self.back.is_none() {
            self.sum_without_colours()
        } else {
            self.sum_of_rows()
        }
    }

    /// The whole drawing.
    pub fn compose(&self, alloc: Global) -> Result<Raster, AllocError>
        requires drawable { IsDrawable self.now }
        ensures { IfOk result (λ raster. raster ≡ raster_of self.now) }
    {
        let width = self.drawing_width();
        let height = self.drawing_height();
        let mut samples = white(alloc, 3 * width as usize * height as usize)?;
        self.rows(0, height, &mut samples);
        Ok(Raster::new(width, height, samples))
    }

    /// The drawing in small: every so many pixels of it, both ways from the top left, with the least step that leaves at
    /// most 128 by 128.
    pub fn preview(&self, alloc: Global) -> Result<Raster, AllocError>
        requires drawable { IsDrawable self.now }
        ensures { IfOk result (λ raster. raster ≡ preview_of self.now) }
    {
        let width = self.drawing_width();
        let height = self.drawing_height();
        let step = preview_step(width, height);
        let columns = width.div_ceil(step);
        let rows = height.div_ceil(step);
        let mut samples = white(alloc, 3 * columns as usize * rows as usize)?;
        self.rows_by_steps(step, columns, rows, &mut samples);
        Ok(Raster::new(columns, rows, samples))
    }

    /// Writes rows one at a time, as a turned page needs it.
    fn turned_rows(&self, from: u32, count: u32, out: &mut [u8])
        requires drawable { IsDrawable self.now }
        requires rows { from + count ≤ drawing_height self.now }
        requires room { length out.old ≡ 3 * drawing_width self.now * count }
        ensures { out.new ≡ rows_of self.now from count }
    {
        let length = 3 * self.drawing_width() as usize;
        for row in 0..count {
            let start = length * row as usize;
            self.row(from + row, &mut out[start..start + length]);
        }
    }

    /// Writes rows of the page as it is coded, counted from the top. Those with one row of the background are written together.
    fn upright_rows(&self, from: u32, count: u32, out: &mut [u8])
        requires drawable { IsDrawable self.now }
        requires rows { from + count ≤ self.now.height }
        requires room { length out.old ≡ 3 * self.now.width * count }
        ensures { out.new ≡ samples_by self.now.width count (λ x row channel. coded_sample self.now x (from + row) channel) }
    {
        let by = self.reductions();
        let length = 3 * self.width as usize;
        let mut done = 0;
        while done < count {
            let y = self.height - 1 - (from + done);
            let alike = (y % by.back + 1).min(count - done);
            let start = length * done as usize;
            let end = start + length * alike as usize;
            self.alike_rows(by, y, alike, &mut out[start..end]);
            done += alike;
        }
    }

    /// Writes so many rows of the page as it is coded, from one downwards, which have one row of the background. It is widened
    /// into the lowest of them, and copied into the others.
    fn alike_rows(&self, by: Reductions, y: u32, count: u32, out: &mut [u8])
        requires drawable { IsDrawable self.now }
        requires row { y < self.now.height }
        requires front { by.front ≡ reduction_in self.now self.now.front }
        requires back { by.back ≡ reduction_in self.now self.now.back }
        requires some { 0 < count }
        requires alike { count ≤ y % by.back + 1 }
        requires room { length out.old ≡ 3 * self.now.width * count }
        ensures { out.new ≡ samples_by self.now.width count (λ x row channel. sample_at self.now x (y - row) channel) }
    {
        let last = count - 1;
        let (above, lowest) = out.split_at_mut(3 * self.width as usize * last as usize);
        self.lay_behind(by, y - last, lowest);
        self.copied_rows(by, y, last, lowest, above);
        self.lay_in_front(by, y - last, lowest);
    }

    /// Writes so many rows, from one downwards, each of which has this background.
    fn copied_rows(&self, by: Reductions, y: u32, count: u32, behind: &[u8], out: &mut [u8])
        requires drawable { IsDrawable self.now }
        requires row { y < self.now.height }
        requires rows { count ≤ y }
        requires front { by.front ≡ reduction_in self.now self.now.front }
        requires behind { (row : ℕ) → row < count → behind.now ≡ samples_by self.now.width 1 (λ x r channel. back_sample self.now x (y - row) channel) }
        requires size { length behind.now ≡ 3 * self.now.width }
        requires room { length out.old ≡ 3 * self.now.width * count }
        ensures { out.new ≡ samples_by self.now.width count (λ x row channel. sample_at self.now x (y - row) channel) }
    {
        let length = 3 * self.width as usize;
        for row in 0..count {
            let start = length * row as usize;
            self.copied_row(by, y - row, behind, &mut out[start..start + length]);
        }
    }

    /// Writes the row of the page as it is coded whose background this is.
    fn copied_row(&self, by: Reductions, y: u32, behind: &[u8], out: &mut [u8])
        requires drawable { IsDrawable self.now }
        requires row { y < self.now.height }
        requires front { by.front ≡ reduction_in self.now self.now.front }
        requires behind { behind.now ≡ samples_by self.now.width 1 (λ x row channel. back_sample self.now x y channel) }
        requires size { length behind.now ≡ 3 * self.now.width }
        requires room { length out.old ≡ 3 * self.now.width }
        ensures { out.new ≡ samples_by self.now.width 1 (λ x row channel. sample_at self.now x y channel) }
    {
        out.copy_from_slice(behind);
        self.lay_in_front(by, y, out);
    }

    /// Writes the background of a row.
    fn lay_behind(&self, by: Reductions, y: u32, out: &mut [u8])
        requires drawable { IsDrawable self.now }
        requires row { y < self.now.height }
        requires back { by.back ≡ reduction_in self.now self.now.back }
        requires room { length out.old ≡ 3 * self.now.width }
        ensures { out.new ≡ samples_by self.now.width 1 (λ x row channel. back_sample self.now x y channel) }
    {
        lay_layer(&self.back, 255, by.back, self.width, y, out);
    }

    /// Lays what is in front over the background of a row.
    fn lay_in_front(&self, by: Reductions, y: u32, out: &mut [u8])
        requires drawable { IsDrawable self.now }
        requires row { y < self.now.height }
        requires front { by.front ≡ reduction_in self.now self.now.front }
        requires behind { out.old ≡ samples_by self.now.width 1 (λ x row channel. back_sample self.now x y channel) }
        requires room { length out.old ≡ 3 * self.now.width }
        ensures { out.new ≡ samples_by self.now.width 1 (λ x row channel. sample_at self.now x y channel) }
    {
        if let Some(mask) = &self.mask {
            lay_masked(mask, &self.front, by.front, y, out);
        }
    }

    /// Writes so many pixels of so many rows of the drawing, both so many steps apart, from the top left on.
    fn rows_by_steps(&self, step: u32, columns: u32, rows: u32, out: &mut [u8])
        requires drawable { IsDrawable self.now }
        requires columns { (x : ℕ) → x < columns → x * step < drawing_width self.now }
        requires rows { (y : ℕ) → y < rows → y * step < drawing_height self.now }
        requires room { length out.old ≡ 3 * columns * rows }
        ensures { out.new ≡ samples_by columns rows (λ x y channel. sample_from_top self.now (x * step) (y * step) channel) }
    {
        let length = 3 * columns as usize;
        for row in 0..rows {
            let start = length * row as usize;
            self.row_by_steps(row * step, step, columns, &mut out[start..start + length]);
        }
    }

    /// Writes so many pixels of a row of the drawing, so many steps apart, from the left on.
    fn row_by_steps(&self, y: u32, step: u32, columns: u32, out: &mut [u8])
        requires drawable { IsDrawable self.now }
        requires row { y < drawing_height self.now }
        requires columns { (x : ℕ) → x < columns → x * step < drawing_width self.now }
        requires room { length out.old ≡ 3 * columns }
        ensures { out.new ≡ samples_by columns 1 (λ x row channel. sample_from_top self.now (x * step) y channel) }
    {
        let by = self.reductions();
        for x in 0..columns {
            let colour = self.drawn_colour(by, x * step, y);
            colour.lay(out, x as usize);
        }
    }

    /// The colour of a place of the drawing, counted from the top left.
    fn drawn_colour(&self, by: Reductions, x: u32, y: u32) -> Colour
        requires drawable { IsDrawable self.now }
        requires column { x < drawing_width self.now }
        requires row { y < drawing_height self.now }
        requires front { by.front ≡ reduction_in self.now self.now.front }
        requires back { by.back ≡ reduction_in self.now self.now.back }
        ensures { IsColour result (sample_from_top self.now x y) }
    {
        match self.turn {
            Turn::Upright => self.colour_at(by, x, self.height - 1 - y),
            Turn::Right => self.colour_at(by, y, x),
            Turn::Over => self.colour_at(by, self.width - 1 - x, y),
            Turn::Left => self.colour_at(by, self.width - 1 - y, self.height - 1 - x),
        }
    }

    /// The colour of a place of the page as it is coded, counted from the bottom left.
    fn colour_at(&self, by: Reductions, x: u32, y: u32) -> Colour
        requires drawable { IsDrawable self.now }
        requires column { x < self.now.width }
        requires row { y < self.now.height }
        requires front { by.front ≡ reduction_in self.now self.now.front }
        requires back { by.back ≡ reduction_in self.now self.now.back }
        ensures { IsColour result (sample_at self.now x y) }
    {
        if has_pixel(&self.mask, x, y) {
            Colour::in_layer(&self.front, 0, by.front, x, y)
        } else {
            Colour::in_layer(&self.back, 255, by.back, x, y)
        }
    }

    fn reductions(&self) -> Reductions
        ensures front { result.front ≡ reduction_in self.now self.now.front }
        ensures back { result.back ≡ reduction_in self.now self.now.back }
    {
        Reductions {
            front: self.reduction_in(&self.front),
            back: self.reduction_in(&self.back),
        }
    }

    fn reduction_in(&self, layer: &Option<Raster>) -> u32
        ensures { result ≡ reduction_in self.now layer.now }
    {
        match layer {
            Some(raster) => reduction(
                (self.width, self.height),
                (raster.width(), raster.height()),
            ).unwrap_or(1),
            None => 1,
        }
    }

    /// The sum by the number of pixels that the mask has.
    fn sum_without_colours(&self) -> u64
        requires drawable { IsDrawable self.now }
        requires front { self.now.front ≡ None }
        requires back { self.now.back ≡ None }
        ensures { result ≡ sum_of self.now }
    {
        let area = u64::from(self.width) * u64::from(self.height);
        let black = match &self.mask {
            Some(mask) => u64::from(mask.black()),
            None => 0,
        };
        765 * (area - black)
    }

    /// The sum row by row.
    fn sum_of_rows(&self) -> u64
        requires drawable { IsDrawable self.now }
        ensures { result ≡ sum_of self.now }
    {
        let by = self.reductions();
        let mut total = 0u64;
        for y in 0..self.height {
            total += self.row_sum(by, y);
        }
        total
    }

    /// The sum of the samples of a row of the page as it is coded, counted from the bottom.
    fn row_sum(&self, by: Reductions, y: u32) -> u64
        requires drawable { IsDrawable self.now }
        requires row { y < self.now.height }
        requires front { by.front ≡ reduction_in self.now self.now.front }
        requires back { by.back ≡ reduction_in self.now self.now.back }
        ensures sum { result ≡ row_sum self.now y }
        ensures most { result ≤ 1530 * self.now.width }
    {
        let front = sum_on(
            Side::Front,
            &self.mask,
            &self.front,
            by.front,
            self.width,
            y,
        );
        let back = sum_on(Side::Back, &self.mask, &self.back, by.back, self.width, y);
        front + back
    }
}

/// Whether a mask has the pixel at a place. Where there is none, it has none.
fn has_pixel(mask: &Option<Plane>, x: u32, y: u32) -> bool
    ensures { result ≡ in_mask mask.now x y }
{
    match mask {
        Some(mask) => mask.get(i64::from(x), i64::from(y)),
        None => false,
    }
}

/// The least step with which the preview of a drawing of this size is at most 128 by 128.
fn preview_step(width: u32, height: u32) -> u32
    ensures { result ≡ step_of width height }
{
    width.max(height).div_ceil(128).max(1)
}

/// So many white samples.
fn white(alloc: Global, count: usize) -> Result<Vec<u8>, AllocError>
    ensures { IfOk result (λ samples. samples.items ≡ replicate count 255) }
{
    vec![in alloc; 255u8; count]
}
