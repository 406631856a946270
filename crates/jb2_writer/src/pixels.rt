//! Pixels of shapes, each in the context of colours near it.
ghost use Rattle.std.specs.Prelude.{◌≡◌, ◌+◌, ◌-◌, ◌*◌, ◌/◌, ◌%◌, ◌<◌, ◌≤◌, ◌+ℤ◌, ◌-ℤ◌, pos, length, IfOk};
ghost use Rattle.bit_plane.specs.Bits.{digit_of};
ghost use Rattle.bit_plane.specs.Ink.{ink_box_of};
ghost use Rattle.bit_plane.specs.Pixels.{is_black, area_limit, side_limit};
ghost use Rattle.jb2_shapes.specs.Numbers.{number_of, IsNumber};
ghost use Rattle.jb2_shapes.specs.Shape.{Sketch, direct_context, with_pixel};
ghost use Rattle.jb2_shapes.specs.Refined.{refined_context, column_shift, row_shift, shift, IsShift};
ghost use Rattle.jb2_writer.specs.Coded.{direct_coded, refined_coded};
ghost use Rattle.jb2_writer.specs.Coding.{IsSound, Adds};

use crate::coding::Coding;
use bit_plane::Plane;
use bit_plane::laws::ink_laws;
use std::alloc::{AllocError, Global};

/// How far right and up the matched places are.
#[derive(Clone, Copy, Debug)]
struct Offset {
    right: i64,
    up: i64,
}

/// A column and a row.
#[derive(Clone, Copy, Debug)]
struct Spot {
    x: u32,
    y: u32,
}

/// The number of a context with these colours: its binary digits, behind a one.
fn number_of(colours: &[bool]) -> usize
    requires { length colours.now ≤ 11 }
    ensures is { number_of colours.now ≡ result }
    ensures number { IsNumber result }
{
    let mut number = 1usize;
    for colour in colours {
        number = joined(number, *colour);
    }
    number
}

/// A binary number with one more digit, of which black is 1.
fn joined(number: usize, black: bool) -> usize
    requires { number < 0x1_0000 }
    ensures { result ≡ 2 * number + digit_of black }
{
    2 * number + usize::from(black)
}

/// The colour of the pixel that lies so far right of another and so far above it.
fn near(plane: &Plane, column: u32, row: u32, right: i8, up: i8) -> bool
    ensures { result ≡ is_black plane.now (pos column +ℤ right) (pos row +ℤ up) }
{
    plane.get(moved(column, right), moved(row, up))
}

/// The same, from the matched place of that pixel on.
fn beside(matched: &Plane, column: u32, row: u32, shift: Offset, right: i8, up: i8) -> bool
    requires right { IsShift shift.right }
    requires up { IsShift shift.up }
    ensures { result ≡ is_black matched.now (pos column +ℤ shift.right +ℤ right) (pos row +ℤ shift.up +ℤ up) }
{
    matched.get(sum(column, shift.right, right), sum(row, shift.up, up))
}

/// A column or row so far from another.
fn moved(at: u32, by: i8) -> i64
    ensures { result ≡ pos at +ℤ by }
{
    i64::from(at) + i64::from(by)
}

/// A column or row, moved twice.
fn sum(at: u32, far: i64, by: i8) -> i64
    requires { IsShift far }
    ensures { result ≡ pos at +ℤ far +ℤ by }
{
    i64::from(at) + far + i64::from(by)
}

/// The number of the context of a pixel of a direct shape, of which the pixels before it are drawn.
fn direct_number(sketch: &Plane, x: u32, y: u32) -> usize
    ensures is { number_of (direct_context sketch.now (pos x) (pos y)) ≡ result }
    ensures number { IsNumber result }
{
    let colours = [
        near(sketch, x, y, -1, 2),
        near(sketch, x, y, 0, 2),
        near(sketch, x, y, 1, 2),
        near(sketch, x, y, -2, 1),
        near(sketch, x, y, -1, 1),
        near(sketch, x, y, 0, 1),
        near(sketch, x, y, 1, 1),
        near(sketch, x, y, 2, 1),
        near(sketch, x, y, -2, 0),
        near(sketch, x, y, -1, 0),
    ];
    number_of(&colours)
}

/// The number of the context of a pixel of a refined shape, beside the matched one, whose places are so far away.
fn refined_number(sketch: &Plane, x: u32, y: u32, matched: &Plane, shift: Offset) -> usize
    requires right { IsShift shift.right }
    requires up { IsShift shift.up }
    ensures is { number_of (refined_context matched.now shift.right shift.up sketch.now (pos x) (pos y)) ≡ result }
    ensures number { IsNumber result }
{
    let colours = [
        near(sketch, x, y, -1, 1),
        near(sketch, x, y, 0, 1),
        near(sketch, x, y, 1, 1),
        near(sketch, x, y, -1, 0),
        beside(matched, x, y, shift, 0, 1),
        beside(matched, x, y, shift, -1, 0),
        beside(matched, x, y, shift, 0, 0),
        beside(matched, x, y, shift, 1, 0),
        beside(matched, x, y, shift, -1, -1),
        beside(matched, x, y, shift, 0, -1),
        beside(matched, x, y, shift, 1, -1),
    ];
    number_of(&colours)
}

/// How far it is from a place of a shape of this size to the matched place, for ink of this extent that ends at high.
fn shift(size: u32, extent: u32, high: i32) -> i64
    ensures is { result ≡ shift size extent high }
    ensures bound { IsShift result }
{
    middle(size) - ink_middle(extent, high)
}

/// How far right and up it is from a place of a shape to the matched place.
fn shift_to(matched: &Plane, shape: &Plane) -> Offset
    ensures right { result.right ≡ column_shift shape.now (ink_box_of matched.now) }
    ensures up { result.up ≡ row_shift shape.now (ink_box_of matched.now) }
    ensures columns { IsShift result.right }
    ensures rows { IsShift result.up }
{
    ink_laws();
    let ink = matched.ink_box();
    Offset {
        right: shift(shape.width(), ink.width(), ink.right),
        up: shift(shape.height(), ink.height(), ink.top),
    }
}

/// How far the middle of a size is from its end.
fn middle(size: u32) -> i64
    ensures { result ≡ pos (size / 2) -ℤ pos size +ℤ pos 1 }
{
    i64::from(size / 2) - i64::from(size) + 1
}

/// How far the middle of ink is from its end.
fn ink_middle(extent: u32, high: i32) -> i64
    ensures { result ≡ pos (extent / 2) -ℤ high }
{
    i64::from(extent / 2) - i64::from(high)
}

/// Draws a pixel, if it is black.
fn draw(sketch: &mut Plane, number: u32, black: bool)
    requires { number < sketch.old.width * sketch.old.height }
    ensures { record { shape = sketch.new; number = number + 1 } ≡ with_pixel (record { shape = sketch.old; number = number }) black }
{
    if black {
        let at = place(sketch, number);
        sketch.set(at.x, at.y);
    }
}

/// The column and row of a pixel, which are counted from the top row down, each row from the left.
fn place(plane: &Plane, number: u32) -> Spot
    requires { number < plane.now.width * plane.now.height }
    ensures column { result.x ≡ number % plane.now.width }
    ensures row { result.y ≡ plane.now.height - 1 - number / plane.now.width }
    ensures inside { (result.x < plane.now.width) × (result.y < plane.now.height) }
{
    let width = plane.width();
    Spot {
        x: number % width,
        y: plane.height() - 1 - number / width,
    }
}

impl Coding {
    /// Codes the pixels of a shape of its own.
    pub(crate) fn direct(&mut self, alloc: Global, shape: &Plane) -> Result<(), AllocError>
        requires sound { IsSound self.old }
        requires area { shape.now.width * shape.now.height ≤ area_limit }
        ensures { IfOk result (λ _. Adds (direct_coded shape.now) self.old self.new) }
    {
        let mut sketch = Plane::new(alloc, shape.width(), shape.height())?;
        for number in 0..shape.width() * shape.height() {
            let at = place(&sketch, number);
            let black = near(shape, at.x, at.y, 0, 0);
            self.pixel(direct_number(&sketch, at.x, at.y), black)?;
            draw(&mut sketch, number, black);
        }
        Ok(())
    }

    /// Codes the pixels of a shape that refines a matched one.
    pub(crate) fn refined(
        &mut self,
        alloc: Global,
        matched: &Plane,
        shape: &Plane,
    ) -> Result<(), AllocError>
        requires sound { IsSound self.old }
        requires area { shape.now.width * shape.now.height ≤ area_limit }
        ensures { IfOk result (λ _. Adds (refined_coded matched.now shape.now) self.old self.new) }
    {
        let shift = shift_to(matched, shape);
        let mut sketch = Plane::new(alloc, shape.width(), shape.height())?;
        for number in 0..shape.width() * shape.height() {
            let at = place(&sketch, number);
            let black = near(shape, at.x, at.y, 0, 0);
            self.pixel(refined_number(&sketch, at.x, at.y, matched, shift), black)?;
            draw(&mut sketch, number, black);
        }
        Ok(())
    }
}
