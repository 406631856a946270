//! Matched shapes, beside which shapes are refined.
ghost use Rattle.std.specs.Prelude.{◌≡◌, ◌/◌, ◌+ℤ◌, ◌-ℤ◌, ◌≤ℤ◌, pos};
ghost use Rattle.std.specs.Arc.{arc_value};
ghost use Rattle.bit_plane.specs.Ink.{ink_box_of};
ghost use Rattle.jb2_shapes.specs.Shape.{IsUnread, column_of, row_of};
ghost use Rattle.bit_plane.specs.Ink.{extent};
ghost use Rattle.jb2_shapes.specs.Refined.{IsShift, shift};
ghost use Rattle.bit_plane.specs.Rows.{IsRun};

use crate::canvas::Canvas;
use bit_plane::laws::ink_laws;
use bit_plane::{InkBox, Plane};
use std::marker::Model;
use std::sync::Arc;

/// A matched shape, and how far right and up its places are from those of the shape that is read.
#[derive(Debug, Drop)]
pub(crate) struct Matching {
    shape: Arc<Plane>,
    right: i64,
    up: i64,
}

impl Model for Matching {
    ghost use Rattle.std.specs.Arc.{arc_value};
    ghost use Rattle.jb2_shapes.specs.Refined.{Matching as Beside, IsShift};

    ghost Value = { Beside };

    ghost view = { λ a. record { matched = arc_value a.shape; right = a.right; up = a.up } };

    ghost invariant = { λ a. IsShift a.right × IsShift a.up };
}

impl Matching {
    /// The matched shape, whose ink lies in this box and in the middle of a shape of this size.
    pub(crate) fn new(matched: Arc<Plane>, ink: InkBox, width: u32, height: u32) -> Matching
        requires { ink ≡ ink_box_of (arc_value matched) }
        ensures matched { result.matched ≡ arc_value matched }
        ensures right { result.right ≡ shift width (extent (ink_box_of (arc_value matched)).left (ink_box_of (arc_value matched)).right) (ink_box_of (arc_value matched)).right }
        ensures up { result.up ≡ shift height (extent (ink_box_of (arc_value matched)).bottom (ink_box_of (arc_value matched)).top) (ink_box_of (arc_value matched)).top }
    {
        ink_laws();
        Matching {
            shape: matched,
            right: shift(width, ink.width(), ink.right),
            up: shift(height, ink.height(), ink.top),
        }
    }

    /// 64 pixels of a row of the matched shape, from the one on that lies so far right of and above the matched place of the
    /// pixel that is read next. What lies outside is white.
    pub(crate) fn ahead(&self, canvas: &Canvas, right: i8, up: i8) -> u64
        requires { IsUnread canvas.now }
        ensures { IsRun self.now.matched (pos (column_of canvas.now) +ℤ self.now.right +ℤ right) (pos (row_of canvas.now) +ℤ self.now.up +ℤ up) 64 result }
    {
        let x = sum(canvas.column(), self.right, right);
        let y = sum(canvas.row(), self.up, up);
        self.shape.row_from(x, y)
    }
}

/// A column or row, moved twice.
fn sum(at: u32, far: i64, by: i8) -> i64
    requires { IsShift far }
    ensures { result ≡ pos at +ℤ far +ℤ by }
{
    i64::from(at) + far + i64::from(by)
}

/// How far the middle of a size is from its end.
fn middle(size: u32) -> i64
    ensures { result ≡ pos (size / 2) -ℤ pos size +ℤ pos 1 }
{
    i64::from(size / 2) - i64::from(size) + 1
}

/// How far the middle of ink is from its end.
fn ink_middle(extent: u32, high: i32) -> i64
    ensures { result ≡ pos (extent / 2) -ℤ high }
{
    i64::from(extent / 2) - i64::from(high)
}

/// How far it is from a place of a shape of this size to the matched place, for ink of this extent that ends at high.
fn shift(size: u32, extent: u32, high: i32) -> i64
    ensures is { result ≡ shift size extent high }
    ensures bound { IsShift result }
{
    middle(size) - ink_middle(extent, high)
}
