//! Shapes that are being read.
ghost use Rattle.std.specs.Prelude.{◌≡◌, ◌*◌, ◌<◌, ◌≤◌, ◌==◌, ◌+ℤ◌, IfOk, pos};
ghost use Rattle.bit_plane.specs.Pixels.{is_black, area_limit};
ghost use Rattle.jb2_shapes.specs.Shape.{empty_sketch, column_of, row_of, with_pixel, IsUnread};
ghost use Rattle.bit_plane.specs.Rows.{IsRun};
ghost use Rattle.jb2_shapes.specs.Rows.{column_behind, row_behind};

use bit_plane::Plane;
use std::alloc::{AllocError, Global};
use std::marker::Model;

/// A shape of which so many pixels were read: from the top row down, each row from the left.
#[derive(Debug, Drop)]
pub(crate) struct Canvas {
    shape: Plane,
    /// How many pixels it has.
    area: u32,
    number: u32,
    /// The place of the pixel that is read next, as long as one is.
    column: u32,
    row: u32,
}

impl Model for Canvas {
    ghost use Rattle.std.specs.Prelude.{◌≡◌, ◌*◌, ◌≤◌};
    ghost use Rattle.bit_plane.specs.Pixels.{area_limit};
    ghost use Rattle.jb2_shapes.specs.Shape.{Sketch};
    ghost use Rattle.jb2_shapes.specs.Rows.{StandsAt};

    ghost Value = { Sketch };

    ghost view = { λ a. record { shape = a.shape; number = a.number } };

    ghost invariant = { λ a. (a.number ≤ a.shape.width * a.shape.height) × (a.shape.width * a.shape.height ≤ area_limit) × StandsAt (record { shape = a.shape; number = a.number }) a.column a.row × (a.area ≡ a.shape.width * a.shape.height) };
}

impl Canvas {
    /// A white shape of this size, of which nothing was read.
    pub(crate) fn new(alloc: Global, width: u32, height: u32) -> Result<Canvas, AllocError>
        requires { width * height ≤ area_limit }
        ensures { IfOk result (λ canvas. canvas ≡ empty_sketch width height) }
    {
        Ok(Canvas {
            shape: Plane::new(alloc, width, height)?,
            area: width * height,
            number: 0,
            column: 0,
            row: height.saturating_sub(1),
        })
    }

    /// Whether every pixel was read.
    pub(crate) fn is_whole(&self) -> bool
        ensures is { result ≡ (self.now.number == self.now.shape.width * self.now.shape.height) }
        ensures within { self.now.number ≤ self.now.shape.width * self.now.shape.height }
    {
        self.number == self.area
    }

    /// The column of the pixel that is read next.
    pub(crate) fn column(&self) -> u32
        requires { IsUnread self.now }
        ensures { result ≡ column_of self.now }
    {
        self.column
    }

    /// The row of the pixel that is read next.
    pub(crate) fn row(&self) -> u32
        requires { IsUnread self.now }
        ensures { result ≡ row_of self.now }
    {
        self.row
    }

    /// 64 pixels of a row, from the one on that is so far right of the pixel that is read next, and so far above it. What
    /// lies outside is white.
    pub(crate) fn ahead(&self, right: i8, up: i8) -> u64
        requires { IsUnread self.now }
        ensures { IsRun self.now.shape (pos (column_of self.now) +ℤ right) (pos (row_of self.now) +ℤ up) 64 result }
    {
        self.shape
            .row_from(moved(self.column, right), moved(self.row, up))
    }

    /// Reads the next pixel.
    pub(crate) fn put(&mut self, black: bool)
        requires { IsUnread self.old }
        ensures pixel { self.new ≡ with_pixel self.old black }
        ensures colour { is_black self.new.shape (pos (column_of self.old)) (pos (row_of self.old)) ≡ black }
    {
        let width = self.shape.width();
        if black {
            self.shape.set(self.column, self.row);
        }
        self.number += 1;
        let (column, row) = behind(self.column, self.row, width);
        self.column = column;
        self.row = row;
    }

    /// The shape.
    pub(crate) fn into_plane(self) -> Plane
        ensures { result ≡ self.shape }
    {
        self.shape
    }
}

/// The place that comes after a place, in rows of a width.
fn behind(column: u32, row: u32, width: u32) -> (u32, u32)
    requires { column < width }
    ensures column { result.0 ≡ column_behind width column }
    ensures row { result.1 ≡ row_behind width column row }
{
    if column + 1 < width {
        (column + 1, row)
    } else {
        (0, row.saturating_sub(1))
    }
}

/// A column or row so far from another.
pub(crate) fn moved(at: u32, by: i8) -> i64
    ensures { result ≡ pos at +ℤ by }
{
    i64::from(at) + i64::from(by)
}
