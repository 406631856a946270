//! Planes of pixels.
ghost use Rattle.std.specs.Prelude.{◌≡◌, ℕ, ◌+◌, ◌*◌, ◌^◌, ◌<◌, ◌≤◌, IfOk, MatchOption, ℤ, pos, ◌-ℤ◌, false, ◌&&◌, ◌||◌, replicate, if◌then◌else◌};
ghost use Rattle.bit_plane.specs.Bits.{digit};
ghost use Rattle.bit_plane.specs.Rows.{IsRun};
ghost use Rattle.bit_plane.specs.Pixels.{IsPlane, is_black, is_black_at, is_inside, is_place, area_limit, black_count, blank, with_black, painted};
ghost use Rattle.bit_plane.specs.Ink.{ink_box_of, IsInkBox, IsWithin};

use crate::ink::{InkBox, behind_ink, first_set, last_set, left_of_ink, no_ink, signed};
use crate::painting::{or_rows, overlap};
use crate::words::{count_set, is_set, or_bits, read_bits};
use std::alloc::{AllocError, Global};
use std::marker::Model;

/// The largest area of a plane, in pixels.
pub const AREA_LIMIT: u64 = 67_108_864;

/// The longest side that a format gives a mask or a shape, in pixels.
pub const SIDE_LIMIT: u32 = 65_535;

/// Black and white pixels, one bit each. Places count from 0 at the bottom left.
#[derive(Debug, Drop)]
pub struct Plane {
    columns: u32,
    rows: u32,
    /// The pixels' bits, row after row from the bottom and each row from the left, without a gap.
    words: Vec<u64>,
}

impl Model for Plane {
    ghost use Rattle.bit_plane.specs.Pixels.{Pixels};
    ghost use Rattle.bit_plane.specs.Packed.{pixels_of, IsPacked};

    ghost Value = { Pixels };

    ghost view = { λ a. pixels_of a.columns a.rows a.words.items };

    ghost invariant = { λ a. IsPacked a.columns a.rows a.words.items };
}

impl Plane {
    /// A white plane of this size in pixels.
    pub fn new(alloc: Global, width: u32, height: u32) -> Result<Plane, AllocError>
        requires { width * height ≤ area_limit }
        ensures value { IfOk result (λ plane. plane ≡ blank width height) }
        ensures white { IfOk result (λ plane. (x y : ℤ) → is_black plane x y ≡ false) }
    {
        let area = width as usize * height as usize;
        Ok(Plane {
            columns: width,
            rows: height,
            words: zeros(alloc, area.div_ceil(64))?,
        })
    }

    /// Pixels from left to right.
    pub fn width(&self) -> u32
        ensures { result ≡ self.now.width }
    {
        self.columns
    }

    /// Pixels from bottom to top.
    pub fn height(&self) -> u32
        ensures { result ≡ self.now.height }
    {
        self.rows
    }

    /// Whether a place is black. What lies outside is white.
    pub fn get(&self, x: i64, y: i64) -> bool
        ensures { result ≡ is_black self.now x y }
    {
        let Some(column) = place(x, self.columns) else {
            return false;
        };
        let Some(row) = place(y, self.rows) else {
            return false;
        };
        let at = row as usize * self.columns as usize + column as usize;
        is_set(&self.words, at)
    }

    /// Up to 64 pixels of a row as the lowest digits of a word: the leftmost is the lowest, and a black one is 1.
    pub fn bits(&self, x: u32, y: u32, count: u32) -> u64
        requires some { 0 < count }
        requires word { count ≤ 64 }
        requires columns { x + count ≤ self.now.width }
        requires row { y < self.now.height }
        ensures below { result < 2 ^ count }
        ensures digits { (i : ℕ) → i < count → digit result i ≡ (if is_black_at self.now (x + i) y then 1 else 0) }
    {
        let first = x as usize + y as usize * self.columns as usize;
        read_bits(&self.words, first, count as usize)
    }

    /// 64 pixels of a row from a place on, wherever that is, as the digits of a word: the leftmost is the lowest, and a
    /// black one is 1. What lies outside is white.
    pub fn row_from(&self, x: i64, y: i64) -> u64
        ensures { IsRun self.now x y 64 result }
    {
        let Some(row) = place(y, self.height()) else {
            return 0;
        };
        if let Some(column) = place(x, self.width()) {
            self.row_within(column, row)
        } else if -64 < x && x < 0 {
            self.row_within(0, row) << x.unsigned_abs() as u32
        } else {
            0
        }
    }

    /// 64 pixels of a row from a column on.
    fn row_within(&self, column: u32, row: u32) -> u64
        requires { row < self.now.height }
        ensures { IsRun self.now (pos column) (pos row) 64 result }
    {
        let width = self.width();
        if column < width {
            self.bits(column, row, (width - column).min(64))
        } else {
            0
        }
    }

    /// How many pixels are black.
    pub fn black(&self) -> u32
        ensures value { result ≡ black_count self.now }
        ensures whole { IsPlane self.now }
    {
        count_set(&self.words)
    }

    /// The columns and rows between which all black pixels lie.
    pub fn ink_box(&self) -> InkBox
        ensures value { result ≡ ink_box_of self.now }
        ensures ends { IsInkBox self.now result }
        ensures inside { IsWithin self.now result }
    {
        let Some(first) = first_set(&self.words) else {
            return no_ink();
        };
        let Some(last) = last_set(&self.words) else {
            return no_ink();
        };
        let width = self.columns as usize;
        let height = self.rows as usize;
        InkBox {
            left: signed(left_of_ink(&self.words, width, height)),
            right: signed(behind_ink(&self.words, width, height)) - 1,
            bottom: signed(first / width),
            top: signed(last / width),
        }
    }

    /// Makes a place black.
    pub fn set(&mut self, x: u32, y: u32)
        requires column { x < self.old.width }
        requires row { y < self.old.height }
        ensures value { self.new ≡ with_black self.old x y }
        ensures width { self.new.width ≡ self.old.width }
        ensures height { self.new.height ≡ self.old.height }
        ensures pixels { (a b : ℤ) → is_black self.new a b ≡ (is_place a b x y || is_black self.old a b) }
    {
        let at = y as usize * self.columns as usize + x as usize;
        or_bits(&mut self.words, at, 1, 1);
    }

    /// Paints a shape whose left bottom corner comes to stand at a place, wherever that is. What falls outside is
    /// dropped.
    pub fn paint(&mut self, shape: &Plane, left: i64, bottom: i64)
        ensures value { self.new ≡ painted self.old shape.now left bottom }
        ensures width { self.new.width ≡ self.old.width }
        ensures height { self.new.height ≡ self.old.height }
        ensures pixels { (x y : ℤ) → is_black self.new x y ≡
            (is_black self.old x y || (is_inside self.old x y && is_black shape.now (x -ℤ left) (y -ℤ bottom))) }
    {
        let Some(columns) = overlap(left, shape.columns, self.columns) else {
            return;
        };
        let Some(rows) = overlap(bottom, shape.rows, self.rows) else {
            return;
        };
        or_rows(
            &mut self.words,
            self.columns as usize,
            &shape.words,
            shape.columns as usize,
            columns,
            rows,
        );
    }
}

/// A coordinate as a column or a row, where it is one of so many.
fn place(at: i64, size: u32) -> Option<u32>
    ensures { MatchOption result ((a : ℕ) → a < size → at ≡ pos a → ⊥) (λ a. (at ≡ pos a) × (a < size)) }
{
    if 0 <= at && at < i64::from(size) {
        Some(at as u32)
    } else {
        None
    }
}

/// So many words without a bit.
fn zeros(alloc: Global, count: usize) -> Result<Vec<u64>, AllocError>
    ensures { IfOk result (λ words. words.items ≡ replicate count 0) }
{
    vec![in alloc; 0u64; count]
}
