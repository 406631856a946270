//! The places of marks, one after another.
ghost use Rattle.std.specs.Prelude.{◌≡◌, ℕ, pos, ◌+ℤ◌, ◌-ℤ◌, ◌++◌, true, false, List, [], ◌∷◌};
ghost use Rattle.jb2_places.specs.Place.{Placement, median, spot_at, place, absolute_place};
ghost use Rattle.jb2_places.specs.After.{IsAfter, IsSize, HasRoom, Within, far, spot_far};

use std::marker::Model;

/// A place in an image: the column of a box's left side and the row of its bottom, both counted from 0 at the bottom
/// left. A spot may lie outside of the image.
#[derive(Clone, Copy, Debug, PartialEq, Eq)]
pub struct Spot {
    pub left: i64,
    pub bottom: i64,
}

/// What the next box is placed by.
#[derive(Debug, Drop)]
pub struct Places {
    row_left: i64,
    row_bottom: i64,
    last_right: i64,
    /// The latest first.
    bottoms: [i64; 3],
}

impl Model for Places {
    ghost use Rattle.jb2_places.specs.After.{Lead, LeadsWithin, far};

    ghost Value = { Lead };

    ghost view = { λ a. record { row_left = a.row_left; row_bottom = a.row_bottom; last_right = a.last_right; bottoms = a.bottoms } };

    ghost invariant = { λ a. LeadsWithin far (record { row_left = a.row_left; row_bottom = a.row_bottom; last_right = a.last_right; bottoms = a.bottoms }) };
}

impl Places {
    /// The places of an image of this height in pixels, before any box.
    pub fn new(image_height: u32) -> Places
        ensures { IsAfter image_height [] result }
    {
        let height = i64::from(image_height);
        Places {
            row_left: 0,
            row_bottom: height,
            last_right: 0,
            bottoms: [height, height, height],
        }
    }

    /// Places a box as the first of a new row.
    pub fn new_row(&mut self, dx: i32, dy: i32, width: i32, height: i32) -> Spot
        requires room { HasRoom self.old }
        requires width { IsSize width }
        requires height { IsSize height }
        ensures spot { (image_height : ℕ) (earlier : List Placement) → IsAfter image_height earlier self.old →
            result ≡ place image_height earlier (record { new_row = true; dx = dx; dy = dy; width = width; height = height }) }
        ensures after { (image_height : ℕ) (earlier : List Placement) → IsAfter image_height earlier self.old →
            IsAfter image_height (earlier ++ record { new_row = true; dx = dx; dy = dy; width = width; height = height } ∷ []) self.new }
        ensures left { Within spot_far result.left }
        ensures bottom { Within spot_far result.bottom }
    {
        let left = moved(self.row_left, dx);
        let bottom = bottom_under(moved(self.row_bottom, dy), height);
        self.row_left = left;
        self.row_bottom = bottom;
        self.last_right = right_of(left, width);
        self.bottoms = [bottom, bottom, bottom];
        from_zero(left, bottom)
    }

    /// Places a box on the row of the one before it.
    pub fn same_row(&mut self, dx: i32, dy: i32, width: i32, height: i32) -> Spot
        requires room { HasRoom self.old }
        requires width { IsSize width }
        requires height { IsSize height }
        ensures spot { (image_height : ℕ) (earlier : List Placement) → IsAfter image_height earlier self.old →
            result ≡ place image_height earlier (record { new_row = false; dx = dx; dy = dy; width = width; height = height }) }
        ensures after { (image_height : ℕ) (earlier : List Placement) → IsAfter image_height earlier self.old →
            IsAfter image_height (earlier ++ record { new_row = false; dx = dx; dy = dy; width = width; height = height } ∷ []) self.new }
        ensures left { Within spot_far result.left }
        ensures bottom { Within spot_far result.bottom }
    {
        let [latest, middle, oldest] = self.bottoms;
        let left = moved(self.last_right, dx);
        let bottom = moved(median(latest, middle, oldest), dy);
        self.last_right = right_of(left, width);
        self.bottoms = [bottom, latest, middle];
        from_zero(left, bottom)
    }

    /// The place of a box whose left side and top are given, counted from 1. No other place depends on it.
    pub fn absolute(left: i32, top: i32, height: i32) -> Spot
        ensures { result ≡ absolute_place left top height }
    {
        from_zero(i64::from(left), bottom_under(i64::from(top), height))
    }
}

/// The middle one of three numbers.
fn median(a: i64, b: i64, c: i64) -> i64
    ensures { result ≡ median a b c }
{
    a.min(b).max(a.max(b).min(c))
}

/// The place that lies so far from this one.
fn moved(from: i64, by: i32) -> i64
    requires { Within far from }
    ensures { result ≡ from +ℤ by }
{
    from + i64::from(by)
}

/// The last column of a box.
fn right_of(left: i64, width: i32) -> i64
    requires { Within spot_far left }
    ensures { result ≡ left +ℤ width -ℤ pos 1 }
{
    left + i64::from(width) - 1
}

/// The lowest row of a box.
fn bottom_under(top: i64, height: i32) -> i64
    requires { Within spot_far top }
    ensures { result ≡ top -ℤ height +ℤ pos 1 }
{
    top - i64::from(height) + 1
}

/// The spot of a box whose left side and bottom are counted from 1.
fn from_zero(left: i64, bottom: i64) -> Spot
    requires left { Within spot_far left }
    requires bottom { Within spot_far bottom }
    ensures { result ≡ spot_at left bottom }
{
    Spot {
        left: left - 1,
        bottom: bottom - 1,
    }
}
