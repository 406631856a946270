//! Ink boxes, by words.
ghost use Rattle.std.specs.Prelude.{◌≡◌, ℕ, ◌+◌, ◌*◌, ◌^◌, ◌<◌, ◌≤◌, ◌≤ℤ◌, ◌+ℤ◌, ◌-ℤ◌, length, MatchOption, pos};
ghost use Rattle.bit_plane.specs.Pixels.{area_limit};
ghost use Rattle.bit_plane.specs.Ink.{no_ink, extent};
ghost use Rattle.bit_plane.specs.Columns.{IsInk, IsLeft, IsBehind, IsFirst, IsLast, IsClear};

use crate::words::read_bits;

/// The least and the greatest column and row with a black pixel, counted from 0. Without a black pixel left and bottom
/// are 0, right and top -1.
#[derive(Clone, Copy, Debug, PartialEq, Eq)]
pub struct InkBox {
    pub left: i32,
    pub right: i32,
    pub bottom: i32,
    pub top: i32,
}

impl InkBox {
    /// How many columns there are from the left side to the right one.
    pub fn width(&self) -> u32
        requires least { pos 0 ≤ℤ self.now.left }
        requires order { self.now.left ≤ℤ (self.now.right +ℤ pos 1) }
        ensures extent { result ≡ extent self.now.left self.now.right }
        ensures difference { pos result ≡ self.now.right -ℤ self.now.left +ℤ pos 1 }
    {
        extent(self.left, self.right)
    }

    /// How many rows there are from the bottom to the top.
    pub fn height(&self) -> u32
        requires least { pos 0 ≤ℤ self.now.bottom }
        requires order { self.now.bottom ≤ℤ (self.now.top +ℤ pos 1) }
        ensures extent { result ≡ extent self.now.bottom self.now.top }
        ensures difference { pos result ≡ self.now.top -ℤ self.now.bottom +ℤ pos 1 }
    {
        extent(self.bottom, self.top)
    }
}

/// How many columns or rows there are from the least to the greatest one.
fn extent(low: i32, high: i32) -> u32
    requires least { pos 0 ≤ℤ low }
    requires order { low ≤ℤ (high +ℤ pos 1) }
    ensures extent { result ≡ extent low high }
    ensures difference { pos result ≡ high -ℤ low +ℤ pos 1 }
{
    difference(low, high) as u32
}

/// From the least to the greatest one, and one more.
fn difference(low: i32, high: i32) -> i64
    ensures { result ≡ high -ℤ low +ℤ pos 1 }
{
    i64::from(high) - i64::from(low) + 1
}

/// The box of a plane without a black pixel.
pub fn no_ink() -> InkBox
    ensures { result ≡ no_ink }
{
    InkBox {
        left: 0,
        right: -1,
        bottom: 0,
        top: -1,
    }
}

/// A column or a row as a signed number.
pub fn signed(at: usize) -> i32
    requires { at ≤ area_limit }
    ensures { result ≡ pos at }
{
    at as i32
}

/// The first bit that is set, if any is.
pub fn first_set(words: &[u64]) -> Option<usize>
    requires { length words.now < 2 ^ 32 }
    ensures { MatchOption result (IsClear words.now) (IsFirst words.now) }
{
    for (index, word) in words.iter().enumerate() {
        if *word != 0 {
            return Some(64 * index + word.trailing_zeros() as usize);
        }
    }
    None
}

/// The last bit that is set, if any is.
pub fn last_set(words: &[u64]) -> Option<usize>
    requires { length words.now < 2 ^ 32 }
    ensures { MatchOption result (IsClear words.now) (IsLast words.now) }
{
    for index in (0..words.len()).rev() {
        let word = words[index];
        if word != 0 {
            return Some(64 * index + (63 - word.leading_zeros() as usize));
        }
    }
    None
}

/// Which of so many columns have a black pixel, as the lowest bits of a word.
fn inked_columns(words: &[u64], width: usize, height: usize, x: usize, count: usize) -> u64
    requires some { 0 < count }
    requires word { count ≤ 64 }
    requires within { x + count ≤ width }
    requires room { height * width ≤ 64 * length words.now }
    requires ends { height * width < 2 ^ 63 }
    ensures { IsInk words.now width x count height result }
{
    let mut ink = 0;
    for y in 0..height {
        ink |= read_bits(words, y * width + x, count);
    }
    ink
}

/// The first column with a black pixel, or the width where there is none.
pub fn left_of_ink(words: &[u64], width: usize, height: usize) -> usize
    requires room { height * width ≤ 64 * length words.now }
    requires ends { height * width < 2 ^ 63 }
    ensures { IsLeft words.now width height result }
{
    let mut x = 0;
    while x < width {
        let count = (width - x).min(64);
        let ink = inked_columns(words, width, height, x, count);
        if ink != 0 {
            return x + ink.trailing_zeros() as usize;
        }
        x += count;
    }
    width
}

/// The column behind the last one with a black pixel, or 0 where there is none.
pub fn behind_ink(words: &[u64], width: usize, height: usize) -> usize
    requires room { height * width ≤ 64 * length words.now }
    requires ends { height * width < 2 ^ 63 }
    ensures { IsBehind words.now width height result }
{
    let mut end = width;
    while end > 0 {
        let count = end.min(64);
        let x = end - count;
        let ink = inked_columns(words, width, height, x, count);
        if ink != 0 {
            return x + (64 - ink.leading_zeros() as usize);
        }
        end = x;
    }
    0
}
