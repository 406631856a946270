//! Windows: the colours near a pixel, by rows. From a pixel to the one at its right only one colour a row is new: that of
//! the pixel that was decided, and else the next one of those at hand.
ghost use Rattle.std.specs.Prelude.{◌≡◌, ◌+◌, ◌*◌, ◌<◌, ℤ, pos, ◌-ℤ◌};
ghost use Rattle.bit_plane.specs.Pixels.{Pixels, is_black};
ghost use Rattle.bit_plane.specs.Bits.{digit_of};
ghost use Rattle.jb2_shapes.specs.Rows.{IsFirstTwo, IsFirstThree, IsFirstFive};
ghost use Rattle.jb2_shapes.specs.Shape.{IsUnread, column_of, row_of};
ghost use Rattle.jb2_shapes.specs.Refined.{Matching as Beside};
ghost use Rattle.jb2_shapes.specs.Windows.{IsDirectWindow, IsRefinedWindow};

use crate::canvas::Canvas;
use crate::matching::Matching;
use crate::rows::is_set;

/// A binary number with one more digit, of which black is 1.
pub(crate) fn joined(number: u32, black: bool) -> u32
    requires { number < 0x4000 }
    ensures { result ≡ 2 * number + digit_of black }
{
    2 * number + u32::from(black)
}

/// The first two pixels of a word as a binary number.
fn two(word: u64) -> u32
    ensures { IsFirstTwo word result }
{
    joined(joined(0, is_set(word, 0)), is_set(word, 1))
}

/// The first three.
fn three(word: u64) -> u32
    ensures { IsFirstThree word result }
{
    joined(
        joined(joined(0, is_set(word, 0)), is_set(word, 1)),
        is_set(word, 2),
    )
}

/// The first five.
fn five(word: u64) -> u32
    ensures { IsFirstFive word result }
{
    let two = joined(joined(0, is_set(word, 0)), is_set(word, 1));
    let four = joined(joined(two, is_set(word, 2)), is_set(word, 3));
    joined(four, is_set(word, 4))
}

/// The colours near a pixel of a direct shape, as binary numbers: three of the row two above it, five of the row above
/// it, and two at its left. Of the two rows above so many pixels more are at hand, which come next.
#[derive(Clone, Copy, Debug)]
pub(crate) struct DirectWindow {
    far_ahead: u64,
    near_ahead: u64,
    far: u32,
    near: u32,
    own: u32,
    more: u32,
}

impl DirectWindow {
    /// The window of the pixel that is read next.
    #[inline(always)]
    pub(crate) fn around(canvas: &Canvas) -> DirectWindow
        requires { IsUnread canvas.now }
        ensures { IsDirectWindow canvas.now.shape (pos (column_of canvas.now)) (pos (row_of canvas.now)) result }
    {
        let far = canvas.ahead(-1, 2);
        let near = canvas.ahead(-2, 1);
        DirectWindow {
            far: three(far),
            near: five(near),
            own: two(canvas.ahead(-2, 0)),
            far_ahead: far >> 3,
            near_ahead: near >> 5,
            more: 59,
        }
    }

    /// The window of the pixel at the right, where the colour of this one is known.
    fn right(self, black: bool) -> DirectWindow
        requires { 0 < self.more }
        ensures { (shape : Pixels) (x y : ℤ) → IsDirectWindow shape (x -ℤ pos 1) y self → is_black shape (x -ℤ pos 1) y ≡ black →
            IsDirectWindow shape x y result }
    {
        DirectWindow {
            far: joined(self.far % 4, is_set(self.far_ahead, 0)),
            near: joined(self.near % 16, is_set(self.near_ahead, 0)),
            own: joined(self.own % 2, black),
            far_ahead: self.far_ahead >> 1,
            near_ahead: self.near_ahead >> 1,
            more: self.more - 1,
        }
    }

    /// The window of the pixel that is read next, after the one of the pixel before it, whose colour is known.
    pub(crate) fn next(self, canvas: &Canvas, black: bool) -> DirectWindow
        requires unread { IsUnread canvas.now }
        requires window { 0 < column_of canvas.now → IsDirectWindow canvas.now.shape (pos (column_of canvas.now) -ℤ pos 1) (pos (row_of canvas.now)) self }
        requires colour { 0 < column_of canvas.now → is_black canvas.now.shape (pos (column_of canvas.now) -ℤ pos 1) (pos (row_of canvas.now)) ≡ black }
        ensures { IsDirectWindow canvas.now.shape (pos (column_of canvas.now)) (pos (row_of canvas.now)) result }
    {
        if canvas.column() == 0 || self.more == 0 {
            DirectWindow::around(canvas)
        } else {
            self.right(black)
        }
    }

    /// The number of the context that the colours name.
    pub(crate) fn number(self) -> usize
        ensures { result ≡ 1024 + 128 * self.far + 4 * self.near + self.own }
    {
        1024 + 128 * self.far as usize + 4 * self.near as usize + self.own as usize
    }
}

/// The colours near a pixel of a refined shape: three of the row above it, as a binary number, and the one at its left;
/// and near the matched place the one above it, and three of its row and of the row below, as binary numbers. Of these four
/// rows so many pixels more are at hand, which come next.
#[derive(Clone, Copy, Debug)]
pub(crate) struct RefinedWindow {
    above_ahead: u64,
    over_ahead: u64,
    beside_ahead: u64,
    under_ahead: u64,
    above: u32,
    beside: u32,
    under: u32,
    more: u32,
    left: bool,
    over: bool,
}

impl RefinedWindow {
    /// The window of the pixel that is read next.
    #[inline(always)]
    pub(crate) fn around(canvas: &Canvas, matching: &Matching) -> RefinedWindow
        requires { IsUnread canvas.now }
        ensures { IsRefinedWindow matching.now canvas.now.shape (pos (column_of canvas.now)) (pos (row_of canvas.now)) result }
    {
        let above = canvas.ahead(-1, 1);
        let over = matching.ahead(canvas, 0, 1);
        let beside = matching.ahead(canvas, -1, 0);
        let under = matching.ahead(canvas, -1, -1);
        RefinedWindow {
            above: three(above),
            left: is_set(canvas.ahead(-1, 0), 0),
            over: is_set(over, 0),
            beside: three(beside),
            under: three(under),
            above_ahead: above >> 3,
            over_ahead: over >> 1,
            beside_ahead: beside >> 3,
            under_ahead: under >> 3,
            more: 61,
        }
    }

    /// The window of the pixel at the right, where the colour of this one is known.
    fn right(self, black: bool) -> RefinedWindow
        requires { 0 < self.more }
        ensures { (matching : Beside) (shape : Pixels) (x y : ℤ) → IsRefinedWindow matching shape (x -ℤ pos 1) y self → is_black shape (x -ℤ pos 1) y ≡ black →
            IsRefinedWindow matching shape x y result }
    {
        RefinedWindow {
            above: joined(self.above % 4, is_set(self.above_ahead, 0)),
            left: black,
            over: is_set(self.over_ahead, 0),
            beside: joined(self.beside % 4, is_set(self.beside_ahead, 0)),
            under: joined(self.under % 4, is_set(self.under_ahead, 0)),
            above_ahead: self.above_ahead >> 1,
            over_ahead: self.over_ahead >> 1,
            beside_ahead: self.beside_ahead >> 1,
            under_ahead: self.under_ahead >> 1,
            more: self.more - 1,
        }
    }

    /// The window of the pixel that is read next, after the one of the pixel before it, whose colour is known.
    pub(crate) fn next(self, canvas: &Canvas, matching: &Matching, black: bool) -> RefinedWindow
        requires unread { IsUnread canvas.now }
        requires window { 0 < column_of canvas.now → IsRefinedWindow matching.now canvas.now.shape (pos (column_of canvas.now) -ℤ pos 1) (pos (row_of canvas.now)) self }
        requires colour { 0 < column_of canvas.now → is_black canvas.now.shape (pos (column_of canvas.now) -ℤ pos 1) (pos (row_of canvas.now)) ≡ black }
        ensures { IsRefinedWindow matching.now canvas.now.shape (pos (column_of canvas.now)) (pos (row_of canvas.now)) result }
    {
        if canvas.column() == 0 || self.more == 0 {
            RefinedWindow::around(canvas, matching)
        } else {
            self.right(black)
        }
    }

    /// The number of the context that the colours name.
    pub(crate) fn number(self) -> usize
        ensures { result ≡ 2048 + 256 * self.above + 128 * digit_of self.left + 64 * digit_of self.over + 8 * self.beside + self.under }
    {
        let new = 2 * self.above as usize + usize::from(self.left);
        let matched = 64 * usize::from(self.over) + 8 * self.beside as usize + self.under as usize;
        2048 + 128 * new + matched
    }
}
