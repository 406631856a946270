//! Painting: what of a shape falls into a plane, and its rows, word by word.
ghost use Rattle.std.specs.Prelude.{◌≡◌, ℕ, ◌+◌, ◌*◌, ◌^◌, ◌<◌, ◌≤◌, ◌⊎◌, length, max};
ghost use Rattle.bit_plane.specs.Bits.{bit};
ghost use Rattle.bit_plane.specs.Spans.{Meets};

use crate::words::or_run;

/// Where a shape meets a plane, in one direction: `count` places of the shape from `from` on fall on those of the plane
/// from `to` on.
#[derive(Clone, Copy)]
pub struct Span {
    pub from: usize,
    pub to: usize,
    pub count: usize,
}

/// Where a shape that is moved so far meets a plane, if anywhere. What falls outside isn't walked over.
pub fn overlap(offset: i64, shape: u32, plane: u32) -> Option<Span>
    ensures { Meets offset shape plane result }
{
    let from = if offset < 0 {
        offset.unsigned_abs() as usize
    } else {
        0
    };
    let to = if offset < 0 { 0 } else { offset as usize };
    let count = (shape as usize)
        .saturating_sub(from)
        .min((plane as usize).saturating_sub(to));
    if count > 0 {
        Some(Span { from, to, count })
    } else {
        None
    }
}

/// Sets the pixels of so many rows that are set in another plane's rows.
pub fn or_rows(
    words: &mut [u64],
    width: usize,
    other: &[u64],
    other_width: usize,
    columns: Span,
    rows: Span,
)
    requires within { columns.to + columns.count ≤ width }
    requires other_within { columns.from + columns.count ≤ other_width }
    requires room { (rows.to + rows.count) * width ≤ 64 * length words.old }
    requires other_room { (rows.from + rows.count) * other_width ≤ 64 * length other.now }
    requires last_row { rows.to + rows.count < 2 ^ 63 }
    requires other_last_row { rows.from + rows.count < 2 ^ 63 }
    requires ends { (rows.to + rows.count) * width < 2 ^ 63 }
    requires other_ends { (rows.from + rows.count) * other_width < 2 ^ 63 }
    ensures inside { (y x : ℕ) → y < rows.count → x < columns.count →
        bit words.new ((rows.to + y) * width + (columns.to + x)) ≡
        max (bit words.old ((rows.to + y) * width + (columns.to + x))) (bit other.now ((rows.from + y) * other_width + (columns.from + x))) }
    ensures outside { (y x : ℕ) → x < width →
        ((y < rows.to) ⊎ (rows.to + rows.count ≤ y)) ⊎ ((x < columns.to) ⊎ (columns.to + columns.count ≤ x)) →
        bit words.new (y * width + x) ≡ bit words.old (y * width + x) }
{
    for row in 0..rows.count {
        let to = (rows.to + row) * width + columns.to;
        let from = (rows.from + row) * other_width + columns.from;
        or_run(words, to, other, from, columns.count);
    }
}
