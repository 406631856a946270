//! Which coefficients of a bucket are active, and which ones are unknown.
ghost use Rattle.std.specs.Prelude.{◌≡◌, ℕ, ◌+◌, ◌*◌, ◌<◌, ◌≤◌, true, not, ◌&&◌, if◌then◌else◌};
ghost use Rattle.iw44_blocks.specs.Plane.{block_count, coefficient};
ghost use Rattle.iw44_slices.specs.Slice.{is_active, is_unknown, parents};
ghost use Rattle.iw44_blocks.specs.Words.{AreBits, is_zero};
ghost use Rattle.iw44_slices.specs.Reader.{place_at};

use crate::bands::{BUCKET, is_in_use, is_uniform, threshold};
use iw44_blocks::Coefficients;

/// A bit for each coefficient of a bucket, that of the first one the lowest.
#[derive(Clone, Copy, Debug)]
pub(crate) struct Words {
    pub(crate) active: u16,
    pub(crate) unknown: u16,
}

/// The active coefficients of a bucket, and the unknown ones.
pub(crate) fn words_of(number: u8, coefficients: &Coefficients, block: u32, bucket: u16) -> Words
    requires block { block < block_count coefficients.now }
    requires bucket { bucket < 64 }
    ensures active { AreBits (is_active (place_at number block coefficients.now)) 16 (16 * bucket) result.active }
    ensures unknown { AreBits (is_unknown (place_at number block coefficients.now)) 16 (16 * bucket) result.unknown }
{
    if is_uniform(number) {
        let active = coefficients.nonzero(block, bucket);
        return Words {
            active,
            unknown: u16::MAX - active,
        };
    }
    words_by_one(number, coefficients, block, bucket)
}

/// The same, coefficient by coefficient.
fn words_by_one(number: u8, coefficients: &Coefficients, block: u32, bucket: u16) -> Words
    requires block { block < block_count coefficients.now }
    requires bucket { bucket < 64 }
    ensures active { AreBits (is_active (place_at number block coefficients.now)) 16 (16 * bucket) result.active }
    ensures unknown { AreBits (is_unknown (place_at number block coefficients.now)) 16 (16 * bucket) result.unknown }
{
    let mut active = 0;
    let mut unknown = 0;
    for place in 0..BUCKET {
        let index = BUCKET * bucket + (BUCKET - 1 - place);
        let is_used = is_in_use(threshold(number, index));
        let is_zero = is_zero(coefficients, block, index);
        active = with_bit(active, both(is_used, !is_zero));
        unknown = with_bit(unknown, both(is_used, is_zero));
    }
    Words {
        active: active as u16,
        unknown: unknown as u16,
    }
}

/// A word with a bit before the others.
fn with_bit(word: u32, bit: bool) -> u32
    requires { word < 0x10000 }
    ensures { result ≡ 2 * word + (if bit then 1 else 0) }
{
    2 * word + u32::from(bit)
}

fn both(a: bool, b: bool) -> bool
    ensures { result ≡ (a && b) }
{
    a && b
}

/// Whether a coefficient is 0.
fn is_zero(coefficients: &Coefficients, block: u32, index: u16) -> bool
    requires block { block < block_count coefficients.now }
    requires index { index < 1024 }
    ensures { result ≡ is_zero (coefficient coefficients.now block index) }
{
    coefficients.get(block, index) == 0
}

/// How many of a bucket's four parents aren't 0.
pub(crate) fn parents(coefficients: &Coefficients, block: u32, bucket: u16) -> u16
    requires block { block < block_count coefficients.now }
    requires bucket { bucket < 64 }
    ensures is { (number : ℕ) → result ≡ parents (place_at number block coefficients.now) bucket }
    ensures most { result ≤ 4 }
{
    let four = coefficients.nonzero(block, bucket / 4) >> (4 * (bucket % 4));
    (four % 16).count_ones() as u16
}

/// Whether the coefficients of so many buckets of a block are 0, from one on. No bucket is looked at behind the first that
/// isn't blank.
pub(crate) fn is_blank(coefficients: &Coefficients, block: u32, first: u16, count: u16) -> bool
    requires block { block < block_count coefficients.now }
    requires within { first + count ≤ 64 }
    ensures { result ≡ true → (place : ℕ) → place < 16 * count → is_zero (coefficient coefficients.now block (16 * first + place)) ≡ true }
{
    for bucket in 0..count {
        if coefficients.nonzero(block, first + bucket) != 0 {
            return false;
        }
    }
    true
}
