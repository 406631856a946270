//! Sizes of coefficients.
ghost use Rattle.std.specs.Prelude.{◌≡◌, ◌≤◌, ◌<◌, unsigned_abs};
ghost use Rattle.iw44_blocks.specs.Plane.{block_count, coefficient};
ghost use Rattle.iw44_slices.specs.Slice.{start_size, is_large, raised, signed, is_negative};

use iw44_blocks::Coefficients;

/// The size of a coefficient.
pub(crate) fn size_of(coefficients: &Coefficients, block: u32, index: u16) -> u32
    requires block { block < block_count coefficients.now }
    requires index { index < 1024 }
    ensures is { result ≡ unsigned_abs (coefficient coefficients.now block index) }
    ensures most { result < 0x10000 }
{
    u32::from(coefficients.get(block, index).unsigned_abs())
}

/// Whether a coefficient is below 0.
pub(crate) fn is_negative(coefficients: &Coefficients, block: u32, index: u16) -> bool
    requires block { block < block_count coefficients.now }
    requires index { index < 1024 }
    ensures { result ≡ is_negative (coefficient coefficients.now block index) }
{
    coefficients.get(block, index) < 0
}

/// The size with which a coefficient starts, by its threshold.
pub(crate) fn start_size(threshold: u32) -> u32
    requires { threshold < 0x8000 }
    ensures { result ≡ start_size threshold }
{
    threshold + threshold / 2 - threshold / 8
}

/// Whether a size is so large that it isn't moved to the middle of its range first.
pub(crate) fn is_large(threshold: u32, size: u32) -> bool
    requires { threshold < 0x8000 }
    ensures { result ≡ is_large threshold size }
{
    size > 3 * threshold
}

/// A size after the bit by which it is raised.
pub(crate) fn raised(threshold: u32, size: u32, bit: bool) -> u32
    requires threshold { threshold < 0x8000 }
    requires size { size < 0x10000 }
    ensures { result ≡ raised threshold size bit }
{
    let middle = if is_large(threshold, size) {
        size
    } else {
        size + threshold / 4
    };
    let less = if bit { 0 } else { threshold };
    (middle + threshold / 2).saturating_sub(less)
}

/// The number with a sign and a size.
pub(crate) fn signed(negative: bool, size: u32) -> i16
    requires { size ≤ 32767 }
    ensures { result ≡ signed negative size }
{
    let value = size as i16;
    if negative { -value } else { value }
}
