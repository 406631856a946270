//! The bands of a block, and the thresholds of its coefficients.
ghost use Rattle.std.specs.Prelude.{◌≡◌, ℕ, ◌/◌, ◌^◌, ◌+◌, ◌*◌, ◌<◌, ◌≤◌, true};
ghost use Rattle.iw44_slices.specs.Bands.{band_of, first_bucket, bucket_count, first_threshold, threshold, is_in_use};
ghost use Rattle.iw44_slices.specs.Slice.{does_something};

/// How many coefficients a bucket has.
pub(crate) const BUCKET: u16 = 16;

const FIRST_BUCKETS: [u16; 10] = [0, 1, 2, 3, 4, 8, 12, 16, 32, 48];

const BUCKET_COUNTS: [u16; 10] = [1, 1, 1, 1, 4, 4, 4, 16, 16, 16];

/// The first thresholds of the coefficients of band 0.
const LOW_THRESHOLDS: [u32; 16] = [
    0x4000, 0x8000, 0x8000, 0x10000, 0x10000, 0x10000, 0x10000, 0x10000, 0x10000, 0x10000, 0x10000,
    0x10000, 0x20000, 0x20000, 0x20000, 0x20000,
];

/// The first thresholds of the bands, of which that of band 0 isn't used.
const BAND_THRESHOLDS: [u32; 10] = [
    0, 0x20000, 0x20000, 0x40000, 0x40000, 0x40000, 0x80000, 0x40000, 0x40000, 0x80000,
];

/// The band of a slice.
pub(crate) fn band_of(number: u8) -> u8
    ensures is { result ≡ band_of number }
    ensures below { result < 10 }
{
    number % 10
}

/// The first bucket of a slice's band.
pub(crate) fn first_bucket(number: u8) -> u16
    ensures is { result ≡ first_bucket (band_of number) }
    ensures most { result ≤ 48 }
{
    FIRST_BUCKETS[band_of(number) as usize]
}

/// How many buckets a slice's band has.
pub(crate) fn bucket_count(number: u8) -> u16
    ensures is { result ≡ bucket_count (band_of number) }
    ensures some { 1 ≤ result }
    ensures most { result ≤ 16 }
{
    BUCKET_COUNTS[band_of(number) as usize]
}

/// The threshold of a coefficient of a slice's band.
pub(crate) fn threshold(number: u8, index: u16) -> u32
    ensures { result ≡ threshold number index }
{
    first_threshold(band_of(number), index) >> (number / 10)
}

fn first_threshold(band: u8, index: u16) -> u32
    requires { band < 10 }
    ensures { result ≡ first_threshold band index }
{
    if band > 0 {
        BAND_THRESHOLDS[band as usize]
    } else if index < 16 {
        LOW_THRESHOLDS[index as usize]
    } else {
        0
    }
}

/// Whether a threshold is in use.
pub(crate) fn is_in_use(threshold: u32) -> bool
    ensures { result ≡ is_in_use threshold }
{
    1 <= threshold && threshold <= 0x7FFF
}

/// Whether a slice's band has one threshold, and it is in use.
pub(crate) fn is_uniform(number: u8) -> bool
    ensures { result ≡ true → (index : ℕ) → is_in_use (threshold number index) ≡ true }
{
    band_of(number) > 0 && is_in_use(threshold(number, 0))
}

/// Whether a coefficient of the slice's band has a threshold in use.
pub(crate) fn does_something(number: u8) -> bool
    ensures { result ≡ does_something number }
{
    let first = BUCKET * first_bucket(number);
    for place in 0..BUCKET * bucket_count(number) {
        if is_in_use(threshold(number, first + place)) {
            return true;
        }
    }
    false
}
