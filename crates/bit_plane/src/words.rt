//! Bits of slices of words: bit `i` is bit `i % 64`, from the lowest, of word `i / 64`.
ghost use Rattle.std.specs.Prelude.{◌≡◌, ℕ, ◌+◌, ◌*◌, ◌%◌, ◌^◌, ◌<◌, ◌≤◌, ◌⊎◌, ◌↔◌, IsTrue, length, max};
ghost use Rattle.bit_plane.specs.Bits.{bit, digit, set_count};

/// Whether a bit is set.
pub fn is_set(words: &[u64], at: usize) -> bool
    requires { at < 64 * length words.now }
    ensures { IsTrue result ↔ (bit words.now at ≡ 1) }
{
    words[at / 64] >> (at % 64) & 1 == 1
}

/// How many bits are set.
pub fn count_set(words: &[u64]) -> u32
    requires { length words.now < 2 ^ 26 }
    ensures { result ≡ set_count words.now }
{
    let mut count = 0;
    for word in words {
        count += word.count_ones();
    }
    count
}

/// So many bits from a place on, as the lowest bits of a word.
pub fn read_bits(words: &[u64], at: usize, count: usize) -> u64
    requires some { 0 < count }
    requires word { count ≤ 64 }
    requires within { at + count ≤ 64 * length words.now }
    ensures below { result < 2 ^ count }
    ensures bits { (i : ℕ) → i < count → digit result i ≡ bit words.now (at + i) }
{
    let shift = at % 64;
    let low = words[at / 64] >> shift;
    let bits = if shift + count > 64 {
        low | words[at / 64 + 1] << (64 - shift)
    } else {
        low
    };
    bits & (u64::MAX >> (64 - count))
}

/// Sets the bits from a place on that are set in the lowest bits of a word. They lie in one word or in two.
pub fn or_bits(words: &mut [u64], at: usize, bits: u64, count: usize)
    requires some { 0 < count }
    requires word { count ≤ 64 }
    requires within { at + count ≤ 64 * length words.old }
    requires below { bits < 2 ^ count }
    ensures inside { (i : ℕ) → i < count → bit words.new (at + i) ≡ max (bit words.old (at + i)) (digit bits i) }
    ensures outside { (i : ℕ) → (i < at) ⊎ (at + count ≤ i) → bit words.new i ≡ bit words.old i }
{
    let shift = at % 64;
    words[at / 64] |= bits << shift;
    if shift + count > 64 {
        words[at / 64 + 1] |= bits >> (64 - shift);
    }
}

/// Sets so many bits from a place on that are set in the other words from another place on.
pub fn or_run(words: &mut [u64], to: usize, other: &[u64], from: usize, count: usize)
    requires within { to + count ≤ 64 * length words.old }
    requires other { from + count ≤ 64 * length other.now }
    requires ends { to + count < 2 ^ 64 }
    requires other_ends { from + count < 2 ^ 64 }
    ensures inside { (i : ℕ) → i < count → bit words.new (to + i) ≡ max (bit words.old (to + i)) (bit other.now (from + i)) }
    ensures outside { (i : ℕ) → (i < to) ⊎ (to + count ≤ i) → bit words.new i ≡ bit words.old i }
{
    let mut done = 0;
    while done < count {
        let step = (count - done).min(64);
        let bits = read_bits(other, from + done, step);
        or_bits(words, to + done, bits, step);
        done += step;
    }
}
