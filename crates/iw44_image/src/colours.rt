//! Samples of values, and colours of pixels.
ghost use Rattle.std.specs.Prelude.{◌≡◌, ℤ, pos, negsuc, ◌+ℤ◌, ◌-ℤ◌, ◌*ℤ◌, ◌^◌, ◌<◌, ◌≤◌, unsigned_abs, ◌++◌, ◌∷◌, [], ◌+◌, vec_len, vec_capacity};
ghost use Rattle.std.specs.Int.{int_shr};
ghost use Rattle.iw44_image.specs.Samples.{within, sample_of, byte_of, grey, colour, red_part, base_part};

/// The three samples of a pixel.
#[derive(Clone, Copy, Debug, PartialEq, Eq)]
pub(crate) struct Colour {
    pub red: u8,
    pub green: u8,
    pub blue: u8,
}

impl Colour {
    /// Of a grey image, by the sample of y.
    pub fn grey(y: i8) -> Colour
        ensures { result ≡ grey y }
    {
        let shade = byte_of(127 - i32::from(y));
        Colour {
            red: shade,
            green: shade,
            blue: shade,
        }
    }

    /// Of an image with colours, by the samples of y, b and r.
    pub fn of(y: i8, b: i8, r: i8) -> Colour
        ensures { result ≡ colour y b r }
    {
        let red = red_part(r);
        let base = base_part(y, b);
        Colour {
            red: byte_of(sum(level(y), red)),
            green: byte_of(difference(base, halved(red, 1))),
            blue: byte_of(sum(base, doubled(b))),
        }
    }

    /// Puts the samples behind others, where there is room for them.
    pub fn put(self, samples: &mut Vec<u8>)
        requires room { vec_len samples.old + 3 ≤ vec_capacity samples.old }
        ensures items { samples.new.items ≡ samples.old.items ++ self.red ∷ self.green ∷ self.blue ∷ [] }
        ensures count { vec_len samples.new ≡ vec_len samples.old + 3 }
        ensures room { vec_capacity samples.new ≡ vec_capacity samples.old }
    {
        samples.push_reserved(self.red);
        samples.push_reserved(self.green);
        samples.push_reserved(self.blue);
    }
}

fn sum(first: i32, second: i32) -> i32
    requires first { unsigned_abs first ≤ 512 }
    requires second { unsigned_abs second ≤ 512 }
    ensures { result ≡ first +ℤ second }
{
    first + second
}

fn difference(first: i32, second: i32) -> i32
    requires first { unsigned_abs first ≤ 512 }
    requires second { unsigned_abs second ≤ 512 }
    ensures { result ≡ first -ℤ second }
{
    first - second
}

/// What r adds to red.
fn red_part(r: i8) -> i32
    ensures value { result ≡ red_part r }
    ensures small { unsigned_abs result ≤ 256 }
{
    let r = i32::from(r);
    r + halved(r, 1)
}

/// What is left of y for green and blue.
fn base_part(y: i8, b: i8) -> i32
    ensures value { result ≡ base_part y b }
    ensures small { unsigned_abs result ≤ 512 }
{
    level(y) - halved(i32::from(b), 2)
}

/// The sample of y as a level from 0 on.
fn level(y: i8) -> i32
    ensures value { result ≡ y +ℤ pos 128 }
    ensures small { unsigned_abs result ≤ 256 }
{
    i32::from(y) + 128
}

/// What b adds to blue.
fn doubled(b: i8) -> i32
    ensures value { result ≡ pos 2 *ℤ b }
    ensures small { unsigned_abs result ≤ 256 }
{
    2 * i32::from(b)
}

/// A number halved so many times, and rounded down.
fn halved(number: i32, times: u32) -> i32
    requires { times < 32 }
    ensures halved { result ≡ int_shr number times }
    ensures smaller { unsigned_abs result ≤ unsigned_abs number }
{
    number >> times
}

/// A number brought into a byte.
fn byte_of(number: i32) -> u8
    ensures { result ≡ byte_of number }
{
    if number < 0 {
        0
    } else if number > 255 {
        255
    } else {
        number as u8
    }
}

/// The sample of a value: 64 of a value make one.
pub(crate) fn sample_of(value: i64) -> i8
    requires { unsigned_abs value ≤ 2 ^ 31 }
    ensures { result ≡ sample_of value }
{
    clipped(rounded(value))
}

fn rounded(value: i64) -> i64
    requires { unsigned_abs value ≤ 2 ^ 31 }
    ensures { result ≡ int_shr (value +ℤ pos 32) 6 }
{
    (value + 32) >> 6
}

fn clipped(number: i64) -> i8
    ensures { result ≡ within (negsuc 127) (pos 127) number }
{
    if number < -128 {
        -128
    } else if number > 127 {
        127
    } else {
        number as i8
    }
}
