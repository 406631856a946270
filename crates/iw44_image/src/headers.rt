//! Headers of the chunks of a layer.
ghost use Rattle.std.specs.Prelude.{◌≡◌, ℕ, ◌+◌, ◌*◌, ◌^◌, ◌<◌, ◌≤◌, List, ◌++◌, length, drop, None};
ghost use Rattle.iw44_image.specs.Header.{missing, sized, plain_header, after_sizes, read_sizes, read_version, read_rest, open_chunk};
ghost use Rattle.iw44_image.specs.Starting.{opening_in, IsInside, IsSized, HasSerial, with_last};

use djvu_base::FaultKind;

/// What the first chunk of a layer tells.
#[derive(Clone, Copy, Debug, PartialEq, Eq)]
pub(crate) struct Header {
    /// In pixels.
    pub width: u32,
    /// In pixels.
    pub height: u32,
    /// Without colours.
    pub grey: bool,
    /// Chroma has half the size.
    pub half: bool,
    /// After so many slices chroma begins.
    pub delay: u8,
}

/// How far the start of a chunk's data is there.
#[derive(Clone, Copy, Debug, PartialEq, Eq)]
pub(crate) enum Start {
    /// More of it must come.
    Short,
    /// The chunk is refused.
    Wrong(FaultKind),
    /// The header is there, in so many bytes, and so many slices come behind it.
    Told {
        header: Header,
        slices: u8,
        length: usize,
    },
}

impl Start {
    /// The same, where so many bytes stand before.
    fn behind(self, count: usize) -> Start
        requires count { count ≤ 4 }
        requires inside { (bytes : List ℕ) × IsInside (length bytes) self × length bytes < 2 ^ 63 }
        ensures opening { (before bytes : List ℕ) → length before ≡ count → opening_in (before ++ bytes) result ≡ opening_in bytes self }
        ensures inside { (bytes : ℕ) → IsInside bytes self → IsInside (count + bytes) result }
        ensures sized { (limit : ℕ) → IsSized limit self → IsSized limit result }
    {
        match self {
            Start::Short => Start::Short,
            Start::Wrong(kind) => Start::Wrong(kind),
            Start::Told {
                header,
                slices,
                length,
            } => Start::Told {
                header,
                slices,
                length: length + count,
            },
        }
    }
}

/// The start of a chunk of a layer of at most so many pixels, before which so many chunks came, and of which a header may be
/// known.
pub(crate) fn open_chunk(
    limit: u32,
    number: u32,
    known: Option<Header>,
    bytes: &[u8],
    ended: bool,
) -> Start
    ensures opening { opening_in bytes.now result ≡ open_chunk limit number known bytes.now ended }
    ensures inside { IsInside (length bytes.now) result }
    ensures sized { known ≡ None → IsSized limit result }
    ensures serial { HasSerial number result }
{
    match bytes {
        [serial, slices, later @ ..] => {
            if u32::from(*serial) == number {
                read_rest(limit, known, *slices, later, ended).behind(2)
            } else {
                Start::Wrong(FaultKind::IwSerial)
            }
        }
        _ => missing(ended),
    }
}

fn read_rest(limit: u32, known: Option<Header>, slices: u8, later: &[u8], ended: bool) -> Start
    ensures opening { opening_in later.now result ≡ read_rest limit known slices later.now ended }
    ensures inside { IsInside (length later.now) result }
    ensures sized { known ≡ None → IsSized limit result }
{
    match known {
        None => read_version(limit, slices, later, ended),
        Some(header) => Start::Told {
            header,
            slices,
            length: 0,
        },
    }
}

fn read_version(limit: u32, slices: u8, later: &[u8], ended: bool) -> Start
    ensures opening { opening_in later.now result ≡ read_version limit slices later.now ended }
    ensures inside { IsInside (length later.now) result }
    ensures sized { IsSized limit result }
{
    match later {
        [major, minor, later @ ..] => {
            if *major % 128 == 1 && *minor <= 2 {
                read_sizes(limit, slices, *major, *minor, later, ended).behind(2)
            } else {
                Start::Wrong(FaultKind::IwVersion)
            }
        }
        _ => missing(ended),
    }
}

fn read_sizes(limit: u32, slices: u8, major: u8, minor: u8, later: &[u8], ended: bool) -> Start
    requires { minor ≤ 2 }
    ensures opening { opening_in later.now result ≡ read_sizes limit slices major minor later.now ended }
    ensures inside { IsInside (length later.now) result }
    ensures sized { IsSized limit result }
{
    match later {
        [a, b, c, d, later @ ..] => {
            let plain = plain_header(major, number_of(*a, *b), number_of(*c, *d));
            after_sizes(limit, slices, plain, minor, later, ended).behind(4)
        }
        _ => missing(ended),
    }
}

/// The last byte of a header is there in minor version 2.
fn after_sizes(limit: u32, slices: u8, plain: Header, minor: u8, later: &[u8], ended: bool) -> Start
    requires minor { minor ≤ 2 }
    requires columns { plain.width < 2 ^ 16 }
    requires rows { plain.height < 2 ^ 16 }
    ensures opening { (major width height : ℕ) → plain ≡ plain_header major width height →
        opening_in later.now result ≡ after_sizes limit slices major minor width height later.now ended }
    ensures inside { IsInside (length later.now) result }
    ensures sized { IsSized limit result }
{
    if minor < 2 {
        return sized(limit, plain, slices, 0);
    }
    match later {
        [last, ..] => sized(limit, plain.with_last(*last), slices, 1),
        [] => missing(ended),
    }
}

/// The sizes are checked after the last byte of the header.
fn sized(limit: u32, header: Header, slices: u8, length: usize) -> Start
    requires columns { header.width < 2 ^ 16 }
    requires rows { header.height < 2 ^ 16 }
    ensures opening { (bytes : List ℕ) → opening_in bytes result ≡ sized limit header slices (drop length bytes) }
    ensures inside { (bytes : ℕ) → length ≤ bytes → IsInside bytes result }
    ensures sized { IsSized limit result }
{
    if header.width == 0 || header.height == 0 {
        Start::Wrong(FaultKind::IwHeader)
    } else if header.width * header.height > limit {
        Start::Wrong(FaultKind::TooLarge)
    } else {
        Start::Told {
            header,
            slices,
            length,
        }
    }
}

/// Data that end inside the header are refused once all are there.
fn missing(ended: bool) -> Start
    ensures opening { (bytes : List ℕ) → opening_in bytes result ≡ missing ended }
    ensures inside { (bytes : ℕ) → IsInside bytes result }
    ensures sized { (limit : ℕ) → IsSized limit result }
    ensures serial { (number : ℕ) → HasSerial number result }
{
    if ended {
        Start::Wrong(FaultKind::IwHeader)
    } else {
        Start::Short
    }
}

/// A header before minor version 2: chroma is full and begins at once.
fn plain_header(major: u8, width: u32, height: u32) -> Header
    ensures { result ≡ plain_header major width height }
{
    Header {
        width,
        height,
        grey: major >= 128,
        half: false,
        delay: 0,
    }
}

impl Header {
    /// With the last byte of a header.
    fn with_last(self, last: u8) -> Header
        ensures { result ≡ with_last self last }
    {
        Header {
            half: last < 128,
            delay: last % 128,
            ..self
        }
    }
}

/// A number of two bytes, the higher first.
fn number_of(high: u8, low: u8) -> u32
    ensures value { result ≡ 256 * high + low }
    ensures below { result < 2 ^ 16 }
{
    256 * u32::from(high) + u32::from(low)
}
