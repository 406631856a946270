//! What is wrong with a page, by its FORM's kind and by its size.
ghost use Rattle.std.specs.Prelude.{◌≡◌, ◌*◌, ◌<◌, ◌≤◌, None, length};
ghost use Rattle.bit_plane.specs.Pixels.{area_limit};
ghost use Rattle.page_decoder.specs.Reading.{kind_fault, size_fault, size_in, is_info, is_mask};
ghost use Rattle.djvu_base.specs.Name.{is_listed};

use byteorder::{BigEndian, ByteOrder};
use djvu_base::FaultKind;

/// The largest page, in pixels.
const AREA_LIMIT: u32 = 67_108_864;

/// Kinds of a FORM that are no pages, but of which it is known what they are.
const OTHER_KINDS: [[u8; 4]; 4] = [*b"DJVM", *b"PM44", *b"BM44", *b"THUM"];

/// Width and height, in pixels.
#[derive(Clone, Copy, Debug, PartialEq, Eq)]
pub struct Size {
    pub width: u16,
    pub height: u16,
}

/// Why a FORM of this kind is no page.
pub fn kind_fault(kind: [u8; 4]) -> Option<FaultKind>
    ensures { result ≡ kind_fault kind }
{
    if kind.as_slice() == b"DJVU".as_slice() {
        None
    } else if is_listed(&OTHER_KINDS, kind) {
        Some(FaultKind::Unsupported)
    } else {
        Some(FaultKind::WrongForm)
    }
}

/// Whether a chunk is an `INFO`.
pub fn is_info(id: [u8; 4]) -> bool
    ensures { result ≡ is_info id }
{
    id.as_slice() == b"INFO".as_slice()
}

/// Whether a chunk is an `Sjbz`, a mask in JB2.
pub fn is_mask(id: [u8; 4]) -> bool
    ensures { result ≡ is_mask id }
{
    id.as_slice() == b"Sjbz".as_slice()
}

fn is_listed(names: &[[u8; 4]], name: [u8; 4]) -> bool
    ensures { result ≡ is_listed names.now name }
{
    names
        .iter()
        .any(|listed| name.as_slice() == listed.as_slice())
}

/// Why a page can't have this size.
pub fn size_fault(size: Size) -> Option<FaultKind>
    ensures fault { result ≡ size_fault size }
    ensures some_columns { result ≡ None → 0 < size.width }
    ensures some_rows { result ≡ None → 0 < size.height }
    ensures area { result ≡ None → size.width * size.height ≤ area_limit }
{
    if size.width == 0 || size.height == 0 {
        Some(FaultKind::BadInfo)
    } else if AREA_LIMIT < u32::from(size.width) * u32::from(size.height) {
        Some(FaultKind::TooLarge)
    } else {
        None
    }
}

/// The size that the data of an `INFO` begin with.
pub fn size_in(info: &[u8]) -> Size
    requires { 4 ≤ length info.now }
    ensures { result ≡ size_in info.now }
{
    Size {
        width: BigEndian::read_u16(info),
        height: BigEndian::read_u16(&info[2..]),
    }
}
