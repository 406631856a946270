//! Folders of files that include each other, and what is wanted of them.

use super::cases::{BLANK, NONE, RASTER};
use super::{Came, Failing, SOUND, ascend, came_to, expect_counted};
use djvu_base::{Items, Name};
use std::alloc::Global;

/// Files of a folder, and what is wanted of drawing `p` and `q`.
pub struct LibraryCase {
    pub files: &'static [(&'static [u8], &'static [u8])],
    pub status: u8,
    pub out: &'static [u8],
    pub report: &'static [u8],
    pub ticks: u64,
}

/// A dictionary of one shape, of one pixel.
const DICTIONARY: &[u8] = b"AT&TFORM\0\0\0\x10DJVIDjbz\0\0\0\x03\xF4\xD8?\0";

/// A page that includes it, and copies the shape.
const COPY: &[u8] =
    b"AT&TFORM\0\0\0.DJVUINFO\0\0\0\x0A\0\x01\0\x01\x18\0,\x01\x16\x01INCL\0\0\0\x01d\0Sjbz\0\0\0\x05\x15\xDB\x8E4?\0";

/// Two pages that share a dictionary.
pub const SHARED: &[(&[u8], &[u8])] = &[(b"d", DICTIONARY), (b"p", COPY), (b"q", COPY)];

pub const BLACK_TWICE: &[u8] = b"P6\n1 1\n255\n\0\0\0P6\n1 1\n255\n\0\0\0";

pub const SHARED_LINES: &[u8] =
    b"p: chunk 1 sum 765\np: chunk 3 sum 0\nq: chunk 1 sum 765\nq: chunk 3 sum 0\n";

pub const LIBRARIES: [LibraryCase; 4] = [
    LibraryCase {
        files: SHARED,
        status: 0,
        out: BLACK_TWICE,
        report: SHARED_LINES,
        ticks: 86,
    },
    // Two files that include each other.
    LibraryCase {
        files: &[
            (b"a", b"AT&TFORM\0\0\0\x0EDJVIINCL\0\0\0\x01b\0"),
            (b"b", b"AT&TFORM\0\0\0\x0EDJVIINCL\0\0\0\x01a\0"),
            (
                b"p",
                b"AT&TFORM\0\0\0 DJVUINFO\0\0\0\x0A\0\x01\0\x01\x18\0,\x01\x16\x01INCL\0\0\0\x01a\0",
            ),
            (
                b"q",
                b"AT&TFORM\0\0\0 DJVUINFO\0\0\0\x0A\0\x01\0\x01\x18\0,\x01\x16\x01INCL\0\0\0\x01b\0",
            ),
        ],
        status: 1,
        out: NONE,
        report: b"p: chunk 1 sum 765\np: cyclic-include b 16\nq: chunk 1 sum 765\nq: cyclic-include a 16\n",
        ticks: 0,
    },
    // A file that is missing.
    LibraryCase {
        files: &[
            (
                b"p",
                b"AT&TFORM\0\0\0 DJVUINFO\0\0\0\x0A\0\x01\0\x01\x18\0,\x01\x16\x01INCL\0\0\0\x01z\0",
            ),
            (b"q", BLANK),
        ],
        status: 1,
        out: RASTER,
        report: b"p: chunk 1 sum 765\np: missing-include p 34\nq: chunk 1 sum 765\n",
        ticks: 0,
    },
    // A page that counts two shapes, where the dictionary has one.
    LibraryCase {
        files: &[
            (b"d", DICTIONARY),
            (
                b"p",
                b"AT&TFORM\0\0\0*DJVUINFO\0\0\0\x0A\0\x01\0\x01\x18\0,\x01\x16\x01INCL\0\0\0\x01d\0Sjbz\0\0\0\x02\x15\x7F",
            ),
            (b"q", BLANK),
        ],
        status: 1,
        out: RASTER,
        report: b"p: chunk 1 sum 765\np: jb2-dictionary p 44\nq: chunk 1 sum 765\n",
        ticks: 27,
    },
];

const WORDS: &[&[u8]] = &[b"draw", b"--table", b"flat", b"p", b"q"];

/// Draws `p` and `q` over these files.
fn came_over(alloc: Global, files: &[(&[u8], &[u8])], failing: Failing) -> Option<Came> {
    let mut list = Vec::new(alloc);
    for (name, bytes) in files {
        let name = Name::read(alloc, name).ok()??;
        let bytes = Items::of(Vec::from_slice(alloc, bytes).ok()?);
        list.push((name, bytes)).ok()?;
    }
    if !ascend(list.as_slice()) {
        return None;
    }
    came_to(alloc, list, WORDS, failing)
}

#[test]
fn libraries(rt: HostRuntime) {
    for (number, case) in LIBRARIES.iter().enumerate() {
        let came = came_over(rt.alloc(), case.files, SOUND);
        let counted = (case.status, case.ticks);
        expect_counted(&rt, came, counted, case.out, case.report, number);
    }
}

/// Each call of the folder, and of both sinks, that drawing two pages with one dictionary makes fails in turn. Where the
/// dictionary's reading fails, it isn't read again.
#[test]
fn failing_calls_of_libraries(rt: HostRuntime) {
    let black: &[u8] = &BLACK_TWICE[..14];
    let first: &[u8] = b"p: chunk 1 sum 765\np: chunk 3 sum 0\n";
    let first_lost: &[u8] = b"p: read p 0\nq: chunk 1 sum 765\nq: chunk 3 sum 0\n";
    let lost: &[u8] = b"p: chunk 1 sum 765\np: read d 0\nq: chunk 1 sum 765\nq: read d 0\n";
    let second_lost: &[u8] = b"p: chunk 1 sum 765\np: chunk 3 sum 0\nq: read q 0\n";
    let cases: [(
        Option<u64>,
        Option<u64>,
        Option<u64>,
        (u8, u64),
        &[u8],
        &[u8],
    ); 17] = [
        (Some(0), None, None, (3, 0), NONE, NONE),
        (Some(1), None, None, (3, 52), black, first_lost),
        (Some(2), None, None, (3, 52), black, first_lost),
        (Some(3), None, None, (3, 86), BLACK_TWICE, SHARED_LINES),
        (Some(4), None, None, (3, 0), NONE, lost),
        (Some(5), None, None, (3, 0), NONE, lost),
        (Some(6), None, None, (3, 86), BLACK_TWICE, SHARED_LINES),
        (Some(7), None, None, (3, 52), black, second_lost),
        (Some(8), None, None, (3, 52), black, second_lost),
        (Some(9), None, None, (3, 86), BLACK_TWICE, SHARED_LINES),
        (Some(10), None, None, (0, 86), BLACK_TWICE, SHARED_LINES),
        (None, Some(0), None, (4, 52), NONE, first),
        (None, Some(1), None, (4, 52), &BLACK_TWICE[..11], first),
        (None, Some(2), None, (4, 86), black, SHARED_LINES),
        (
            None,
            Some(3),
            None,
            (4, 86),
            &BLACK_TWICE[..25],
            SHARED_LINES,
        ),
        (None, None, Some(0), (4, 52), NONE, NONE),
        (None, None, Some(1), (4, 86), black, first),
    ];
    for (number, (folder, out, report, counted, raster, lines)) in cases.into_iter().enumerate() {
        let failing = Failing {
            folder,
            out,
            report,
        };
        let came = came_over(rt.alloc(), SHARED, failing);
        expect_counted(&rt, came, counted, raster, lines, number);
    }
}
