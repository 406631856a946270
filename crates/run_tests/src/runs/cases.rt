//! Files, words, and what is wanted of them.

/// The file of a blank page of one pixel.
pub const BLANK: &[u8] = b"AT&TFORM\0\0\0\x16DJVUINFO\0\0\0\x0A\0\x01\0\x01\x18\0\x2C\x01\x16\x01";

/// A page that has a mask, too: one black pixel.
pub const MASKED: &[u8] =
    b"AT&TFORM\0\0\0\x22DJVUINFO\0\0\0\x0A\0\x01\0\x01\x18\0\x2C\x01\x16\x01Sjbz\0\0\0\x04\xB7\x6D\x86\x87";

pub const NONE: &[u8] = b"";

pub const RASTER: &[u8] = b"P6\n1 1\n255\n\xFF\xFF\xFF";

pub const LINE: &[u8] = b"p: chunk 1 sum 765\n";

pub const BOTH_RASTERS: &[u8] = b"P6\n1 1\n255\n\xFF\xFF\xFFP6\n1 1\n255\n\xFF\xFF\xFF";

pub const BOTH_LINES: &[u8] = b"p: chunk 1 sum 765\nq: chunk 1 sum 765\n";

/// What is wanted of words over a file `p`, and by how much the meter rises.
pub struct Case {
    pub words: &'static [&'static [u8]],
    pub page: &'static [u8],
    pub status: u8,
    pub out: &'static [u8],
    pub report: &'static [u8],
    pub ticks: u64,
}

pub const DRAW_P: &[&[u8]] = &[b"draw", b"p"];

pub const INFO_P: &[&[u8]] = &[b"info", b"p"];

/// Pages that are drawn: as it is, without the four bytes before the FORM, with bytes behind it, and with a chunk that
/// isn't read.
pub const DRAWN: [&[u8]; 4] = [
    BLANK,
    b"FORM\0\0\0\x16DJVUINFO\0\0\0\x0A\0\x01\0\x01\x18\0\x2C\x01\x16\x01",
    b"FORM\0\0\0\x16DJVUINFO\0\0\0\x0A\0\x01\0\x01\x18\0\x2C\x01\x16\x01FORM",
    b"AT&TFORM\0\0\0\x1EDJVUINFO\0\0\0\x0A\0\x01\0\x01\x18\0\x2C\x01\x16\x01TXTz\0\0\0\0",
];

/// Pages that are refused, and what is reported of them.
pub const REFUSED: [(&[u8], &[u8]); 8] = [
    (NONE, b"p: truncated p 0\n"),
    // A chunk that is too long, and one that is never read.
    (
        b"AT&TFORM\0\0\0\x1EDJVUINFO\0\0\0\x0A\0\x01\0\x01\x18\0\x2C\x01\x16\x01BG44\0\0\0\x64",
        b"p: chunk 1 sum 765\np: overrun p 34\n",
    ),
    (
        b"AT&TFORM\0\0\0\x1EDJVUINFO\0\0\0\x0A\0\x01\0\x01\x18\0\x2C\x01\x16\x01FGbz\0\0\0\0",
        b"p: chunk 1 sum 765\np: unsupported p 34\n",
    ),
    // An area of 67,173,375, and no columns.
    (
        b"AT&TFORM\0\0\0\x16DJVUINFO\0\0\0\x0A\xFF\xFF\x04\x01\x18\0\x2C\x01\x16\x01",
        b"p: too-large p 16\n",
    ),
    (
        b"AT&TFORM\0\0\0\x16DJVUINFO\0\0\0\x0A\0\0\0\x01\x18\0\x2C\x01\x16\x01",
        b"p: bad-info p 16\n",
    ),
    // Two chunks INFO, and a mask before the first.
    (
        b"AT&TFORM\0\0\0\x28DJVUINFO\0\0\0\x0A\0\x01\0\x01\x18\0\x2C\x01\x16\x01INFO\0\0\0\x0A\0\x01\0\x01\x18\0\x2C\x01\x16\x01",
        b"p: chunk 1 sum 765\np: second-info p 34\n",
    ),
    (
        b"AT&TFORM\0\0\0\x10DJVUSjbz\0\0\0\x04\xB7\x6D\x86\x87",
        b"p: no-info p 16\n",
    ),
    // A byte behind the chunk, where the FORM has room for one.
    (
        b"AT&TFORM\0\0\0\x17DJVUINFO\0\0\0\x0A\0\x01\0\x01\x18\0\x2C\x01\x16\x01\0",
        b"p: chunk 1 sum 765\np: short-header p 34\n",
    ),
];

pub const COMMANDS: [Case; 17] = [
    Case {
        words: INFO_P,
        page: MASKED,
        status: 0,
        out: NONE,
        report: b"p: form DJVU 34\np: chunk INFO 16 10\np: chunk Sjbz 34 4\n",
        ticks: 0,
    },
    Case {
        words: INFO_P,
        page: b"FORM\0\0\0\x15DJVIDjbz\0\0\0\x02ab\xFF\xFE\xFD\xFC\0\0\0",
        status: 1,
        out: NONE,
        report: b"p: form DJVI 21\np: chunk Djbz 12 2\np: short-header p 22\n",
        ticks: 0,
    },
    // Both pages, of which the first is refused, and their chunks the other way round.
    Case {
        words: &[b"draw", b"p", b"q"],
        page: NONE,
        status: 1,
        out: RASTER,
        report: b"p: truncated p 0\nq: chunk 1 sum 765\n",
        ticks: 0,
    },
    Case {
        words: &[b"info", b"q", b"p"],
        page: NONE,
        status: 1,
        out: NONE,
        report: b"q: form DJVU 22\nq: chunk INFO 16 10\np: truncated p 0\n",
        ticks: 0,
    },
    Case {
        words: &[b"draw", b"p", b"p"],
        page: BLANK,
        status: 2,
        out: NONE,
        report: b"words 2\n",
        ticks: 0,
    },
    Case {
        words: &[b"draw"],
        page: BLANK,
        status: 2,
        out: NONE,
        report: b"words 1\n",
        ticks: 0,
    },
    Case {
        words: &[b"draw", b"--", b"p"],
        page: BLANK,
        status: 2,
        out: NONE,
        report: b"words 1\n",
        ticks: 0,
    },
    // The second page isn't there, and nothing is drawn.
    Case {
        words: &[b"draw", b"p", b"r", b"q"],
        page: BLANK,
        status: 2,
        out: NONE,
        report: b"words 2\n",
        ticks: 0,
    },
    Case {
        words: &[b"draw", b"--table", b"flat", b"p"],
        page: BLANK,
        status: 0,
        out: RASTER,
        report: LINE,
        ticks: 0,
    },
    // A file that is a table, and then files that are none: the first is no page either, and the second is one.
    Case {
        words: &[b"draw", b"--table", b"p", b"q"],
        page: b"\x80\0\0\0\0\0",
        status: 0,
        out: RASTER,
        report: b"q: chunk 1 sum 765\n",
        ticks: 0,
    },
    Case {
        words: &[b"draw", b"--table", b"p", b"q"],
        page: b"\0\0\0\0\0",
        status: 2,
        out: NONE,
        report: b"table 0 short\n",
        ticks: 0,
    },
    Case {
        words: &[b"draw", b"--table", b"p", b"q"],
        page: NONE,
        status: 2,
        out: NONE,
        report: b"table 0 empty\n",
        ticks: 0,
    },
    Case {
        words: &[b"draw", b"--table", b"p", b"q"],
        page: b"\x80\0\0\0\x01\0\x80\0\0\0\x02\0",
        status: 2,
        out: NONE,
        report: b"table 1 up\n",
        ticks: 0,
    },
    Case {
        words: &[b"draw", b"--table", b"q", b"q"],
        page: BLANK,
        status: 2,
        out: NONE,
        report: b"table 5 short\n",
        ticks: 0,
    },
    // Neither the table nor a page is there.
    Case {
        words: &[b"draw", b"--table", b"t", b"r"],
        page: BLANK,
        status: 2,
        out: NONE,
        report: b"words 2\n",
        ticks: 0,
    },
    Case {
        words: &[b"draw", b"--table", b"djvu", b"p", b"r"],
        page: BLANK,
        status: 2,
        out: NONE,
        report: b"words 4\n",
        ticks: 0,
    },
    Case {
        words: &[b"show", b"p"],
        page: BLANK,
        status: 2,
        out: NONE,
        report: b"words 0\n",
        ticks: 0,
    },
];
