//! Pages with masks, and what is wanted of them.

use super::cases::{BLANK, Case, LINE, MASKED, NONE};

pub const FLAT_P: &[&[u8]] = &[b"draw", b"--table", b"flat", b"p"];

const FLAT_P_Q: &[&[u8]] = &[b"draw", b"--table", b"flat", b"p", b"q"];

/// The raster of one black pixel.
const BLACK: &[u8] = b"P6\n1 1\n255\n\0\0\0";

const BOTH_LINES: &[u8] = b"p: chunk 1 sum 765\np: chunk 2 sum 0\n";

/// A shape of one pixel, by a mark, and what a mask may be instead.
pub const MASKS: [Case; 14] = [
    Case {
        words: FLAT_P,
        page: MASKED,
        status: 0,
        out: BLACK,
        report: BOTH_LINES,
        ticks: 29,
    },
    // The left one of two pixels.
    Case {
        words: FLAT_P,
        page: b"AT&TFORM\0\0\0\x22DJVUINFO\0\0\0\x0A\0\x02\0\x01\x18\0\x2C\x01\x16\x01Sjbz\0\0\0\x04\xA7\x6D\x86\x87",
        status: 0,
        out: b"P6\n2 1\n255\n\0\0\0\xFF\xFF\xFF",
        report: b"p: chunk 1 sum 1530\np: chunk 2 sum 765\n",
        ticks: 29,
    },
    // A shape of the library, and then its refinement as a mark.
    Case {
        words: FLAT_P,
        page: b"AT&TFORM\0\0\0\x24DJVUINFO\0\0\0\x0A\0\x01\0\x01\x18\0\x2C\x01\x16\x01Sjbz\0\0\0\x05\xB7\x4D\x88\xA1\xA1\0",
        status: 0,
        out: BLACK,
        report: BOTH_LINES,
        ticks: 39,
    },
    // With the usual table, a mask without bytes.
    Case {
        words: &[b"draw", b"p"],
        page: b"AT&TFORM\0\0\0\x1EDJVUINFO\0\0\0\x0A\0\x01\0\x01\x18\0\x2C\x01\x16\x01Sjbz\0\0\0\0",
        status: 1,
        out: NONE,
        report: b"p: chunk 1 sum 765\np: mask-size p 34\n",
        ticks: 4,
    },
    // Cut behind two bytes of the mask, and behind six of eight.
    Case {
        words: FLAT_P,
        page: b"AT&TFORM\0\0\0\x22DJVUINFO\0\0\0\x0A\0\x01\0\x01\x18\0\x2C\x01\x16\x01Sjbz\0\0\0\x04\xB7\x6D",
        status: 1,
        out: NONE,
        report: b"p: chunk 1 sum 765\np: truncated p 34\n",
        ticks: 0,
    },
    Case {
        words: FLAT_P,
        page: b"AT&TFORM\0\0\0\x26DJVUINFO\0\0\0\x0A\0\x01\0\x01\x18\0\x2C\x01\x16\x01Sjbz\0\0\0\x08\xB7\x6D\x86\x87\xFF\xFF",
        status: 1,
        out: NONE,
        report: b"p: chunk 1 sum 765\np: truncated p 34\n",
        ticks: 17,
    },
    // The second record is a start, too: a fault that the bytes show before they end too early.
    Case {
        words: FLAT_P,
        page: b"AT&TFORM\0\0\0\x32DJVUINFO\0\0\0\x0A\0\x01\0\x01\x18\0\x2C\x01\x16\x01Sjbz\0\0\0\x14\xB7\xFF\xFF\xFF\xFF",
        status: 1,
        out: NONE,
        report: b"p: chunk 1 sum 765\np: jb2-second-start p 34\n",
        ticks: 9,
    },
    // The first record is an end.
    Case {
        words: FLAT_P,
        page: b"AT&TFORM\0\0\0\x20DJVUINFO\0\0\0\x0A\0\x01\0\x01\x18\0\x2C\x01\x16\x01Sjbz\0\0\0\x01\x0F\0",
        status: 1,
        out: NONE,
        report: b"p: chunk 1 sum 765\np: jb2-no-start p 34\n",
        ticks: 4,
    },
    // Shapes of a dictionary that isn't there.
    Case {
        words: FLAT_P,
        page: b"AT&TFORM\0\0\0\x20DJVUINFO\0\0\0\x0A\0\x01\0\x01\x18\0\x2C\x01\x16\x01Sjbz\0\0\0\x02\x15\x7F",
        status: 1,
        out: NONE,
        report: b"p: chunk 1 sum 765\np: jb2-dictionary p 34\n",
        ticks: 9,
    },
    // A shape of 31 by 31 whose pixels lie behind the end of the bytes.
    Case {
        words: FLAT_P,
        page: b"AT&TFORM\0\0\0\x22DJVUINFO\0\0\0\x0A\0\x01\0\x01\x18\0\x2C\x01\x16\x01Sjbz\0\0\0\x04\xB7\x60\xFC\x1F",
        status: 1,
        out: NONE,
        report: b"p: chunk 1 sum 765\np: zp-exhausted p 34\n",
        ticks: 208,
    },
    // Two masks.
    Case {
        words: FLAT_P,
        page: b"AT&TFORM\0\0\0\x2ADJVUINFO\0\0\0\x0A\0\x01\0\x01\x18\0\x2C\x01\x16\x01Sjbz\0\0\0\x04\xB7\x6D\x86\x87Sjbz\0\0\0\0",
        status: 1,
        out: NONE,
        report: b"p: chunk 1 sum 765\np: chunk 2 sum 0\np: second-mask p 46\n",
        ticks: 29,
    },
    // A black page and a white one, and the chunks of the black one.
    Case {
        words: FLAT_P_Q,
        page: MASKED,
        status: 0,
        out: b"P6\n1 1\n255\n\0\0\0P6\n1 1\n255\n\xFF\xFF\xFF",
        report: b"p: chunk 1 sum 765\np: chunk 2 sum 0\nq: chunk 1 sum 765\n",
        ticks: 29,
    },
    Case {
        words: &[b"info", b"p"],
        page: MASKED,
        status: 0,
        out: NONE,
        report: b"p: form DJVU 34\np: chunk INFO 16 10\np: chunk Sjbz 34 4\n",
        ticks: 0,
    },
    Case {
        words: FLAT_P,
        page: BLANK,
        status: 0,
        out: b"P6\n1 1\n255\n\xFF\xFF\xFF",
        report: LINE,
        ticks: 0,
    },
];
