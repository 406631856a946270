//! Pages without other files that are refused, fed in one piece, in each cut in two, and byte by byte.

use crate::fed::{BLACK, WHITE};
use crate::page_cuts::{GREY, Page, expect_page};

/// Pages that are refused at their head, at a header, where their bytes end, or for a second chunk of a kind.
const BROKEN_PAGES: [Page; 20] = [
    Page {
        bytes: b"",
        tells: "truncated 0 0/",
        decisions: 0,
        preview: &[],
    },
    Page {
        bytes: b"AT&TFORM\0\0\0\x1EDJVUINFO\0\0\0\x0A\0\x01\0\x01\x18\0\x2C\x01\x16\x01BG44\0\0\0d",
        tells: "1 765/overrun 0 34/",
        decisions: 0,
        preview: WHITE,
    },
    Page {
        bytes: b"AT&TFORM\0\0\0\x1EDJVUINFO\0\0\0\x0A\0\x01\0\x01\x18\0\x2C\x01\x16\x01FGbz\0\0\0\0",
        tells: "1 765/unsupported 0 34/",
        decisions: 0,
        preview: WHITE,
    },
    Page {
        bytes: b"AT&TFORM\0\0\0\x16DJVUINFO\0\0\0\x0A\xFF\xFF\x04\x01\x18\0\x2C\x01\x16\x01",
        tells: "too-large 0 16/",
        decisions: 0,
        preview: &[],
    },
    Page {
        bytes: b"AT&TFORM\0\0\0\x16DJVUINFO\0\0\0\x0A\0\0\0\x01\x18\0\x2C\x01\x16\x01",
        tells: "bad-info 0 16/",
        decisions: 0,
        preview: &[],
    },
    Page {
        bytes: b"AT&TFORM\0\0\0\x22DJVUINFO\0\0\0\x0A\0\x01\0\x01\x18\0\x2C\x01\x16\x01Sjbz\0\0\0\x04\xB7m",
        tells: "1 765/truncated 0 34/",
        decisions: 0,
        preview: WHITE,
    },
    Page {
        bytes: b"AT&TFORM\0\0\0\x1EDJVUINFO\0\0\0\x0A\0\x01\0\x01\x18\0\x2C\x01\x16\x01INFO\0\0\0\0",
        tells: "1 765/second-info 0 34/",
        decisions: 0,
        preview: WHITE,
    },
    Page {
        bytes: b"AT&TFORM\0\0\0\x0CDJVUSjbz\0\0\0\0",
        tells: "no-info 0 16/",
        decisions: 0,
        preview: &[],
    },
    Page {
        bytes: b"AT&TFORM\0\0\0\x04DJVU",
        tells: "no-info 0 16/",
        decisions: 0,
        preview: &[],
    },
    Page {
        bytes: b"FORM\0\0\0\x03",
        tells: "not-form 0 0/",
        decisions: 0,
        preview: &[],
    },
    Page {
        bytes: b"AT&TFORM\0\0\0\x16DJVU",
        tells: "truncated 0 0/",
        decisions: 0,
        preview: &[],
    },
    Page {
        bytes: b"AT&TFORM\0\0\0\x16DJVUINFO",
        tells: "truncated 0 16/",
        decisions: 0,
        preview: &[],
    },
    Page {
        bytes: b"AT&TFORM\0\0\0\x19DJVUINFO\0\0\0\x0A\0\x01\0\x01\x18\0\x2C\x01\x16\x01\0\0\0",
        tells: "1 765/short-header 0 34/",
        decisions: 0,
        preview: WHITE,
    },
    Page {
        bytes: b"AT&TFORM\0\0\0\x1EDJVUINFO\0\0\0\x0A\0\x01\0\x01\x18\0\x2C\x01\x16\x01\x42\0\x34\x34\0\0\0\0",
        tells: "1 765/bad-id 0 34/",
        decisions: 0,
        preview: WHITE,
    },
    Page {
        bytes: b"AT&TFORM\0\x1F\xFF\xF5DJVU",
        tells: "too-large 0 0/",
        decisions: 0,
        preview: &[],
    },
    Page {
        bytes: b"AT&TFORM\0\x1F\xFF\xF4DJVUINFO\0\0\0\x0A\0\x01\0\x01\x18\0\x2C\x01\x16\x01",
        tells: "1 765/truncated 0 34/",
        decisions: 0,
        preview: WHITE,
    },
    Page {
        bytes: b"AT&TFORM\0\0\0\x2EDJVUINFO\0\0\0\x0A\0\x01\0\x01\x18\0\x2C\x01\x16\x01Sjbz\0\0\0\x04\xB7m\x86\x87Sjbz\0\0\0\x04\xB7m\x86\x87",
        tells: "1 765/2 0/second-mask 0 46/",
        decisions: 29,
        preview: BLACK,
    },
    Page {
        bytes: b"AT&TFORM\0\0\0\x2ADJVUINFO\0\0\0\x0A\0\x01\0\x01\x18\0\x2C\x01\x16\x01Djbz\0\0\0\x03\xF4\xD8\x3F\0Djbz\0\0\0\0",
        tells: "1 765/second-dictionary 0 46/",
        decisions: 18,
        preview: WHITE,
    },
    Page {
        bytes: b"AT&TFORM\0\0\0\x30DJVUINFO\0\0\0\x0A\0\x01\0\x01\x18\0\x2C\x01\x16\x01FG44\0\0\0\x09\0\x01\x81\x02\0\x01\0\x01\0\0FG44\0\0\0\0",
        tells: "1 765/2 765/second-front 0 52/",
        decisions: 1,
        preview: WHITE,
    },
    Page {
        bytes: b"AT&TFORM\0\0\0\x1EDJVUINFO\0\0\0\x0A\0\x01\0\x01\x18\0\x2C\x01\x16\x01INCL\0\0\0\0",
        tells: "1 765/bad-include-name 0 34/",
        decisions: 0,
        preview: WHITE,
    },
];

#[test]
fn broken_pages_in_pieces(rt: HostRuntime) {
    for page in &BROKEN_PAGES {
        expect_page(&rt, rt.alloc(), page);
    }
}

/// Pages that are refused in the data of a chunk.
const REFUSED_PAGES: [Page; 14] = [
    Page {
        bytes: b"AT&TFORM\0\0\0\x20DJVUINFO\0\0\0\x0A\0\x01\0\x01\x18\0\x2C\x01\x16\x01Sjbz\0\0\0\x01\x0F\0",
        tells: "1 765/jb2-no-start 0 34/",
        decisions: 4,
        preview: WHITE,
    },
    Page {
        bytes: b"AT&TFORM\0\0\0\x22DJVUINFO\0\0\0\x0A\0\x01\0\x01\x18\0\x2C\x01\x16\x01Sjbz\0\0\0\x04\xB7\x60\xFC\x1F",
        tells: "1 765/zp-exhausted 0 34/",
        decisions: 208,
        preview: WHITE,
    },
    Page {
        bytes: b"AT&TFORM\0\0\0\x20DJVUINFO\0\0\0\x0A\0\x01\0\x01\x18\0\x2C\x01\x16\x01Djbz\0\0\0\x01\x7F\0",
        tells: "1 765/jb2-record 0 34/",
        decisions: 3,
        preview: WHITE,
    },
    Page {
        bytes: b"AT&TFORM\0\0\0\x20DJVUINFO\0\0\0\x0A\0\x01\0\x01\x18\0\x2C\x01\x16\x01Sjbz\0\0\0\x02\xB7\xFF",
        tells: "1 765/jb2-second-start 0 34/",
        decisions: 9,
        preview: WHITE,
    },
    Page {
        bytes: b"AT&TFORM\0\0\0\x20DJVUINFO\0\0\0\x0A\0\x01\0\x01\x18\0\x2C\x01\x16\x01Sjbz\0\0\0\x02\xB7\x1F",
        tells: "1 765/jb2-no-match 0 34/",
        decisions: 14,
        preview: WHITE,
    },
    Page {
        bytes: b"AT&TFORM\0\0\0\x20DJVUINFO\0\0\0\x0A\0\x01\0\x01\x18\0\x2C\x01\x16\x01Djbz\0\0\0\x01\xBF\0",
        tells: "1 765/jb2-dictionary 0 34/",
        decisions: 6,
        preview: WHITE,
    },
    Page {
        bytes: b"AT&TFORM\0\0\0\x20DJVUINFO\0\0\0\x0A\0\x01\0\x01\x18\0\x2C\x01\x16\x01BG44\0\0\0\x01\0\0",
        tells: "1 765/iw-header 0 34/",
        decisions: 0,
        preview: WHITE,
    },
    Page {
        bytes: b"AT&TFORM\0\0\0\x20DJVUINFO\0\0\0\x0A\0\x01\0\x01\x18\0\x2C\x01\x16\x01BG44\0\0\0\x02\x01\x01",
        tells: "1 765/iw-serial 0 34/",
        decisions: 0,
        preview: WHITE,
    },
    Page {
        bytes: b"AT&TFORM\0\0\0\x28DJVUINFO\0\0\0\x0A\0\x01\0\x01\x18\0\x2C\x01\x16\x01BG44\0\0\0\x09\0\x01\x81\x03\0\x01\0\x01\0\0",
        tells: "1 765/iw-version 0 34/",
        decisions: 0,
        preview: WHITE,
    },
    Page {
        bytes: b"AT&TFORM\0\0\0\x28DJVUINFO\0\0\0\x0A\0\x01\0\x01\x18\0\x2C\x01\x16\x01BG44\0\0\0\x09\0\x01\x81\x02\0\0\0\x01\0\0",
        tells: "1 765/iw-header 0 34/",
        decisions: 0,
        preview: WHITE,
    },
    Page {
        bytes: b"AT&TFORM\0\0\0\x28DJVUINFO\0\0\0\x0A\0\x01\0\x01\x18\0\x2C\x01\x16\x01BG44\0\0\0\x09\0\x01\x81\x02\0\x02\0\x01\0\0",
        tells: "1 765/layer-size 0 34/",
        decisions: 0,
        preview: WHITE,
    },
    Page {
        bytes: b"AT&TFORM\0\0\0\x20DJVUINFO\0\0\0\x0A\0\x01\0\x01\x18\0\x2C\x01\x16\x01INCL\0\0\0\x01z\0",
        tells: "1 765/missing-include 0 34/",
        decisions: 0,
        preview: WHITE,
    },
    Page {
        bytes: b"AT&TFORM\0\0\02DJVUINFO\0\0\0\x0A\0\x01\0\x01\x18\0\x2C\x01\x16\x01INCL\0\0\0\x01z\0BG44\0\0\0\x09\0\x01\x81\x02\0\x01\0\x01\0\0",
        tells: "1 765/3 381/missing-include 0 34/",
        decisions: 1,
        preview: GREY,
    },
    Page {
        bytes: b"AT&TFORM\0\0\02DJVUINFO\0\0\0\x0A\0\x01\0\x01\x18\0\x2C\x01\x16\x01INCL\0\0\0\x01z\0BG44\0\0",
        tells: "1 765/truncated 0 44/",
        decisions: 0,
        preview: WHITE,
    },
];

#[test]
fn refused_pages_in_pieces(rt: HostRuntime) {
    for page in &REFUSED_PAGES {
        expect_page(&rt, rt.alloc(), page);
    }
}
