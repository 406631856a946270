//! Pages without other files, fed in one piece, in each cut in two, and byte by byte.

use crate::fed::{BLACK, File, Tells, WHITE, expect_cuts};
use djvu_base::FileEnd;
use std::alloc::Global;
use std::process::Abort;

/// A page, what it tells with the table of one row, its decisions, and the last notice's preview.
#[derive(Drop)]
pub struct Page {
    pub bytes: &'static [u8],
    pub tells: &'static str,
    pub decisions: u64,
    pub preview: &'static [u8],
}

/// A preview of one grey pixel.
pub const GREY: &[u8] = &[0x7F; 3];

/// Asserts what a page tells that is alone in its folder.
pub fn expect_page(rt: &impl Abort, alloc: Global, page: &Page) {
    let files = [File {
        name: "p",
        bytes: page.bytes,
        end: FileEnd::Whole,
    }];
    let tells = Tells {
        text: page.tells,
        decisions: page.decisions,
        ticks: page.decisions,
        preview: page.preview,
    };
    expect_cuts(rt, alloc, &files, 0, &tells);
}

/// Pages without colours: finished.
const FINISHED_PAGES: [Page; 7] = [
    Page {
        bytes: b"AT&TFORM\0\0\0\x16DJVUINFO\0\0\0\x0A\0\x01\0\x01\x18\0\x2C\x01\x16\x01",
        tells: "1 765/finished/",
        decisions: 0,
        preview: WHITE,
    },
    Page {
        bytes: b"FORM\0\0\0\x16DJVUINFO\0\0\0\x0A\0\x01\0\x01\x18\0\x2C\x01\x16\x01",
        tells: "1 765/finished/",
        decisions: 0,
        preview: WHITE,
    },
    Page {
        bytes: b"AT&TFORM\0\0\0\x1EDJVUINFO\0\0\0\x0A\0\x01\0\x01\x18\0\x2C\x01\x16\x01TXTz\0\0\0\0",
        tells: "1 765/finished/",
        decisions: 0,
        preview: WHITE,
    },
    Page {
        bytes: b"AT&TFORM\0\0\0\x22DJVUINFO\0\0\0\x0A\0\x01\0\x01\x18\0\x2C\x01\x16\x01Sjbz\0\0\0\x04\xB7m\x86\x87",
        tells: "1 765/2 0/finished/",
        decisions: 29,
        preview: BLACK,
    },
    Page {
        bytes: b"AT&TFORM\0\0\0&DJVUINFO\0\0\0\x0A\0\x01\0\x01\x18\0\x2C\x01\x16\x01Sjbz\0\0\0\x08\xB7m\x86\x87\xFF\xFF\xFF\xFF",
        tells: "1 765/2 0/finished/",
        decisions: 29,
        preview: BLACK,
    },
    Page {
        bytes: b"AT&TFORM\0\0\0\x24DJVUINFO\0\0\0\x0A\0\x01\0\x01\x18\0\x2C\x01\x16\x01Sjbz\0\0\0\x05\xB7\x4D\x88\xA1\xA1\0",
        tells: "1 765/2 0/finished/",
        decisions: 39,
        preview: BLACK,
    },
    Page {
        bytes: b"AT&TFORM\0\0\00DJVUINFO\0\0\0\x0A\0\x01\0\x01\x18\0\x2C\x01\x16\x01Djbz\0\0\0\x03\xF4\xD8\x3F\0Sjbz\0\0\0\x05\x15\xDB\x8E\x34\x3F\0",
        tells: "1 765/3 0/finished/",
        decisions: 52,
        preview: BLACK,
    },
];

#[test]
fn finished_pages_in_pieces(rt: HostRuntime) {
    for page in &FINISHED_PAGES {
        expect_page(&rt, rt.alloc(), page);
    }
}

/// Pages with colours: backgrounds of grey and of colours, with half chroma, of two pixels, and a foreground.
const COLOURED_PAGES: [Page; 7] = [
    Page {
        bytes: b"AT&TFORM\0\0\0\x28DJVUINFO\0\0\0\x0A\0\x01\0\x01\x18\0\x2C\x01\x16\x01BG44\0\0\0\x09\0\x01\x81\x02\0\x01\0\x01\0\0",
        tells: "1 765/2 381/finished/",
        decisions: 1,
        preview: GREY,
    },
    Page {
        bytes: b"AT&TFORM\0\0\0\x28DJVUINFO\0\0\0\x0A\0\x01\0\x01\x18\0\x2C\x01\x16\x01BG44\0\0\0\x0A\0\x01\x81\x02\0\x01\0\x01\0\x3F",
        tells: "1 765/2 0/finished/",
        decisions: 3,
        preview: BLACK,
    },
    Page {
        bytes: b"AT&TFORM\0\0\0\x28DJVUINFO\0\0\0\x0A\0\x01\0\x01\x18\0\x2C\x01\x16\x01BG44\0\0\0\x0A\0\x01\x81\x02\0\x01\0\x01\0\x1F",
        tells: "1 765/2 765/finished/",
        decisions: 3,
        preview: WHITE,
    },
    Page {
        bytes: b"AT&TFORM\0\0\0\x27DJVUINFO\0\0\0\x0A\0\x01\0\x01\x18\0\x2C\x01\x16\x01BG44\0\0\0\x09\0\x01\x01\x02\0\x01\0\x01\x80",
        tells: "1 765/2 384/finished/",
        decisions: 3,
        preview: &[0x80; 3],
    },
    Page {
        bytes: b"AT&TFORM\0\0\0\x27DJVUINFO\0\0\0\x0A\0\x01\0\x01\x18\0\x2C\x01\x16\x01BG44\0\0\0\x09\0\x01\x01\x02\0\x01\0\x01\0",
        tells: "1 765/2 384/finished/",
        decisions: 3,
        preview: &[0x80; 3],
    },
    Page {
        bytes: b"AT&TFORM\0\0\0\x28DJVUINFO\0\0\0\x0A\0\x02\0\x01\x18\0\x2C\x01\x16\x01BG44\0\0\0\x0A\0\x01\x81\x02\0\x02\0\x01\0\x3F",
        tells: "1 1530/2 0/finished/",
        decisions: 3,
        preview: &[0; 6],
    },
    Page {
        bytes: b"AT&TFORM\0\0\04DJVUINFO\0\0\0\x0A\0\x01\0\x01\x18\0\x2C\x01\x16\x01Sjbz\0\0\0\x04\xB7m\x86\x87FG44\0\0\0\x09\0\x01\x81\x02\0\x01\0\x01\0\0",
        tells: "1 765/2 0/3 381/finished/",
        decisions: 30,
        preview: GREY,
    },
];

#[test]
fn coloured_pages_in_pieces(rt: HostRuntime) {
    for page in &COLOURED_PAGES {
        expect_page(&rt, rt.alloc(), page);
    }
}

/// Pages of two pixels that are turned to the right, to the left, over, and not at all: the left pixel is black as it is coded.
const TURNED_PAGES: [Page; 6] = [
    Page {
        bytes: b"AT&TFORM\0\0\0\x22DJVUINFO\0\0\0\x0A\0\x02\0\x01\x18\0\x2C\x01\x16\x01Sjbz\0\0\0\x04\xA7m\x86\x87",
        tells: "1 1530/2 765/finished/",
        decisions: 29,
        preview: &[0, 0, 0, 255, 255, 255],
    },
    Page {
        bytes: b"AT&TFORM\0\0\0\x22DJVUINFO\0\0\0\x0A\0\x02\0\x01\x18\0\x2C\x01\x16\x05Sjbz\0\0\0\x04\xA7m\x86\x87",
        tells: "1 1530/2 765/finished/",
        decisions: 29,
        preview: &[0, 0, 0, 255, 255, 255],
    },
    Page {
        bytes: b"AT&TFORM\0\0\0\x22DJVUINFO\0\0\0\x0A\0\x02\0\x01\x18\0\x2C\x01\x16\x06Sjbz\0\0\0\x04\xA7m\x86\x87",
        tells: "1 1530/2 765/finished/",
        decisions: 29,
        preview: &[255, 255, 255, 0, 0, 0],
    },
    Page {
        bytes: b"AT&TFORM\0\0\0\x22DJVUINFO\0\0\0\x0A\0\x02\0\x01\x18\0\x2C\x01\x16\x02Sjbz\0\0\0\x04\xA7m\x86\x87",
        tells: "1 1530/2 765/finished/",
        decisions: 29,
        preview: &[255, 255, 255, 0, 0, 0],
    },
    Page {
        bytes: b"AT&TFORM\0\0\0\x22DJVUINFO\0\0\0\x0A\0\x02\0\x01\x18\0\x2C\x01\x16\x07Sjbz\0\0\0\x04\xA7m\x86\x87",
        tells: "1 1530/2 765/finished/",
        decisions: 29,
        preview: &[0, 0, 0, 255, 255, 255],
    },
    Page {
        bytes: b"AT&TFORM\0\0\0\x22DJVUINFO\0\0\0\x09\0\x02\0\x01\x18\0\x2C\x01\x16\0Sjbz\0\0\0\x04\xA7m\x86\x87",
        tells: "1 1530/2 765/finished/",
        decisions: 29,
        preview: &[0, 0, 0, 255, 255, 255],
    },
];

#[test]
fn turned_pages_in_pieces(rt: HostRuntime) {
    for page in &TURNED_PAGES {
        expect_page(&rt, rt.alloc(), page);
    }
}
