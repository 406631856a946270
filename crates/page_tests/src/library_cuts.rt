//! Pages that include other files, fed in one piece, in each cut in two, and byte by byte.

use crate::fed::{BLACK, File, Tells, WHITE, expect_cuts, is_right_or_none};
use djvu_base::FileEnd;
use std::alloc::Global;

/// A page that includes `d`, and whose mask copies a shape.
pub const PAGE: &[u8] =
    b"AT&TFORM\0\0\0\x2EDJVUINFO\0\0\0\x0A\0\x01\0\x01\x18\0\x2C\x01\x16\x01INCL\0\0\0\x01d\0Sjbz\0\0\0\x05\x15\xDB\x8E\x34\x3F\0";

/// An included file with a dictionary of one black pixel.
pub const DOT: &[u8] = b"AT&TFORM\0\0\0\x10DJVIDjbz\0\0\0\x03\xF4\xD8\x3F\0";

/// An included file whose dictionary has no shape.
pub const EMPTY: &[u8] = b"AT&TFORM\0\0\0\x0EDJVIDjbz\0\0\0\x01\xF0\0";

/// An included file that includes `d`, and has nothing else.
const THROUGH: &[u8] = b"AT&TFORM\0\0\0\x0EDJVIINCL\0\0\0\x01d\0";

/// An included file whose dictionary has a mark.
const MARKED: &[u8] = b"AT&TFORM\0\0\0\x0EDJVIDjbz\0\0\0\x01\x7F\0";

/// A page that includes `d`, whose background comes before its mask.
const LATE: &[u8] =
    b"AT&TFORM\0\0\0\x40DJVUINFO\0\0\0\x0A\0\x01\0\x01\x18\0\x2C\x01\x16\x01INCL\0\0\0\x01d\0BG44\0\0\0\x09\0\x01\x81\x02\0\x01\0\x01\0\0\
              Sjbz\0\0\0\x05\x15\xDB\x8E\x34\x3F\0";

/// A file that is all there.
pub fn whole(name: &'static str, bytes: &'static [u8]) -> File {
    File {
        name,
        bytes,
        end: FileEnd::Whole,
    }
}

/// A file's name and its bytes.
type Named = (&'static str, &'static [u8]);

/// Two pages that share a dictionary.
const SHARED: &[Named] = &[("d", DOT), ("p", PAGE), ("q", PAGE)];

/// Two included files that include each other, and two pages.
const ROUND: &[Named] = &[
    ("a", b"AT&TFORM\0\0\0\x0EDJVIINCL\0\0\0\x01b\0"),
    ("b", b"AT&TFORM\0\0\0\x0EDJVIINCL\0\0\0\x01a\0"),
    (
        "p",
        b"AT&TFORM\0\0\0\x20DJVUINFO\0\0\0\x0A\0\x01\0\x01\x18\0\x2C\x01\x16\x01INCL\0\0\0\x01a\0",
    ),
    (
        "q",
        b"AT&TFORM\0\0\0\x20DJVUINFO\0\0\0\x0A\0\x01\0\x01\x18\0\x2C\x01\x16\x01INCL\0\0\0\x01b\0",
    ),
];

/// A page of a folder of whole files, and what it tells.
#[derive(Drop)]
struct Case {
    files: &'static [Named],
    page: u32,
    tells: Tells,
}

const CASES: [Case; 12] = [
    // Two pages share a dictionary. The first one.
    Case {
        files: SHARED,
        page: 1,
        tells: Tells {
            text: "1 765/outline 0/file 0/3 0/finished/",
            decisions: 34,
            ticks: 52,
            preview: BLACK,
        },
    },
    // The second one.
    Case {
        files: SHARED,
        page: 2,
        tells: Tells {
            text: "1 765/outline 0/file 0/3 0/finished/",
            decisions: 34,
            ticks: 52,
            preview: BLACK,
        },
    },
    // A mask tells another count of inherited shapes than there are.
    Case {
        files: &[
            ("d", DOT),
            (
                "p",
                b"AT&TFORM\0\0\0\x2ADJVUINFO\0\0\0\x0A\0\x01\0\x01\x18\0\x2C\x01\x16\x01INCL\0\0\0\x01d\0Sjbz\0\0\0\x02\x15\x7F",
            ),
        ],
        page: 1,
        tells: Tells {
            text: "1 765/outline 0/file 0/jb2-dictionary 1 44/",
            decisions: 9,
            ticks: 27,
            preview: WHITE,
        },
    },
    // A background comes before what the mask inherits.
    Case {
        files: &[("d", DOT), ("p", LATE)],
        page: 1,
        tells: Tells {
            text: "1 765/3 381/outline 0/file 0/4 0/finished/",
            decisions: 35,
            ticks: 53,
            preview: BLACK,
        },
    },
    // Two files include each other, from the first of them.
    Case {
        files: ROUND,
        page: 2,
        tells: Tells {
            text: "1 765/outline 0/outline 1/cyclic-include 1 16/",
            decisions: 0,
            ticks: 0,
            preview: WHITE,
        },
    },
    // From the second one.
    Case {
        files: ROUND,
        page: 3,
        tells: Tells {
            text: "1 765/outline 1/outline 0/cyclic-include 0 16/",
            decisions: 0,
            ticks: 0,
            preview: WHITE,
        },
    },
    // A page includes itself.
    Case {
        files: &[(
            "p",
            b"AT&TFORM\0\0\0\x20DJVUINFO\0\0\0\x0A\0\x01\0\x01\x18\0\x2C\x01\x16\x01INCL\0\0\0\x01p\0",
        )],
        page: 0,
        tells: Tells {
            text: "1 765/outline 0/not-included-form 0 0/",
            decisions: 0,
            ticks: 0,
            preview: WHITE,
        },
    },
    // The first of two dictionaries counts.
    Case {
        files: &[
            ("d", DOT),
            ("e", EMPTY),
            (
                "p",
                b"AT&TFORM\0\0\0\x38DJVUINFO\0\0\0\x0A\0\x01\0\x01\x18\0\x2C\x01\x16\x01INCL\0\0\0\x01d\0INCL\0\0\0\x01e\0\
                  Sjbz\0\0\0\x05\x15\xDB\x8E\x34\x3F\0",
            ),
        ],
        page: 2,
        tells: Tells {
            text: "1 765/outline 0/file 0/outline 1/file 1/4 0/finished/",
            decisions: 34,
            ticks: 60,
            preview: BLACK,
        },
    },
    // Also where it has no shape.
    Case {
        files: &[
            ("d", DOT),
            ("e", EMPTY),
            (
                "p",
                b"AT&TFORM\0\0\0\x38DJVUINFO\0\0\0\x0A\0\x01\0\x01\x18\0\x2C\x01\x16\x01INCL\0\0\0\x01e\0INCL\0\0\0\x01d\0\
                  Sjbz\0\0\0\x05\x15\xDB\x8E\x34\x3F\0",
            ),
        ],
        page: 2,
        tells: Tells {
            text: "1 765/outline 1/file 1/outline 0/file 0/jb2-dictionary 2 54/",
            decisions: 9,
            ticks: 35,
            preview: WHITE,
        },
    },
    // An included file that includes another gives its dictionary.
    Case {
        files: &[
            ("d", DOT),
            ("g", THROUGH),
            (
                "p",
                b"AT&TFORM\0\0\0\x2EDJVUINFO\0\0\0\x0A\0\x01\0\x01\x18\0\x2C\x01\x16\x01INCL\0\0\0\x01g\0Sjbz\0\0\0\x05\x15\xDB\x8E\x34\x3F\0",
            ),
        ],
        page: 2,
        tells: Tells {
            text: "1 765/outline 1/outline 0/file 0/file 1/3 0/finished/",
            decisions: 34,
            ticks: 52,
            preview: BLACK,
        },
    },
    // A page's own dictionary comes before it.
    Case {
        files: &[
            ("d", DOT),
            ("g", THROUGH),
            (
                "p",
                b"AT&TFORM\0\0\0\x38DJVUINFO\0\0\0\x0A\0\x01\0\x01\x18\0\x2C\x01\x16\x01INCL\0\0\0\x01g\0Djbz\0\0\0\x01\xF0\0\
                  Sjbz\0\0\0\x05\x15\xDB\x8E\x34\x3F\0",
            ),
        ],
        page: 2,
        tells: Tells {
            text: "1 765/outline 1/outline 0/file 0/file 1/jb2-dictionary 2 54/",
            decisions: 17,
            ticks: 35,
            preview: WHITE,
        },
    },
    // A file whose dictionary has a mark is refused once it is decoded.
    Case {
        files: &[("d", MARKED), ("p", PAGE)],
        page: 1,
        tells: Tells {
            text: "1 765/outline 0/file 0/jb2-record 0 16/",
            decisions: 0,
            ticks: 3,
            preview: WHITE,
        },
    },
];

/// Files that are all there.
fn whole_files(alloc: Global, named: &[Named]) -> Option<Vec<File>> {
    let mut files = Vec::new(alloc);
    for (name, bytes) in named {
        files.push(whole(*name, *bytes)).ok()?;
    }
    Some(files)
}

#[test]
fn pages_that_include(rt: HostRuntime) {
    for case in &CASES {
        let Some(files) = whole_files(rt.alloc(), case.files) else {
            panic!(rt; "memory is ample");
        };
        expect_cuts(&rt, rt.alloc(), files.as_slice(), case.page, &case.tells);
    }
}

/// A file that can't be included, and what a page tells that includes it.
#[derive(Drop)]
struct Wrong {
    bytes: &'static [u8],
    end: FileEnd,
    tells: &'static str,
}

/// For their form, for a chunk, and where their bytes end.
const WRONG: [Wrong; 9] = [
    Wrong {
        bytes: b"",
        end: FileEnd::Whole,
        tells: "1 765/outline 0/truncated 0 0/",
    },
    Wrong {
        bytes: b"FORX",
        end: FileEnd::Whole,
        tells: "1 765/outline 0/not-form 0 0/",
    },
    Wrong {
        bytes: b"AT&TFORM\0\0\0\x16DJVUINFO\0\0\0\x0A\0\x01\0\x01\x18\0\x2C\x01\x16\x01",
        end: FileEnd::Whole,
        tells: "1 765/outline 0/not-included-form 0 0/",
    },
    Wrong {
        bytes: b"AT&TFORM\0\0\0\x0CDJVIINFO\0\0\0\0",
        end: FileEnd::Whole,
        tells: "1 765/outline 0/misplaced 0 16/",
    },
    Wrong {
        bytes: b"AT&TFORM\0\0\0\x0CDJVISjbz\0\0\0\0",
        end: FileEnd::Whole,
        tells: "1 765/outline 0/misplaced 0 16/",
    },
    Wrong {
        bytes: b"AT&TFORM\0\0\0\x0CDJVIDIRM\0\0\0\0",
        end: FileEnd::Whole,
        tells: "1 765/outline 0/unsupported 0 16/",
    },
    Wrong {
        bytes: b"AT&TFORM\0\0\0\x18DJVIDjbz\0\0\0\x03\xF4\xD8\x3F\0Djbz\0\0\0\0",
        end: FileEnd::Whole,
        tells: "1 765/outline 0/second-dictionary 0 28/",
    },
    Wrong {
        bytes: b"AT&TFORM\0\0\0\x10DJVIDjbz",
        end: FileEnd::Whole,
        tells: "1 765/outline 0/truncated 0 16/",
    },
    Wrong {
        bytes: b"AT&TFORM\0\0\0\x10DJVIDjbz",
        end: FileEnd::Broken,
        tells: "1 765/outline 0/read 0 20/",
    },
];

#[test]
fn files_of_wrong_kinds(rt: HostRuntime) {
    for wrong in &WRONG {
        let file = File {
            name: "d",
            bytes: wrong.bytes,
            end: wrong.end,
        };
        let files = [file, whole("p", PAGE)];
        let tells = Tells {
            text: wrong.tells,
            decisions: 0,
            ticks: 0,
            preview: WHITE,
        };
        expect_cuts(&rt, rt.alloc(), &files, 1, &tells);
    }
}

/// Of use where one allocation or all later ones fail: `rt try --test --fail-alloc N`. Then nothing but these answers may come.
#[test]
fn right_or_no_memory(rt: HostRuntime) {
    let cases: [(&[u8], &[u8], &str); 2] = [
        (DOT, LATE, "1 765/3 381/outline 0/file 0/4 0/finished/"),
        (MARKED, PAGE, "1 765/outline 0/file 0/jb2-record 0 16/"),
    ];
    for (included, page, text) in cases {
        let files = [whole("d", included), whole("p", page)];
        assert!(rt; is_right_or_none(rt.alloc(), &files, 1, text));
    }
}
