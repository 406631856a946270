//! Included files that are decoded whole: complete, broken off, refused, and with what they include.

use crate::fed::{File, flat, names_of};
use crate::library_cuts::{DOT, EMPTY, whole};
use djvu_base::{CountMeter, Fault, FaultKind, FileEnd};
use jb2_records::FileResult;
use page_decoder::decode_file;
use std::alloc::Global;
use std::process::Abort;

/// What a file gives: a dictionary of so many shapes, none, a fault by its kind, file and offset, or nothing for want of memory.
#[derive(Clone, Copy, Debug, PartialEq, Eq)]
enum Gives {
    Shapes(u32),
    Nothing,
    Refused(FaultKind, u32, u32),
    NoMemory,
}

/// The file `d`, what it gives, and its decisions.
#[derive(Drop)]
struct Decoded {
    bytes: &'static [u8],
    end: FileEnd,
    gives: Gives,
    ticks: u64,
}

/// A file with a dictionary, without one, and with a chunk of another use. Then refused ones: by their form, for a chunk of a
/// page, in a dictionary, for a file that isn't there, and where their bytes end.
const ALONE: [Decoded; 11] = [
    Decoded {
        bytes: DOT,
        end: FileEnd::Whole,
        gives: Gives::Shapes(1),
        ticks: 18,
    },
    Decoded {
        bytes: EMPTY,
        end: FileEnd::Whole,
        gives: Gives::Shapes(0),
        ticks: 8,
    },
    Decoded {
        bytes: b"AT&TFORM\0\0\0\x04DJVI",
        end: FileEnd::Whole,
        gives: Gives::Nothing,
        ticks: 0,
    },
    Decoded {
        bytes: b"AT&TFORM\0\0\0\x0CDJVITXTz\0\0\0\0",
        end: FileEnd::Whole,
        gives: Gives::Nothing,
        ticks: 0,
    },
    Decoded {
        bytes: b"AT&TFORM\0\0\0\x04DJVU",
        end: FileEnd::Whole,
        gives: Gives::Refused(FaultKind::NotIncludedForm, 0, 0),
        ticks: 0,
    },
    Decoded {
        bytes: b"AT&TFORM\0\0\0\x0CDJVISjbz\0\0\0\0",
        end: FileEnd::Whole,
        gives: Gives::Refused(FaultKind::Misplaced, 0, 16),
        ticks: 0,
    },
    Decoded {
        bytes: b"AT&TFORM\0\0\0\x0EDJVIDjbz\0\0\0\x01\x7F\0",
        end: FileEnd::Whole,
        gives: Gives::Refused(FaultKind::Jb2Record, 0, 16),
        ticks: 3,
    },
    Decoded {
        bytes: b"AT&TFORM\0\0\0\x0EDJVIDjbz\0\0\0\x01\xBF\0",
        end: FileEnd::Whole,
        gives: Gives::Refused(FaultKind::Jb2Dictionary, 0, 16),
        ticks: 6,
    },
    Decoded {
        bytes: b"AT&TFORM\0\0\0\x0EDJVIINCL\0\0\0\x01z\0",
        end: FileEnd::Whole,
        gives: Gives::Refused(FaultKind::MissingInclude, 0, 16),
        ticks: 0,
    },
    Decoded {
        bytes: b"AT&TFORM\0\0\0\x10DJVIDjbz\0\0\0\x03",
        end: FileEnd::Whole,
        gives: Gives::Refused(FaultKind::Truncated, 0, 16),
        ticks: 0,
    },
    Decoded {
        bytes: b"AT&TFORM\0\0\0\x10DJVIDjbz\0\0\0\x03",
        end: FileEnd::Broken,
        gives: Gives::Refused(FaultKind::Read, 0, 24),
        ticks: 0,
    },
];

/// What was given.
fn found_in(given: &FileResult) -> Gives {
    match given {
        FileResult::Dictionary(dictionary) => Gives::Shapes(dictionary.dictionary().count()),
        FileResult::Nothing => Gives::Nothing,
        FileResult::Refused(Fault { kind, place }) => {
            Gives::Refused(*kind, place.file, place.offset)
        }
        FileResult::NoMemory => Gives::NoMemory,
    }
}

/// Decodes the file of this number among `d` and `e`, of which `e` gives this.
fn decode(
    alloc: Global,
    number: u32,
    file: &File,
    included: Option<FileResult>,
    meter: &mut CountMeter,
) -> Option<FileResult> {
    let names = names_of(alloc, &[whole("d", b""), whole("e", b"")])?;
    let mut results = Vec::new(alloc);
    results.push(None).ok()?;
    results.push(included).ok()?;
    Some(decode_file(
        alloc,
        flat(alloc)?,
        number,
        file.bytes,
        file.end,
        names.slice(),
        results.as_slice(),
        meter,
    ))
}

/// Asserts what the file `d` gives, where `e` gives this.
fn expect_decoded(
    rt: &impl Abort,
    alloc: Global,
    included: Option<FileResult>,
    decoded: &Decoded,
    number: usize,
) {
    let file = File {
        name: "d",
        bytes: decoded.bytes,
        end: decoded.end,
    };
    let mut meter = CountMeter::new();
    let Some(given) = decode(alloc, 0, &file, included, &mut meter) else {
        panic!(rt; "memory is ample");
    };
    assert_eq!(rt; found_in(&given), decoded.gives, "file {number}");
    assert_eq!(rt; meter.count(), decoded.ticks, "file {number}");
}

#[test]
fn files_alone(rt: HostRuntime) {
    for (number, decoded) in ALONE.iter().enumerate() {
        expect_decoded(&rt, rt.alloc(), None, decoded, number);
    }
}

/// A file that includes `e`.
const INCLUDING: &[u8] = b"AT&TFORM\0\0\0\x0EDJVIINCL\0\0\0\x01e\0";

/// A file that includes `e`, whose dictionary inherits one shape and brings another.
const INHERITING: &[u8] = b"AT&TFORM\0\0\0\x1ADJVIINCL\0\0\0\x01e\0Djbz\0\0\0\x04\x15\xFA\x4D\x0F";

/// What files give that include a dictionary of one pixel.
const WITH_DOT: [Decoded; 2] = [
    Decoded {
        bytes: INCLUDING,
        end: FileEnd::Whole,
        gives: Gives::Shapes(1),
        ticks: 0,
    },
    Decoded {
        bytes: INHERITING,
        end: FileEnd::Whole,
        gives: Gives::Shapes(2),
        ticks: 28,
    },
];

/// What the same files give where the included one gives nothing.
const WITH_NOTHING: [Decoded; 2] = [
    Decoded {
        bytes: INCLUDING,
        end: FileEnd::Whole,
        gives: Gives::Nothing,
        ticks: 0,
    },
    Decoded {
        bytes: INHERITING,
        end: FileEnd::Whole,
        gives: Gives::Refused(FaultKind::Jb2Dictionary, 0, 26),
        ticks: 9,
    },
];

#[test]
fn files_that_include(rt: HostRuntime) {
    for (number, decoded) in WITH_DOT.iter().enumerate() {
        let dot = decode(
            rt.alloc(),
            1,
            &whole("e", DOT),
            None,
            &mut CountMeter::new(),
        );
        expect_decoded(&rt, rt.alloc(), dot, decoded, number);
    }
    for (number, decoded) in WITH_NOTHING.iter().enumerate() {
        let nothing = Some(FileResult::Nothing);
        expect_decoded(&rt, rt.alloc(), nothing, decoded, number);
    }
}

/// Where there was no memory for an included file, there is none for the file that includes it.
#[test]
fn a_file_without_memory(rt: HostRuntime) {
    let decoded = Decoded {
        bytes: INCLUDING,
        end: FileEnd::Whole,
        gives: Gives::NoMemory,
        ticks: 0,
    };
    expect_decoded(&rt, rt.alloc(), Some(FileResult::NoMemory), &decoded, 0);
}
