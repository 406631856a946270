//! Chunks of masks: every type of record, whole and byte by byte, faults, and counts at their limits.
ghost use Rattle.std.specs.Prelude.{◌≡◌, ◌≤◌, ◌*◌, false, IfSome};

use crate::shared::has_rows;
use djvu_base::{CountMeter, FaultKind};
use jb2_records::{Jb2Step, MaskReader};
use std::alloc::{AllocError, Global};
use std::process::Abort;
use std::sync::Arc;
use std::test::Fail;
use zp_table::Table;

/// A chunk with the table of one row, and what is read of it: the answer, the records, the decisions, and the mask's rows
/// from the top.
#[derive(Clone, Copy)]
pub struct Chunk {
    pub bytes: &'static [u8],
    pub answer: Jb2Step,
    pub units: u64,
    pub decisions: u64,
    pub rows: &'static [&'static str],
}

/// A mark of one pixel; the same in a wider image; a shape of the library and its refinement; then faults: no start, a
/// second start, a dictionary that isn't there, a shape whose pixels lie past the end, one of 65,535 by 1,025, which are too
/// many pixels, and one that is 65,536 wide. The first and the last four were worked out by hand.
pub const SMALL: [Chunk; 9] = [
    Chunk {
        bytes: &[0xB7, 0x6D, 0x86, 0x87],
        answer: Jb2Step::Finished,
        units: 3,
        decisions: 29,
        rows: &["#"],
    },
    Chunk {
        bytes: &[0xA7, 0x6D, 0x86, 0x87],
        answer: Jb2Step::Finished,
        units: 3,
        decisions: 29,
        rows: &["#."],
    },
    Chunk {
        bytes: &[0xB7, 0x4D, 0x88, 0xA1, 0xA1],
        answer: Jb2Step::Finished,
        units: 4,
        decisions: 39,
        rows: &["#"],
    },
    Chunk {
        bytes: &[0x0F],
        answer: Jb2Step::Refused(FaultKind::Jb2NoStart),
        units: 0,
        decisions: 4,
        rows: &["."],
    },
    Chunk {
        bytes: &[0xB7, 0xFF, 0xFF, 0xFF, 0xFF],
        answer: Jb2Step::Refused(FaultKind::Jb2SecondStart),
        units: 1,
        decisions: 9,
        rows: &["."],
    },
    Chunk {
        bytes: &[0x15, 0x7F],
        answer: Jb2Step::Refused(FaultKind::Jb2Dictionary),
        units: 0,
        decisions: 9,
        rows: &["."],
    },
    Chunk {
        bytes: &[0xB7, 0x60, 0xFC, 0x1F],
        answer: Jb2Step::Refused(FaultKind::ZpExhausted),
        units: 1,
        decisions: 208,
        rows: &["."],
    },
    Chunk {
        bytes: &[0xB7, 0x60, 0x00, 0x1F, 0xFF, 0xF0, 0x03, 0xFE, 0xFF, 0xFF],
        answer: Jb2Step::Refused(FaultKind::Jb2Limit),
        units: 1,
        decisions: 65,
        rows: &["."],
    },
    Chunk {
        bytes: &[0xB7, 0x40, 0x00, 0x1F, 0xFF, 0xEF, 0xFF],
        answer: Jb2Step::Refused(FaultKind::Jb2ShapeSize),
        units: 1,
        decisions: 45,
        rows: &["."],
    },
];

/// All twelve types of records: a comment, an inherited count of 0, the start, shapes of their own and refined ones, for the
/// library, as marks and both, copies of two of them by their ink, a shape at an absolute place, a reset, an empty comment
/// and the end. Written, and the mask worked out, by another program after the rules in `docs/jb2.md`.
pub const ALL_TYPES: Chunk = Chunk {
    bytes: &[
        0x11, 0x01, 0x58, 0x0A, 0xA2, 0xE3, 0x4A, 0x47, 0x3E, 0x9D, 0xA4, 0x23, 0x4E, 0xDA, 0x59,
        0xAA, 0x93, 0x32, 0xA7, 0xD2, 0x74, 0x38, 0xF8, 0xE8, 0xE4, 0xB1, 0x46, 0x4C, 0x2C, 0x48,
        0x7F,
    ],
    answer: Jb2Step::Finished,
    units: 15,
    decisions: 241,
    rows: &[
        "##..##...",
        "#........",
        "#..##....",
        "#..##....",
        "......###",
    ],
};

/// A reader of a mask as large as these rows.
fn begin(alloc: Global, rows: &[&str]) -> Option<MaskReader>
    ensures { IfSome result (λ reader. reader.ended ≡ false) }
{
    let height = rows.len();
    let width = rows.first()?.len();
    if width < 1 || width > 100 || height < 1 || height > 100 {
        return None;
    }
    let table = Table::flat(alloc).ok()?;
    let table = Arc::new(alloc, table).ok()?;
    MaskReader::new(alloc, table, None, width as u32, height as u32).ok()
}

/// Asserts that a reader comes to what a chunk has, and that the meter counted its decisions.
fn assert_read(rt: &impl Abort, mut reader: MaskReader, mut meter: CountMeter, chunk: &Chunk) {
    assert_eq!(rt; reader.advance(&mut meter), chunk.answer);
    assert_eq!(rt; reader.units(), chunk.units);
    assert_eq!(rt; reader.decisions(), chunk.decisions);
    assert_eq!(rt; meter.count(), chunk.decisions);
    if reader.advance(&mut meter) == Jb2Step::Finished {
        assert!(rt; has_rows(&reader.mask(), chunk.rows));
    }
}

/// Reads a chunk that comes in one piece, and then one that comes byte by byte.
fn read_both(rt: &impl Abort, alloc: Global, chunk: &Chunk) -> Result<(), Fail> {
    let (Some(mut whole), Some(mut reader)) = (begin(alloc, chunk.rows), begin(alloc, chunk.rows))
    else {
        panic!(rt; "memory is ample");
    };
    whole.push(chunk.bytes)?;
    whole.end();
    assert_read(rt, whole, CountMeter::new(), chunk);
    let mut meter = CountMeter::new();
    for byte in chunk.bytes {
        let before = reader.decisions();
        reader.push(&[*byte])?;
        let answer = reader.advance(&mut meter);
        assert!(rt; answer == Jb2Step::NeedBytes || answer == chunk.answer);
        assert!(rt; before <= reader.decisions());
        assert_eq!(rt; meter.count(), reader.decisions());
    }
    reader.end();
    assert_read(rt, reader, meter, chunk);
    Ok(())
}

#[test]
fn chunks_are_read(rt: HostRuntime) -> Result<(), Fail> {
    for chunk in &SMALL {
        read_both(&rt, rt.alloc(), chunk)?;
    }
    read_both(&rt, rt.alloc(), &ALL_TYPES)
}

/// An answer stays, and with it the counts and the mask, while more bytes come.
#[test]
fn answers_are_kept(rt: HostRuntime) -> Result<(), Fail> {
    for chunk in &SMALL[..5] {
        let Some(mut reader) = begin(rt.alloc(), chunk.rows) else {
            panic!(rt; "memory is ample");
        };
        let mut meter = CountMeter::new();
        reader.push(chunk.bytes)?;
        reader.push(&[0xFF, 0xFF, 0xFF, 0xFF])?;
        assert_eq!(rt; reader.advance(&mut meter), chunk.answer);
        reader.push(&[0x00, 0xFF])?;
        assert_eq!(rt; reader.advance(&mut meter), chunk.answer);
        reader.end();
        assert_read(&rt, reader, meter, chunk);
    }
    Ok(())
}

/// A long chunk with the table of one row: its parts, each so many times, and what is read of it: the answer, the records and
/// the decisions.
struct Long {
    parts: &'static [(&'static [u8], u32)],
    answer: Jb2Step,
    units: u64,
    decisions: u64,
}

/// Eight shapes of 0 by 0 for the library.
const SHAPES: &[u8] = &[0x5A, 0xD6, 0xB5, 0xAD, 0x6B];

/// Eight copies on new rows with steps of 0, from the sixth bit of the byte before.
const COPIES: &[u8] = &[
    0xE5, 0x1C, 0xA3, 0x94, 0x72, 0x8E, 0x51, 0xCA, 0x39, 0x47, 0x28,
];

/// A start, and a white shape of 256 by 256 as far as its first pixels.
const SQUARE: &[u8] = &[0xB7, 0x40, 0x1F, 0xE0, 0x0F, 0xF7];

/// Counts above their limit, and at it: 65,537 shapes, and 65,536; 262,145 placed ones, and 262,144; a white shape of 65,536
/// pixels, placed 16,385 times, and 16,384 times. Those at the limit go on to the end. Written, and read, by another program
/// after the rules in `docs/jb2.md`.
const LONG: [Long; 6] = [
    Long {
        parts: &[(&[0xB7], 1), (SHAPES, 8192), (&[0x5F], 1)],
        answer: Jb2Step::Refused(FaultKind::Jb2Limit),
        units: 65_537,
        decisions: 327_693,
    },
    Long {
        parts: &[(&[0xB7], 1), (SHAPES, 8192), (&[0x0F], 1)],
        answer: Jb2Step::Finished,
        units: 65_538,
        decisions: 327_692,
    },
    Long {
        parts: &[(&[0xB7, 0x58], 1), (COPIES, 32768), (&[0xE5], 1)],
        answer: Jb2Step::Refused(FaultKind::Jb2Limit),
        units: 262_146,
        decisions: 2_883_608,
    },
    Long {
        parts: &[(&[0xB7, 0x58], 1), (COPIES, 32768), (&[0x7F], 1)],
        answer: Jb2Step::Finished,
        units: 262_147,
        decisions: 2_883_601,
    },
    Long {
        parts: &[
            (SQUARE, 1),
            (&[0xFF], 8191),
            (&[0xF8], 1),
            (COPIES, 2048),
            (&[0xE5], 1),
        ],
        answer: Jb2Step::Refused(FaultKind::Jb2Limit),
        units: 16_386,
        decisions: 245_816,
    },
    Long {
        parts: &[
            (SQUARE, 1),
            (&[0xFF], 8191),
            (&[0xF8], 1),
            (COPIES, 2048),
            (&[0x7F], 1),
        ],
        answer: Jb2Step::Finished,
        units: 16_387,
        decisions: 245_809,
    },
];

/// Pushes bytes so many times.
fn push_often(reader: &mut MaskReader, bytes: &[u8], times: u32) -> Option<()>
    requires { reader.old.ended ≡ false }
    ensures { reader.new.ended ≡ false }
{
    'pieces: for _ in 0..times {
        reader.push(bytes).ok()?;
    }
    Some(())
}

/// A reader of a mask of one pixel, to which all parts of a chunk were pushed.
fn pushed(alloc: Global, chunk: &Long) -> Option<MaskReader>
    ensures { IfSome result (λ reader. reader.ended ≡ false) }
{
    let mut reader = begin(alloc, &["."])?;
    'parts: for (bytes, times) in chunk.parts {
        push_often(&mut reader, bytes, *times)?;
    }
    Some(reader)
}

/// Counts may reach their limits, and not pass them.
#[test]
fn limits_are_kept(rt: HostRuntime) -> Result<(), Fail> {
    for chunk in &LONG {
        let Some(mut reader) = pushed(rt.alloc(), chunk) else {
            panic!(rt; "memory is ample");
        };
        let mut meter = CountMeter::new();
        reader.end();
        assert_eq!(rt; reader.advance(&mut meter), chunk.answer);
        assert_eq!(rt; reader.units(), chunk.units);
        assert_eq!(rt; reader.decisions(), chunk.decisions);
        assert_eq!(rt; meter.count(), chunk.decisions);
    }
    Ok(())
}
