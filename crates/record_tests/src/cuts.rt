//! Chunks of masks and dictionaries that come in two pieces, wherever they are cut, or byte by byte; and masks that inherit.
ghost use Rattle.std.specs.Prelude.{◌≡◌, false, IfSome};

use crate::records::{ALL_TYPES, Chunk, SMALL};
use crate::shared::has_rows;
use djvu_base::{CountMeter, FaultKind};
use jb2_records::{DictReader, Dictionary, Jb2Step, MaskReader};
use std::alloc::Global;
use std::process::Abort;
use std::sync::Arc;
use std::test::Fail;
use zp_table::Table;

/// The bytes of a chunk in pieces of so many bytes, behind a first piece of another length.
#[derive(Clone, Copy)]
struct Pieces {
    first: usize,
    others: usize,
}

/// The table of one row.
fn flat(alloc: Global) -> Option<Arc<Table>> {
    let table = Table::flat(alloc).ok()?;
    Arc::new(alloc, table).ok()
}

/// Reads a mask that comes in pieces, after each of which the reader goes on: the meter ticks once for each decision.
fn read_mask(
    rt: &impl Abort,
    alloc: Global,
    inherited: Option<Arc<Dictionary>>,
    chunk: &Chunk,
    pieces: Pieces,
) -> Result<(), Fail> {
    let Some(mut reader) = begin_mask(alloc, inherited, chunk.rows) else {
        panic!(rt; "memory is ample");
    };
    let mut meter = CountMeter::new();
    let first = pieces.first.min(chunk.bytes.len());
    reader.push(&chunk.bytes[..first])?;
    reader.advance(&mut meter);
    for piece in chunk.bytes[first..].chunks(pieces.others.max(1)) {
        reader.push(piece)?;
        assert!(rt; is_on_the_way(reader.advance(&mut meter), chunk.answer));
        assert_eq!(rt; meter.count(), reader.decisions());
    }
    reader.end();
    assert_eq!(rt; reader.advance(&mut meter), chunk.answer);
    assert_eq!(rt; reader.units(), chunk.units);
    assert_eq!(rt; reader.decisions(), chunk.decisions);
    assert_eq!(rt; meter.count(), chunk.decisions);
    if reader.advance(&mut meter) == Jb2Step::Finished {
        assert!(rt; has_rows(&reader.mask(), chunk.rows));
    }
    Ok(())
}

/// A reader of a mask as large as these rows.
fn begin_mask(
    alloc: Global,
    inherited: Option<Arc<Dictionary>>,
    rows: &[&str],
) -> Option<MaskReader>
    ensures { IfSome result (λ reader. reader.ended ≡ false) }
{
    let height = rows.len();
    let width = rows.first()?.len();
    if width < 1 || width > 100 || height < 1 || height > 100 {
        return None;
    }
    MaskReader::new(alloc, flat(alloc)?, inherited, width as u32, height as u32).ok()
}

/// Whether an answer is that bytes are needed, or the last one.
fn is_on_the_way(answer: Jb2Step, last: Jb2Step) -> bool {
    answer == Jb2Step::NeedBytes || answer == last
}

/// Masks come to the same in every cut in two, and byte by byte.
#[test]
fn masks_are_cut_anywhere(rt: HostRuntime) -> Result<(), Fail> {
    for chunk in &SMALL {
        for first in 0..chunk.bytes.len() {
            read_mask(&rt, rt.alloc(), None, chunk, Pieces { first, others: 100 })?;
        }
        read_mask(
            &rt,
            rt.alloc(),
            None,
            chunk,
            Pieces {
                first: 1,
                others: 1,
            },
        )?;
    }
    for first in 0..ALL_TYPES.bytes.len() {
        read_mask(
            &rt,
            rt.alloc(),
            None,
            &ALL_TYPES,
            Pieces { first, others: 100 },
        )?;
    }
    read_mask(
        &rt,
        rt.alloc(),
        None,
        &ALL_TYPES,
        Pieces {
            first: 1,
            others: 1,
        },
    )
}

/// A start, and a white shape of 1,024 by 1,024 as far as its first pixels.
const LARGE: &[u8] = &[0xB7, 0x40, 0x07, 0xFE, 0x00, 0x3F, 0xF7];

/// Pushes so many bytes of one value, one at a time, after each of which the reader goes on.
fn push_each(reader: &mut MaskReader, meter: &mut CountMeter, byte: u8, times: u32) -> Option<()>
    requires { reader.old.ended ≡ false }
    ensures { reader.new.ended ≡ false }
{
    'bytes: for _ in 0..times {
        reader.push(&[byte]).ok()?;
        reader.advance(meter);
    }
    Some(())
}

/// A large shape that comes byte by byte has each decision once, and the meter ticks once for each.
#[test]
fn a_large_shape_comes_byte_by_byte(rt: HostRuntime) {
    let Some(mut reader) = begin_mask(rt.alloc(), None, &["."]) else {
        panic!(rt; "memory is ample");
    };
    let mut meter = CountMeter::new();
    for byte in LARGE {
        assert!(rt; push_each(&mut reader, &mut meter, *byte, 1).is_some());
    }
    assert!(rt; push_each(&mut reader, &mut meter, 0xFF, 131_071).is_some());
    assert!(rt; push_each(&mut reader, &mut meter, 0xF8, 1).is_some());
    assert!(rt; push_each(&mut reader, &mut meter, 0x7F, 1).is_some());
    reader.end();
    assert_eq!(rt; reader.advance(&mut meter), Jb2Step::Finished);
    assert_eq!(rt; reader.units(), 3);
    assert_eq!(rt; reader.decisions(), 1_048_633);
    assert_eq!(rt; meter.count(), 1_048_633);
}

/// A dictionary with the table of one row, and what is read of it: the answer, the records, the decisions, and the rows of
/// its shapes.
struct Shapes {
    bytes: &'static [u8],
    answer: Jb2Step,
    units: u64,
    decisions: u64,
    shapes: &'static [&'static [&'static str]],
}

/// A pixel; a pixel and two that refine it; then faults: a mark, a start with a width, and a shape of 16,777,217 pixels.
/// Written by another program after the rules in `docs/jb2.md`.
const DICTIONARIES: [Shapes; 5] = [
    Shapes {
        bytes: &[0xF4, 0xD8, 0x3F],
        answer: Jb2Step::Finished,
        units: 3,
        decisions: 18,
        shapes: &[&["#"]],
    },
    Shapes {
        bytes: &[0xF4, 0xD8, 0xA6, 0x81],
        answer: Jb2Step::Finished,
        units: 4,
        decisions: 31,
        shapes: &[&["#"], &["##"]],
    },
    Shapes {
        bytes: &[0x7F],
        answer: Jb2Step::Refused(FaultKind::Jb2Record),
        units: 0,
        decisions: 3,
        shapes: &[],
    },
    Shapes {
        bytes: &[0xBF],
        answer: Jb2Step::Refused(FaultKind::Jb2Dictionary),
        units: 0,
        decisions: 6,
        shapes: &[],
    },
    Shapes {
        bytes: &[0xF4, 0x00, 0x02, 0x03, 0xF4, 0x03, 0xFB],
        answer: Jb2Step::Refused(FaultKind::Jb2Limit),
        units: 1,
        decisions: 55,
        shapes: &[],
    },
];

/// Reads a dictionary that comes in pieces, and gives it where it is one.
fn read_dictionary(
    rt: &impl Abort,
    alloc: Global,
    inherited: Option<Arc<Dictionary>>,
    chunk: &Shapes,
    pieces: Pieces,
) -> Result<Option<Arc<Dictionary>>, Fail> {
    let Some(mut reader) = begin_dictionary(alloc, inherited) else {
        panic!(rt; "memory is ample");
    };
    let mut meter = CountMeter::new();
    let first = pieces.first.min(chunk.bytes.len());
    reader.push(&chunk.bytes[..first])?;
    reader.advance(&mut meter);
    for piece in chunk.bytes[first..].chunks(pieces.others.max(1)) {
        reader.push(piece)?;
        assert!(rt; is_on_the_way(reader.advance(&mut meter), chunk.answer));
    }
    reader.end();
    assert_eq!(rt; reader.advance(&mut meter), chunk.answer);
    assert_eq!(rt; reader.units(), chunk.units);
    assert_eq!(rt; meter.count(), chunk.decisions);
    if reader.advance(&mut meter) == Jb2Step::Finished {
        let dictionary = reader.dictionary()?;
        assert_shapes(rt, &dictionary, chunk.shapes);
        return Ok(Some(dictionary));
    }
    Ok(None)
}

/// A reader of a dictionary.
fn begin_dictionary(alloc: Global, inherited: Option<Arc<Dictionary>>) -> Option<DictReader>
    ensures { IfSome result (λ reader. reader.ended ≡ false) }
{
    DictReader::new(alloc, flat(alloc)?, inherited).ok()
}

/// Asserts that a dictionary has shapes of these rows.
fn assert_shapes(rt: &impl Abort, dictionary: &Dictionary, shapes: &[&[&str]]) {
    assert_eq!(rt; dictionary.count() as usize, shapes.len());
    for number in 0..dictionary.count() {
        let shape = dictionary.shape(number);
        assert!(rt; has_rows(shape, shapes[number as usize]));
    }
}

/// Dictionaries come to the same in every cut in two, and byte by byte.
#[test]
fn dictionaries_are_cut_anywhere(rt: HostRuntime) -> Result<(), Fail> {
    for chunk in &DICTIONARIES {
        for first in 0..chunk.bytes.len() {
            read_dictionary(&rt, rt.alloc(), None, chunk, Pieces { first, others: 100 })?;
        }
        read_dictionary(
            &rt,
            rt.alloc(),
            None,
            chunk,
            Pieces {
                first: 1,
                others: 1,
            },
        )?;
    }
    Ok(())
}

/// A dictionary that inherits the pixel, and brings a shape behind it.
const INHERITING: Shapes = Shapes {
    bytes: &[0x15, 0xFA, 0x4D, 0x0F],
    answer: Jb2Step::Finished,
    units: 4,
    decisions: 28,
    shapes: &[&["#"], &["#."]],
};

/// Masks that inherit the pixel: a copy of it; the same as number 0, with a shape behind it; and a count that isn't the
/// dictionary's.
const INHERITING_MASKS: [Chunk; 3] = [
    Chunk {
        bytes: &[0x15, 0xDB, 0x8E, 0x34, 0x3F],
        answer: Jb2Step::Finished,
        units: 4,
        decisions: 34,
        rows: &["#"],
    },
    Chunk {
        bytes: &[0x15, 0xD3, 0xA4, 0xC1, 0xE3, 0x43],
        answer: Jb2Step::Finished,
        units: 5,
        decisions: 46,
        rows: &["#."],
    },
    Chunk {
        bytes: &[0x15, 0x7F],
        answer: Jb2Step::Refused(FaultKind::Jb2Dictionary),
        units: 0,
        decisions: 9,
        rows: &["."],
    },
];

/// Dictionaries and masks take the shapes of a dictionary.
#[test]
fn shapes_are_inherited(rt: HostRuntime) -> Result<(), Fail> {
    let whole = Pieces {
        first: 0,
        others: 100,
    };
    let Some(dictionary) = read_dictionary(&rt, rt.alloc(), None, &DICTIONARIES[0], whole)? else {
        panic!(rt; "the dictionary is read");
    };
    read_dictionary(
        &rt,
        rt.alloc(),
        Some(dictionary.clone()?),
        &INHERITING,
        whole,
    )?;
    for chunk in &INHERITING_MASKS {
        read_mask(
            &rt,
            rt.alloc(),
            Some(dictionary.clone()?),
            chunk,
            Pieces {
                first: 1,
                others: 1,
            },
        )?;
    }
    Ok(())
}
