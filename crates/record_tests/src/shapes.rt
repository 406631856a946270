//! Shapes, direct and refined, that come in pieces.
ghost use Rattle.std.specs.Prelude.{◌≡◌, ◌<◌, ◌≤◌, length, false, IfSome};
ghost use Rattle.zp_decoder.specs.States.{AreBelow};
ghost use Rattle.jb2_shapes.specs.Numbers.{states_of};
ghost use Rattle.jb2_shapes.specs.Shape.{IsWhole};

use crate::shared::has_rows;
use djvu_base::CountMeter;
use jb2_shapes::{DirectReader, RefineReader, ShapeContexts, ShapeStep};
use std::alloc::{AllocError, Global};
use std::process::Abort;
use std::sync::Arc;
use std::test::Fail;
use zp_decoder::{Decision, ZpDecoder};
use zp_table::Table;

/// Bytes without a pattern.
const BYTES: [u8; 96] = [
    0xA5, 0x4D, 0xCA, 0x18, 0x25, 0x30, 0xBB, 0x1D, 0x6D, 0x13, 0x2C, 0xDE, 0xD6, 0x23, 0x7B, 0x2E,
    0xD9, 0x1E, 0x3F, 0x72, 0x1F, 0xCB, 0x19, 0x71, 0x17, 0x44, 0x94, 0xD6, 0x49, 0x3C, 0x9D, 0x5C,
    0x34, 0x60, 0xBE, 0x31, 0x20, 0x1E, 0x69, 0xFE, 0xDA, 0xA0, 0xEE, 0xE8, 0xB9, 0x99, 0x7F, 0x5C,
    0x7C, 0x29, 0x99, 0xFD, 0xAF, 0xE5, 0x93, 0x25, 0x3C, 0xD6, 0x54, 0xAF, 0x4D, 0xFA, 0xD7, 0x14,
    0x27, 0xA0, 0xAE, 0xB3, 0xFE, 0xE9, 0x23, 0x2F, 0x8A, 0xF2, 0x21, 0x1F, 0x9E, 0xE4, 0x91, 0xC5,
    0xB1, 0x0B, 0xEC, 0xB5, 0x56, 0x3B, 0xFC, 0x1E, 0x6F, 0x93, 0x42, 0x7E, 0xCB, 0xC8, 0xFE, 0x29,
];

/// What a program that was written after the rules in `docs/jb2.md` reads from them first, from the top row down.
const DIRECT: [&str; 9] = [
    "...###.###....##.##.##.##.##.##.##.##.###..........##.##...##.##.##.##",
    "#.###.#..#........#...#.###.#..##.##.#...#.##.##.###.####....##.##.###",
    "..........#.#.#.#..#.##.#.#.#..#.........###.##.#...###..##..##.#.#.#.",
    "...##.##..#.#.#.#..#.####.##...#####.##.###.##.....####.#.###..#..#.##",
    "..##.#####.#.#.#....#..#####..##..###.##.#....##.#.#.####.#...#..####.",
    "###.####...##....###.#..##.###.###.#.##.#.......#####..##.#..#.#..#.##",
    "##..#.#..##..#.#..####.###.#.#.#..##.####.#####.#..####.#..#.##.#####.",
    "#.#.#.##....#..#.###..######.##......##..#.#.####..##..###.######.#.##",
    ".#.#..#...#.###.######..#.##...#...##.##.##...#.##.#.##....####.#.....",
];

/// What it reads next, beside that shape.
const REFINED: [&str; 5] = [
    "#.####.###.#.####.#...#....#...##",
    "..##.....#..#.###......#.#..#..##",
    "#.###.##.....#.#.#.......#####.#.",
    ".#...#..#.##.#..##.##.###...##.#.",
    "####.###..#.....##.#.#...#.##....",
];

/// A decoder with a table, and contexts at the beginning of a chunk.
fn begin(alloc: Global, table: Table) -> Option<(ZpDecoder, ShapeContexts)>
    ensures some { IfSome result (λ pair. 0 < length pair.0.table) }
    ensures below { IfSome result (λ pair. AreBelow (length pair.0.table) (states_of pair.1)) }
    ensures open_end { IfSome result (λ pair. pair.0.ended ≡ false) }
{
    let some = table.len();
    prove!(some > 0);
    let table = Arc::new(alloc, table).ok()?;
    let contexts = ShapeContexts::new(alloc).ok()?;
    Some((ZpDecoder::new(table), contexts))
}

/// Reads a direct shape on from bytes that are offered as the decoder takes them, and tells how many it took.
fn read_direct(
    reader: &mut DirectReader,
    contexts: &mut ShapeContexts,
    zp: &mut ZpDecoder,
    meter: &mut CountMeter,
    bytes: &[u8],
) -> (ShapeStep, usize)
    requires below { AreBelow (length zp.old.table) (states_of contexts.old) }
    requires open_end { zp.old.ended ≡ false }
    ensures below { AreBelow (length zp.new.table) (states_of contexts.new) }
    ensures open_end { zp.new.ended ≡ false }
    ensures taken { result.1 ≤ length bytes.now }
    ensures done { result.0 ≡ ShapeStep.Done → IsWhole reader.new }
{
    let mut taken = 0;
    for _ in 0..bytes.len() {
        taken += zp.push(&bytes[taken..]);
        match reader.advance(contexts, zp, meter) {
            ShapeStep::Done => return (ShapeStep::Done, taken),
            ShapeStep::NeedBytes => {}
            ShapeStep::Exhausted => return (ShapeStep::Exhausted, taken),
        }
    }
    (ShapeStep::NeedBytes, taken)
}

/// Reads a refined shape on in the same way.
fn read_refined(
    reader: &mut RefineReader,
    contexts: &mut ShapeContexts,
    zp: &mut ZpDecoder,
    meter: &mut CountMeter,
    bytes: &[u8],
) -> ShapeStep
    requires below { AreBelow (length zp.old.table) (states_of contexts.old) }
    requires open_end { zp.old.ended ≡ false }
    ensures { result ≡ ShapeStep.Done → IsWhole reader.new.sketch }
{
    let mut taken = 0;
    for _ in 0..bytes.len() {
        taken += zp.push(&bytes[taken..]);
        match reader.advance(contexts, zp, meter) {
            ShapeStep::Done => return ShapeStep::Done,
            ShapeStep::NeedBytes => {}
            ShapeStep::Exhausted => return ShapeStep::Exhausted,
        }
    }
    ShapeStep::NeedBytes
}

/// Reads the direct shape from bytes that come in two pieces, and then the refined one.
fn read_both(rt: &impl Abort, alloc: Global, cut: usize) -> Result<(), Fail>
    requires { cut ≤ 96 }
{
    let Some((mut zp, mut contexts)) = begin(alloc, Table::djvu(alloc)?) else {
        panic!(rt; "memory is ample");
    };
    let mut meter = CountMeter::new();
    let mut direct = DirectReader::begin(alloc, 70, 9)?;
    let (step, taken) = read_direct(
        &mut direct,
        &mut contexts,
        &mut zp,
        &mut meter,
        &BYTES[..cut],
    );
    assert_eq!(rt; step, ShapeStep::NeedBytes);
    assert_eq!(rt; taken, cut);
    let (step, taken) = read_direct(
        &mut direct,
        &mut contexts,
        &mut zp,
        &mut meter,
        &BYTES[cut..],
    );
    let ShapeStep::Done = step else {
        panic!(rt; "the shape isn't whole");
    };
    assert_eq!(rt; meter.count(), 630);
    let direct = direct.take();
    assert!(rt; has_rows(&direct, &DIRECT));
    let matched = Arc::new(alloc, direct)?;
    let mut refined = RefineReader::begin(alloc, 33, 5, matched)?;
    let rest = &BYTES[cut..][taken..];
    let ShapeStep::Done = read_refined(&mut refined, &mut contexts, &mut zp, &mut meter, rest)
    else {
        panic!(rt; "the refined shape isn't whole");
    };
    assert_eq!(rt; meter.count(), 795);
    assert!(rt; has_rows(&refined.take(), &REFINED));
    Ok(())
}

#[test]
fn shapes_are_read_in_pieces(rt: HostRuntime) -> Result<(), Fail> {
    for cut in [0, 3, 40, 71] {
        read_both(&rt, rt.alloc(), cut)?;
    }
    Ok(())
}

/// Whether the next decisions are these, each in a context that stands at its start.
fn are_decided(zp: &mut ZpDecoder, meter: &mut CountMeter, decisions: &str) -> bool
    requires { 0 < length zp.old.table }
    ensures table { zp.new.table ≡ zp.old.table }
    ensures ended { zp.new.ended ≡ zp.old.ended }
{
    for decision in decisions.bytes() {
        let mut state = 0;
        if zp.decode(&mut state, meter) != Decision::Bit(decision == b'1') {
            return false;
        }
    }
    true
}

/// The chunk of a mask of one pixel: a direct shape of one pixel for the library, and then a mark that refines it. What
/// stands before and behind the two pixels is decided here apart. All its decisions are 39.
fn read_refined_dot(rt: &impl Abort, alloc: Global) -> Result<(), Fail> {
    let Some((mut zp, mut contexts)) = begin(alloc, Table::flat(alloc)?) else {
        panic!(rt; "memory is ample");
    };
    let mut meter = CountMeter::new();
    assert_eq!(rt; zp.push(&[0xB7, 0x4D, 0x88, 0xA1, 0xA1]), 5);
    zp.end();
    // A start of width 1 and height 1, and a library shape of width 1 and height 1.
    assert!(rt; are_decided(&mut zp, &mut meter, "01001000"));
    assert!(rt; are_decided(&mut zp, &mut meter, "101100100"));
    let mut direct = DirectReader::begin(alloc, 1, 1)?;
    assert_eq!(rt;
        direct.advance(&mut contexts, &mut zp, &mut meter),
        ShapeStep::Done
    );
    assert_eq!(rt; meter.count(), 18);
    let dot = direct.take();
    assert!(rt; has_rows(&dot, &["#"]));
    // A refined mark with the differences 0 and 0.
    assert!(rt; are_decided(&mut zp, &mut meter, "110111010"));
    let mut refined = RefineReader::begin(alloc, 1, 1, Arc::new(alloc, dot)?)?;
    assert_eq!(rt;
        refined.advance(&mut contexts, &mut zp, &mut meter),
        ShapeStep::Done
    );
    assert_eq!(rt; meter.count(), 28);
    assert!(rt; has_rows(&refined.take(), &["#"]));
    // Its place, and the end.
    assert!(rt; are_decided(&mut zp, &mut meter, "11100101111"));
    assert_eq!(rt; meter.count(), 39);
    Ok(())
}

#[test]
fn a_pixel_refines_a_pixel(rt: HostRuntime) -> Result<(), Fail> {
    read_refined_dot(&rt, rt.alloc())
}
