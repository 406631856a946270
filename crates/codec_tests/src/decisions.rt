//! Decisions of the ZP decoder, in pieces of each size.
ghost use Rattle.std.specs.Prelude.{◌≡◌, ◌<◌, length, false, IfSome};

use crate::note::mask;
use crate::shared::flat_decoder;
use djvu_base::CountMeter;
use std::alloc::Global;
use std::process::Abort;
use std::sync::Arc;
use std::test::Fail;
use zp_decoder::{Decision, ZpDecoder};
use zp_table::Table;

#[test]
fn flat_decisions_are_inverted_bits(rt: HostRuntime) -> Result<(), Fail> {
    let Some(zp) = flat_decoder(rt.alloc()) else {
        panic!(rt; "memory is ample");
    };
    let mut zp = zp;
    let mut meter = CountMeter::new();
    let mut state = 0;
    assert_eq!(rt; zp.push(&[0xB7, 0x6D, 0x86]), 3);
    assert_eq!(rt; zp.decode(&mut state, &mut meter), Decision::NeedBytes);
    assert_eq!(rt; meter.count(), 0);
    assert_eq!(rt; zp.push(&[0x87]), 1);
    assert_eq!(rt; zp.decode(&mut state, &mut meter), Decision::Bit(false));
    assert_eq!(rt; zp.decode(&mut state, &mut meter), Decision::NeedBytes);
    assert_eq!(rt; meter.count(), 1);
    zp.end();
    assert_eq!(rt; zp.pass(&mut meter), Decision::Bit(true));
    assert_eq!(rt; zp.iw(&mut meter), Decision::Bit(false));
    zp.restart();
    assert_eq!(rt; zp.pass(&mut meter), Decision::NeedBytes);
    assert_eq!(rt; meter.count(), 3);
    Ok(())
}

/// Decides in one context as far as the bytes determine it, and writes the bits as digits.
fn read_bits(zp: &mut ZpDecoder, state: &mut u8, digits: &mut Vec<u8>) -> Option<()>
    requires { state.old < length zp.old.table }
    ensures below { state.new < length zp.new.table }
    ensures ended { zp.new.ended ≡ zp.old.ended }
{
    let mut meter = CountMeter::new();
    for _ in 0..200u8 {
        let Decision::Bit(bit) = zp.decode(state, &mut meter) else {
            break;
        };
        digits.push(if bit { b'1' } else { b'0' }).ok()?;
    }
    Some(())
}

/// The bits of twelve bytes that come in pieces of this size, with the table `djvu`.
fn bits_by_pieces(alloc: Global, size: usize) -> Option<Vec<u8>>
    requires { 0 < size }
{
    let bytes = [
        0x44, 0x20, 0x82, 0x3C, 0xFD, 0x71, 0x9E, 0x03, 0xB5, 0x60, 0x4F, 0xD2,
    ];
    let table = Table::djvu(alloc).ok()?;
    let table = Arc::new(alloc, table).ok()?;
    let mut zp = ZpDecoder::new(table);
    let mut digits = Vec::new(alloc);
    let mut state = 0;
    for piece in bytes.chunks(size) {
        zp.push(piece);
        read_bits(&mut zp, &mut state, &mut digits)?;
    }
    Some(digits)
}

/// The bits were worked out by another program after the rules in `docs/zp.md`.
#[test]
fn pieces_make_no_difference(rt: HostRuntime) {
    let bits =
        b"1111010111110011101111001111111111111111111111111111011101111110111011111011111101111110111111111111110";
    for size in [1, 5, 12] {
        let Some(digits) = bits_by_pieces(rt.alloc(), size) else {
            panic!(rt; "memory is ample");
        };
        assert_eq!(rt; digits.as_slice(), bits.as_slice());
    }
}

/// 30 bytes, of which 24 fit at first, and one more after eight bits were shifted in.
#[test]
fn no_more_is_taken_than_fits(rt: HostRuntime) {
    let Some(zp) = flat_decoder(rt.alloc()) else {
        panic!(rt; "memory is ample");
    };
    let mut zp = zp;
    let mut meter = CountMeter::new();
    let mut state = 0;
    let bytes = [0xA5; 30];
    assert_eq!(rt; zp.push(&bytes), 24);
    assert_eq!(rt; zp.push(&bytes[24..]), 0);
    for _ in 0..8u8 {
        zp.decode(&mut state, &mut meter);
    }
    assert_eq!(rt; meter.count(), 8);
    assert_eq!(rt; zp.push(&bytes[24..]), 1);
}

/// Decisions in 1,024 contexts, each of which is named by the ten bits before it.
#[derive(Drop)]
struct Reading {
    states: Vec<u8>,
    last: u16,
    count: u32,
    sum: u32,
}

impl Reading {
    /// One bit more.
    fn note(&mut self, bit: bool) {
        self.last = self.last % 512 * 2 + u16::from(bit);
        self.count = self.count.saturating_add(1);
        self.sum = self.sum.wrapping_mul(31).wrapping_add(u32::from(bit));
    }
}

/// Decides on as far as the bytes that were taken determine it, and tells what ends that.
fn decide_on(zp: &mut ZpDecoder, rows: u16, reading: &mut Reading) -> Option<Decision>
    requires { rows ≡ length zp.old.table }
    ensures table { zp.new.table ≡ zp.old.table }
    ensures ended { zp.new.ended ≡ zp.old.ended }
{
    let mut meter = CountMeter::new();
    for _ in 0..20_000u32 {
        let mut state = *reading.states.get(usize::from(reading.last))?;
        if u16::from(state) >= rows {
            return None;
        }
        match zp.decode(&mut state, &mut meter) {
            Decision::Bit(bit) => {
                *reading.states.get_mut(usize::from(reading.last))? = state;
                reading.note(bit);
            }
            Decision::NeedBytes => return Some(Decision::NeedBytes),
            Decision::Exhausted => return Some(Decision::Exhausted),
        }
    }
    None
}

/// Offers the bytes of a piece as the decoder takes them, and decides on after each push.
fn read_piece(zp: &mut ZpDecoder, rows: u16, reading: &mut Reading, piece: &[u8]) -> Option<()>
    requires rows { rows ≡ length zp.old.table }
    requires open_end { zp.old.ended ≡ false }
    ensures table { zp.new.table ≡ zp.old.table }
    ensures open_end { zp.new.ended ≡ false }
{
    let mut taken = 0;
    for _ in 0..piece.len() {
        taken += zp.push(&piece[taken..]);
        decide_on(zp, rows, reading)?;
    }
    if taken < piece.len() { None } else { Some(()) }
}

/// A decoder with the table `djvu`, and how many rows that has.
fn djvu_decoder(alloc: Global) -> Option<(ZpDecoder, u16)>
    ensures rows { IfSome result (λ pair. pair.1 ≡ length pair.0.table) }
    ensures open_end { IfSome result (λ pair. pair.0.ended ≡ false) }
{
    let table = Table::djvu(alloc).ok()?;
    let rows = table.len();
    let table = Arc::new(alloc, table).ok()?;
    Some((ZpDecoder::new(table), rows))
}

/// How many decisions a chunk has that comes in pieces of this size, and the sum of their bits, each times a power of 31.
fn read_pieces(alloc: Global, bytes: &[u8], size: usize) -> Option<(u32, u32)>
    requires { 0 < size }
{
    let (zp, rows) = djvu_decoder(alloc)?;
    let mut zp = zp;
    let mut reading = Reading {
        states: vec![in alloc; 0u8; 1024].ok()?,
        last: 0,
        count: 0,
        sum: 0,
    };
    for piece in bytes.chunks(size) {
        read_piece(&mut zp, rows, &mut reading, piece)?;
    }
    zp.end();
    match decide_on(&mut zp, rows, &mut reading)? {
        Decision::Exhausted => Some((reading.count, reading.sum)),
        Decision::NeedBytes => None,
        Decision::Bit(_) => None,
    }
}

/// The decisions were worked out by another program after the rules in `docs/zp.md`.
#[test]
fn all_decisions_of_a_chunk(rt: HostRuntime) {
    for size in [1, 7, 1000] {
        let Some((count, sum)) = read_pieces(rt.alloc(), mask(), size) else {
            panic!(rt; "the chunk is read to its end");
        };
        assert_eq!(rt; count, 19_579);
        assert_eq!(rt; sum, 221_826_520);
    }
}
