//! Decisions of the ZP encoder, which a decoder reads again.
ghost use Rattle.std.specs.Prelude.{◌≡◌, ◌<◌, length, false};

use djvu_base::CountMeter;
use std::alloc::Global;
use std::process::Abort;
use std::sync::Arc;
use std::test::Fail;
use zp_decoder::{Decision, ZpDecoder};
use zp_encoder::ZpEncoder;
use zp_table::Table;

/// The bytes of these bits, with the table of one row.
fn flat_bytes(alloc: Global, digits: &[u8]) -> Option<Vec<u8>> {
    let table = Table::flat(alloc).ok()?;
    let table = Arc::new(alloc, table).ok()?;
    let mut zp = ZpEncoder::new(alloc, table);
    for digit in digits {
        zp.pass(*digit == b'1').ok()?;
    }
    zp.finish().ok()
}

/// The first of these chunks is worked out in `docs/jb2.md`; the other one is a library of one black pixel.
#[test]
fn flat_bytes_are_inverted_bits(rt: HostRuntime) {
    let Some(bytes) = flat_bytes(rt.alloc(), b"01001000100100100111100101111") else {
        panic!(rt; "memory is ample");
    };
    assert_eq!(rt; bytes.as_slice(), [0xB7, 0x6D, 0x86, 0x87].as_slice());
    let Some(bytes) = flat_bytes(rt.alloc(), b"000010110010011111") else {
        panic!(rt; "memory is ample");
    };
    assert_eq!(rt; bytes.as_slice(), [0xF4, 0xD8, 0x3F].as_slice());
}

/// Bits as digits, seven of eight of which are 1.
fn drawn_digits(alloc: Global) -> Option<Vec<u8>> {
    let mut digits = Vec::new(alloc);
    let mut state = 7u64;
    for _ in 0..5_000u32 {
        state = state
            .wrapping_mul(6_364_136_223_846_793_005)
            .wrapping_add(1_442_695_040_888_963_407);
        digits
            .push(if (state >> 33) % 8 == 0 { b'0' } else { b'1' })
            .ok()?;
    }
    Some(digits)
}

/// The bytes of these bits with the table `djvu`: by turns in one context, and without a context in both forms.
fn mixed_bytes(alloc: Global, digits: &[u8]) -> Option<Vec<u8>> {
    let table = Table::djvu(alloc).ok()?;
    let table = Arc::new(alloc, table).ok()?;
    let rows = table.len();
    let mut zp = ZpEncoder::new(alloc, table);
    let mut state = 0;
    prove!(rows > 0);
    let mut turn = 0u8;
    for digit in digits {
        write_turn(&mut zp, &mut state, turn, *digit == b'1')?;
        turn = (turn % 8) + 1;
    }
    zp.finish().ok()
}

/// Writes a decision: two of eight turns have no context.
fn write_turn(zp: &mut ZpEncoder, state: &mut u8, turn: u8, bit: bool) -> Option<()>
    requires { state.old < length zp.old.table }
    ensures { state.new < length zp.new.table }
{
    if turn == 3 {
        return zp.pass(bit).ok();
    }
    if turn == 6 {
        return zp.iw(bit).ok();
    }
    zp.encode(state, bit).ok()
}

/// Reads a decision of the same turn.
fn read_turn(zp: &mut ZpDecoder, state: &mut u8, turn: u8) -> Decision
    requires { state.old < length zp.old.table }
    ensures below { state.new < length zp.new.table }
    ensures ended { zp.new.ended ≡ zp.old.ended }
{
    let mut meter = CountMeter::new();
    if turn == 3 {
        return zp.pass(&mut meter);
    }
    if turn == 6 {
        return zp.iw(&mut meter);
    }
    zp.decode(state, &mut meter)
}

/// Offers the bytes that the decoder hasn't taken, and tells it the end after the last one.
fn offer<'a>(zp: &mut ZpDecoder, left: &'a [u8]) -> &'a [u8]
    requires { 0 < length left.now → zp.old.ended ≡ false }
    ensures open_end { 0 < length result.now → zp.new.ended ≡ false }
    ensures table { zp.new.table ≡ zp.old.table }
{
    if left.is_empty() {
        return left;
    }
    let taken = zp.push(left);
    if taken == left.len() {
        zp.end();
    }
    &left[taken..]
}

/// As many bits of a whole chunk, as digits, in the same turns.
fn mixed_digits(alloc: Global, bytes: &[u8], count: usize) -> Option<Vec<u8>> {
    let table = Table::djvu(alloc).ok()?;
    let table = Arc::new(alloc, table).ok()?;
    let rows = table.len();
    let mut zp = ZpDecoder::new(table);
    let mut digits = Vec::new(alloc);
    let mut left = bytes;
    let mut state = 0;
    prove!(rows > 0);
    let mut turn = 0u8;
    for _ in 0..count {
        left = offer(&mut zp, left);
        let Decision::Bit(bit) = read_turn(&mut zp, &mut state, turn) else {
            return None;
        };
        digits.push(if bit { b'1' } else { b'0' }).ok()?;
        turn = (turn % 8) + 1;
    }
    Some(digits)
}

#[test]
fn written_decisions_are_read(rt: HostRuntime) -> Result<(), Fail> {
    let digits = drawn_digits(rt.alloc()).ok_or("memory is ample")?;
    let bytes = mixed_bytes(rt.alloc(), &digits).ok_or("memory is ample")?;
    let read = mixed_digits(rt.alloc(), &bytes, digits.len()).ok_or("no decision is refused")?;
    assert!(rt; read == digits);
    Ok(())
}
