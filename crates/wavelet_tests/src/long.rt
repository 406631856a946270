//! A large grey layer that comes byte by byte.

use crate::draws::Draws;
use crate::readings::{Reading, Rows, digest};
use djvu_base::{FaultKind, Raster};
use iw44_image::IwStep;
use std::alloc::{AllocError, Global};
use std::process::Abort;
use std::test::Fail;

/// Of a grey layer of 1,024 by 1,024: 100 slices.
const HEADER: [u8; 9] = [0x00, 0x64, 0x81, 0x02, 0x04, 0x00, 0x04, 0x00, 0x00];

/// The chunk: behind its header come 65,536 drawn bytes.
fn drawn_chunk(alloc: Global) -> Result<Vec<u8>, AllocError> {
    let mut chunk = Vec::new(alloc);
    chunk.extend_from_slice(&HEADER)?;
    let mut draws = Draws::new(14);
    for _ in 0..65_536 {
        chunk.push(draws.below(256) as u8)?;
    }
    Ok(chunk)
}

/// Reads the chunk in pieces of so many bytes, whose decisions have this sum. Its data end within the slices.
fn read_large(rt: &impl Abort, alloc: Global, chunk: &[u8], size: usize, counts: u64) -> Raster {
    let Some(mut reading) = Reading::new(alloc, Rows::Flat) else {
        panic!(rt; "memory is ample");
    };
    let Some(seen) = reading.read(chunk, size) else {
        panic!(rt; "all data of the chunk came");
    };
    assert_eq!(rt; seen.answer, IwStep::Refused(FaultKind::ZpExhausted));
    assert_eq!(rt; seen.bytes, 65_545);
    assert_eq!(rt; seen.decisions, 524_464);
    assert_eq!(rt; seen.counts, counts);
    let Some(picture) = reading.picture(alloc) else {
        panic!(rt; "memory is ample");
    };
    picture
}

/// The answer, the decisions and every sample are those of one piece.
#[test]
fn a_large_layer_comes_byte_by_byte(rt: HostRuntime) -> Result<(), Fail> {
    let chunk = drawn_chunk(rt.alloc())?;
    let whole = read_large(&rt, rt.alloc(), &chunk, 100_000, 524_464);
    let other = read_large(&rt, rt.alloc(), &chunk, 1, 17_178_099_964);
    assert_eq!(rt; digest(&whole), 0xF09AE6A6CDE717EF);
    assert!(rt; whole.samples() == other.samples());
    Ok(())
}
