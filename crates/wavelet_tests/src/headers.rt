//! Chunks of images that are refused, and when.
ghost use Rattle.std.specs.Prelude.{◌≡◌, None, IfSome};

use crate::readings::{Reading, Rows};
use djvu_base::FaultKind;
use iw44_image::IwStep;
use std::alloc::Global;
use std::process::Abort;

/// A chunk that is refused, and the number of its bytes that decide so. The table has one row.
struct Refusal {
    chunk: &'static [u8],
    bytes: usize,
    kind: FaultKind,
    /// Of all chunks of the layer.
    decisions: u64,
}

/// First chunks: with a wrong serial; with a wrong version, major or minor; with a size of 0, with and without the last byte of
/// a header; with an area of 4,096 by 4,097; that end within the header; and without enough data.
const FIRST: [Refusal; 11] = [
    Refusal {
        chunk: &[0x01, 0x01, 0x81, 0x02, 0x00, 0x01, 0x00, 0x01, 0x00],
        bytes: 2,
        kind: FaultKind::IwSerial,
        decisions: 0,
    },
    Refusal {
        chunk: &[0x00, 0x01, 0x82, 0x02, 0x00, 0x01, 0x00, 0x01, 0x00],
        bytes: 4,
        kind: FaultKind::IwVersion,
        decisions: 0,
    },
    Refusal {
        chunk: &[0x00, 0x01, 0x81, 0x03, 0x00, 0x01, 0x00, 0x01, 0x00],
        bytes: 4,
        kind: FaultKind::IwVersion,
        decisions: 0,
    },
    Refusal {
        chunk: &[0x00, 0x01, 0x81, 0x02, 0x00, 0x00, 0x00, 0x01, 0x00, 0x3F],
        bytes: 9,
        kind: FaultKind::IwHeader,
        decisions: 0,
    },
    Refusal {
        chunk: &[0x00, 0x01, 0x81, 0x01, 0x00, 0x01, 0x00, 0x00, 0x3F],
        bytes: 8,
        kind: FaultKind::IwHeader,
        decisions: 0,
    },
    Refusal {
        chunk: &[0x00, 0x01, 0x81, 0x02, 0x10, 0x00, 0x10, 0x01, 0x00, 0x3F],
        bytes: 9,
        kind: FaultKind::TooLarge,
        decisions: 0,
    },
    Refusal {
        chunk: &[],
        bytes: 0,
        kind: FaultKind::IwHeader,
        decisions: 0,
    },
    Refusal {
        chunk: &[0x00],
        bytes: 1,
        kind: FaultKind::IwHeader,
        decisions: 0,
    },
    Refusal {
        chunk: &[0x00, 0x01, 0x81, 0x02, 0x00, 0x01, 0x00, 0x01],
        bytes: 8,
        kind: FaultKind::IwHeader,
        decisions: 0,
    },
    Refusal {
        chunk: &[0x00, 0xFF, 0x81, 0x02, 0x00, 0x01, 0x00, 0x01, 0x00],
        bytes: 9,
        kind: FaultKind::ZpExhausted,
        decisions: 176,
    },
    Refusal {
        chunk: &[0x00, 0xFF, 0x01, 0x02, 0x00, 0x02, 0x00, 0x01, 0x00, 0x3F],
        bytes: 10,
        kind: FaultKind::ZpExhausted,
        decisions: 184,
    },
];

/// A grey layer of one pixel, whose ten slices have three decisions.
const EARLIER: [u8; 10] = [0x00, 0x0A, 0x81, 0x02, 0x00, 0x01, 0x00, 0x01, 0x00, 0x3F];

/// Chunks behind that one: with a wrong serial; that end within the header; and without enough data.
const SECOND: [Refusal; 4] = [
    Refusal {
        chunk: &[0x00, 0xFF],
        bytes: 2,
        kind: FaultKind::IwSerial,
        decisions: 3,
    },
    Refusal {
        chunk: &[0x02, 0xFF, 0x00],
        bytes: 2,
        kind: FaultKind::IwSerial,
        decisions: 3,
    },
    Refusal {
        chunk: &[0x01],
        bytes: 1,
        kind: FaultKind::IwHeader,
        decisions: 3,
    },
    Refusal {
        chunk: &[0x01, 0xFF, 0x00, 0x00],
        bytes: 4,
        kind: FaultKind::ZpExhausted,
        decisions: 195,
    },
];

/// Reads a chunk byte by byte, until it is refused.
fn refuse(rt: &impl Abort, reading: &mut Reading, refusal: &Refusal)
    requires { reading.old.image.to_come ≡ None }
{
    let Some(seen) = reading.read(refusal.chunk, 1) else {
        panic!(rt; "all data of the chunk came");
    };
    assert_eq!(rt; seen.answer, IwStep::Refused(refusal.kind));
    assert_eq!(rt; seen.bytes, refusal.bytes);
    assert_eq!(rt; seen.decisions, refusal.decisions);
}

#[test]
fn chunks_are_refused(rt: HostRuntime) {
    for refusal in &FIRST {
        let Some(mut reading) = Reading::new(rt.alloc(), Rows::Flat) else {
            panic!(rt; "memory is ample");
        };
        refuse(&rt, &mut reading, refusal);
    }
}

/// Behind the earlier chunk.
fn begin_behind(alloc: Global) -> Option<Reading>
    ensures { IfSome result (λ reading. reading.image.to_come ≡ None) }
{
    let mut reading = Reading::new(alloc, Rows::Flat)?;
    if reading.read(&EARLIER, 1)?.answer == IwStep::ChunkDone {
        Some(reading)
    } else {
        None
    }
}

#[test]
fn later_chunks_are_refused(rt: HostRuntime) {
    for refusal in &SECOND {
        let Some(mut reading) = begin_behind(rt.alloc()) else {
            panic!(rt; "the earlier chunk is done");
        };
        refuse(&rt, &mut reading, refusal);
    }
}
