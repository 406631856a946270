//! Numbers read from bytes made by hand: with the table `flat` each coded decision is a bit of the input inverted.
use crate::shared::flat_decoder;
use djvu_base::CountMeter;
use jb2_numbers::{NumberContexts, NumberReader, NumberStep, Root};
use std::alloc::Global;

/// The answer, and how many decisions were coded, of a number that is read from the whole of these bytes.
fn read(alloc: Global, low: i32, high: i32, root: Root, bytes: &[u8]) -> Option<(NumberStep, u64)> {
    if low > high || low < -262_143 || high > 262_142 {
        return None;
    }
    let mut zp = flat_decoder(alloc)?;
    zp.push(bytes);
    zp.end();
    let mut contexts = NumberContexts::new(alloc);
    let mut meter = CountMeter::new();
    let mut reader = NumberReader::begin(low, high, root);
    let answer = reader.advance(&mut contexts, &mut zp, &mut meter);
    Some((answer, meter.count()))
}

#[test]
fn every_type_of_record_reads_back(rt: HostRuntime) {
    let rows = [
        (0xFF, 0, 1),
        (0x7F, 1, 3),
        (0x5F, 2, 3),
        (0x3F, 3, 5),
        (0x37, 4, 5),
        (0x2F, 5, 5),
        (0x27, 6, 5),
        (0x1F, 7, 6),
        (0x1B, 8, 6),
        (0x17, 9, 6),
        (0x13, 10, 6),
        (0x0F, 11, 4),
    ];
    for (byte, value, coded) in rows {
        let answer = read(rt.alloc(), 0, 11, Root::RecordType, &[byte]);
        assert_eq!(rt; answer, Some((NumberStep::Number(value), coded)));
    }
}

#[test]
fn wide_bounds(rt: HostRuntime) {
    let rows = [
        (0, [0x7F, 0xFF], 1, 3),
        (0, [0x5F, 0xFF], 2, 3),
        (0, [0x07, 0xFF], 31, 11),
        (-262_143, [0xFF, 0xFF], -1, 2),
        (-262_143, [0x7F, 0xFF], 0, 2),
    ];
    for (low, bytes, value, coded) in rows {
        let answer = read(rt.alloc(), low, 262_142, Root::NewRowX, &bytes);
        assert_eq!(rt; answer, Some((NumberStep::Number(value), coded)));
    }
}

#[test]
fn one_number_of_each_root(rt: HostRuntime) {
    let roots = [
        Root::RecordType,
        Root::InheritedCount,
        Root::ImageSize,
        Root::Match,
        Root::ShapeWidth,
        Root::ShapeHeight,
        Root::WidthDifference,
        Root::HeightDifference,
        Root::AbsoluteLeft,
        Root::AbsoluteTop,
        Root::NewRowX,
        Root::NewRowY,
        Root::SameRowX,
        Root::SameRowY,
        Root::CommentLength,
        Root::CommentByte,
    ];
    for root in roots {
        let answer = read(rt.alloc(), 0, 255, root, &[0x5F]);
        assert_eq!(rt; answer, Some((NumberStep::Number(2), 3)));
    }
}

/// Reads numbers of one decision each until one isn't read: how many were, and the answer then.
fn zeros_of_nothing(alloc: Global) -> Option<(u16, NumberStep)> {
    let mut zp = flat_decoder(alloc)?;
    zp.end();
    let mut contexts = NumberContexts::new(alloc);
    let mut meter = CountMeter::new();
    for zeros in 0..300u16 {
        let mut reader = NumberReader::begin(0, 262_142, Root::ImageSize);
        let answer = reader.advance(&mut contexts, &mut zp, &mut meter);
        if answer != NumberStep::Number(0) {
            return Some((zeros, answer));
        }
    }
    None
}

#[test]
fn an_empty_chunk_has_176_zeros(rt: HostRuntime) {
    let answer = zeros_of_nothing(rt.alloc());
    assert_eq!(rt; answer, Some((176, NumberStep::Exhausted)));
}

#[test]
fn a_number_waits_for_bytes(rt: HostRuntime) {
    let Some(zp) = flat_decoder(rt.alloc()) else {
        panic!(rt; "memory is ample");
    };
    let mut zp = zp;
    let mut contexts = NumberContexts::new(rt.alloc());
    let mut meter = CountMeter::new();
    let mut reader = NumberReader::begin(0, 262_142, Root::Match);
    assert_eq!(rt;
        reader.advance(&mut contexts, &mut zp, &mut meter),
        NumberStep::NeedBytes
    );
    zp.push(&[0x5F, 0xFF, 0xFF, 0xFF]);
    assert_eq!(rt;
        reader.advance(&mut contexts, &mut zp, &mut meter),
        NumberStep::NeedBytes
    );
    assert_eq!(rt; meter.count(), 1);
    zp.end();
    assert_eq!(rt;
        reader.advance(&mut contexts, &mut zp, &mut meter),
        NumberStep::Number(2)
    );
    assert_eq!(rt; meter.count(), 3);
}
