//! Names, lists, counts and rasters.
use djvu_base::{CountMeter, Items, Meter, Name, Raster};
use std::alloc::{AllocError, Global};
use std::process::Abort;
use std::test::Fail;

/// Whether these bytes are read as a name, which then has them, as its copy has.
fn is_read(rt: &impl Abort, alloc: Global, bytes: &[u8]) -> Result<bool, AllocError> {
    let Some(name) = Name::read(alloc, bytes)? else {
        return Ok(false);
    };
    let copy = name.copy(alloc)?;
    assert_eq!(rt; name.bytes(), bytes);
    assert_eq!(rt; copy.bytes(), bytes);
    Ok(true)
}

#[test]
fn names_are_read(rt: HostRuntime) -> Result<(), Fail> {
    let names: [&[u8]; 6] = [
        b"p",
        b"page 1.djvu",
        b"...",
        b"..a",
        b"\xC3\xA9",
        &[b'a'; 255],
    ];
    for name in names {
        assert!(rt; is_read(&rt, rt.alloc(), name)?, "{name:?} is a name");
    }
    let others: [&[u8]; 9] = [
        b"",
        b".",
        b"..",
        b"a/b",
        b"/",
        b"a\x1F",
        b"\0",
        b"a\xFF",
        &[b'a'; 256],
    ];
    for other in others {
        assert!(rt; !is_read(&rt, rt.alloc(), other)?, "{other:?} is no name");
    }
    Ok(())
}

#[test]
fn items_are_those_of_the_vec(rt: HostRuntime) -> Result<(), Fail> {
    let items = Items::of(vec![in rt.alloc(); 5u8, 0, 5]?);
    assert_eq!(rt; items.slice(), [5u8, 0, 5].as_slice());
    let list = items.into_vec();
    assert_eq!(rt; list.as_slice(), [5u8, 0, 5].as_slice());
    Ok(())
}

fn tick_thrice<M: Meter>(meter: &mut M) {
    meter.tick();
    meter.tick();
    meter.tick();
}

#[test]
fn ticks_are_counted(rt: HostRuntime) {
    let mut meter = CountMeter::new();
    assert_eq!(rt; meter.count(), 0);
    tick_thrice(&mut meter);
    assert_eq!(rt; meter.count(), 3);
}

#[test]
fn a_raster_keeps_its_sizes_and_samples(rt: HostRuntime) -> Result<(), Fail> {
    let raster = Raster::new(2, 1, vec![in rt.alloc(); 1u8, 2, 3, 4, 5, 6]?);
    assert_eq!(rt; (raster.width(), raster.height()), (2, 1));
    assert_eq!(rt; raster.samples(), [1u8, 2, 3, 4, 5, 6].as_slice());
    Ok(())
}
