//! Coefficients and their places.
use iw44_blocks::{Coefficients, Grid};
use std::alloc::{AllocError, Global};
use std::test::Fail;

/// The grid of a plane of 40 by 33, so of four blocks, in which four coefficients aren't 0: two of them in the plane's
/// first block, one at the first place of its last block, and one that hangs over.
fn small_grid(alloc: Global) -> Result<(u32, i16, Grid), AllocError> {
    let mut plane = Coefficients::new(alloc, 40, 33)?;
    plane.set(0, 0, 7);
    plane.set(0, 258, -32_768);
    plane.set(3, 0, 32_767);
    plane.set(3, 1, 5);
    Ok((plane.blocks(), plane.get(3, 1), plane.grid(alloc)?))
}

/// The sum of the values' sizes.
fn size_of_all(grid: &Grid) -> u64 {
    let mut total = 0u64;
    for y in 0..grid.height() {
        for x in 0..grid.width() {
            total = total.saturating_add(grid.value(x, y).unsigned_abs());
        }
    }
    total
}

#[test]
fn coefficients_stand_at_their_places(rt: HostRuntime) -> Result<(), Fail> {
    let (blocks, hidden, grid) = small_grid(rt.alloc())?;
    assert_eq!(rt; (blocks, hidden), (4, 5));
    assert_eq!(rt; (grid.width(), grid.height()), (40, 33));
    assert_eq!(rt; grid.value(0, 0), 7);
    assert_eq!(rt; grid.value(1, 16), -32_768);
    assert_eq!(rt; grid.value(32, 32), 32_767);
    assert_eq!(rt; size_of_all(&grid), 65_542);
    Ok(())
}

#[test]
fn a_grid_keeps_what_it_is_given(rt: HostRuntime) -> Result<(), Fail> {
    let mut grid = Grid::new(rt.alloc(), 3, 2)?;
    assert_eq!(rt; size_of_all(&grid), 0);
    grid.set_value(2, 1, i64::MIN);
    grid.set_value(0, 0, 9);
    assert_eq!(rt;
        (grid.value(0, 0), grid.value(1, 0), grid.value(2, 1)),
        (9, 0, i64::MIN)
    );
    Ok(())
}

#[test]
fn places_of_indices(rt: HostRuntime) {
    assert_eq!(rt; Coefficients::place_of(1), (16, 0));
    assert_eq!(rt; Coefficients::place_of(512), (0, 1));
    assert_eq!(rt; Coefficients::place_of(1023), (31, 31));
}
