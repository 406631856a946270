//! The inverse transform against a plain loop over all places.
ghost use Rattle.std.specs.Prelude.{◌≡◌, ◌<◌, ◌≤◌, IfOk, unsigned_abs};
ghost use Rattle.iw44_blocks.specs.Lattice.{IsWithin};

use crate::draws::Draws;
use iw44_blocks::Grid;
use iw44_lifting::inverse;
use std::alloc::{AllocError, Global};
use std::process::Abort;
use std::test::Fail;

/// The next value, from -32,767 to 32,767.
fn drawn_value(draws: &mut Draws) -> i64
    ensures { unsigned_abs result ≤ 32767 }
{
    draws.below(65_535) as i64 - 32_767
}

/// Puts a value at a place, if the grid has it.
fn put(grid: &mut Grid, x: u32, y: u32, value: i64)
    requires small { IsWithin 32767 grid.old }
    requires value { unsigned_abs value ≤ 32767 }
    ensures { IsWithin 32767 grid.new }
{
    if x < grid.width() && y < grid.height() {
        grid.set_value(x, y, value);
    }
}

fn fill_row(grid: &mut Grid, y: u32, draws: &mut Draws)
    requires small { IsWithin 32767 grid.old }
    ensures { IsWithin 32767 grid.new }
{
    for x in 0..grid.width() {
        put(grid, x, y, drawn_value(draws));
    }
}

/// A grid of this size with drawn values.
fn drawn_grid(alloc: Global, width: u32, height: u32) -> Result<Grid, AllocError>
    requires columns { 1 ≤ width }
    requires columns_fit { width ≤ 100 }
    requires rows { 1 ≤ height }
    requires rows_fit { height ≤ 100 }
    ensures { IfOk result (λ grid. IsWithin 32767 grid) }
{
    let mut grid = Grid::new(alloc, width, height)?;
    let mut draws = Draws::new(37);
    for y in 0..height {
        fill_row(&mut grid, y, &mut draws);
    }
    Ok(grid)
}

/// The plain transform of a list of values, which goes by places that may lie outside.
#[derive(Drop)]
struct Plain {
    width: i64,
    height: i64,
    values: Vec<i64>,
}

impl Plain {
    fn of(alloc: Global, grid: &Grid) -> Result<Plain, AllocError> {
        let mut values = Vec::new(alloc);
        for y in 0..grid.height() {
            for x in 0..grid.width() {
                values.push(grid.value(x, y))?;
            }
        }
        Ok(Plain {
            width: grid.width().into(),
            height: grid.height().into(),
            values,
        })
    }

    fn index(&self, x: i64, y: i64) -> Option<usize> {
        if x < 0 || self.width <= x || y < 0 || self.height <= y {
            return None;
        }
        usize::try_from(y.wrapping_mul(self.width).wrapping_add(x)).ok()
    }

    fn at(&self, x: i64, y: i64) -> Option<i64> {
        self.values.get(self.index(x, y)?).copied()
    }

    /// The value so many steps from a place.
    fn near(&self, x: i64, y: i64, right: i64, up: i64, steps: i64) -> Option<i64> {
        self.at(
            x.wrapping_add(right.wrapping_mul(steps)),
            y.wrapping_add(up.wrapping_mul(steps)),
        )
    }

    /// What a sample becomes.
    fn lifted(&self, x: i64, y: i64, right: i64, up: i64, odd: bool) -> i64 {
        let here = self.at(x, y).unwrap_or(0);
        let before = self.near(x, y, right, up, -1).unwrap_or(0);
        let after = self.near(x, y, right, up, 1);
        let (first, last) = (
            self.near(x, y, right, up, -3),
            self.near(x, y, right, up, 3),
        );
        let inner = before
            .wrapping_add(after.unwrap_or(0))
            .wrapping_mul(9)
            .wrapping_sub(first.unwrap_or(0))
            .wrapping_sub(last.unwrap_or(0));
        if !odd {
            return here.wrapping_sub(inner.wrapping_add(16).div_euclid(32));
        }
        if first.is_some() && last.is_some() {
            return here.wrapping_add(inner.wrapping_add(8).div_euclid(16));
        }
        here.wrapping_add(
            before
                .wrapping_add(after.unwrap_or(before))
                .wrapping_add(1)
                .div_euclid(2),
        )
    }

    /// Lifts the even or the odd samples of all columns (`up` is the scale) or of all rows (`right` is).
    fn pass(&mut self, right: i64, up: i64, odd: bool) {
        let scale = right.wrapping_add(up);
        for y in 0..self.height {
            for x in 0..self.width {
                let along = if right == 0 { y } else { x };
                if is_multiple(x, scale)
                    && is_multiple(y, scale)
                    && is_multiple(along, scale.wrapping_mul(2)) != odd
                {
                    self.lift_at(x, y, right, up, odd);
                }
            }
        }
    }

    fn lift_at(&mut self, x: i64, y: i64, right: i64, up: i64, odd: bool) {
        let lifted = self.lifted(x, y, right, up, odd);
        if let Some(index) = self.index(x, y)
            && let Some(value) = self.values.get_mut(index)
        {
            *value = lifted;
        }
    }

    fn lift(&mut self, last_scale: i64) {
        for scale in [16i64, 8, 4, 2, 1] {
            if last_scale <= scale {
                self.pass(0, scale, false);
                self.pass(0, scale, true);
                self.pass(scale, 0, false);
                self.pass(scale, 0, true);
            }
        }
    }
}

fn is_multiple(number: i64, scale: i64) -> bool {
    number.checked_rem(scale) == Some(0)
}

/// Asserts that both have the same values.
fn expect_same(rt: &impl Abort, grid: &Grid, plain: &Plain) {
    for y in 0..grid.height() {
        for x in 0..grid.width() {
            assert_eq!(rt;
                Some(grid.value(x, y)),
                plain.at(x.into(), y.into()),
                "at {x}, {y}"
            );
        }
    }
}

/// Asserts that a drawn grid of this size is lifted as by the plain transform.
fn expect_lifted(rt: &impl Abort, alloc: Global, width: u32, height: u32) -> Result<(), AllocError>
    requires columns { 1 ≤ width }
    requires columns_fit { width ≤ 100 }
    requires rows { 1 ≤ height }
    requires rows_fit { height ≤ 100 }
{
    let mut whole = drawn_grid(alloc, width, height)?;
    let mut plain = Plain::of(alloc, &whole)?;
    inverse(&mut whole, 1);
    plain.lift(1);
    expect_same(rt, &whole, &plain);
    let mut half = drawn_grid(alloc, width, height)?;
    let mut plain = Plain::of(alloc, &half)?;
    inverse(&mut half, 2);
    plain.lift(2);
    expect_same(rt, &half, &plain);
    Ok(())
}

#[test]
fn a_drawn_grid_is_lifted(rt: HostRuntime) -> Result<(), Fail> {
    expect_lifted(&rt, rt.alloc(), 37, 53)?;
    Ok(())
}

#[test]
fn every_small_grid_is_lifted(rt: HostRuntime) -> Result<(), Fail> {
    for width in 1..10 {
        for height in 1..10 {
            expect_lifted(&rt, rt.alloc(), width, height)?;
        }
    }
    Ok(())
}
