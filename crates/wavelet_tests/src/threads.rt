//! Values that threads will hold.

use crate::readings::{Rows, begin};
use iw44_blocks::{Coefficients, Grid};
use iw44_slices::SliceReader;
use std::alloc::{AllocError, Global};
use std::test::Fail;

/// A value that another thread may take.
fn may_go<T: Send + Drop>(_value: T) {}

/// Makes one value of each type, and hands it on as to another thread.
fn hand_on(alloc: Global) -> Result<(), AllocError> {
    may_go(Coefficients::new(alloc, 3, 2)?);
    may_go(Grid::new(alloc, 3, 2)?);
    may_go(SliceReader::new());
    may_go(begin(alloc, Rows::Flat));
    Ok(())
}

#[test]
fn values_go_to_threads(rt: HostRuntime) -> Result<(), Fail> {
    hand_on(rt.alloc())?;
    Ok(())
}
