//! The inverse wavelet transform of IW44.
//!
//! A line of samples is lifted by changing its even samples by their neighbours, and then its odd ones. The transform
//! lifts the columns of a grid and then its rows, at the scales 16, 8, 4, 2 and 1. `specs/` has the definitions that the
//! contracts cite: `Line` (one line, as a list) and `Lift` (a grid, line by line). `Step` and `Passes` say the same place
//! by place, as the code goes: it changes one grid in place, a row at a time, so that columns too are walked along memory.
//!
//! The scheme is that of IW44 in the DjVu Reference, version 3; the weights, the roundings and the rules at the ends of a
//! line are this project's own profile after it (`docs/iw44.md`).
#![tactic(auto)]

pub mod laws;
mod neighbours;
mod passes;
mod runs;
mod samples;
mod transform;

pub use transform::{inverse, inverse_in, inverse_quarter};
