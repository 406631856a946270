//! Slices of the wavelet coefficients of a plane of an IW44 image.
//!
//! A slice does one band of every block: it finds coefficients that start, and halves the range of those that started
//! earlier. `specs/` has the definitions: `Bands` (buckets, bands and thresholds), `Contexts` (their names), `Slice` (which
//! decisions a slice reads, in order, and the coefficients that they make), `Reading` (how these decisions are read from
//! a chunk) and `Sizes` (how large coefficients get).
//!
//! `Kept`, `Reader` and `Moves` say how the reader stands to them. A `Spot` is where it stands: `seek` leads to the next
//! decision, `asked` tells how it is read, and `take` takes its bit.
//!
//! The scheme is that of IW44 in the DjVu Reference, version 3; the numbers are this project's own profile after it
//! (`docs/iw44.md`).
#![tactic(auto)]

mod amounts;
mod asking;
mod bands;
mod contexts;
pub mod laws;
mod reader;
mod seeking;
mod spots;
mod steps;
mod taking;
mod words;

pub use reader::SliceReader;
pub use steps::SliceStep;
