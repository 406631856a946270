//! Images of IW44: the chunks of a layer, and its samples.
//!
//! `specs/` has the definitions: `Header` (the header of a chunk, with its checks and the moments at which they are made),
//! `Layer` (the slices of a layer's chunks, and how the layer answers) and `Samples` (its pixels). `Image` says how an image
//! stands to the bytes that it was given. `Starting`, `Offering`, `Readers`, `Keeping` and `Rasters` are for the code's own
//! functions. The scheme is that of IW44 in the DjVu Reference, version 3; the numbers are this project's own profile after it
//! (`docs/iw44.md`).
#![tactic(auto)]

mod colours;
mod headers;
mod image;
pub mod laws;
mod planes;
mod rasters;
mod reading;
mod steps;
mod unread;

pub use image::IwImage;
pub use steps::IwStep;
