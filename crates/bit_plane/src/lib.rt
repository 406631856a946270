//! Planes of black and white pixels: masks and shapes.
//!
//! A plane is seen as a width, a height and its black pixels. Its bits run on from row to row in words of 64 bits with
//! no gap, so that a plane takes an eighth of its area in bytes, whatever its sides are. Painting and ink boxes go word
//! by word: they read up to 64 bits at any bit, and never walk over what falls outside of a plane.
//!
//! `specs/` has the definitions: `Pixels` (planes, and what painting makes of them), `Ink` (ink boxes), `Bits` and
//! `Packed` (bits of words, and the pixels that they are), `Rows` (pixels of a row in a word), `Spans` (where a shape
//! meets a plane), `Columns` (what the
//! walks over words find) and `Worked` (small planes).
#![tactic(auto)]

mod ink;
pub mod laws;
mod painting;
mod planes;
mod words;

pub use ink::InkBox;
pub use planes::{AREA_LIMIT, Plane, SIDE_LIMIT};
