//! Shapes of JB2, direct and refined: one pixel after the other, out of the decisions of the ZP decoder (DjVu 3 reference,
//! JB2).
//!
//! A pixel is decided in the context that is named by the colours of pixels near it. Along a row these make windows, in
//! which one colour a row is new from pixel to pixel. It comes out of a word with up to 64 pixels of its row, which stays at
//! hand until they are used up. A reader stands between two pixels, so it goes on wherever the bytes ended.
//!
//! `specs/` has the definitions: `Shape` (what is read of a direct shape), `Refined` (of a refined one, and where the matched
//! pixels are), `Contexts` (names and states of contexts), `Numbers`, `Rows` and `Windows` (how they are kept), `Steps` (how a
//! reader stands to the definitions) and `Worked` (shapes that were worked out).
#![tactic(auto)]

mod canvas;
mod contexts;
mod direct;
pub mod laws;
mod matching;
mod pixels;
mod refined;
mod rows;
mod steps;
mod windows;

pub use contexts::ShapeContexts;
pub use direct::DirectReader;
pub use refined::RefineReader;
pub use steps::ShapeStep;
