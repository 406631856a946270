//! The ZP decoder: decisions out of the bits of a chunk that arrives in pieces (DjVu 3 reference, ZP-Coder).
//!
//! `specs/` has the definitions: `Bits` (the input), `Decision` (what a decision answers and where it leads, one bit of
//! the input after the other), `Runs` (decisions one after the other), `States` and `Chunk` (what readings over a chunk
//! share), `Window` (what a decoder keeps of the bits that it took) and `Decoder` (how it stands to the bytes that it
//! took). When a decision is determined, and the 192 bits past a chunk's end, are this project's own rules.
#![tactic(auto)]

mod decoder;
mod interval;
pub mod laws;
mod standing;
mod window;

pub use decoder::{Decision, ZpDecoder};
pub use interval::{adaptive_split, iw_split, next_state, pass_split};
