//! The ZP encoder: bytes from which a decoder decides given bits (DjVu 3 reference, ZP-Coder).
//!
//! `specs/` has the definitions: `Codes` (which codes make a decision), `Written` (decisions one after the other, and what
//! a decoder reads of them), `Digits` (bytes as a number) and `Encoder` (how an encoder stands to what was written).
#![tactic(auto)]

mod digits;
mod encoder;
pub mod laws;
mod standing;

pub use encoder::ZpEncoder;
