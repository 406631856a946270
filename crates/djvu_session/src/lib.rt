//! The session: passes over pool, shelf and log, with which feeders, decoders of pages and viewers work in any threads. This crate has
//! the definitions of what passes see, keep and answer, and laws of them. The session itself isn't built yet.
//!
//! `specs/` has the definitions: `Arrived` (pieces as files), `Passes` (what contracts see), `Seen` (the libraries that passes have),
//! `Pages` (what is told of a page), `Spent` (what is decoded), `Keeps` (what holds between calls), `Steps`, `Looks`, `Calls` and
//! `Finish` (what calls answer, and make of passes), and `Everyone` (all passes together).
#![tactic(auto)]

mod answers;
pub mod laws;

pub use answers::{PageAnswer, SessionStep, Shown};
