//! What every crate of the viewer speaks of: names of files, how files end, faults and their places, meters,
//! rasters, turns of pages, notices, lists and shares.
//!
//! `specs/` has the definitions that the contracts cite: `Name` (what a name is, the order of names, and lists of names),
//! `Library` (the files that a run works on), `FaultKind` (the words of faults), `Meter` (how ticks raise a count), `Text`
//! (bytes of text), `Picture` (what a raster holds), `Turn` (what an `INFO` says of it) and `Announced` (what a notice tells). `proofs/Ticks` has the lemmas that crates above may cite.
#![tactic(auto)]

mod ends;
mod faults;
pub mod laws;
mod lists;
mod meters;
mod names;
mod notices;
mod rasters;
mod shares;
mod turns;

pub use ends::FileEnd;
pub use faults::{Fault, FaultKind, Place};
pub use lists::Items;
pub use meters::{CountMeter, Meter};
pub use names::{Name, is_listed};
pub use notices::Notice;
pub use rasters::Raster;
pub use shares::Share;
pub use turns::Turn;
