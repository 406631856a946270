//! The shelf: the result of each included file, decoded by one worker and read by all.
//!
//! A shelf stands on a board (`once_board`) with a free place for each file. Who claims a file has to publish its result: a claim
//! can't be dropped. `specs/Shelves` says what contracts see of a shelf, and what taking on a file answers. The results may be of
//! any type that has shares.
#![tactic(auto)]

pub mod laws;
mod seats;
mod shelf;
mod taking;

pub use once_board::Looking;
pub use seats::ShelfSeat;
pub use shelf::Shelf;
pub use taking::{FileClaim, Taking};
