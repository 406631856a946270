//! A board: a fixed number of places, each of which is claimed once and filled once, by any threads in any order.
//!
//! Threads share a board by reference, and each steps with a seat of its own. A seat has no bytes: what it holds and knows
//! (`Hold`) is there for contracts alone. So a call costs its atomic steps and nothing more, and who may claim a place is
//! shown by the caller and never tested.
//!
//! Words and slots are a table of `atomic_table`. `rule` names the rule that every step keeps (`specs/Rule`), `steps`,
//! `moves` and `looks` have the steps, and `board` and `joining` the calls. `specs/Holds` says what each call makes of a
//! seat, `specs/Boards` what it answers, and `specs/Stated` the rule in plain words. `specs/Numbers` and `specs/Places` are
//! how rights, claims and records are kept, `specs/Told` is what each step tells its seat, and `specs/Worked` has seats that are
//! worked out. `specs/Rows`, `specs/Filled` (with `counts`) and
//! `specs/Gathered` are for the crates above, and so are the lemmas in `proofs/Lemmas`.
#![tactic(auto)]

mod answers;
mod board;
mod counts;
mod holds;
mod joining;
pub mod laws;
mod looks;
mod moves;
mod owners;
mod rule;
mod seats;
mod steps;

pub use answers::{Claiming, Looking};
pub use board::Board;
pub use counts::{RowCount, bring_together, hand_over};
pub use holds::{Hold, Known};
pub use owners::{Owner, free_owners, row_owners};
pub use seats::BoardSeat;
