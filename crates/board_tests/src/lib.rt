//! Tests of the board, over its public calls alone.
//!
//! `passes` is also a probe of what the board offers to the crates above it: seats of a board of rows are joined in a loop, and
//! the contract says that what one pass read of a row is a prefix of what another put. `specs/Passes.antt` has its words.
#![tactic(auto)]

mod passes;
#[cfg(test)]
mod tests;

pub use passes::{Pass, join_passes, put_next, read_next, row_board, split_pass};
