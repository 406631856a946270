//! Pools: the bytes of files, piece by piece, as feeders put them and all others read them.
//!
//! A pool stands on a board (`once_board`): each file is a row of 2,049 places, private to the right of its one feeder and filled
//! from its start. At its end stands an end. Readers get shares of pieces, whose bytes are never copied. `specs/Pools` says what
//! contracts see of pools and seats, `specs/Pieces` which pieces end a file, and `specs/Calls` what the calls make of a seat.
#![tactic(auto)]

pub mod laws;
mod pieces;
mod pool;
mod seats;
mod sharing;

pub use once_board::{Looking, RowCount};
pub use pieces::{Piece, SharedBytes};
pub use pool::{Append, Pool};
pub use seats::PoolSeat;
