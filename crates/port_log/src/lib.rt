//! Logs: what is announced of pages, entry by entry, as workers put it and all others read it.
//!
//! A log stands on a board (`once_board`): each page is a row of 260 places, private to the right of its one worker and filled
//! from its start. After up to 259 notices stands the page's end. `specs/Logs` says what contracts see of logs and seats,
//! `specs/Entries` which entries end a page's log, and `specs/Calls` what the calls make of a seat.
#![tactic(auto)]

mod entries;
pub mod laws;
mod log;
mod seats;
mod sharing;

pub use entries::{Entry, PageEnd};
pub use log::PortLog;
pub use once_board::{Looking, RowCount};
pub use seats::LogSeat;
