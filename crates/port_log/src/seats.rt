//! Seats of a log.
ghost use Rattle.std.specs.Prelude.{◌≡◌, ◌<◌};
ghost use Rattle.once_board.specs.Filled.{count_of};
ghost use Rattle.once_board.specs.Told.{IsSound};
ghost use Rattle.port_log.specs.Entries.{may_stand};
ghost use Rattle.port_log.specs.Logs.{InLog};

use crate::entries::Entry;
use once_board::{BoardSeat, RowCount};
use std::marker::Model;

/// Most pages of a log.
pub(crate) const MOST_PAGES: usize = 8;

/// A seat of a log: with it a thread reads, and announces entries of the pages of its rights.
#[derive(Drop)]
pub struct LogSeat {
    pub(crate) seat: BoardSeat<Entry>,
    pub(crate) pages: u32,
    pub(crate) workers: u32,
    /// Of each page, what this seat announced of it.
    pub(crate) counts: [RowCount; 8],
}

impl Model for LogSeat {
    ghost use Rattle.port_log.specs.Logs.{LogSeatView, InLog};

    ghost Value = { LogSeatView };

    ghost view = { λ a. record { board = a.seat.board; hold = a.seat.hold; pages = a.pages; workers = a.workers; counts = a.counts } };

    ghost invariant = { λ a. InLog (record { board = a.seat.board; hold = a.seat.hold; pages = a.pages; workers = a.workers; counts = a.counts }) };
}

impl LogSeat {
    /// What holds of every seat of a log. The call does nothing.
    pub fn laws(&self)
        ensures rows { InLog self.now }
        ensures sound { IsSound may_stand self.now.hold }
    {
        self.seat.laws();
    }

    /// How many notices this seat announced of a page, and whether its end.
    pub fn count(&self, page: u32) -> RowCount
        requires { page < 8 }
        ensures { result ≡ count_of self.now.counts page }
    {
        self.counts[page as usize]
    }
}
