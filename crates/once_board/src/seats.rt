//! Seats: what a thread needs to step on a board.
ghost use Rattle.once_board.specs.Told.{IsSound};

use crate::steps::TableSeat;
use djvu_base::Share;
use std::marker::Model;

/// A seat of a board. It has no bytes: it is what its owner holds (rights, parts, claims) and knows (of each place), which
/// contracts alone see. It may go from thread to thread.
#[derive(Drop)]
pub struct BoardSeat<T: Share> {
    pub(crate) seat: TableSeat<T>,
}

impl<T: Share> Model for BoardSeat<T> {
    ghost use Rattle.once_board.specs.Boards.{SeatView, IsReady};

    ghost Value = { SeatView T };

    ghost view = { λ a. record { board = a.seat.table_id; hold = a.seat.me.0.hold } };

    ghost invariant = { λ a. IsReady T.fits a.seat.me };
}

impl<T: Share> BoardSeat<T> {
    /// What holds of every seat: a place whose value it knows is known as open, each value that it knows may stand at its
    /// place, and it has no right twice. No place is among its claims twice or more often among its puts, and it knows no
    /// value of a place among its claims that isn't among its puts. It knows its claims as claimed or open, and has a part
    /// where it has one. With all parts its claims have each place that it knows as claimed or open. The call does nothing.
    pub fn laws(&self)
        ensures { IsSound T.fits self.now.hold }
    {
        let _seat = &self.seat;
    }
}
