//! Seats of a shelf.
ghost use Rattle.once_board.specs.Told.{IsSound};

use djvu_base::Share;
use once_board::BoardSeat;
use std::marker::Model;

/// A seat of a shelf: with it a thread takes on files, publishes results and reads them.
#[derive(Drop)]
pub struct ShelfSeat<R: Share> {
    pub(crate) seat: BoardSeat<R>,
}

impl<R: Share> Model for ShelfSeat<R> {
    ghost use Rattle.once_board.specs.Boards.{SeatView};

    ghost Value = { SeatView R };

    ghost view = { λ a. a.seat };
}

impl<R: Share> ShelfSeat<R> {
    /// What holds of every seat of a shelf. The call does nothing.
    pub fn laws(&self)
        ensures { IsSound R.fits self.now.hold }
    {
        self.seat.laws();
    }
}
