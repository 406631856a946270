//! Seats of a pool.
ghost use Rattle.data_pool.specs.Pools.{InPool};
ghost use Rattle.data_pool.specs.Pieces.{may_stand};
ghost use Rattle.once_board.specs.Told.{IsSound};

use crate::pieces::Piece;
use once_board::{BoardSeat, RowCount};
use std::marker::Model;

/// A seat of a pool: with it a thread reads, and feeds the files of its rights.
#[derive(Drop)]
pub struct PoolSeat {
    pub(crate) seat: BoardSeat<Piece>,
    pub(crate) feeders: u32,
    /// Of each file, what this seat put of it.
    pub(crate) counts: Vec<RowCount>,
}

impl Model for PoolSeat {
    ghost use Rattle.data_pool.specs.Pools.{PoolSeatView, InPool};

    ghost Value = { PoolSeatView };

    ghost view = { λ a. record { board = a.seat.board; hold = a.seat.hold; feeders = a.feeders; counts = a.counts.items } };

    ghost invariant = { λ a. InPool (record { board = a.seat.board; hold = a.seat.hold; feeders = a.feeders; counts = a.counts.items }) };
}

impl PoolSeat {
    /// What holds of every seat of a pool. The call does nothing.
    pub fn laws(&self)
        ensures rows { InPool self.now }
        ensures sound { IsSound may_stand self.now.hold }
    {
        self.seat.laws();
    }
}
