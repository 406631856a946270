//! The pool: how it is made, fed and read.
ghost use Rattle.std.specs.Prelude.{◌≡◌, ℕ, suc, ◌≤◌, ◌<◌, length, replicate, true, false, IfOk};
ghost use Rattle.once_board.specs.Boards.{IsFirst, Looks};
ghost use Rattle.once_board.specs.Filled.{count_of, none_filled};
ghost use Rattle.once_board.specs.Holds.{Extends, OwnsAll, SameHoldings};
ghost use Rattle.data_pool.specs.Pieces.{is_end, may_stand};
ghost use Rattle.data_pool.specs.Pools.{IsPool, IsSeatOf, MayFeed, place_of};
ghost use Rattle.data_pool.specs.Calls.{Appends, Ends, PutOne, PutsBytes, filled};

use crate::pieces::{Piece, SharedBytes};
use crate::seats::PoolSeat;
use once_board::{Board, Looking, RowCount, row_owners};
use std::alloc::{AllocError, Global};
use std::marker::Model;

/// Places of a file: 2,048 for pieces of bytes, and one more for its end.
const PLACES: u32 = 2_049;

/// What appending answers.
#[derive(Debug, Drop)]
pub enum Append {
    /// The bytes are put, or there are none, and nothing changed.
    Ok,
    /// Exactly where the file isn't ended and has 2,048 pieces. The bytes come back.
    Full(Vec<u8>),
    /// Exactly where this feeder ended the file. The bytes come back.
    Ended(Vec<u8>),
    /// There was no memory to share the bytes. They come back.
    OutOfMemory(Vec<u8>),
}

/// The pieces of some files. Threads share it by reference, and each calls with a seat of its own.
#[derive(Drop)]
pub struct Pool {
    pub(crate) board: Board<Piece>,
    pub(crate) files: u32,
    pub(crate) feeders: u32,
    pub(crate) alloc: Global,
}

impl Model for Pool {
    ghost use Rattle.data_pool.specs.Pools.{PoolView, IsPool};

    ghost Value = { PoolView };

    ghost view = { λ a. record { board = a.board; files = a.files; feeders = a.feeders } };

    ghost invariant = { λ a. IsPool (record { board = a.board; files = a.files; feeders = a.feeders }) };
}

impl Pool {
    /// A pool of so many files and feeders, and its first seat, which holds every right. File f belongs to the right f % feeders.
    pub fn new(alloc: Global, files: u32, feeders: u32) -> Result<(Pool, PoolSeat), AllocError>
        requires few { files ≤ 1_024 }
        requires fed { 0 < feeders }
        ensures pool { IfOk result (λ made. (made.0.files ≡ files) × (made.0.feeders ≡ feeders)) }
        ensures seat { IfOk result (λ made. IsSeatOf made.0 made.1) }
        ensures first { IfOk result (λ made. IsFirst made.1.hold) }
        ensures counts { IfOk result (λ made. made.1.counts ≡ replicate files none_filled) }
    {
        let counts = no_counts(alloc, files as usize)?;
        let owners = row_owners(alloc, files, PLACES, feeders)?;
        let (board, seat) = Board::new(alloc, owners)?;
        let pool = Pool {
            board,
            files,
            feeders,
            alloc,
        };
        let seat = PoolSeat {
            seat,
            feeders,
            counts,
        };
        Ok((pool, seat))
    }

    /// What holds of every pool: its board has a row of 2,049 places for each file. The call does nothing.
    pub fn laws(&self)
        ensures { IsPool self.now }
    {
        let _pool = &self.board;
    }

    /// Puts a piece at the next place of a file.
    fn fill(&self, seat: &mut PoolSeat, file: u32, piece: Piece)
        requires seat { IsSeatOf self.now seat.old }
        requires may { MayFeed seat.old file }
        requires unended { (count_of seat.old.counts file).ended ≡ false }
        requires room { is_end piece ≡ false → (count_of seat.old.counts file).filled < 2_048 }
        ensures filled { seat.new ≡ filled file piece seat.old }
        ensures put { PutOne file piece seat.old seat.new }
        ensures held { (seat.new.hold.rights ≡ seat.old.hold.rights) × (seat.new.hold.parts ≡ seat.old.hold.parts) }
        ensures extends { Extends seat.old.hold seat.new.hold }
    {
        let _pool = &self.board;
        let count = seat.counts[file as usize];
        let next = count.further(piece.is_end());
        let place = file * PLACES + count.filled;
        self.board.fill(&mut seat.seat, place, piece);
        seat.counts[file as usize] = next;
    }

    /// Appends bytes to a file of this feeder. They aren't copied.
    pub fn append(&self, seat: &mut PoolSeat, file: u32, bytes: Vec<u8>) -> Append
        requires seat { IsSeatOf self.now seat.old }
        requires may { MayFeed seat.old file }
        ensures seat { IsSeatOf self.now seat.new }
        ensures answer { Appends file bytes.items seat.old seat.new result }
        ensures put { PutsBytes file bytes.items seat.old seat.new result }
        ensures held { (seat.new.hold.rights ≡ seat.old.hold.rights) × (seat.new.hold.parts ≡ seat.old.hold.parts) }
        ensures feeds { (other : ℕ) → MayFeed seat.old other → MayFeed seat.new other }
        ensures extends { Extends seat.old.hold seat.new.hold }
    {
        let count = seat.counts[file as usize];
        if count.ended {
            return Append::Ended(bytes);
        }
        if count.filled == PLACES - 1 {
            return Append::Full(bytes);
        }
        if bytes.is_empty() {
            return Append::Ok;
        }
        match SharedBytes::new(self.alloc, bytes) {
            Ok(bytes) => {
                self.fill(seat, file, Piece::Bytes(bytes));
                Append::Ok
            }
            Err(bytes) => Append::OutOfMemory(bytes),
        }
    }

    /// Ends a file of this feeder. False exactly where this feeder ended it before. It takes no memory.
    pub fn end(&self, seat: &mut PoolSeat, file: u32, how: Piece) -> bool
        requires seat { IsSeatOf self.now seat.old }
        requires may { MayFeed seat.old file }
        requires how { is_end how ≡ true }
        ensures seat { IsSeatOf self.now seat.new }
        ensures answer { Ends file how seat.old seat.new result }
        ensures put { result ≡ true → PutOne file how seat.old seat.new }
        ensures held { (seat.new.hold.rights ≡ seat.old.hold.rights) × (seat.new.hold.parts ≡ seat.old.hold.parts) }
        ensures feeds { (other : ℕ) → MayFeed seat.old other → MayFeed seat.new other }
        ensures extends { Extends seat.old.hold seat.new.hold }
    {
        let count = seat.counts[file as usize];
        if count.ended {
            return false;
        }
        self.fill(seat, file, how);
        true
    }

    /// Reads a file at a position.
    pub fn next(&self, seat: &mut PoolSeat, file: u32, at: u32) -> Looking<Piece>
        requires seat { IsSeatOf self.now seat.old }
        requires inside { (file < self.now.files) × (at < 2_049) }
        ensures seat { IsSeatOf self.now seat.new }
        ensures answer { Looks may_stand (place_of file at) seat.old.hold seat.new.hold result }
        ensures counts { seat.new.counts ≡ seat.old.counts }
        ensures held { SameHoldings seat.old.hold seat.new.hold }
        ensures feeds { (other : ℕ) → MayFeed seat.old other → MayFeed seat.new other }
        ensures extends { Extends seat.old.hold seat.new.hold }
        ensures owns { OwnsAll self.now.board.owners seat.old.hold seat.new.hold }
    {
        let _pool = &self.board;
        self.board.look(&mut seat.seat, file * PLACES + at)
    }
}

/// The counts of so many files of which nothing is put.
pub(crate) fn no_counts(alloc: Global, files: usize) -> Result<Vec<RowCount>, AllocError>
    ensures { IfOk result (λ counts. counts.items ≡ replicate files none_filled) }
{
    vec![in alloc; RowCount::NONE; files]
}
