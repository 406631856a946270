//! The shelf: how it is made, and how files are taken on, published and read.
ghost use Rattle.std.specs.Prelude.{◌≡◌, ℕ, ◌+◌, ◌≤◌, ◌<◌, [], length, IfOk, None};
ghost use Rattle.once_board.specs.Boards.{IsFirst, Looks};
ghost use Rattle.once_board.specs.Holds.{put_at, split_kept, split_off, joined, Agrees, Extends, OwnsAll, SameHoldings};
ghost use Rattle.once_board.specs.Numbers.{times};
ghost use Rattle.once_board.specs.Places.{record_of};
ghost use Rattle.file_shelf.specs.Shelves.{IsShelf, TakesAfter, TakesOn, IsRead};

use crate::seats::ShelfSeat;
use crate::taking::{FileClaim, Taking};
use djvu_base::Share;
use once_board::{Board, Claiming, Looking, free_owners};
use std::alloc::{AllocError, Global};
use std::marker::Model;

/// The results of some files. Threads share it by reference, and each calls with a seat of its own.
#[derive(Drop)]
pub struct Shelf<R: Share> {
    board: Board<R>,
}

impl<R: Share> Model for Shelf<R> {
    ghost use Rattle.once_board.specs.Boards.{BoardView};
    ghost use Rattle.file_shelf.specs.Shelves.{IsShelf};

    ghost Value = { BoardView };

    ghost view = { λ a. a.board };

    ghost invariant = { λ a. IsShelf a.board.owners };
}

impl<R: Share> Shelf<R> {
    /// A shelf of so many files, and its first seat.
    pub fn new(alloc: Global, files: u32) -> Result<(Shelf<R>, ShelfSeat<R>), AllocError>
        requires { files ≤ 1_024 }
        ensures files { IfOk result (λ made. length made.0.owners ≡ files) }
        ensures board { IfOk result (λ made. made.1.board ≡ made.0.board) }
        ensures first { IfOk result (λ made. IsFirst made.1.hold) }
    {
        let owners = free_owners(alloc, files)?;
        let (board, seat) = Board::new(alloc, owners)?;
        Ok((Shelf { board }, ShelfSeat { seat }))
    }

    /// What holds of every shelf: it has a free place for each file, and no more. The call does nothing.
    pub fn laws(&self)
        ensures { IsShelf self.now.owners }
    {
        let _shelf = &self.board;
    }

    /// Reads the result of a file.
    pub fn look(&self, seat: &mut ShelfSeat<R>, file: u32) -> Looking<R>
        requires board { seat.old.board ≡ self.now.board }
        requires inside { file < length self.now.owners }
        ensures board { seat.new.board ≡ seat.old.board }
        ensures answer { Looks R.fits file seat.old.hold seat.new.hold result }
        ensures held { SameHoldings seat.old.hold seat.new.hold }
        ensures extends { Extends seat.old.hold seat.new.hold }
        ensures owns { OwnsAll self.now.owners seat.old.hold seat.new.hold }
    {
        self.board.look(&mut seat.seat, file)
    }

    /// Reads the result of a file that is known as open.
    fn read(&self, seat: &mut ShelfSeat<R>, file: u32) -> Taking<R>
        requires board { seat.old.board ≡ self.now.board }
        requires inside { file < length self.now.owners }
        requires opened { 2 ≤ (record_of seat.old.hold.places file).word }
        ensures board { seat.new.board ≡ seat.old.board }
        ensures read { IsRead result }
        ensures answer { TakesAfter R.fits [] file seat.old.hold seat.new.hold result }
        ensures extends { Extends seat.old.hold seat.new.hold }
    {
        match self.board.look(&mut seat.seat, file) {
            Looking::Value(result) => Taking::Ready(result),
            Looking::OutOfMemory => Taking::OutOfMemory,
            Looking::Busy(word) => Taking::Taken(word),
            Looking::NotYet(_) => unreachable!(),
        }
    }

    /// Claims a file, or reads its result. Nothing is known of the file.
    fn claim(&self, seat: &mut ShelfSeat<R>, file: u32) -> Taking<R>
        requires board { seat.old.board ≡ self.now.board }
        requires inside { file < length self.now.owners }
        requires part { 1 ≤ seat.old.hold.parts }
        requires unclaimed { times file seat.old.hold.claims ≡ 0 }
        ensures board { seat.new.board ≡ seat.old.board }
        ensures answer { TakesAfter R.fits [] file seat.old.hold seat.new.hold result }
        ensures extends { Extends seat.old.hold seat.new.hold }
    {
        let _shelf = &self.board;
        match self.board.claim(&mut seat.seat, file) {
            Claiming::Won => Taking::Claimed(FileClaim { number: file }),
            Claiming::Taken(2) => self.read(seat, file),
            Claiming::Taken(word) => Taking::Taken(word),
        }
    }

    /// Claims a file, or reads its result. It looks first, and claims only where nobody claimed the file yet.
    pub fn take_on(&self, seat: &mut ShelfSeat<R>, file: u32) -> Taking<R>
        requires board { seat.old.board ≡ self.now.board }
        requires inside { file < length self.now.owners }
        requires part { 1 ≤ seat.old.hold.parts }
        ensures board { seat.new.board ≡ seat.old.board }
        ensures answer { TakesOn R.fits file seat.old.hold seat.new.hold result }
        ensures extends { Extends seat.old.hold seat.new.hold }
    {
        match self.board.look(&mut seat.seat, file) {
            Looking::Value(result) => Taking::Ready(result),
            Looking::OutOfMemory => Taking::OutOfMemory,
            Looking::Busy(word) => Taking::Taken(word),
            Looking::NotYet(0) => self.claim(seat, file),
            Looking::NotYet(word) => Taking::Taken(word),
        }
    }

    /// Publishes the result of a claimed file, and spends the claim. It takes no memory.
    pub fn publish(&self, seat: &mut ShelfSeat<R>, claim: FileClaim, found: R)
        requires board { seat.old.board ≡ self.now.board }
        requires inside { claim < length self.now.owners }
        requires won { 1 ≤ times claim seat.old.hold.claims }
        requires unpublished { times claim seat.old.hold.puts ≡ 0 }
        requires fits { R.fits claim found }
        ensures board { seat.new.board ≡ seat.old.board }
        ensures published { seat.new.hold ≡ put_at claim found seat.old.hold }
        ensures extends { Extends seat.old.hold seat.new.hold }
    {
        let FileClaim { number } = claim;
        self.board.put(&mut seat.seat, number, found);
    }

    /// Splits a seat off, which knows what the seat knows. Of two or more parts it gets one. It takes no memory.
    pub fn split(&self, seat: &mut ShelfSeat<R>) -> ShelfSeat<R>
        requires { seat.old.board ≡ self.now.board }
        ensures board { (seat.new.board ≡ seat.old.board) × (result.board ≡ seat.old.board) }
        ensures kept { seat.new.hold ≡ split_kept None seat.old.hold }
        ensures split_off { result.hold ≡ split_off None seat.old.hold }
    {
        let seat = self.board.split(&mut seat.seat, None);
        ShelfSeat { seat }
    }

    /// Brings the parts, claims and knowledge of another seat to a seat. It takes no memory.
    pub fn join(&self, seat: &mut ShelfSeat<R>, other: ShelfSeat<R>)
        requires board { (seat.old.board ≡ self.now.board) × (other.board ≡ self.now.board) }
        ensures board { seat.new.board ≡ seat.old.board }
        ensures joined { seat.new.hold ≡ joined seat.old.hold other.hold }
        ensures agree { Agrees seat.old.hold other.hold }
        ensures claimed_once { (file : ℕ) → times file seat.old.hold.claims + times file other.hold.claims ≤ 1 }
        ensures put_once { (file : ℕ) → times file seat.old.hold.puts + times file other.hold.puts ≤ 1 }
        ensures extends { Extends seat.old.hold seat.new.hold × Extends other.hold seat.new.hold }
        ensures owns { OwnsAll self.now.owners seat.old.hold seat.new.hold × OwnsAll self.now.owners other.hold seat.new.hold }
    {
        let ShelfSeat { seat: others } = other;
        self.board.join(&mut seat.seat, others);
    }
}
