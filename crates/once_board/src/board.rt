//! The board: how it is made, claimed, filled and ended.
ghost use Rattle.std.specs.Prelude.{◌≡◌, ℕ, ◌^◌, ◌≤◌, ◌<◌, length, replicate, IfOk, Some};
ghost use Rattle.once_board.specs.declared.answers.Claiming.TheVariants.{Won};
ghost use Rattle.once_board.specs.Numbers.{times};
ghost use Rattle.once_board.specs.Places.{IsPrivate, record_of, opened};
ghost use Rattle.once_board.specs.Holds.{MayClaim, won, put_at, Extends, OwnsAll, SameHoldings};
ghost use Rattle.once_board.specs.Boards.{IsFirst, Claims, Looks};
ghost use Rattle.once_board.specs.Told.{IsSound, WasNew};

use crate::answers::{Claiming, Looking};
use crate::holds::Seen;
use crate::looks::{share_value, take_turn};
use crate::owners::Owner;
use crate::rule::OnceRule;
use crate::seats::BoardSeat;
use crate::steps::{claim_word, fill_place};
use atomic_table::Table;
use djvu_base::{Items, Share};
use std::alloc::{AllocError, Global};
use std::marker::{Brand, Model};

/// A fixed number of places, each of which is claimed once and then filled once. All calls but `new` and `close` go
/// through a `&`, so threads share a board as it is.
#[derive(Drop)]
pub struct Board<T: Share> {
    pub(crate) table: Table<Option<T>, Seen<T>, Items<Owner>, OnceRule, Global>,
}

impl<T: Share> Model for Board<T> {
    ghost use Rattle.once_board.specs.Boards.{BoardView, IsSized};

    ghost Value = { BoardView };

    ghost view = { λ a. record { board = a.table.shared.table_id; owners = a.table.shared.key } };

    ghost invariant = { λ a. IsSized a.table.shared.table_id a.table.shared.key };
}

/// So many words that are 0.
fn zeros(alloc: Global, count: usize) -> Result<Vec<u64>, AllocError>
    ensures { IfOk result (λ words. words.items ≡ replicate count 0) }
{
    vec![in alloc; 0u64; count]
}

impl<T: Share> Board<T> {
    /// A board with a place for each of these owners, all of them unclaimed, and its first seat, which holds every right.
    pub fn new(alloc: Global, owners: Vec<Owner>) -> Result<(Board<T>, BoardSeat<T>), AllocError>
        requires few { length owners.items < 2 ^ 32 }
        ensures owners { IfOk result (λ made. made.0.owners ≡ owners.items) }
        ensures board { IfOk result (λ made. made.1.board ≡ made.0.board) }
        ensures seat { IfOk result (λ made. IsFirst made.1.hold) }
        ensures sound { IfOk result (λ made. IsSound T.fits made.1.hold) }
    {
        let owners = Items::of(owners);
        let count = owners.slice().len();
        let words = zeros(alloc, count + 1)?;
        let (table, seat) = Table::vacant(alloc, words.as_slice(), count, &owners)?;
        Ok((Board { table }, BoardSeat { seat }))
    }

    /// Claims a free place, or one that is private to a right of the seat. A place is claimed at most once.
    pub fn claim(&self, seat: &mut BoardSeat<T>, place: u32) -> Claiming
        requires board { seat.old.board ≡ self.now.board }
        requires place { place < length self.now.owners }
        requires part { 1 ≤ seat.old.hold.parts }
        requires may { MayClaim self.now.owners place seat.old.hold }
        ensures board { seat.new.board ≡ seat.old.board }
        ensures answer { Claims self.now.owners place seat.old.hold seat.new.hold result }
        ensures held { (seat.new.hold.rights ≡ seat.old.hold.rights) × (seat.new.hold.parts ≡ seat.old.hold.parts) × (seat.new.hold.puts ≡ seat.old.hold.puts) }
        ensures extends { Extends seat.old.hold seat.new.hold }
        ensures private { (right : ℕ) → IsPrivate self.now.owners place right → result ≡ Won }
        ensures sound { IsSound T.fits seat.new.hold }
    {
        let word = claim_word::<T, Brand>(&self.table.shared, &mut seat.seat, place);
        if word == 0 {
            Claiming::Won
        } else {
            Claiming::Taken(word)
        }
    }

    /// Fills a place that the seat, or one joined into it, won, and opens it to all. It takes no memory.
    pub fn put(&self, seat: &mut BoardSeat<T>, place: u32, value: T)
        requires board { seat.old.board ≡ self.now.board }
        requires place { place < length self.now.owners }
        requires won { 1 ≤ times place seat.old.hold.claims }
        requires unfilled { times place seat.old.hold.puts ≡ 0 }
        requires fits { T.fits place value }
        ensures board { seat.new.board ≡ seat.old.board }
        ensures put { seat.new.hold ≡ put_at place value seat.old.hold }
        ensures extends { Extends seat.old.hold seat.new.hold }
        ensures place { record_of seat.new.hold.places place ≡ opened value (record_of seat.old.hold.places place) }
        ensures sound { IsSound T.fits seat.new.hold }
    {
        fill_place(&self.table.shared, &mut seat.seat, place, value);
    }

    /// Claims a place that is private to a right of the seat, and fills it. It takes no memory.
    pub fn fill(&self, seat: &mut BoardSeat<T>, place: u32, value: T)
        requires board { seat.old.board ≡ self.now.board }
        requires place { place < length self.now.owners }
        requires part { 1 ≤ seat.old.hold.parts }
        requires mine { (right : ℕ) × IsPrivate self.now.owners place right × (1 ≤ times right seat.old.hold.rights) }
        requires unclaimed { (record_of seat.old.hold.places place).word ≡ 0 }
        requires fits { T.fits place value }
        ensures board { seat.new.board ≡ seat.old.board }
        ensures filled { seat.new.hold ≡ put_at place value (won place seat.old.hold) }
        ensures new { WasNew place seat.old.hold }
        ensures extends { Extends seat.old.hold seat.new.hold }
        ensures place { (record_of seat.new.hold.places place).value ≡ Some value }
        ensures sound { IsSound T.fits seat.new.hold }
    {
        let Claiming::Won = self.claim(seat, place) else {
            unreachable!()
        };
        self.put(seat, place, value);
    }

    /// Reads a place. Where it is open and no seat has its turn, the value is shared under a turn, which is given back.
    pub fn look(&self, seat: &mut BoardSeat<T>, place: u32) -> Looking<T>
        requires board { seat.old.board ≡ self.now.board }
        requires place { place < length self.now.owners }
        ensures board { seat.new.board ≡ seat.old.board }
        ensures answer { Looks T.fits place seat.old.hold seat.new.hold result }
        ensures held { SameHoldings seat.old.hold seat.new.hold }
        ensures extends { Extends seat.old.hold seat.new.hold }
        ensures owns { OwnsAll self.now.owners seat.old.hold seat.new.hold }
        ensures sound { IsSound T.fits seat.new.hold }
    {
        let table = &self.table.shared;
        let word = take_turn::<T, Brand>(table, &mut seat.seat, place);
        if word < 2 {
            return Looking::NotYet(word);
        }
        if word == 3 {
            return Looking::Busy(word);
        }
        match share_value(table, &mut seat.seat, place) {
            Ok(value) => Looking::Value(value),
            Err(_) => Looking::OutOfMemory,
        }
    }

    /// Ends the board. Values at its places are dropped.
    pub fn close(self, seat: BoardSeat<T>)
    where
        T: Drop,
        requires { seat.board ≡ self.board }
    {
        drop(seat);
        drop(self);
    }
}
