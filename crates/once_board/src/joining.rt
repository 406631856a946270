//! How seats of a board are split, joined and told of what others know.
ghost use Rattle.std.specs.Prelude.{◌≡◌, ℕ, ◌+◌, ◌≤◌, Some};
ghost use Rattle.once_board.specs.Numbers.{times};
ghost use Rattle.once_board.specs.Places.{record_of, met, unread};
ghost use Rattle.once_board.specs.Holds.{split_kept, split_off, joined, told, told_record, Agrees, Extends, OwnsAll};
ghost use Rattle.once_board.specs.Told.{IsSound};

use crate::board::Board;
use crate::moves::{join_seats, split_seat, tell_seat};
use crate::seats::BoardSeat;
use djvu_base::Share;
use std::marker::Brand;

impl<T: Share> Board<T> {
    /// Splits a seat off, which knows what the seat knows. A right that is named goes to it, and of two or more parts one.
    pub fn split(&self, seat: &mut BoardSeat<T>, right: Option<u32>) -> BoardSeat<T>
        requires board { seat.old.board ≡ self.now.board }
        requires right { (r : ℕ) → right ≡ Some r → 1 ≤ times r seat.old.hold.rights }
        ensures board { (seat.new.board ≡ seat.old.board) × (result.board ≡ seat.old.board) }
        ensures kept { seat.new.hold ≡ split_kept right seat.old.hold }
        ensures split_off { result.hold ≡ split_off right seat.old.hold }
        ensures places { (place : ℕ) → record_of result.hold.places place ≡ unread (record_of seat.old.hold.places place) }
        ensures sound { IsSound T.fits seat.new.hold × IsSound T.fits result.hold }
    {
        let seat = split_seat::<T, Brand>(&self.table.shared, &mut seat.seat, right);
        BoardSeat { seat }
    }

    /// Brings the rights, parts, claims and knowledge of another seat to a seat.
    pub fn join(&self, seat: &mut BoardSeat<T>, other: BoardSeat<T>)
        requires board { (seat.old.board ≡ self.now.board) × (other.board ≡ self.now.board) }
        ensures board { seat.new.board ≡ seat.old.board }
        ensures joined { seat.new.hold ≡ joined seat.old.hold other.hold }
        ensures places { (place : ℕ) → record_of seat.new.hold.places place ≡ met (record_of seat.old.hold.places place) (record_of other.hold.places place) }
        ensures agree { Agrees seat.old.hold other.hold }
        ensures apart { (place : ℕ) → times place seat.old.hold.claims + times place other.hold.claims ≤ 1 }
        ensures one_holder { (right : ℕ) → times right seat.old.hold.rights + times right other.hold.rights ≤ 1 }
        ensures put_once { (place : ℕ) → times place seat.old.hold.puts + times place other.hold.puts ≤ 1 }
        ensures rights { (right : ℕ) → times right seat.new.hold.rights ≡ times right seat.old.hold.rights + times right other.hold.rights }
        ensures claims { (place : ℕ) → times place seat.new.hold.claims ≡ times place seat.old.hold.claims + times place other.hold.claims }
        ensures puts { (place : ℕ) → times place seat.new.hold.puts ≡ times place seat.old.hold.puts + times place other.hold.puts }
        ensures extends { Extends seat.old.hold seat.new.hold × Extends other.hold seat.new.hold }
        ensures owns { OwnsAll self.now.owners seat.old.hold seat.new.hold × OwnsAll self.now.owners other.hold seat.new.hold }
        ensures sound { IsSound T.fits seat.new.hold }
    {
        let BoardSeat { seat: other } = other;
        join_seats::<T, Brand>(&self.table.shared, &mut seat.seat, other);
    }

    /// Tells a seat what another knows. No right, part or claim moves.
    pub fn tell(&self, to: &mut BoardSeat<T>, from: &mut BoardSeat<T>)
        requires board { (to.old.board ≡ self.now.board) × (from.old.board ≡ self.now.board) }
        ensures board { (to.new.board ≡ to.old.board) × (from.new.board ≡ from.old.board) }
        ensures told { to.new.hold ≡ told to.old.hold from.old.hold }
        ensures same { from.new.hold ≡ from.old.hold }
        ensures places { (place : ℕ) → record_of to.new.hold.places place ≡ told_record to.old.hold from.old.hold place }
        ensures agree { Agrees to.old.hold from.old.hold }
        ensures extends { Extends to.old.hold to.new.hold × Extends from.old.hold to.new.hold }
        ensures owns { OwnsAll self.now.owners to.old.hold to.new.hold × OwnsAll self.now.owners from.old.hold to.new.hold }
        ensures sound { IsSound T.fits to.new.hold }
    {
        tell_seat::<T, Brand>(&self.table.shared, &mut to.seat, &mut from.seat);
    }
}
