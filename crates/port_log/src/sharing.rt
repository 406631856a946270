//! How seats of a log are split, joined and told of what others know.
ghost use Rattle.std.specs.Prelude.{◌≡◌, ℕ, ◌+◌, ◌≤◌, Some};
ghost use Rattle.once_board.specs.Filled.{HandedOver, BroughtTogether};
ghost use Rattle.once_board.specs.Holds.{split_kept, split_off, joined, told, Agrees, Extends, OwnsAll};
ghost use Rattle.once_board.specs.Numbers.{times};
ghost use Rattle.port_log.specs.Logs.{IsSeatOf, MayAnnounce};

use crate::log::PortLog;
use crate::seats::{LogSeat, MOST_PAGES};
use once_board::{RowCount, bring_together, hand_over};

impl PortLog {
    /// Splits a seat off, which knows what the seat knows. A right that is named goes to it, with the counts of its pages, and of
    /// two or more parts one. It takes no memory.
    pub fn split(&self, seat: &mut LogSeat, right: Option<u32>) -> LogSeat
        requires seat { IsSeatOf self.now seat.old }
        requires right { (r : ℕ) → right ≡ Some r → 1 ≤ times r seat.old.hold.rights }
        ensures seats { IsSeatOf self.now seat.new × IsSeatOf self.now result }
        ensures kept { seat.new.hold ≡ split_kept right seat.old.hold }
        ensures split_off { result.hold ≡ split_off right seat.old.hold }
        ensures counts { HandedOver right self.now.workers seat.old.counts seat.new.counts result.counts }
    {
        let _log = &self.board;
        seat.seat.laws();
        let mut counts = [RowCount::NONE; MOST_PAGES];
        let off = self.board.split(&mut seat.seat, right);
        hand_over(&mut seat.counts, &mut counts, right, self.workers);
        LogSeat {
            seat: off,
            pages: self.pages,
            workers: self.workers,
            counts,
        }
    }

    /// Brings the rights, parts, claims, knowledge and counts of another seat to a seat. It takes no memory.
    pub fn join(&self, seat: &mut LogSeat, other: LogSeat)
        requires seats { IsSeatOf self.now seat.old × IsSeatOf self.now other }
        ensures seat { IsSeatOf self.now seat.new }
        ensures joined { seat.new.hold ≡ joined seat.old.hold other.hold }
        ensures counts { BroughtTogether seat.old.counts other.counts seat.new.counts }
        ensures agree { Agrees seat.old.hold other.hold }
        ensures apart { (place : ℕ) → times place seat.old.hold.claims + times place other.hold.claims ≤ 1 }
        ensures one_holder { (right : ℕ) → times right seat.old.hold.rights + times right other.hold.rights ≤ 1 }
        ensures extends { Extends seat.old.hold seat.new.hold × Extends other.hold seat.new.hold }
        ensures owns { OwnsAll self.now.board.owners seat.old.hold seat.new.hold × OwnsAll self.now.board.owners other.hold seat.new.hold }
    {
        let _log = &self.board;
        let LogSeat {
            seat: others,
            pages: _,
            workers: _,
            counts,
        } = other;
        self.board.join(&mut seat.seat, others);
        bring_together(&mut seat.counts, &counts);
    }

    /// Tells a seat what another knows. No right, part, claim or count moves. It takes no memory.
    pub fn tell(&self, to: &mut LogSeat, from: &mut LogSeat)
        requires seats { IsSeatOf self.now to.old × IsSeatOf self.now from.old }
        ensures seat { IsSeatOf self.now to.new }
        ensures same { from.new ≡ from.old }
        ensures told { to.new.hold ≡ told to.old.hold from.old.hold }
        ensures counts { to.new.counts ≡ to.old.counts }
        ensures works { (page : ℕ) → MayAnnounce to.old page → MayAnnounce to.new page }
        ensures agree { Agrees to.old.hold from.old.hold }
        ensures extends { Extends to.old.hold to.new.hold × Extends from.old.hold to.new.hold }
        ensures owns { OwnsAll self.now.board.owners to.old.hold to.new.hold × OwnsAll self.now.board.owners from.old.hold to.new.hold }
    {
        let _log = &self.board;
        self.board.tell(&mut to.seat, &mut from.seat);
    }
}
