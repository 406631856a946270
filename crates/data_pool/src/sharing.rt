//! How seats of a pool are split, joined and told of what others know.
ghost use Rattle.std.specs.Prelude.{◌≡◌, ℕ, ◌+◌, ◌≤◌, Some, IfOk, IfErr};
ghost use Rattle.once_board.specs.Filled.{HandedOver, BroughtTogether};
ghost use Rattle.once_board.specs.Holds.{split_kept, split_off, joined, told, Agrees, Extends, OwnsAll};
ghost use Rattle.once_board.specs.Numbers.{times};
ghost use Rattle.data_pool.specs.Pools.{IsSeatOf, MayFeed};

use crate::pool::{Pool, no_counts};
use crate::seats::PoolSeat;
use once_board::{bring_together, hand_over};
use std::alloc::AllocError;

impl Pool {
    /// Splits a seat off, which knows what the seat knows. A right that is named goes to it, with the counts of its files, and of
    /// two or more parts one.
    pub fn split(&self, seat: &mut PoolSeat, right: Option<u32>) -> Result<PoolSeat, AllocError>
        requires seat { IsSeatOf self.now seat.old }
        requires right { (r : ℕ) → right ≡ Some r → 1 ≤ times r seat.old.hold.rights }
        ensures seats { IfOk result (λ other. IsSeatOf self.now seat.new × IsSeatOf self.now other) }
        ensures kept { IfOk result (λ other. seat.new.hold ≡ split_kept right seat.old.hold) }
        ensures split_off { IfOk result (λ other. other.hold ≡ split_off right seat.old.hold) }
        ensures counts { IfOk result (λ other. HandedOver right self.now.feeders seat.old.counts seat.new.counts other.counts) }
        ensures refused { IfErr result (λ _. seat.new ≡ seat.old) }
    {
        let _pool = &self.board;
        seat.seat.laws();
        let mut counts = no_counts(self.alloc, seat.counts.len())?;
        let off = self.board.split(&mut seat.seat, right);
        hand_over(&mut seat.counts, &mut counts, right, self.feeders);
        Ok(PoolSeat {
            seat: off,
            feeders: self.feeders,
            counts,
        })
    }

    /// Brings the rights, parts, claims, knowledge and counts of another seat to a seat. It takes no memory.
    pub fn join(&self, seat: &mut PoolSeat, other: PoolSeat)
        requires seats { IsSeatOf self.now seat.old × IsSeatOf self.now other }
        ensures seat { IsSeatOf self.now seat.new }
        ensures joined { seat.new.hold ≡ joined seat.old.hold other.hold }
        ensures counts { BroughtTogether seat.old.counts other.counts seat.new.counts }
        ensures agree { Agrees seat.old.hold other.hold }
        ensures apart { (place : ℕ) → times place seat.old.hold.claims + times place other.hold.claims ≤ 1 }
        ensures one_holder { (right : ℕ) → times right seat.old.hold.rights + times right other.hold.rights ≤ 1 }
        ensures extends { Extends seat.old.hold seat.new.hold × Extends other.hold seat.new.hold }
        ensures owns { OwnsAll self.now.board.owners seat.old.hold seat.new.hold × OwnsAll self.now.board.owners other.hold seat.new.hold }
    {
        let _pool = &self.board;
        let PoolSeat {
            seat: others,
            feeders: _,
            counts,
        } = other;
        self.board.join(&mut seat.seat, others);
        bring_together(&mut seat.counts, &counts);
    }

    /// Tells a seat what another knows. No right, part, claim or count moves. It takes no memory.
    pub fn tell(&self, to: &mut PoolSeat, from: &mut PoolSeat)
        requires seats { IsSeatOf self.now to.old × IsSeatOf self.now from.old }
        ensures seat { IsSeatOf self.now to.new }
        ensures same { from.new ≡ from.old }
        ensures told { to.new.hold ≡ told to.old.hold from.old.hold }
        ensures counts { to.new.counts ≡ to.old.counts }
        ensures feeds { (file : ℕ) → MayFeed to.old file → MayFeed to.new file }
        ensures agree { Agrees to.old.hold from.old.hold }
        ensures extends { Extends to.old.hold to.new.hold × Extends from.old.hold to.new.hold }
        ensures owns { OwnsAll self.now.board.owners to.old.hold to.new.hold × OwnsAll self.now.board.owners from.old.hold to.new.hold }
    {
        let _pool = &self.board;
        self.board.tell(&mut to.seat, &mut from.seat);
    }
}
