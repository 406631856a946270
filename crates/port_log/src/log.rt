//! The log: how it is made, announced to and read.
ghost use Rattle.std.specs.Prelude.{◌≡◌, ℕ, ◌≤◌, ◌<◌, replicate, false, IfOk};
ghost use Rattle.once_board.specs.Boards.{IsFirst, Looks};
ghost use Rattle.once_board.specs.Filled.{count_of, none_filled, one_further};
ghost use Rattle.once_board.specs.Holds.{Extends, OwnsAll, SameHoldings};
ghost use Rattle.port_log.specs.Entries.{is_end, may_stand};
ghost use Rattle.port_log.specs.Logs.{IsLog, IsSeatOf, MayAnnounce, place_of};
ghost use Rattle.port_log.specs.Calls.{AnnouncedOne, announced};

use crate::entries::Entry;
use crate::seats::{LogSeat, MOST_PAGES};
use once_board::{Board, Looking, RowCount, row_owners};
use std::alloc::{AllocError, Global};
use std::marker::Model;

/// Places of a page's log: 259 for notices, and one more for its end.
const PLACES: u32 = 260;

/// What is announced of some pages. Threads share it by reference, and each calls with a seat of its own.
#[derive(Drop)]
pub struct PortLog {
    pub(crate) board: Board<Entry>,
    pub(crate) pages: u32,
    pub(crate) workers: u32,
}

impl Model for PortLog {
    ghost use Rattle.port_log.specs.Logs.{LogView, IsLog};

    ghost Value = { LogView };

    ghost view = { λ a. record { board = a.board; pages = a.pages; workers = a.workers } };

    ghost invariant = { λ a. IsLog (record { board = a.board; pages = a.pages; workers = a.workers }) };
}

impl PortLog {
    /// A log of so many pages and workers, and its first seat, which holds every right. Page i belongs to the right i % workers.
    pub fn new(alloc: Global, pages: u32, workers: u32) -> Result<(PortLog, LogSeat), AllocError>
        requires few { (1 ≤ pages) × (pages ≤ 8) }
        requires worked { 0 < workers }
        ensures log { IfOk result (λ made. (made.0.pages ≡ pages) × (made.0.workers ≡ workers)) }
        ensures seat { IfOk result (λ made. IsSeatOf made.0 made.1) }
        ensures first { IfOk result (λ made. IsFirst made.1.hold) }
        ensures counts { IfOk result (λ made. made.1.counts ≡ replicate 8 none_filled) }
    {
        let owners = row_owners(alloc, pages, PLACES, workers)?;
        let (board, seat) = Board::new(alloc, owners)?;
        let log = PortLog {
            board,
            pages,
            workers,
        };
        let seat = LogSeat {
            seat,
            pages,
            workers,
            counts: [RowCount::NONE; MOST_PAGES],
        };
        Ok((log, seat))
    }

    /// What holds of every log: its board has a row of 260 places for each page. The call does nothing.
    pub fn laws(&self)
        ensures { IsLog self.now }
    {
        let _log = &self.board;
    }

    /// Announces the next entry of a page of this worker. The last of 260 places takes only an end. It takes no memory.
    pub fn announce(&self, seat: &mut LogSeat, page: u32, entry: Entry)
        requires seat { IsSeatOf self.now seat.old }
        requires may { MayAnnounce seat.old page }
        requires unended { (count_of seat.old.counts page).ended ≡ false }
        requires room { is_end entry ≡ false → (count_of seat.old.counts page).filled < 259 }
        ensures seat { IsSeatOf self.now seat.new }
        ensures announced { seat.new ≡ announced page entry seat.old }
        ensures entries { AnnouncedOne page entry seat.old seat.new }
        ensures count { count_of seat.new.counts page ≡ one_further (is_end entry) (count_of seat.old.counts page) }
        ensures held { (seat.new.hold.rights ≡ seat.old.hold.rights) × (seat.new.hold.parts ≡ seat.old.hold.parts) }
        ensures works { (other : ℕ) → MayAnnounce seat.old other → MayAnnounce seat.new other }
        ensures extends { Extends seat.old.hold seat.new.hold }
    {
        let _log = &self.board;
        let count = seat.counts[page as usize];
        let next = count.further(entry.is_end());
        let place = page * PLACES + count.filled;
        self.board.fill(&mut seat.seat, place, entry);
        seat.counts[page as usize] = next;
    }

    /// Reads a page's log at a position.
    pub fn see(&self, seat: &mut LogSeat, page: u32, at: u32) -> Looking<Entry>
        requires seat { IsSeatOf self.now seat.old }
        requires inside { (page < self.now.pages) × (at < 260) }
        ensures seat { IsSeatOf self.now seat.new }
        ensures answer { Looks may_stand (place_of page at) seat.old.hold seat.new.hold result }
        ensures counts { seat.new.counts ≡ seat.old.counts }
        ensures held { SameHoldings seat.old.hold seat.new.hold }
        ensures works { (other : ℕ) → MayAnnounce seat.old other → MayAnnounce seat.new other }
        ensures extends { Extends seat.old.hold seat.new.hold }
        ensures owns { OwnsAll self.now.board.owners seat.old.hold seat.new.hold }
    {
        let _log = &self.board;
        self.board.look(&mut seat.seat, page * PLACES + at)
    }
}
