//! Logs of pages.
ghost use Rattle.std.specs.Prelude.{◌≡◌, ℕ, ◌≤◌, ◌<◌, false, IfOk};
ghost use Rattle.once_board.specs.Filled.{count_of};
ghost use Rattle.port_log.specs.Logs.{IsSeatOf, MayAnnounce};

use super::*;
use djvu_base::{Fault, FaultKind, Notice, Place, Raster};
use port_log::{Entry, LogSeat, Looking, PageEnd, PortLog};

/// A log, whose first seat announces of all pages.
pub fn new_log(alloc: Global, pages: u32, workers: u32) -> Result<(PortLog, LogSeat), AllocError>
    requires few { (1 ≤ pages) × (pages ≤ 8) }
    requires worked { 0 < workers }
    ensures pages { IfOk result (λ made. made.0.pages ≡ pages) }
    ensures seat { IfOk result (λ made. IsSeatOf made.0 made.1) }
    ensures works { IfOk result (λ made. (page : ℕ) → page < pages → MayAnnounce made.1 page) }
    ensures new { IfOk result (λ made. (page : ℕ) → page < pages → ((count_of made.1.counts page).filled ≡ 0) × ((count_of made.1.counts page).ended ≡ false)) }
{
    PortLog::new(alloc, pages, workers)
}

/// A notice of a page of one white pixel.
fn notice(alloc: Global, chunks: u32) -> Result<Notice, AllocError> {
    let samples = vec![in alloc; 255, 255, 255]?;
    Notice::new(alloc, chunks, 765, Raster::new(1, 1, samples))
}

/// The number of chunks of a notice, or 1,000 and the number of an end, or none.
fn entry_number(answer: Looking<Entry>) -> Option<u32> {
    match answer {
        Looking::Value(Entry::Drew(notice)) => Some(notice.chunks()),
        Looking::Value(Entry::Ended(PageEnd::Finished)) => Some(1_001),
        Looking::Value(Entry::Ended(PageEnd::Refused(fault))) => fault
            .place
            .offset
            .checked_add(1_002),
        Looking::Value(Entry::Ended(PageEnd::NoMemory)) => Some(1_003),
        _ => None,
    }
}

/// Announces so many notices of page 0, each with its number, and the end.
fn announces(
    log: &PortLog,
    seat: &mut LogSeat,
    alloc: Global,
    notices: u32,
) -> Result<(), AllocError>
    requires seat { IsSeatOf log.now seat.old }
    requires may { MayAnnounce seat.old 0 }
    requires new { ((count_of seat.old.counts 0).filled ≡ 0) × ((count_of seat.old.counts 0).ended ≡ false) }
    requires few { notices ≤ 259 }
    ensures seat { IsSeatOf log.now seat.new }
{
    for number in 0..notices {
        let notice = notice(alloc, number)?;
        log.announce(seat, 0, Entry::Drew(notice));
    }
    log.announce(seat, 0, Entry::Ended(PageEnd::Finished));
    Ok(())
}

#[test]
fn a_full_log_ends_at_its_last_place(rt: HostRuntime) -> Result<(), Fail> {
    let (log, mut seat) = new_log(rt.alloc(), 1, 1)?;
    announces(&log, &mut seat, rt.alloc(), 259)?;
    assert_eq!(rt; entry_number(log.see(&mut seat, 0, 0)), Some(0));
    assert_eq!(rt; entry_number(log.see(&mut seat, 0, 258)), Some(258));
    assert_eq!(rt; entry_number(log.see(&mut seat, 0, 259)), Some(1_001));
    Ok(())
}

/// Ends a page, and reads its end.
fn ends(log: &PortLog, seat: &mut LogSeat, page: u32, end: PageEnd) -> Option<u32>
    requires seat { IsSeatOf log.now seat.old }
    requires inside { page < log.now.pages }
    requires may { MayAnnounce seat.old page }
    requires new { (count_of seat.old.counts page).ended ≡ false }
    ensures seat { IsSeatOf log.now seat.new }
{
    log.announce(seat, page, Entry::Ended(end));
    entry_number(log.see(seat, page, 0))
}

/// The end that is read of a new log.
fn end_read(alloc: Global, end: PageEnd) -> Result<Option<u32>, AllocError> {
    let (log, mut seat) = new_log(alloc, 3, 2)?;
    Ok(ends(&log, &mut seat, 2, end))
}

#[test]
fn ends_of_each_kind_are_read(rt: HostRuntime) -> Result<(), Fail> {
    let fault = Fault {
        kind: FaultKind::BadInfo,
        place: Place {
            file: 1,
            offset: 16,
        },
    };
    assert_eq!(rt; end_read(rt.alloc(), PageEnd::Finished)?, Some(1_001));
    assert_eq!(rt; end_read(rt.alloc(), PageEnd::Refused(fault))?, Some(1_018));
    assert_eq!(rt; end_read(rt.alloc(), PageEnd::NoMemory)?, Some(1_003));
    Ok(())
}
