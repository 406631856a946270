//! Two threads that claim the same places.
ghost use Rattle.std.specs.Prelude.{◌≡◌, ◌≢◌, ℕ, ◌≤◌, ◌<◌, length};
ghost use Rattle.once_board.specs.Numbers.{times};
ghost use Rattle.once_board.specs.Places.{IsFree};

use super::*;
use once_board::free_owners;
use std::process::Abort;
use std::thread::{Threads, join};

const PLACES: u32 = 64;

/// That values of a type may go from thread to thread.
fn goes_to_a_thread<T: Send>() {}

/// That threads may share a value of a type by reference.
fn is_shared_by_threads<T: Sync>() {}

/// Claims a free place, and tells whether it was won.
fn claim_free(board: &Board<u64>, seat: &mut BoardSeat<u64>, place: u32) -> bool
    requires board { seat.old.board ≡ board.now.board }
    requires place { (place < length board.now.owners) × IsFree board.now.owners place }
    requires part { 1 ≤ seat.old.hold.parts }
    requires unclaimed { times place seat.old.hold.claims ≡ 0 }
    ensures same { (seat.new.board ≡ seat.old.board) × (seat.new.hold.parts ≡ seat.old.hold.parts) }
    ensures others { (other : ℕ) → other ≢ place → times other seat.new.hold.claims ≡ times other seat.old.hold.claims }
{
    match board.claim(seat, place) {
        Claiming::Won => true,
        Claiming::Taken(_) => false,
    }
}

/// Claims each place, and tells which of them were won, one bit a place.
fn claim_each(board: &Board<u64>, mut seat: BoardSeat<u64>) -> (BoardSeat<u64>, u64)
    requires board { seat.board ≡ board.now.board }
    requires part { 1 ≤ seat.hold.parts }
    requires free { (64 ≤ length board.now.owners) × ((place : ℕ) → IsFree board.now.owners place) }
    requires unclaimed { (place : ℕ) → times place seat.hold.claims ≡ 0 }
    ensures { result.0.board ≡ board.now.board }
{
    let mut won = 0u64;
    for place in 0..PLACES {
        if claim_free(board, &mut seat, place) {
            won |= 1 << place;
        }
    }
    (seat, won)
}

#[test]
fn each_place_has_one_winner(rt: HostRuntime) -> Result<(), Fail> {
    let owners = free_owners(rt.alloc(), PLACES)?;
    let (board, mut first) = Board::<u64>::new(rt.alloc(), owners)?;
    let second = board.split(&mut first, None);
    let shared = &board;
    let (one, two) = join(
        &rt,
        || claim_each(shared, first),
        || claim_each(shared, second),
    );
    assert!(rt; one.1 & two.1 == 0);
    assert!(rt; one.1 | two.1 == u64::MAX);
    let (mut first, _) = one;
    let (second, _) = two;
    board.join(&mut first, second);
    board.close(first);
    Ok(())
}

#[test]
fn boards_and_seats_cross_threads(rt: HostRuntime) {
    goes_to_a_thread::<Board<u64>>();
    is_shared_by_threads::<Board<u64>>();
    goes_to_a_thread::<BoardSeat<u64>>();
    let _ = rt;
}
