//! Places that one seat won and another fills, or that the seat looked at before it fills them.
ghost use Rattle.std.specs.Prelude.{◌≡◌, ◌≤◌, ◌<◌, length, Some};
ghost use Rattle.once_board.specs.Numbers.{times};
ghost use Rattle.once_board.specs.Places.{record_of};

use super::*;

/// Fills a place that the other seat won, once that one is joined into the seat.
fn put_after_join(
    board: &Board<u64>,
    seat: &mut BoardSeat<u64>,
    other: BoardSeat<u64>,
    place: u32,
    value: u64,
)
    requires board { (seat.old.board ≡ board.now.board) × (other.board ≡ board.now.board) }
    requires place { place < length board.now.owners }
    requires won { 1 ≤ times place other.hold.claims }
    requires unfilled { times place other.hold.puts ≡ 0 }
    ensures board { seat.new.board ≡ seat.old.board }
    ensures value { (record_of seat.new.hold.places place).value ≡ Some value }
{
    seat.laws();
    board.join(seat, other);
    board.put(seat, place, value);
}

/// Fills a place that the seat won, once it was looked at.
fn put_after_look(board: &Board<u64>, seat: &mut BoardSeat<u64>, place: u32, value: u64)
    requires board { seat.old.board ≡ board.now.board }
    requires place { place < length board.now.owners }
    requires won { 1 ≤ times place seat.old.hold.claims }
    requires unfilled { times place seat.old.hold.puts ≡ 0 }
    ensures board { seat.new.board ≡ seat.old.board }
    ensures value { (record_of seat.new.hold.places place).value ≡ Some value }
{
    drop(board.look(seat, place));
    board.put(seat, place, value);
}

#[test]
fn a_claim_is_filled_by_the_seat_that_got_it(rt: HostRuntime) -> Result<(), Fail> {
    let (board, mut first) = Board::<u64>::new(rt.alloc(), two_owners(rt.alloc())?)?;
    let mut second = board.split(&mut first, Some(0));
    assert_eq!(rt; board.claim(&mut second, 0), Claiming::Won);
    put_after_join(&board, &mut first, second, 0, 50);
    assert!(rt; has_value(board.look(&mut first, 0), 50));
    board.close(first);
    Ok(())
}

#[test]
fn a_claim_is_looked_at_and_then_filled(rt: HostRuntime) -> Result<(), Fail> {
    let (board, mut first) = Board::<u64>::new(rt.alloc(), two_owners(rt.alloc())?)?;
    assert_eq!(rt; board.claim(&mut first, 0), Claiming::Won);
    put_after_look(&board, &mut first, 0, 50);
    assert!(rt; has_value(board.look(&mut first, 0), 50));
    board.close(first);
    Ok(())
}
