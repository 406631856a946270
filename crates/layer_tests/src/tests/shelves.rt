//! Files that are taken on.
ghost use Rattle.std.specs.Prelude.{◌≡◌, ◌≤◌, ◌<◌, length};

use super::*;
use file_shelf::{Looking, Shelf, ShelfSeat, Taking};

/// Takes on a file, and publishes its result where the claim was won: 0 then, else the word of a taken file, or 100 more than its result.
fn takes_on(shelf: &Shelf<u64>, seat: &mut ShelfSeat<u64>, file: u32, found: u64) -> u64
    requires board { seat.old.board ≡ shelf.now.board }
    requires inside { file < length shelf.now.owners }
    requires part { 1 ≤ seat.old.hold.parts }
    requires small { found < 1_000 }
    ensures board { seat.new.board ≡ seat.old.board }
{
    match shelf.take_on(seat, file) {
        Taking::Claimed(claim) => {
            shelf.publish(seat, claim, found);
            0
        }
        Taking::Taken(word) => word,
        Taking::Ready(known) => known.saturating_add(100),
        Taking::OutOfMemory => 99,
    }
}

#[test]
fn a_result_is_published_once(rt: HostRuntime) -> Result<(), Fail> {
    let (shelf, mut first) = Shelf::<u64>::new(rt.alloc(), 2)?;
    let mut second = shelf.split(&mut first);
    assert_eq!(rt; takes_on(&shelf, &mut second, 1, 7), 0);
    assert_eq!(rt; takes_on(&shelf, &mut first, 1, 8), 107);
    shelf.join(&mut first, second);
    Ok(())
}

fn result_read(answer: Looking<u64>) -> Option<u64> {
    match answer {
        Looking::Value(found) => Some(found),
        _ => None,
    }
}

/// What a second seat is answered while the first holds the claim of a file.
fn second_claim(
    shelf: &Shelf<u64>,
    first: &mut ShelfSeat<u64>,
    second: &mut ShelfSeat<u64>,
    file: u32,
) -> u64
    requires board { (first.old.board ≡ shelf.now.board) × (second.old.board ≡ shelf.now.board) }
    requires inside { file < length shelf.now.owners }
    requires part { (1 ≤ first.old.hold.parts) × (1 ≤ second.old.hold.parts) }
    ensures board { (first.new.board ≡ first.old.board) × (second.new.board ≡ second.old.board) }
{
    match shelf.take_on(first, file) {
        Taking::Claimed(claim) => {
            let word = takes_on(shelf, second, file, 8);
            shelf.publish(first, claim, 7);
            word
        }
        Taking::Taken(_) => 96,
        Taking::Ready(_) => 97,
        Taking::OutOfMemory => 98,
    }
}

#[test]
fn a_claimed_file_is_taken(rt: HostRuntime) -> Result<(), Fail> {
    let (shelf, mut first) = Shelf::<u64>::new(rt.alloc(), 2)?;
    let mut second = shelf.split(&mut first);
    assert_eq!(rt; second_claim(&shelf, &mut first, &mut second, 0), 1);
    assert_eq!(rt; result_read(shelf.look(&mut second, 0)), Some(7));
    shelf.join(&mut first, second);
    Ok(())
}
