ghost use Rattle.std.specs.Prelude.{◌≡◌, ◌<◌, length, IfOk, IfSome, [], ◌∷◌};
ghost use Rattle.once_board.specs.declared.owners.Owner.TheVariants.{Free, Private};

use super::*;
use djvu_base::Share;
use once_board::{Board, BoardSeat, Claiming, Looking, Owner};
use std::alloc::{AllocError, Global};
use std::test::Fail;

mod claims;
mod rows;
mod shares;
mod threads;

/// Two places, the first private to the right 0.
fn two_owners(alloc: Global) -> Result<Vec<Owner>, AllocError>
    ensures { IfOk result (λ owners. owners.items ≡ Private 0 ∷ Free ∷ []) }
{
    let owners = vec![in alloc; Owner::Private(0), Owner::Free]?;
    Ok(owners)
}

fn has_value(looking: Looking<u64>, wanted: u64) -> bool {
    match looking {
        Looking::Value(value) => value == wanted,
        _ => false,
    }
}

fn is_not_yet(looking: Looking<u64>, wanted: u64) -> bool {
    match looking {
        Looking::NotYet(word) => word == wanted,
        _ => false,
    }
}

#[test]
fn places_are_claimed_filled_and_read(rt: HostRuntime) -> Result<(), Fail> {
    let (board, mut first) = Board::<u64>::new(rt.alloc(), two_owners(rt.alloc())?)?;
    let mut second = board.split(&mut first, Some(0));
    let mut third = board.split(&mut first, None);
    assert!(rt; is_not_yet(board.look(&mut third, 0), 0));
    assert_eq!(rt; board.claim(&mut second, 0), Claiming::Won);
    assert!(rt; is_not_yet(board.look(&mut third, 0), 1));
    board.put(&mut second, 0, 50);
    assert!(rt; has_value(board.look(&mut third, 0), 50));
    assert_eq!(rt; board.claim(&mut second, 1), Claiming::Won);
    assert_eq!(rt; board.claim(&mut third, 1), Claiming::Taken(1));
    board.join(&mut first, second);
    board.join(&mut first, third);
    first.laws();
    board.close(first);
    Ok(())
}

#[test]
fn a_seat_is_told_of_values(rt: HostRuntime) -> Result<(), Fail> {
    let (board, mut first) = Board::<u64>::new(rt.alloc(), two_owners(rt.alloc())?)?;
    let mut second = board.split(&mut first, Some(0));
    assert_eq!(rt; board.claim(&mut second, 0), Claiming::Won);
    board.put(&mut second, 0, 50);
    assert_eq!(rt; board.claim(&mut second, 1), Claiming::Won);
    board.put(&mut second, 1, 60);
    board.tell(&mut first, &mut second);
    assert!(rt; has_value(board.look(&mut first, 0), 50));
    assert_eq!(rt; board.claim(&mut first, 1), Claiming::Taken(2));
    board.join(&mut first, second);
    board.close(first);
    Ok(())
}
