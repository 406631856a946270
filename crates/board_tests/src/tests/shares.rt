//! Values whose share is refused, and values that may stand at one place alone.
ghost use Rattle.std.specs.Prelude.{◌≡◌, ◌<◌, length, IfSome};

use super::*;

/// A value whose share is always refused.
#[derive(Drop)]
struct Refusing(u64);

impl Share for Refusing {
    fn share(&self) -> Result<Refusing, AllocError> {
        Err(AllocError)
    }
}

/// A value that may stand only at the place of its own number.
#[derive(Drop)]
struct Numbered(u64);

impl Share for Numbered {
    ghost fits = { λ place value. value.0 ≡ place };

    fn share(&self) -> Result<Numbered, AllocError> {
        Ok(Numbered(self.0))
    }
}

fn is_refused(looking: Looking<Refusing>) -> bool {
    match looking {
        Looking::OutOfMemory => true,
        _ => false,
    }
}

#[test]
fn a_refused_share_gives_the_turn_back(rt: HostRuntime) -> Result<(), Fail> {
    let (board, mut first) = Board::<Refusing>::new(rt.alloc(), two_owners(rt.alloc())?)?;
    let mut second = board.split(&mut first, None);
    assert_eq!(rt; board.claim(&mut first, 0), Claiming::Won);
    board.put(&mut first, 0, Refusing(50));
    assert!(rt; is_refused(board.look(&mut second, 0)));
    assert!(rt; is_refused(board.look(&mut second, 0)));
    assert!(rt; is_refused(board.look(&mut first, 0)));
    board.close(first);
    Ok(())
}

/// Reads the number at a place, which is the place's.
fn number_at(board: &Board<Numbered>, seat: &mut BoardSeat<Numbered>, place: u32) -> Option<u64>
    requires board { seat.old.board ≡ board.now.board }
    requires place { place < length board.now.owners }
    ensures board { seat.new.board ≡ seat.old.board }
    ensures number { IfSome result (λ number. number ≡ place) }
{
    match board.look(seat, place) {
        Looking::Value(value) => Some(value.0),
        _ => None,
    }
}

#[test]
fn what_is_read_may_stand_at_its_place(rt: HostRuntime) -> Result<(), Fail> {
    let (board, mut first) = Board::<Numbered>::new(rt.alloc(), two_owners(rt.alloc())?)?;
    assert_eq!(rt; board.claim(&mut first, 1), Claiming::Won);
    board.put(&mut first, 1, Numbered(1));
    assert_eq!(rt; number_at(&board, &mut first, 1), Some(1));
    board.close(first);
    Ok(())
}
