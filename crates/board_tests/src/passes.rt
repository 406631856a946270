//! Passes over one row of a board: they put, read, and are joined at the end.
ghost use Rattle.std.specs.Prelude.{◌≡◌, ℕ, ◌+◌, ◌≤◌, ◌<◌, ◌++◌, [], ◌∷◌, All, MatchOption, IfOk, Some};
ghost use Rattle.once_board.specs.Boards.{IsFirst};
ghost use Rattle.once_board.specs.Gathered.{Gathered};
ghost use Rattle.once_board.specs.Holds.{split_kept, split_off};
ghost use Rattle.once_board.specs.Numbers.{times};
ghost use Rattle.once_board.specs.Rows.{IsLaid};
ghost use Rattle.board_tests.specs.Passes.{two_rows, hold_of, values_of, IsNew, IsPass, ReadsPrefixes};

use once_board::{Board, BoardSeat, Claiming, Looking, row_owners};
use std::alloc::{AllocError, Global};

/// A pass over a row: its seat, and how many values of the row it put or read.
#[derive(Drop)]
pub struct Pass {
    pub seat: BoardSeat<u64>,
    pub row: u32,
    pub known: u32,
}

/// A board of two rows of three places, private to the rights 0 and 1, and its first seat.
pub fn row_board(alloc: Global) -> Result<(Board<u64>, BoardSeat<u64>), AllocError>
    ensures laid { IfOk result (λ made. IsLaid two_rows made.0.owners) }
    ensures board { IfOk result (λ made. made.1.board ≡ made.0.board) }
    ensures seat { IfOk result (λ made. IsFirst made.1.hold) }
    ensures new { IfOk result (λ made. IsNew made.1.hold) }
{
    let owners = row_owners(alloc, 2, 3, 2)?;
    Board::new(alloc, owners)
}

/// A pass over a row, with a seat that is split off, and with a right or none.
pub fn split_pass(
    board: &Board<u64>,
    seat: &mut BoardSeat<u64>,
    row: u32,
    right: Option<u32>,
) -> Pass
    requires board { seat.old.board ≡ board.now.board }
    requires inside { row < 2 }
    requires new { IsNew seat.old.hold }
    requires right { (r : ℕ) → right ≡ Some r → 1 ≤ times r seat.old.hold.rights }
    ensures board { seat.new.board ≡ seat.old.board }
    ensures kept { seat.new.hold ≡ split_kept right seat.old.hold }
    ensures new { IsNew seat.new.hold }
    ensures pass { IsPass board.now result }
    ensures row { (result.row ≡ row) × (result.known ≡ 0) }
    ensures split_off { hold_of result ≡ split_off right seat.old.hold }
{
    let seat = board.split(seat, right);
    Pass {
        seat,
        row,
        known: 0,
    }
}

/// Puts a value at the end of the pass's row.
pub fn put_next(board: &Board<u64>, pass: &mut Pass, value: u64)
    requires laid { IsLaid two_rows board.now.owners }
    requires pass { IsPass board.now pass.old }
    requires room { pass.old.known < 3 }
    requires part { 1 ≤ pass.old.seat.hold.parts }
    requires right { 1 ≤ times (two_rows.right_of pass.old.row) (hold_of pass.old).rights }
    ensures pass { IsPass board.now pass.new }
    ensures row { (pass.new.row ≡ pass.old.row) × (pass.new.known ≡ pass.old.known + 1) }
    ensures values { values_of pass.new ≡ values_of pass.old ++ value ∷ [] }
    ensures held { ((hold_of pass.new).parts ≡ (hold_of pass.old).parts) × ((hold_of pass.new).rights ≡ (hold_of pass.old).rights) }
{
    let place = pass.row * 3 + pass.known;
    match board.claim(&mut pass.seat, place) {
        Claiming::Won => {}
        Claiming::Taken(_) => unreachable!(),
    }
    board.put(&mut pass.seat, place, value);
    pass.known += 1;
}

/// Reads the next value of the pass's row, if it is there and no seat has its turn.
pub fn read_next(board: &Board<u64>, pass: &mut Pass) -> Option<u64>
    requires laid { IsLaid two_rows board.now.owners }
    requires pass { IsPass board.now pass.old }
    requires room { pass.old.known < 3 }
    ensures pass { IsPass board.now pass.new }
    ensures row { pass.new.row ≡ pass.old.row }
    ensures values { MatchOption result (values_of pass.new ≡ values_of pass.old) (λ value. values_of pass.new ≡ values_of pass.old ++ value ∷ []) }
    ensures rights { (hold_of pass.new).rights ≡ (hold_of pass.old).rights }
{
    match board.look(&mut pass.seat, pass.row * 3 + pass.known) {
        Looking::Value(value) => {
            pass.known += 1;
            Some(value)
        }
        _ => None,
    }
}

/// Joins the seats of all passes into a seat.
pub fn join_passes(
    board: &Board<u64>,
    first: BoardSeat<u64>,
    mut passes: Vec<Pass>,
) -> BoardSeat<u64>
    requires laid { IsLaid two_rows board.now.owners }
    requires first { first.board ≡ board.now.board }
    requires passes { All (IsPass board.now) passes.items }
    ensures board { result.board ≡ board.now.board }
    ensures gathered { Gathered hold_of board.now.owners first.hold passes.items result.hold }
    ensures prefixes { ReadsPrefixes passes.items }
{
    let mut seat = first;
    while let Some(pass) = passes.pop() {
        board.join(&mut seat, pass.seat);
    }
    seat.laws();
    seat
}
