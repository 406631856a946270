//! Files that are filled and ended.
ghost use Rattle.std.specs.Prelude.{◌≡◌, ℕ, ◌≤◌, ◌<◌, true, IfOk};
ghost use Rattle.data_pool.specs.Pieces.{is_end};
ghost use Rattle.data_pool.specs.Pools.{IsSeatOf, MayFeed};

use super::*;
use data_pool::{Append, Looking, Piece, Pool, PoolSeat};

/// A pool, whose first seat feeds all files.
pub fn new_pool(alloc: Global, files: u32, feeders: u32) -> Result<(Pool, PoolSeat), AllocError>
    requires few { files ≤ 1_024 }
    requires fed { 0 < feeders }
    ensures files { IfOk result (λ made. made.0.files ≡ files) }
    ensures seat { IfOk result (λ made. IsSeatOf made.0 made.1) }
    ensures feeds { IfOk result (λ made. (file : ℕ) → file < files → MayFeed made.1 file) }
{
    Pool::new(alloc, files, feeders)
}

/// A piece of one byte.
pub fn one_byte(alloc: Global, byte: u8) -> Result<Vec<u8>, AllocError> {
    let bytes = vec![in alloc; byte]?;
    Ok(bytes)
}

pub fn is_ok(answer: Append) -> bool {
    match answer {
        Append::Ok => true,
        _ => false,
    }
}

fn is_full(answer: Append) -> bool {
    match answer {
        Append::Full(_) => true,
        _ => false,
    }
}

fn is_ended(answer: Append) -> bool {
    match answer {
        Append::Ended(_) => true,
        _ => false,
    }
}

/// The number of an end, from 1, or 0 for anything else.
fn end_number(answer: Looking<Piece>) -> u32 {
    match answer {
        Looking::Value(Piece::End) => 1,
        Looking::Value(Piece::Broken) => 2,
        Looking::Value(Piece::NoMemory) => 3,
        _ => 0,
    }
}

/// Appends pieces of one byte to file 0 until one isn't taken, and tells how many were.
fn appends(pool: &Pool, seat: &mut PoolSeat, alloc: Global) -> Result<u32, AllocError>
    requires seat { IsSeatOf pool.now seat.old }
    requires may { MayFeed seat.old 0 }
    ensures seat { IsSeatOf pool.now seat.new }
    ensures may { MayFeed seat.new 0 }
{
    for number in 0..3_000 {
        let bytes = one_byte(alloc, 7)?;
        if !is_ok(pool.append(seat, 0, bytes)) {
            return Ok(number);
        }
    }
    Ok(3_000)
}

/// What appends to a full file and to an ended one answer, and ends of it.
fn fills_and_ends(pool: &Pool, seat: &mut PoolSeat, alloc: Global) -> Result<bool, AllocError>
    requires seat { IsSeatOf pool.now seat.old }
    requires may { MayFeed seat.old 0 }
    ensures seat { IsSeatOf pool.now seat.new }
{
    let full = is_full(pool.append(seat, 0, one_byte(alloc, 7)?));
    let ended = pool.end(seat, 0, Piece::End);
    let refused = is_ended(pool.append(seat, 0, one_byte(alloc, 7)?));
    let again = pool.end(seat, 0, Piece::Broken);
    Ok(full && ended && refused && !again)
}

#[test]
fn a_full_file_takes_only_an_end(rt: HostRuntime) -> Result<(), Fail> {
    let (pool, mut seat) = new_pool(rt.alloc(), 1, 1)?;
    assert_eq!(rt; appends(&pool, &mut seat, rt.alloc())?, 2_048);
    assert!(rt; fills_and_ends(&pool, &mut seat, rt.alloc())?);
    assert_eq!(rt; end_number(pool.next(&mut seat, 0, 2_048)), 1);
    Ok(())
}

/// Ends a file, and reads its end.
fn ends(pool: &Pool, seat: &mut PoolSeat, file: u32, how: Piece) -> u32
    requires seat { IsSeatOf pool.now seat.old }
    requires inside { file < pool.now.files }
    requires may { MayFeed seat.old file }
    requires how { is_end how ≡ true }
    ensures seat { IsSeatOf pool.now seat.new }
    ensures feeds { (other : ℕ) → MayFeed seat.old other → MayFeed seat.new other }
{
    pool.end(seat, file, how);
    end_number(pool.next(seat, file, 0))
}

#[test]
fn ends_of_each_kind_are_read(rt: HostRuntime) -> Result<(), Fail> {
    let (pool, mut seat) = new_pool(rt.alloc(), 3, 2)?;
    assert_eq!(rt; ends(&pool, &mut seat, 0, Piece::End), 1);
    assert_eq!(rt; ends(&pool, &mut seat, 1, Piece::Broken), 2);
    assert_eq!(rt; ends(&pool, &mut seat, 2, Piece::NoMemory), 3);
    Ok(())
}
