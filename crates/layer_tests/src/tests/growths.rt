//! Calls of pools that want memory: made again, they go on as if it had been there at once.
ghost use Rattle.std.specs.Prelude.{◌≡◌, ℕ, ◌≤◌, ◌<◌, None, IfOk};
ghost use Rattle.data_pool.specs.Pools.{IsSeatOf, MayFeed};

use super::pools::{is_ok, new_pool, one_byte};
use super::*;
use data_pool::{Append, Looking, Piece, Pool, PoolSeat};

/// A pool of one file, and its first seat.
fn pool_in_two_tries(alloc: Global) -> Result<(Pool, PoolSeat), AllocError>
    ensures files { IfOk result (λ made. made.0.files ≡ 1) }
    ensures seat { IfOk result (λ made. IsSeatOf made.0 made.1) }
    ensures feeds { IfOk result (λ made. (file : ℕ) → file < 1 → MayFeed made.1 file) }
{
    match new_pool(alloc, 1, 1) {
        Ok(made) => Ok(made),
        Err(_) => new_pool(alloc, 1, 1),
    }
}

fn byte_in_two_tries(alloc: Global) -> Result<Vec<u8>, AllocError> {
    match one_byte(alloc, 7) {
        Ok(bytes) => Ok(bytes),
        Err(_) => one_byte(alloc, 7),
    }
}

/// Appends bytes to file 0, or once more the bytes that came back.
fn append_in_two_tries(pool: &Pool, seat: &mut PoolSeat, bytes: Vec<u8>) -> Append
    requires seat { IsSeatOf pool.now seat.old }
    requires may { MayFeed seat.old 0 }
    ensures seat { IsSeatOf pool.now seat.new }
{
    match pool.append(seat, 0, bytes) {
        Append::OutOfMemory(back) => pool.append(seat, 0, back),
        answer => answer,
    }
}

fn split_in_two_tries(pool: &Pool, seat: &mut PoolSeat) -> Result<PoolSeat, AllocError>
    requires seat { IsSeatOf pool.now seat.old }
    ensures seat { IfOk result (λ other. IsSeatOf pool.now other) }
{
    match pool.split(seat, None) {
        Ok(other) => Ok(other),
        Err(_) => pool.split(seat, None),
    }
}

/// Whether a look found one byte of this value.
fn is_byte(answer: Looking<Piece>, byte: u8) -> bool {
    match answer {
        Looking::Value(Piece::Bytes(bytes)) => bytes.slice() == [byte].as_slice(),
        _ => false,
    }
}

#[test]
fn calls_that_want_memory_may_be_made_again(rt: HostRuntime) -> Result<(), Fail> {
    let (pool, mut first) = pool_in_two_tries(rt.alloc())?;
    let bytes = byte_in_two_tries(rt.alloc())?;
    assert!(rt; is_ok(append_in_two_tries(&pool, &mut first, bytes)));
    let mut second = split_in_two_tries(&pool, &mut first)?;
    assert!(rt; is_byte(pool.next(&mut second, 0, 0), 7));
    Ok(())
}
