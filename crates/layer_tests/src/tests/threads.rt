//! Threads that share a pool.
ghost use Rattle.std.specs.Prelude.{◌≡◌, ◌⊎◌, ◌≤◌, ◌<◌, IfOk};
ghost use Rattle.once_board.specs.Boards.{IsFirst};
ghost use Rattle.data_pool.specs.Pools.{IsSeatOf, MayFeed};

use super::pools::{is_ok, one_byte};
use super::*;
use data_pool::{Looking, Piece, Pool, PoolSeat};
use file_shelf::{Shelf, ShelfSeat};
use port_log::{LogSeat, PortLog};
use std::process::Abort;
use std::thread::{Threads, join};

const PIECES: u32 = 100;

/// That values of a type may go from thread to thread.
fn goes_to_a_thread<T: Send>() {}

/// That threads may share a value of a type by reference.
fn is_shared_by_threads<T: Sync>() {}

/// Feeds a file with pieces, each of one byte, its number, and ends it. False where one wasn't taken.
fn feeds(pool: &Pool, mut seat: PoolSeat, file: u32, alloc: Global) -> (PoolSeat, bool)
    requires seat { IsSeatOf pool.now seat }
    requires may { MayFeed seat file }
    ensures { IsSeatOf pool.now result.0 }
{
    let mut all = true;
    for number in 0..PIECES {
        match one_byte(alloc, number as u8) {
            Ok(bytes) => all = is_ok(pool.append(&mut seat, file, bytes)) && all,
            Err(_) => all = false,
        }
    }
    let ended = pool.end(&mut seat, file, Piece::End);
    (seat, all && ended)
}

/// Reads a file on from a position, at most so often, and tells how far it came. A piece that isn't the position's gives 1,000.
fn reads(pool: &Pool, seat: &mut PoolSeat, file: u32, start: u32, looks: u32) -> u32
    requires seat { IsSeatOf pool.now seat.old }
    requires inside { file < pool.now.files }
    requires start { start ≤ 101 }
    ensures seat { IsSeatOf pool.now seat.new }
    ensures far { (result ≤ 101) ⊎ (result ≡ 1_000) }
{
    let mut at = start;
    for _ in 0..looks {
        if at > PIECES {
            return at;
        }
        match pool.next(seat, file, at) {
            Looking::Value(Piece::Bytes(bytes)) => {
                if bytes.slice() != [at as u8].as_slice() {
                    return 1_000;
                }
                at += 1;
            }
            Looking::Value(_) => at += 1,
            _ => {}
        }
    }
    at
}

/// Reads two files for a while.
fn reads_both(pool: &Pool, mut seat: PoolSeat) -> (PoolSeat, bool)
    requires seat { IsSeatOf pool.now seat }
    requires inside { 2 ≤ pool.now.files }
    ensures { IsSeatOf pool.now result.0 }
{
    let first = reads(pool, &mut seat, 0, 0, 10_000);
    let second = reads(pool, &mut seat, 1, 0, 10_000);
    (seat, first <= 101 && second <= 101)
}

/// Splits two seats off the first seat of a pool of two files: one that feeds file 1, and one that only reads. The first feeds file 0.
fn seats_of_three(pool: &Pool, first: &mut PoolSeat) -> Result<(PoolSeat, PoolSeat), AllocError>
    requires seat { IsSeatOf pool.now first.old }
    requires two { (pool.now.files ≡ 2) × (pool.now.feeders ≡ 2) }
    requires new { IsFirst first.old.hold }
    ensures seats { IfOk result (λ split. IsSeatOf pool.now first.new × IsSeatOf pool.now split.0 × IsSeatOf pool.now split.1) }
    ensures feeds { IfOk result (λ split. MayFeed first.new 0 × MayFeed split.0 1) }
{
    let second = pool.split(first, Some(1))?;
    let third = pool.split(first, None)?;
    Ok((second, third))
}

#[test]
fn two_threads_feed_two_files_while_a_third_reads(rt: HostRuntime) -> Result<(), Fail> {
    let alloc = rt.alloc();
    let (pool, mut first) = Pool::new(alloc, 2, 2)?;
    let (second, third) = seats_of_three(&pool, &mut first)?;
    let shared = &pool;
    let handle = &rt;
    let (one, (two, three)) = join(
        handle,
        || feeds(shared, first, 0, alloc),
        ||
            requires seats { IsSeatOf shared.now second × IsSeatOf shared.now third }
            requires feeds { MayFeed second 1 }
            requires files { 2 ≤ shared.now.files }
        {
            join(
                handle,
                || feeds(shared, second, 1, alloc),
                || reads_both(shared, third),
            )
        },
    );
    assert!(rt; one.1 && two.1 && three.1);
    let (mut first, _) = one;
    let (second, _) = two;
    let (third, _) = three;
    pool.join(&mut first, second);
    pool.join(&mut first, third);
    assert_eq!(rt; reads(&pool, &mut first, 0, 0, 101), 101);
    assert_eq!(rt; reads(&pool, &mut first, 1, 0, 101), 101);
    Ok(())
}

#[test]
fn layers_and_seats_cross_threads(rt: HostRuntime) {
    is_shared_by_threads::<Pool>();
    goes_to_a_thread::<PoolSeat>();
    is_shared_by_threads::<PortLog>();
    goes_to_a_thread::<LogSeat>();
    is_shared_by_threads::<Shelf<u64>>();
    goes_to_a_thread::<ShelfSeat<u64>>();
    let _ = rt;
}
