//! How many handles a pool cuts off.
use super::plays::{MOST_HANDLES, Play, play_in_time};
use super::scripts::handles_of;
use super::{RunNumber, tasks_of};
use crate::told::code_of;
use heap_allocator::HeapAllocator;
use std::alloc::Global;
use std::sync::Wait;
use std::test::Fail;
use std::thread::Threads;
use worker_pool::{Handle, Named, Pool, PoolError};

/// Takes 63 handles of a pool, and asks it for one more, and for one more again.
#[derive(Drop)]
pub struct Seats {
    more: [Option<PoolError>; 2],
}

/// Does it with a pool.
pub fn play_in<
    's,
    N: Named + Send + Sync,
    A: HeapAllocator + Send + Sync,
    R: Threads + Wait + Sync,
>(
    rt: &R,
    alloc: Global,
    pool: &Pool<'s, N, A>,
    seats: &mut Seats,
) -> Result<Vec<Handle<'s, N, A>>, Fail> {
    let handles = handles_of(rt, alloc, pool, MOST_HANDLES)?;
    seats.more = [pool.handle(rt).err(), pool.handle(rt).err()];
    Ok(handles)
}

/// The book has one again once one of them is back.
#[test]
fn a_pool_has_63_handles(rt: HostRuntime) -> Result<(), Fail> {
    let alloc = rt.alloc();
    let code = code_of(alloc, tasks_of(alloc, 1, 0)?.as_str())?;
    let mut seats = Seats { more: [None, None] };
    let came = play_in_time(
        &rt,
        alloc,
        alloc,
        code,
        1,
        100,
        Play::Seats::<RunNumber>(&mut seats),
    )?;
    let none = Some(PoolError::Seats);
    assert!(rt; seats.more == [none, none]);
    assert!(rt; came.more.as_slice() == [none, None, none].as_slice());
    Ok(())
}
