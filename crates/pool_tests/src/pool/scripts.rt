//! Scripts of what is done with a pool by one thread.
use super::plays::{Came, Known, Play, play_in_time};
use crate::told::{code_of, parts_of};
use heap_allocator::HeapAllocator;
use result_cell::Verdict;
use std::alloc::{AllocError, AllocGlobal, Global};
use std::process::Abort;
use std::sync::Wait;
use std::test::Fail;
use std::thread::Threads;
use std::time::Clock;
use worker_pool::{Applied, Handle, Job, Named, Pool, PoolError};

/// What a call of a pool is answered.
#[derive(Clone, Copy, Debug)]
pub enum Said {
    Ran(Result<(), PoolError>),
    Advanced(Result<Applied, PoolError>),
}

/// A script: calls of a pool, a line for each. What they are answered may stand behind ` | `.
#[derive(Clone, Copy)]
pub struct Script<'t> {
    pub text: &'t str,
}

/// The moments of a run.
fn moments_of(alloc: Global, words: &str) -> Result<Vec<u64>, Fail> {
    let mut moments = Vec::new(alloc);
    for word in words.split_ascii_whitespace() {
        moments.push(word.parse::<u64>()?)?;
    }
    Ok(moments)
}

/// Does the call of some words: `run` and moments, or `advance` and a moment.
fn call_of<
    N: Named + Send + Sync,
    A: HeapAllocator + Send + Sync,
    R: Threads + Wait + Sync,
    J: Job + Sync,
>(rt: &R, alloc: Global, pool: &Pool<'_, N, A>, job: &J, call: &str) -> Result<Said, Fail> {
    let (verb, rest) = call.split_once(' ').unwrap_or((call, ""));
    if verb == "advance" {
        return Ok(Said::Advanced(pool.advance(rt, rest.parse::<u64>()?)));
    }
    let moments = moments_of(alloc, rest)?;
    Ok(Said::Ran(pool.run(rt, job, &moments)))
}

/// Does the calls of a script in order.
pub fn say_all<
    N: Named + Send + Sync,
    A: HeapAllocator + Send + Sync,
    R: Threads + Wait + Sync,
    J: Job + Sync,
>(
    rt: &R,
    alloc: Global,
    pool: &Pool<'_, N, A>,
    job: &J,
    script: &Script<'_>,
) -> Result<Vec<Said>, Fail> {
    let mut said = Vec::new(alloc);
    for line in script.text.lines() {
        said.push(call_of(rt, alloc, pool, job, parts_of(line).0)?)?;
    }
    Ok(said)
}

/// So many handles of a pool.
pub fn handles_of<'s, N: Named, A: HeapAllocator, R: Wait>(
    rt: &R,
    alloc: Global,
    pool: &Pool<'s, N, A>,
    count: usize,
) -> Result<Vec<Handle<'s, N, A>>, Fail> {
    let mut handles = Vec::new(alloc);
    for _handle in 0..count {
        handles.push(pool.handle(rt)?)?;
    }
    Ok(handles)
}

/// The calls of a script, with a handle beside them.
#[derive(Drop)]
pub struct Scripted<'a, J> {
    job: &'a J,
    script: Script<'a>,
    said: Option<Vec<Said>>,
}

/// Does it with a pool.
pub fn play_in<
    's,
    N: Named + Send + Sync,
    A: HeapAllocator + Send + Sync,
    R: Threads + Wait + Sync,
    J: Job + Sync,
>(
    rt: &R,
    alloc: Global,
    pool: &Pool<'s, N, A>,
    scripted: &mut Scripted<'_, J>,
) -> Result<Vec<Handle<'s, N, A>>, Fail> {
    let handles = handles_of(rt, alloc, pool, 1)?;
    scripted.said = Some(say_all(rt, alloc, pool, scripted.job, &scripted.script)?);
    Ok(handles)
}

/// Does the calls of a script with a new pool for a plan's text, in time. Gives what they are answered, and what is known then.
pub fn play<R: AllocGlobal + Threads + Wait + Sync + Clock + Abort, J: Job + Sync>(
    rt: &R,
    plan: &str,
    workers: u8,
    limit: u32,
    job: &J,
    script: &str,
) -> Result<(Vec<Said>, Came), Fail> {
    let alloc = rt.alloc();
    let code = code_of(alloc, plan)?;
    let mut scripted = Scripted {
        job,
        script: Script { text: script },
        said: None,
    };
    let came = play_in_time(
        rt,
        alloc,
        alloc,
        code,
        workers,
        limit,
        Play::Script(&mut scripted),
    )?;
    Ok((scripted.said.ok_or("nothing was said")?, came))
}
