//! A bucket that somebody else installs first, in one thread.

use crate::same::assert_same;
use std::alloc::{AllocError, Global};
use std::mem::forget;
use std::sync::Wait;
use std::test::Fail;
use thread_local::ThreadLocal;
use thread_local::local::{Local, TryError};
use thread_local_base::{LocalError, judge_sync};
use thread_local_test_helpers::memory::take_all_but;

/// A value of 4 KiB: the 1024 of bucket 10 take more than 4 MiB.
type Large = [u64; 512];

/// A table of which 1023 ids are held, for good. The next id is the first of bucket 10.
fn with_1023_held<R: Wait>(rt: &R, alloc: Global) -> Result<ThreadLocal<Large>, LocalError> {
    judge_sync::<Large>();
    let table = ThreadLocal::<Large>::new(alloc);
    for _ in 0..1023 {
        forget(table.local(rt)?);
    }
    Ok(table)
}

/// Publishes a number. Answers what the slot holds then, or None where memory was refused.
fn published<R: Wait>(local: &mut Local<'_, Large, R>, number: u64) -> Option<u64> {
    local.get_or(|| [number; 512]).ok().map(|there| there[511])
}

/// What two `Local`s publish once no bucket can be had any more.
fn published_without_memory<R: Wait>(
    first: &mut Local<'_, Large, R>,
    second: &mut Local<'_, Large, R>,
    alloc: Global,
) -> Result<[Option<u64>; 2], AllocError> {
    let _taken = take_all_but(alloc, 0)?;
    Ok([published(first, 1), published(second, 2)])
}

/// Of three `Local`s that find their bucket missing, the second installs that of the first. Then the
/// first and the third publish, whose bucket is still missing.
fn published_by_three<R: Wait>(
    table: &ThreadLocal<Large>,
    other: &ThreadLocal<Large>,
    rt: &R,
    alloc: Global,
) -> Result<(Option<u64>, [Option<u64>; 2]), LocalError> {
    let mut first = table.local(rt)?;
    let mut second = table.local(rt)?;
    let mut third = other.local(rt)?;
    let installed = published(&mut second, 3);
    Ok((
        installed,
        published_without_memory(&mut first, &mut third, alloc)?,
    ))
}

#[test]
fn a_bucket_that_another_installed_is_not_asked_for(rt: HostRuntime) -> Result<(), Fail> {
    let table = with_1023_held(&rt, rt.alloc())?;
    let other = with_1023_held(&rt, rt.alloc())?;
    let published = published_by_three(&table, &other, &rt, rt.alloc())?;
    assert_same(&rt, published, (Some(3), [Some(1), None]));
    Ok(())
}

/// What the slot of a `Local` holds.
fn found<R: Wait>(local: &Local<'_, Large, R>) -> Option<u64> {
    local.get().map(|there| there[511])
}

/// Whether a closure's error is told as such at the first slot of a bucket that another `Local`
/// installs while the closure runs.
fn fails_second<R: Wait>(table: &ThreadLocal<Large>, rt: &R) -> Result<bool, LocalError> {
    let mut first = table.local(rt)?;
    let mut second = table.local(rt)?;
    let told = first.try_fill(|| {
        let _published = published(&mut second, 3);
        Err("no")
    });
    Ok(matches!(told, Err(TryError::Create("no"))) && found(&second) == Some(3))
}

// The blocks that come second would hold more than 1.2 GB if none were freed, where 1 GiB can be had.
#[test]
fn a_block_that_comes_second_without_a_value_is_freed(rt: HostRuntime) -> Result<(), Fail> {
    let taken = take_all_but(rt.alloc(), 1 << 30)?;
    for _ in 0..300 {
        let table = with_1023_held(&rt, rt.alloc())?;
        let failed = fails_second(&table, &rt)?;
        assert_same(&rt, failed, true);
    }
    drop(taken);
    Ok(())
}
