//! Threads that take ids of one table at once.

use crate::same::assert_same;
use crate::shared_ids::Table;
use std::sync::Wait;
use std::sync::atomic::AtomicBool;
use std::sync::atomic::Ordering::SeqCst;
use std::test::Fail;
use std::thread;
use std::thread::Threads;
use thread_local_base::LocalError;

/// Takes an id and gives it back, `times` times. Answers how often it was none of the four from
/// `first` on, or another thread had it at that moment, or that memory ran out.
fn take_and_give<R: Wait>(
    table: &Table,
    rt: &R,
    first: usize,
    used: &[AtomicBool; 4],
    times: u64,
) -> Result<u64, LocalError> {
    let mut wrong = 0u64;
    for _ in 0..times {
        let held = table.take(rt)?;
        if let Some(mark) = used.get(held.id.wrapping_sub(first)) {
            if mark.swap(true, SeqCst) {
                wrong = wrong.saturating_add(1);
            }
            mark.store(false, SeqCst);
        } else {
            wrong = wrong.saturating_add(1);
        }
        table.ids.give(rt, held);
    }
    Ok(wrong)
}

/// Takes and gives by four threads, where the ids below `first` are held. Answers what each found.
fn race<R: Wait + Threads + Sync>(
    table: &Table,
    rt: &R,
    first: usize,
) -> [Result<u64, LocalError>; 4] {
    let used = [
        AtomicBool::new(false),
        AtomicBool::new(false),
        AtomicBool::new(false),
        AtomicBool::new(false),
    ];
    let marks = &used;
    let run = || take_and_give(table, rt, first, marks, 10_000);
    let two = || thread::join(rt, run, run);
    let (a, b) = thread::join(rt, two, two);
    [a.0, a.1, b.0, b.1]
}

// The ids are the first four, and four about the 58th.
#[test]
fn threads_hold_unlike_ids(rt: HostRuntime) -> Result<(), Fail> {
    for first in [0usize, 56] {
        let table = Table::new(rt.alloc());
        for id in 0..first {
            assert_same(&rt, table.take_for_ever(&rt)?, id);
        }
        assert_same(&rt, race(&table, &rt, first), [Ok(0); 4]);
        // None of the four is held, so the next are these.
        for id in first..first.saturating_add(4) {
            assert_same(&rt, table.take_for_ever(&rt)?, id);
        }
    }
    Ok(())
}
