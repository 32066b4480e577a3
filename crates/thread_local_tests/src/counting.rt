//! Threads that count in a table, each in its own cell.

use crate::examples::{count, total};
use crate::same::assert_same;
use std::cell::Cell;
use std::thread;
use thread_local::ThreadLocal;
use thread_local::table::Judge;

#[test]
fn five_threads_count_to_five(rt: HostRuntime) {
    Cell::<u64>::judge();
    let counters = ThreadLocal::new(rt.alloc());
    let shared = &counters;
    let handle = &rt;
    thread::scope(thread::scope_env(), &rt, |scope| {
        for _ in 0..5 {
            let _started = scope.spawn(move || count(shared, handle, 1)).is_ok();
        }
    });
    assert_same(&rt, total(counters), 5);
}
