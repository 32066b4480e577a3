//! Two threads count on one table, each in a cell of its own. README.md quotes this program.
#![tactic(auto)]

use std::cell::Cell;
use std::default::MadeWith;
use std::sync::Wait;
use std::thread;
use thread_local::ThreadLocal;

/// Counts in a cell of its own. None: memory is out, or no id is left.
fn count<R: Wait>(table: &ThreadLocal<Cell<u64>>, runtime: &R, times: u64) -> Option<()> {
    let mut local = table.local(runtime).ok()?;
    let counter = local.get_or(|| Cell::new(0)).ok()?;
    for _ in 0..times {
        counter.set(counter.get().saturating_add(1));
    }
    Some(())
}

fn main(runtime: HostRuntime) -> std::io::Result<()> {
    let table = ThreadLocal::<Cell<u64>>::made_with(runtime.alloc());
    let done = thread::join(
        &runtime,
        || count(&table, &runtime, 1000),
        || count(&table, &runtime, 234),
    );
    if done != (Some(()), Some(())) {
        return println!(runtime; "refused");
    }
    let mut sum = 0u64;
    for counter in table {
        sum = sum.saturating_add(counter.get());
    }
    println!(runtime; "{sum}")
}
