//! Counters that don't disturb each other: each thread counts in a cell of its own, which shares no
//! line of the cache with another thread's. And counts of a pool, which contracts see.
ghost use Rattle.std.specs.Prelude.{◌≡◌, ◌+◌, ◌^◌, ◌<◌};

use std::alloc::Global;
use std::cell::Cell;
use std::default::MadeWith;
use std::sync::Wait;
use thread_local::thread_id::LocalError;
use thread_local::{Padded, ThreadLocal};
use thread_local_pool::Pooled;

/// A table of counters, where threads count often and at the same time.
pub fn padded(alloc: Global) -> ThreadLocal<Padded<Cell<u64>>> {
    ThreadLocal::made_with(alloc)
}

/// A table of counters, where threads seldom count: it takes a sixteenth of the memory.
pub fn plain(alloc: Global) -> ThreadLocal<Cell<u64>> {
    ThreadLocal::made_with(alloc)
}

/// Adds `times` ones.
fn add(counter: &Cell<u64>, times: u64) {
    for _ in 0..times {
        counter.set(counter.get().wrapping_add(1));
    }
}

/// Counts in this thread's padded counter.
pub fn count_padded<R: Wait>(
    counters: &ThreadLocal<Padded<Cell<u64>>>,
    rt: &R,
    times: u64,
) -> Result<(), LocalError> {
    let mut local = counters.local(rt)?;
    let counter = local.get_or(|| Padded::new(Cell::new(0)))?;
    add(counter, times);
    Ok(())
}

/// Counts in this thread's plain counter.
pub fn count_plain<R: Wait>(
    counters: &ThreadLocal<Cell<u64>>,
    rt: &R,
    times: u64,
) -> Result<(), LocalError> {
    let mut local = counters.local(rt)?;
    let counter = local.get_or(|| Cell::new(0))?;
    add(counter, times);
    Ok(())
}

/// Adds one to a count of a pool. What a cell holds no contract sees.
pub fn count_pooled<R: Wait>(count: &mut Pooled<'_, u64, R>)
    requires { count.old.value + 1 < 2 ^ 64 }
    ensures { count.new.value ≡ count.old.value + 1 }
{
    **count += 1;
}

#[cfg(test)]
mod tests {
    use super::*;
    use std::thread;
    use thread_local_pool::Pool;

    /// Counts in this thread's counters of both tables. Answers whether none was refused.
    fn count_in_both<R: Wait>(
        padded: &ThreadLocal<Padded<Cell<u64>>>,
        plain: &ThreadLocal<Cell<u64>>,
        rt: &R,
        times: u64,
    ) -> bool {
        count_padded(padded, rt, times).is_ok() && count_plain(plain, rt, times).is_ok()
    }

    /// What all padded counters counted.
    fn in_padded(counters: ThreadLocal<Padded<Cell<u64>>>) -> u64 {
        let mut sum = 0u64;
        for counter in counters {
            sum = sum.wrapping_add(counter.get());
        }
        sum
    }

    /// What all plain counters counted.
    fn in_plain(counters: ThreadLocal<Cell<u64>>) -> u64 {
        let mut sum = 0u64;
        for counter in counters {
            sum = sum.wrapping_add(counter.get());
        }
        sum
    }

    #[test]
    fn padded_counters_count_as_plain_ones(rt: HostRuntime) {
        let padded = padded(rt.alloc());
        let plain = plain(rt.alloc());
        let counted = thread::join(
            &rt,
            || count_in_both(&padded, &plain, &rt, 1000),
            || count_in_both(&padded, &plain, &rt, 234),
        );
        let sums = (in_padded(padded), in_plain(plain));
        assert!(rt; (counted, sums) == ((true, true), (1234, 1234)));
    }

    /// Adds one to a count that is below 1000. Answers what it is then.
    fn count_once<R: Wait>(counts: &Pool<u64>, rt: &R) -> Result<u64, LocalError> {
        let mut count = counts.get(rt, || 0)?;
        if *count < 1000 {
            count_pooled(&mut count);
        }
        Ok(*count)
    }

    #[test]
    fn a_pooled_count_goes_on(rt: HostRuntime) {
        let counts = Pool::new(rt.alloc());
        let told = (count_once(&counts, &rt), count_once(&counts, &rt));
        assert!(rt; told == (Ok(1), Ok(2)));
    }
}
