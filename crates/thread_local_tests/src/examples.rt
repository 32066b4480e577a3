//! Programs of a few lines, as users of `thread_local` write them.
ghost use Rattle.std.specs.Prelude.{◌≡◌, IfOk, None, length};
ghost use Rattle.thread_local_base.specs.Buckets.{values};
ghost use Rattle.thread_local_base.specs.Walk.{walk};

use std::alloc::{AllocError, Global};
use std::cell::Cell;
use std::sync::Wait;
use thread_local::ThreadLocal;
use thread_local::buckets::Buckets;
use thread_local::local::Local;
use thread_local::thread_id::{LocalError, ThreadIdManager};

/// Counts in a counter of its own, which is a plain cell, as often as is asked for. None means that
/// memory or an id was refused.
pub fn count<R: Wait>(counters: &ThreadLocal<Cell<u64>>, rt: &R, times: u64) -> Option<()> {
    let mut local = counters.local(rt).ok()?;
    let counter = local.get_or(|| Cell::new(0)).ok()?;
    for _ in 0..times {
        counter.set(counter.get().saturating_add(1));
    }
    Some(())
}

/// The sum of all counters, for the exclusive owner of the table.
pub fn total(counters: ThreadLocal<Cell<u64>>) -> u64 {
    let mut sum = 0u64;
    for counter in counters {
        sum = sum.saturating_add(counter.get());
    }
    sum
}

/// The second closure is not called: a slot keeps its first value.
pub fn first_stays<R: Wait>(local: &mut Local<'_, u64, R>, first: u64) -> Result<u64, AllocError>
    requires { local.old.value ≡ None }
    ensures { IfOk result (λ value. value ≡ first) }
{
    local.get_or(|| first)?;
    Ok(*local.get_or(|| unreachable!())?)
}

/// How many ids have a count, and the sum of their counts.
pub fn summed(counts: Buckets<u64>) -> (usize, u64)
    ensures { result.0 ≡ length (walk (values counts.contents)) }
{
    let walk = counts.into_iter();
    let ids = walk.len();
    let mut sum = 0u64;
    for count in walk {
        sum = sum.saturating_add(count);
    }
    (ids, sum)
}

/// Gives an id back while a later one is held: the next call takes it again.
pub fn taken_again(alloc: Global) -> Result<usize, LocalError>
    ensures { IfOk result (λ id. id ≡ 0) }
{
    let mut ids = ThreadIdManager::new(alloc);
    let first = ids.alloc()?;
    let _second = ids.alloc()?;
    ids.free(first);
    ids.alloc()
}

/// The value of a new `Local`, which is made where there is none, and which lasts as long as the
/// table is lent.
pub fn lasting<'a, R: Wait>(table: &'a ThreadLocal<u64>, rt: &'a R, value: u64) -> Option<&'a u64> {
    let mut local = table.local(rt).ok()?;
    local.get_or_try_lasting(|| Ok::<u64, ()>(value)).ok()
}

#[cfg(test)]
mod tests {
    use super::*;
    use crate::same::assert_same;
    use std::thread;
    use thread_local::table::Judge;
    use thread_local::thread_id::Thread;

    #[test]
    fn threads_count_and_their_owner_sums(rt: HostRuntime) {
        Cell::<u64>::judge();
        let counters = ThreadLocal::new(rt.alloc());
        let counted = thread::join(
            &rt,
            || count(&counters, &rt, 1000),
            || count(&counters, &rt, 234),
        );
        assert_same(&rt, counted, (Some(()), Some(())));
        assert_same(&rt, total(counters), 1234);
    }

    /// What a new `Local`, which finds nothing, is told of 7.
    fn first_of_a_new_one<R: Wait>(table: &ThreadLocal<u64>, rt: &R) -> Option<u64> {
        let mut local = table.local(rt).ok()?;
        match local.get() {
            None => first_stays(&mut local, 7).ok(),
            Some(_) => None,
        }
    }

    #[test]
    fn a_second_closure_is_not_called(rt: HostRuntime) {
        let table = ThreadLocal::<u64>::new(rt.alloc());
        assert_same(&rt, first_of_a_new_one(&table, &rt), Some(7));
    }

    /// Counts of two ids, one of which is counted again. Answers whether none was refused.
    fn count_two(counts: &mut Buckets<u64>) -> bool {
        for (id, count) in [(4, 40), (1, 10), (4, 7)] {
            if counts.insert(Thread::new(id), count).is_err() {
                return false;
            }
        }
        true
    }

    #[test]
    fn counts_are_summed(rt: HostRuntime) {
        let mut counts = Buckets::new(rt.alloc());
        let counted = count_two(&mut counts);
        assert_same(&rt, (counted, summed(counts)), (true, (2, 50)));
    }

    #[test]
    fn a_value_outlives_its_local(rt: HostRuntime) {
        let table = ThreadLocal::<u64>::new(rt.alloc());
        let first = lasting(&table, &rt, 5);
        let second = lasting(&table, &rt, 6);
        assert_same(&rt, (first, second), (Some(&5), Some(&5)));
    }

    #[test]
    fn an_id_is_taken_again(rt: HostRuntime) {
        assert_same(&rt, taken_again(rt.alloc()), Ok(0));
    }
}
