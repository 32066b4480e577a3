//! A bounded pool: n workers on a table with capacity n, none of which runs out of memory for its
//! sum.
ghost use Rattle.std.specs.Prelude.{◌≡◌, true, nat_lt, IsSome};

use std::cell::Cell;
use std::sync::Wait;
use thread_local::ThreadLocal;
use thread_local::local::Local;

/// Adds to this worker's sum, exactly where its slot is reserved, as the contract says: `get_or`
/// isn't refused memory there, and the proof needs no case for it.
pub fn add<R: Wait>(sum: &mut Local<'_, Cell<u64>, R>, number: u64) -> bool
    ensures added { result ≡ nat_lt sum.old.id sum.old.reserved }
    ensures has_a_sum { result ≡ true → IsSome sum.new.value }
{
    if !sum.is_reserved() {
        return false;
    }
    match sum.get_or(|| Cell::new(0)) {
        Ok(cell) => {
            cell.set(cell.get().saturating_add(number));
            true
        }
        Err(_) => false,
    }
}

/// Adds the numbers from 1 to `numbers` to the sum of a `Local`. False means that the `Local` was
/// refused, or that its slot isn't reserved.
pub fn work<R: Wait>(sums: &ThreadLocal<Cell<u64>>, runtime: &R, numbers: u64) -> bool {
    let Ok(mut sum) = sums.local(runtime) else {
        return false;
    };
    (0..numbers).all(|number| add(&mut sum, number + 1))
}

#[cfg(test)]
mod tests {
    use super::*;
    use std::thread;
    use thread_local::table::Judge;

    /// The sum of all workers' sums.
    fn total(sums: ThreadLocal<Cell<u64>>) -> u64 {
        let mut total = 0u64;
        for sum in sums {
            total = total.saturating_add(sum.get());
        }
        total
    }

    #[test]
    fn workers_within_the_capacity_are_refused_nothing(rt: HostRuntime) {
        Cell::<u64>::judge();
        let sums = ThreadLocal::with_capacity(rt.alloc(), 2).expect(&rt, "memory for two slots");
        let worked = thread::join(&rt, || work(&sums, &rt, 10), || work(&sums, &rt, 20));
        assert!(rt; (worked, total(sums)) == ((true, true), 265));
    }
}
