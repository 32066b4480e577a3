//! Rounds of work: in each, workers count, and between two rounds the owner takes the counts out. The
//! buckets stay, so a later round asks for no memory where an earlier one was as large. What a value
//! itself has of memory goes with it: where it should stay, reset the values through `iter_mut`, as
//! `spans.rt` does.
use std::alloc::Global;
use std::cell::Cell;
use std::default::MadeWith;
use std::sync::Wait;
use thread_local::ThreadLocal;
use thread_local::thread_id::LocalError;

/// A table of counts.
pub fn counts(alloc: Global) -> ThreadLocal<Cell<u64>> {
    ThreadLocal::made_with(alloc)
}

/// Adds numbers to what was counted under this worker's id in this round. The worker keeps its
/// `Local` for all of them, and gives it back for the owner to end the round.
pub fn count<R: Wait>(
    counts: &ThreadLocal<Cell<u64>>,
    rt: &R,
    numbers: &[u64],
) -> Result<(), LocalError> {
    let mut local = counts.local(rt)?;
    let counted = local.get_or(|| Cell::new(0))?;
    for number in numbers {
        counted.set(counted.get().saturating_add(*number));
    }
    Ok(())
}

/// Ends a round: what was counted in it, which the table has no longer.
pub fn end_round(counts: &mut ThreadLocal<Cell<u64>>) -> u64 {
    let mut total = 0u64;
    for counted in counts.drain() {
        total = total.saturating_add(counted.get());
    }
    total
}

#[cfg(test)]
mod tests {
    use super::*;
    use std::thread;
    use std::thread::Threads;

    /// A round of two workers: whether both counted, the total, and whether there is then at least one
    /// slot and at most three.
    fn round<R: Wait + Threads + Sync>(
        counts: &mut ThreadLocal<Cell<u64>>,
        rt: &R,
        numbers: (&[u64], &[u64]),
    ) -> (bool, u64, bool) {
        let shared = &*counts;
        let counted = thread::join(
            rt,
            || count(shared, rt, numbers.0).is_ok(),
            || count(shared, rt, numbers.1).is_ok(),
        );
        let total = end_round(counts);
        (
            counted == (true, true),
            total,
            (1..=3).contains(&counts.slots()),
        )
    }

    #[test]
    fn each_round_begins_at_nothing(rt: HostRuntime) {
        let mut counts = counts(rt.alloc());
        let first = round(&mut counts, &rt, (&[1], &[4, 6]));
        let second = round(&mut counts, &rt, (&[200], &[1000, 2000]));
        let left = end_round(&mut counts);
        assert!(rt; (first, second, left) == ((true, 11, true), (true, 3200, true), 0));
    }
}
