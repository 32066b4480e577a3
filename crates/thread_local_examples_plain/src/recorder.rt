//! A recorder: any thread adds a number to a total, and is passed neither a `Local` nor the runtime.
//! Each call takes a `Local` and drops it, some 20 ns. That is right for counts: whichever id is free
//! will do, as all sums are added up at the end. A worker that counts more often keeps its `Local`,
//! as in `metrics.rt`.
use std::alloc::Global;
use std::cell::Cell;
use std::default::MadeWith;
use std::sync::Wait;
use thread_local::ThreadLocal;
use thread_local::thread_id::LocalError;

/// What was recorded, a sum for each id. The handle is `Copy`, so the struct keeps one of its own.
#[derive(Drop)]
pub struct Recorder<R: Wait> {
    sums: ThreadLocal<Cell<u64>>,
    rt: R,
}

impl<R: Wait> Recorder<R> {
    /// A recorder of nothing yet.
    pub fn new(alloc: Global, rt: R) -> Recorder<R> {
        Recorder {
            sums: ThreadLocal::made_with(alloc),
            rt,
        }
    }

    /// Adds a number to the sum of the id that is free.
    pub fn record(&self, number: u64) -> Result<(), LocalError> {
        let mut local = self.sums.local(&self.rt)?;
        let sum = local.get_or(|| Cell::new(0))?;
        sum.set(sum.get().saturating_add(number));
        Ok(())
    }

    /// All that was recorded, once no thread records any more.
    pub fn total(&mut self) -> u64 {
        let mut total = 0u64;
        for sum in self.sums.iter_mut() {
            total = total.saturating_add(sum.get());
        }
        total
    }
}

#[cfg(test)]
mod tests {
    use super::*;
    use std::thread;

    /// Records the numbers from 1 on, this many.
    fn record_all<R: Wait>(recorder: &Recorder<R>, numbers: u64) -> Result<(), LocalError> {
        for number in 0..numbers {
            recorder.record(number + 1)?;
        }
        Ok(())
    }

    #[test]
    fn two_threads_record_a_total(rt: HostRuntime) {
        let mut recorder = Recorder::new(rt.alloc(), rt);
        let shared = &recorder;
        let recorded = thread::join(
            &rt,
            || record_all(shared, 100).is_ok(),
            || record_all(shared, 20).is_ok(),
        );
        assert!(rt; (recorded, recorder.total()) == ((true, true), 5260));
    }
}
