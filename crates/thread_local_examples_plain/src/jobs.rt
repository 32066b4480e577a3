//! Many short jobs: workers take them from one queue. Each worker takes a `Local` once, keeps it for
//! all jobs that come to it, and does each in the same room, as with `map_init` of rayon.
use std::alloc::Global;
use std::cell::Cell;
use std::default::MadeWith;
use std::sync::Wait;
use std::sync::atomic::{AtomicUsize, Ordering};
use thread_local::ThreadLocal;
use thread_local::thread_id::LocalError;

/// What a worker keeps from job to job: room for a job's digits, and how many jobs it did.
pub type Kept = Cell<(Vec<u8>, u64)>;

/// A table of what workers keep.
pub fn workers(alloc: Global) -> ThreadLocal<Kept> {
    ThreadLocal::made_with(alloc)
}

/// The sum of a number's decimal digits, which are written into the room first.
fn digits(number: u64, room: &mut Vec<u8>) -> Result<u64, LocalError> {
    room.clear();
    let mut rest = number;
    for _ in 0..20 {
        room.push((rest % 10) as u8)?;
        rest /= 10;
    }
    Ok(
        room.iter()
            .fold(0u64, |sum, digit| sum.wrapping_add(u64::from(*digit))),
    )
}

/// Jobs that workers take one after another.
#[derive(Drop)]
pub struct Queue<'a> {
    jobs: &'a [u64],
    taken: AtomicUsize,
}

impl<'a> Queue<'a> {
    /// A queue of these jobs.
    pub fn new(jobs: &'a [u64]) -> Queue<'a> {
        Queue {
            jobs,
            taken: AtomicUsize::new(0),
        }
    }

    /// The next job that no worker has taken.
    fn take(&self) -> Option<u64> {
        self.jobs
            .get(self.taken.fetch_add(1, Ordering::Relaxed))
            .copied()
    }
}

/// Does jobs until the queue has none. A `Local` for each job would cost more than the job, and
/// another worker's room might come.
pub fn work<R: Wait>(
    workers: &ThreadLocal<Kept>,
    rt: &R,
    alloc: Global,
    queue: &Queue<'_>,
) -> Result<u64, LocalError> {
    let mut local = workers.local(rt)?;
    let kept = local.get_or(|| Cell::new((Vec::new(alloc), 0)))?;
    let (mut room, mut done) = kept.replace((Vec::new(alloc), 0));
    let mut sum = 0u64;
    for _ in 0..queue.jobs.len() {
        let Some(job) = queue.take() else {
            break;
        };
        sum = sum.wrapping_add(digits(job, &mut room)?);
        done = done.wrapping_add(1);
    }
    kept.set((room, done));
    Ok(sum)
}

#[cfg(test)]
mod tests {
    use super::*;
    use std::thread;

    /// How many jobs all workers did.
    fn done(workers: ThreadLocal<Kept>) -> u64 {
        let mut done = 0u64;
        for kept in workers {
            done = done.wrapping_add(kept.into_inner().1);
        }
        done
    }

    #[test]
    fn two_workers_do_all_jobs(rt: HostRuntime) {
        let alloc = rt.alloc();
        let table = workers(alloc);
        let queue = Queue::new(&[123, 9, 1000, 99, 5]);
        let sums = thread::join(
            &rt,
            || work(&table, &rt, alloc, &queue).ok(),
            || work(&table, &rt, alloc, &queue).ok(),
        );
        let (Some(first), Some(second)) = sums else {
            return assert!(rt; false, "a worker was refused memory or an id");
        };
        assert!(rt; (first.wrapping_add(second), done(table)) == (39, 5));
    }
}
