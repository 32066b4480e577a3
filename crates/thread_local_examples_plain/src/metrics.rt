//! Metrics: a struct that holds a table and the runtime's handle, so that its calls take neither. In
//! an `Arc` it goes to threads that are spawned and may outlive the function that made it.
use std::alloc::{AllocError, Global};
use std::cell::Cell;
use std::default::MadeWith;
use std::sync::{Arc, Wait};
use std::thread;
use std::thread::{JoinHandle, Threads};
use thread_local::ThreadLocal;
use thread_local::local::Local;
use thread_local::thread_id::LocalError;

/// How many requests were handled, a count for each id. The handle is `Copy`, so the struct keeps
/// one of its own.
#[derive(Drop)]
pub struct Metrics<R: Wait> {
    requests: ThreadLocal<Cell<u64>>,
    rt: R,
}

impl<R: Wait> Metrics<R> {
    /// Metrics of no request.
    pub fn new(alloc: Global, rt: R) -> Metrics<R> {
        Metrics {
            requests: ThreadLocal::made_with(alloc),
            rt,
        }
    }

    /// A worker, which keeps its `Local` until it is dropped.
    pub fn worker(&self) -> Result<Worker<'_, R>, LocalError> {
        Ok(Worker {
            requests: self.requests.local(&self.rt)?,
        })
    }

    /// How many requests were handled, once no worker is left.
    pub fn total(&mut self) -> u64 {
        let mut total = 0u64;
        for requests in self.requests.iter_mut() {
            total = total.saturating_add(requests.get());
        }
        total
    }
}

/// Counts the requests that one thread handles.
#[derive(Drop)]
pub struct Worker<'a, R: Wait> {
    requests: Local<'a, Cell<u64>, R>,
}

impl<R: Wait> Worker<'_, R> {
    /// Counts one request. It takes no lock, and memory at most the first time.
    pub fn handle(&mut self) -> Result<(), AllocError> {
        let requests = self.requests.get_or(|| Cell::new(0))?;
        requests.set(requests.get().saturating_add(1));
        Ok(())
    }
}

/// Handles this many requests.
fn handle_all<R: Wait>(metrics: &Metrics<R>, requests: u64) -> Result<(), LocalError> {
    let mut worker = metrics.worker()?;
    for _ in 0..requests {
        worker.handle()?;
    }
    Ok(())
}

/// Has a thread of its own handle this many requests.
pub fn spawn<R: Threads + Wait + Copy + Send + Sync + Drop + 'static>(
    metrics: &Arc<Metrics<R>, Global>,
    rt: R,
    requests: u64,
) -> Result<JoinHandle<Result<(), LocalError>>, AllocError> {
    let shared = Arc::try_clone(metrics)?;
    Ok(thread::spawn(&rt, move || handle_all(&shared, requests))?)
}

#[cfg(test)]
mod tests {
    use super::*;

    /// Whether two threads handle 30 and 12 requests.
    fn handle_in_two<R: Threads + Wait + Copy + Send + Sync + Drop + 'static>(
        metrics: &Arc<Metrics<R>, Global>,
        rt: R,
    ) -> Option<(bool, bool)> {
        let first = spawn(metrics, rt, 30).ok()?;
        let second = spawn(metrics, rt, 12).ok()?;
        Some((first.join(&rt).is_ok(), second.join(&rt).is_ok()))
    }

    #[test]
    fn spawned_threads_count_what_they_handle(rt: HostRuntime) {
        let mut metrics = Arc::new(rt.alloc(), Metrics::new(rt.alloc(), rt)).expect(
            &rt,
            "memory for metrics",
        );
        let handled = handle_in_two(&metrics, rt);
        let total = Arc::get_mut(&mut metrics).map(|metrics| metrics.total());
        assert!(rt; (handled, total) == (Some((true, true)), Some(42)));
    }
}
