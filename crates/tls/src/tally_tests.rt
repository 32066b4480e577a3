//! Workers that add at the same time.

use crate::gate::Gate;
use crate::workers::tally;
use std::sync::atomic::Ordering::SeqCst;
use std::sync::atomic::{AtomicBool, AtomicU64};
use std::test::Fail;
use thread_local_test_helpers::signals::is_seen;

/// A gate at which each of two workers waits for the other.
#[derive(Drop)]
struct Meeting {
    first: AtomicBool,
    second: AtomicBool,
    given_up: AtomicU64,
}

impl Gate for Meeting {
    fn pass(&self, worker: usize) {
        let (own, other) = if worker == 0 {
            (&self.first, &self.second)
        } else {
            (&self.second, &self.first)
        };
        own.store(true, SeqCst);
        if !is_seen(other) {
            self.given_up.fetch_add(1, SeqCst);
        }
    }
}

#[test]
fn workers_add_at_the_same_time(rt: HostRuntime) -> Result<(), Fail> {
    let gate = Meeting {
        first: AtomicBool::new(false),
        second: AtomicBool::new(false),
        given_up: AtomicU64::new(0),
    };
    let sum = tally(&rt, rt.alloc(), 2, 10, &gate);
    assert_eq!(rt; (sum, gate.given_up.load(SeqCst)), (Ok(55), 0));
    Ok(())
}

/// A gate that counts who passes.
#[derive(Drop)]
struct Counted {
    passed: AtomicU64,
}

impl Gate for Counted {
    fn pass(&self, worker: usize) {
        self.passed.fetch_add(1 << (worker % 64), SeqCst);
    }
}

#[test]
fn each_worker_passes_the_gate_once(rt: HostRuntime) -> Result<(), Fail> {
    let gate = Counted {
        passed: AtomicU64::new(0),
    };
    let sum = tally(&rt, rt.alloc(), 5, 10, &gate);
    assert_eq!(rt; (sum, gate.passed.load(SeqCst)), (Ok(55), 0b11111));
    Ok(())
}
