//! Meters: a table of a struct of one's own with cells in it.
ghost use Rattle.std.specs.Borrow.{u64};
ghost use Rattle.thread_local.specs.Containing.{cell};
ghost use Rattle.thread_local.specs.Parts.{structure};
ghost use Rattle.thread_local_examples_contracts.specs.contracts.meters.Meter.{the_type};

use std::cell::Cell;
use std::sync::Wait;
use thread_local::ThreadLocal;
use thread_local::table::Judge;

/// What has been handled: how many requests, of how many bytes in all.
#[derive(Drop)]
pub struct Meter {
    requests: Cell<u64>,
    bytes: Cell<u64>,
}

impl Judge for Meter {
    ghost everywhere = { structure the_type (λ v. tt) (cell u64, (cell u64, tt)) };
}

/// Counts a request for each of `sizes`. False means that the `Local` or its slot was refused.
pub fn handle<R: Wait>(meters: &ThreadLocal<Meter>, rt: &R, sizes: &[u64]) -> bool {
    let Ok(mut local) = meters.local(rt) else {
        return false;
    };
    let fresh = || Meter {
        requests: Cell::new(0),
        bytes: Cell::new(0),
    };
    let Ok(meter) = local.get_or(fresh) else {
        return false;
    };
    for size in sizes {
        meter.requests.set(meter.requests.get().saturating_add(1));
        meter.bytes.set(meter.bytes.get().saturating_add(*size));
    }
    true
}

#[cfg(test)]
mod tests {
    use super::*;
    use std::default::MadeWith;
    use std::thread;

    /// How many requests of how many bytes all meters have.
    fn metered(meters: ThreadLocal<Meter>) -> (u64, u64) {
        let mut requests = 0u64;
        let mut bytes = 0u64;
        for meter in meters {
            requests = requests.saturating_add(meter.requests.get());
            bytes = bytes.saturating_add(meter.bytes.get());
        }
        (requests, bytes)
    }

    #[test]
    fn workers_meter_what_they_handle(rt: HostRuntime) {
        let meters = ThreadLocal::<Meter>::made_with(rt.alloc());
        let handled = thread::join(
            &rt,
            || handle(&meters, &rt, &[5, 7]),
            || handle(&meters, &rt, &[30]),
        );
        assert!(rt; (handled, metered(meters)) == ((true, true), (3, 42)));
    }
}
