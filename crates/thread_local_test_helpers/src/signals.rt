//! Signals that a thread gives and another waits for, and a gate at which threads wait for each
//! other.

use std::hint::spin_loop;
use std::sync::atomic::Ordering::SeqCst;
use std::sync::atomic::{AtomicBool, AtomicU32};
use std::thread::yield_now;

/// How often a thread looks for another's signal before it gives up.
const LOOKS: u64 = 100_000_000;

/// Lets time pass after a look: the thread yields, or goes on after a moment or at once. It yields
/// after each of the first looks, and then ever more seldom: a hundred million yields would take
/// half a minute, and far longer where the processors are busy. `next` is the look after which it
/// yields next.
fn pass_time(look: u64, next: &mut u64) {
    if look >= *next {
        yield_now();
        *next = look.saturating_add(look / 128).saturating_add(1);
    } else if look % 2 == 0 {
        spin_loop();
    }
}

/// Looks for a signal until it is given, or gives up. Answers whether it was seen.
pub fn is_seen(signal: &AtomicBool) -> bool {
    let mut next = 0;
    for look in 0..LOOKS {
        if signal.load(SeqCst) {
            return true;
        }
        pass_time(look, &mut next);
    }
    false
}

/// Comes to a gate, and looks until so many threads have come, or gives up. Answers whether they
/// have.
pub fn passes(gate: &AtomicU32, threads: u32) -> bool {
    gate.fetch_add(1, SeqCst);
    let mut next = 0;
    for look in 0..LOOKS {
        if gate.load(SeqCst) >= threads {
            return true;
        }
        pass_time(look, &mut next);
    }
    false
}
