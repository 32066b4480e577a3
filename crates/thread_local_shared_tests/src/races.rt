//! Threads race to install buckets and to publish.
ghost use Rattle.std.specs.Prelude.{◌≡◌, Some};
ghost use Rattle.thread_local_ids.specs.Sharings.{first_of};

use crate::same::assert_same;
use crate::steps::{Table, begun, publish, take_back};
use std::alloc::Global;
use std::process::Abort;
use std::sync::Wait;
use std::thread;
use std::thread::Threads;
use thread_local_shared_buckets::Shared;

/// Shared buckets in the first sharing of a table, and its ids.
#[derive(Drop)]
struct Racing {
    shared: Shared<usize>,
    table: Table,
    ghost tied: { (table.ids.table ≡ shared.table) × (shared.sharing ≡ Some (first_of shared.table)) },
}

impl Racing {
    /// Empty buckets, and no id held.
    fn new(alloc: Global) -> Racing {
        let (table, shared) = begun(alloc);
        Racing { shared, table }
    }

    /// Takes 16 ids, and publishes each one's own number at it. Answers how often it did.
    fn publish_own<R: Wait + Abort>(&self, rt: &R, alloc: Global) -> u64 {
        let mut published = 0u64;
        for _ in 0..16 {
            let held = self.table.hold(rt);
            let id = held.id;
            if publish(&self.shared, held, alloc, id).1 {
                published = published.saturating_add(1);
            }
        }
        published
    }
}

/// How often two did together.
fn sum(both: (u64, u64)) -> u64 {
    both.0.saturating_add(both.1)
}

/// Eight threads do so at once. Answers how often they did.
fn publish_by_eight<R: Wait + Threads + Abort + Sync>(
    racing: &Racing,
    rt: &R,
    alloc: Global,
) -> u64 {
    let one = || racing.publish_own(rt, alloc);
    let two = || sum(thread::join(rt, one, one));
    let four = || sum(thread::join(rt, two, two));
    sum(thread::join(rt, four, four))
}

/// Whether an owner's walk gives 0 to 127, in order.
fn gives_all(racing: Racing) -> bool {
    let Racing { shared, table: _ } = racing;
    let mut next = 0usize;
    let mut are_all = true;
    for value in take_back(shared).0 {
        are_all &= value == next;
        next = next.saturating_add(1);
    }
    are_all && next == 128
}

#[test]
fn eight_threads_race_to_install_and_publish(rt: HostRuntime) {
    for _ in 0..200 {
        let alloc = rt.alloc();
        let racing = Racing::new(alloc);
        let published = publish_by_eight(&racing, &rt, alloc);
        assert_same(&rt, (published, gives_all(racing)), (128, true));
    }
}
