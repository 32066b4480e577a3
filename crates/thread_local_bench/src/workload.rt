//! The workloads by name: those on tables of few values, those of one thread, and those of several.
//!
//! An operation is one value of a walk, of a table that is filled, and of `clear`; one table of
//! `first_in_fresh`, `new_first_drop`, `clear_8`, `clear_1023` and `first_4_threads`; one walk of
//! `len_8` and of the walks over a reserved table; one use of a pool; and else one call. Where threads
//! work at once it is one of each, but of a tally one number.

use crate::growth::{Work, publish_by};
use crate::sizes::Sizes;
use crate::values::{first, sparse};
use crate::{Round, ids, pools, small, table, values, workers};
use std::alloc::Global;
use std::cell::Cell;
use std::io;
use std::sync::Wait;
use std::thread::Threads;
use std::time::Clock;
use thread_local::Padded;

/// What is timed, with a name by which it is asked for and printed.
#[derive(Clone, Copy)]
pub(crate) enum Workload {
    Small(Small),
    Alone(Alone),
    Together(Together),
}

impl Workload {
    pub(crate) fn name(self) -> &'static str {
        match self {
            Workload::Small(workload) => workload.name(),
            Workload::Alone(workload) => workload.name(),
            Workload::Together(workload) => workload.name(),
        }
    }

    /// Runs the workload once, of those sizes.
    pub(crate) fn round<R: Clock + Threads + Wait + Sync>(
        self,
        rt: &R,
        alloc: Global,
        sizes: &Sizes,
    ) -> io::Result<Round> {
        match self {
            Workload::Small(workload) => workload.round(rt, alloc, sizes),
            Workload::Alone(workload) => workload.round(rt, alloc, sizes),
            Workload::Together(workload) => workload.round(rt, alloc, sizes),
        }
    }
}

/// Workloads on tables that have as many values as a program has threads.
#[derive(Clone, Copy)]
pub(crate) enum Small {
    FirstInFresh,
    NewFirstDrop,
    Iter8,
    IterMut8,
    IntoIter8,
    Drain8,
    Clear8,
    Len8,
    Iter64,
    IterMut64,
    Pool1,
    Pool2,
    Pool4,
}

impl Small {
    pub(crate) const ALL: [Small; 13] = [
        Small::FirstInFresh,
        Small::NewFirstDrop,
        Small::Iter8,
        Small::IterMut8,
        Small::IntoIter8,
        Small::Drain8,
        Small::Clear8,
        Small::Len8,
        Small::Iter64,
        Small::IterMut64,
        Small::Pool1,
        Small::Pool2,
        Small::Pool4,
    ];

    fn name(self) -> &'static str {
        match self {
            Small::FirstInFresh => "first_in_fresh",
            Small::NewFirstDrop => "new_first_drop",
            Small::Iter8 => "iter_8",
            Small::IterMut8 => "iter_mut_8",
            Small::IntoIter8 => "into_iter_8",
            Small::Drain8 => "drain_8",
            Small::Clear8 => "clear_8",
            Small::Len8 => "len_8",
            Small::Iter64 => "iter_64",
            Small::IterMut64 => "iter_mut_64",
            Small::Pool1 => "pool_1",
            Small::Pool2 => "pool_2",
            Small::Pool4 => "pool_4",
        }
    }

    fn round<R: Clock + Threads + Wait + Sync>(
        self,
        rt: &R,
        alloc: Global,
        sizes: &Sizes,
    ) -> io::Result<Round> {
        match self {
            Small::FirstInFresh => small::first_in_fresh(rt, alloc, sizes.fresh),
            Small::NewFirstDrop => table::new_first_drop(rt, alloc, sizes.tables),
            Small::Iter8 => table::iter(rt, alloc, first(8), sizes.eight_walks),
            Small::IterMut8 => small::iter_mut(rt, alloc, 8, sizes.eight_walks),
            Small::IntoIter8 => small::into_iter(rt, alloc, sizes.eight),
            Small::Drain8 => small::drain(rt, alloc, sizes.eight),
            Small::Clear8 => small::clear(rt, alloc, sizes.eight),
            Small::Len8 => small::len(rt, alloc, sizes.lengths),
            Small::Iter64 => table::iter(rt, alloc, first(64), sizes.sixty_four_walks),
            Small::IterMut64 => small::iter_mut(rt, alloc, 64, sizes.sixty_four_walks),
            // Threads that wait for one another take longer for a use.
            Small::Pool1 => pools::pool(rt, alloc, 1, sizes.uses),
            Small::Pool2 => pools::pool(rt, alloc, 2, sizes.uses / 4),
            Small::Pool4 => pools::pool(rt, alloc, 4, sizes.uses / 16),
        }
    }
}

/// Workloads of one thread, on tables of more values and on the id manager.
#[derive(Clone, Copy)]
pub(crate) enum Alone {
    GetHit,
    GetOrHit,
    LocalAndDrop,
    Publish1023,
    Iter1023,
    IterMut1023,
    IntoIter1023,
    Clear1023,
    Publish,
    Insert,
    Iter,
    IterMut,
    IntoIter,
    Clear,
    Insert64Bytes,
    IterMut64Bytes,
    IntoIter64Bytes,
    IterSparse,
    IterMutSparse,
    IntoIterSparse,
    IterReserved,
    IterMutReserved,
    IdsFew,
    IdsMany,
    IdsHighest,
}

impl Alone {
    pub(crate) const ALL: [Alone; 25] = [
        Alone::GetHit,
        Alone::GetOrHit,
        Alone::LocalAndDrop,
        Alone::Publish1023,
        Alone::Iter1023,
        Alone::IterMut1023,
        Alone::IntoIter1023,
        Alone::Clear1023,
        Alone::Publish,
        Alone::Insert,
        Alone::Iter,
        Alone::IterMut,
        Alone::IntoIter,
        Alone::Clear,
        Alone::Insert64Bytes,
        Alone::IterMut64Bytes,
        Alone::IntoIter64Bytes,
        Alone::IterSparse,
        Alone::IterMutSparse,
        Alone::IntoIterSparse,
        Alone::IterReserved,
        Alone::IterMutReserved,
        Alone::IdsFew,
        Alone::IdsMany,
        Alone::IdsHighest,
    ];

    fn name(self) -> &'static str {
        match self {
            Alone::GetHit => "get_hit",
            Alone::GetOrHit => "get_or_hit",
            Alone::LocalAndDrop => "local_and_drop",
            Alone::Publish1023 => "publish_1023",
            Alone::Iter1023 => "iter_1023",
            Alone::IterMut1023 => "iter_mut_1023",
            Alone::IntoIter1023 => "into_iter_1023",
            Alone::Clear1023 => "clear_1023",
            Alone::Publish => "publish",
            Alone::Insert => "insert",
            Alone::Iter => "iter",
            Alone::IterMut => "iter_mut",
            Alone::IntoIter => "into_iter",
            Alone::Clear => "clear",
            Alone::Insert64Bytes => "insert_64_bytes",
            Alone::IterMut64Bytes => "iter_mut_64_bytes",
            Alone::IntoIter64Bytes => "into_iter_64_bytes",
            Alone::IterSparse => "iter_sparse",
            Alone::IterMutSparse => "iter_mut_sparse",
            Alone::IntoIterSparse => "into_iter_sparse",
            Alone::IterReserved => "iter_reserved",
            Alone::IterMutReserved => "iter_mut_reserved",
            Alone::IdsFew => "ids_few",
            Alone::IdsMany => "ids_many",
            Alone::IdsHighest => "ids_highest",
        }
    }

    fn round<R: Clock + Threads + Wait + Sync>(
        self,
        rt: &R,
        alloc: Global,
        sizes: &Sizes,
    ) -> io::Result<Round> {
        let near = first(sizes.near);
        let values = first(sizes.values);
        let large = first(sizes.large);
        let sparse = sparse(sizes.sparse);
        match self {
            Alone::GetHit => table::get_hit(rt, alloc, sizes.hits, sizes.mask),
            Alone::GetOrHit => table::get_or_hit(rt, alloc, sizes.hits, sizes.mask),
            Alone::LocalAndDrop => table::local_and_drop(rt, alloc, sizes.locals),
            Alone::Publish1023 => table::publish(rt, alloc, sizes.near, sizes.near_tables),
            Alone::Iter1023 => table::iter(rt, alloc, near, sizes.walks),
            Alone::IterMut1023 => values::iter_mut::<u64, R>(rt, alloc, near, sizes.walks),
            Alone::IntoIter1023 => {
                values::into_iter_of_many(rt, alloc, sizes.near, sizes.near_tables)
            }
            Alone::Clear1023 => small::clear(rt, alloc, sizes.cleared),
            Alone::Publish => table::publish(rt, alloc, sizes.reserved, 1),
            Alone::Insert => values::insert::<u64, R>(rt, alloc, sizes.values),
            Alone::Iter => table::iter(rt, alloc, values, 1),
            Alone::IterMut => values::iter_mut::<u64, R>(rt, alloc, values, 1),
            Alone::IntoIter => values::into_iter::<u64, R>(rt, alloc, values),
            Alone::Clear => values::clear(rt, alloc, sizes.values),
            Alone::Insert64Bytes => values::insert::<[u64; 8], R>(rt, alloc, sizes.large),
            Alone::IterMut64Bytes => values::iter_mut::<[u64; 8], R>(rt, alloc, large, 1),
            Alone::IntoIter64Bytes => values::into_iter::<[u64; 8], R>(rt, alloc, large),
            Alone::IterSparse => table::iter(rt, alloc, sparse, 10),
            Alone::IterMutSparse => values::iter_mut::<u64, R>(rt, alloc, sparse, 1),
            Alone::IntoIterSparse => values::into_iter::<u64, R>(rt, alloc, sparse),
            Alone::IterReserved => table::iter_reserved(rt, alloc, sizes.room, 10),
            Alone::IterMutReserved => values::iter_mut_reserved(rt, alloc, sizes.room, 10),
            Alone::IdsFew => ids::few(rt, alloc, sizes.few),
            Alone::IdsMany => ids::many(rt, alloc, sizes.held, sizes.pairs),
            Alone::IdsHighest => ids::highest(rt, alloc, sizes.held, sizes.pairs),
        }
    }
}

/// Workloads of several threads at once, or one after another.
#[derive(Clone, Copy)]
pub(crate) enum Together {
    FirstFourThreads,
    PublishFourThreads,
    LocalAndDropFourThreads,
    OwnValueFourThreads,
    TallyFourThreads,
    CountersFourThreads,
    CountersFourThreadsPadded,
    ThreadComeAndGo,
}

impl Together {
    pub(crate) const ALL: [Together; 8] = [
        Together::FirstFourThreads,
        Together::PublishFourThreads,
        Together::LocalAndDropFourThreads,
        Together::OwnValueFourThreads,
        Together::TallyFourThreads,
        Together::CountersFourThreads,
        Together::CountersFourThreadsPadded,
        Together::ThreadComeAndGo,
    ];

    fn name(self) -> &'static str {
        match self {
            Together::FirstFourThreads => "first_4_threads",
            Together::PublishFourThreads => "publish_4_threads",
            Together::LocalAndDropFourThreads => "local_and_drop_4_threads",
            Together::OwnValueFourThreads => "own_value_4_threads",
            Together::TallyFourThreads => "tally_4_threads",
            Together::CountersFourThreads => "counters_4_threads",
            Together::CountersFourThreadsPadded => "counters_4_threads_padded",
            Together::ThreadComeAndGo => "thread_come_and_go",
        }
    }

    fn round<R: Clock + Threads + Wait + Sync>(
        self,
        rt: &R,
        alloc: Global,
        sizes: &Sizes,
    ) -> io::Result<Round> {
        match self {
            Together::FirstFourThreads => small::first_4_threads(rt, alloc, sizes.storm),
            Together::PublishFourThreads => publish_by(rt, alloc, 4, sizes.shared_values),
            Together::LocalAndDropFourThreads => {
                Work::LocalAndDrop(sizes.shared_locals).timed(rt, alloc, 4)
            }
            Together::OwnValueFourThreads => pools::own_value_4_threads(rt, alloc, sizes.own_uses),
            Together::TallyFourThreads => workers::tally_4_threads(rt, alloc, sizes.numbers),
            Together::CountersFourThreads => {
                workers::counters_4_threads::<Cell<u64>, R>(rt, alloc, sizes.counts)
            }
            Together::CountersFourThreadsPadded => {
                workers::counters_4_threads::<Padded<Cell<u64>>, R>(rt, alloc, sizes.counts)
            }
            Together::ThreadComeAndGo => workers::thread_come_and_go(rt, alloc, sizes.threads),
        }
    }
}
