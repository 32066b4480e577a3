//! Times the calls of a table, alone and by threads, of an owner's buckets and of the id manager: a
//! line for each workload, with its name and the nanoseconds of one operation, the least of several
//! rounds. The arguments are the number of rounds, and the name of one workload if no other is to
//! run. With none each workload runs once, on few ids, and its name alone is printed.
//!
//! With `locks N` it compares two locks over N pairs of taking and giving. With `growth ROUNDS` it
//! times calls by one, two and four threads, and walks over 2^10 to 2^20 values: a line for each,
//! with the name, the number of threads or values, and the nanoseconds. With `hold N` it makes a
//! table of N values and drops it.
#![tactic(auto)]

mod growth;
mod ids;
mod lock;
mod pools;
mod sizes;
mod small;
mod table;
mod values;
mod workers;
mod workload;

use sizes::{FEW, MANY};
use std::alloc::Global;
use std::io;
use std::io::Print;
use std::sync::Wait;
use std::thread::Threads;
use std::time::{Clock, Duration};
use workload::{Alone, Small, Together, Workload};

/// What one round of a workload made: how many operations, and in what time.
#[derive(Drop)]
pub struct Round {
    pub operations: u64,
    pub time: Duration,
}

impl Round {
    /// The picoseconds of one operation.
    fn picoseconds(self) -> u128 {
        self.time.as_nanos().saturating_mul(1000) / u128::from(self.operations.max(1))
    }
}

/// The number that a word is.
fn number(word: &Option<String>) -> Option<u64> {
    word.as_ref().and_then(|word| word.parse::<u64>().ok())
}

/// What is asked for: how many rounds, if the workloads are to be timed, and a workload's name, if no
/// other is to run.
#[derive(Drop)]
struct Asked {
    rounds: Option<u64>,
    name: Option<String>,
}

impl Asked {
    /// Whether the workload of this name is to run.
    fn is_for(&self, name: &str) -> bool {
        match &self.name {
            Some(word) => word.as_str() == name,
            None => true,
        }
    }

    /// Runs a workload if it is asked for, and prints its line: so many rounds, of which the least
    /// time counts, or once on few ids.
    fn run<R: Clock + Threads + Wait + Sync + Print>(
        &self,
        rt: &R,
        alloc: Global,
        workload: Workload,
    ) -> io::Result<()> {
        let name = workload.name();
        if !self.is_for(name) {
            return Ok(());
        }
        let Some(rounds) = self.rounds else {
            workload.round(rt, alloc, &FEW)?;
            return println!(rt; "{name}");
        };
        let mut least = u128::MAX;
        for _ in 0..rounds {
            least = least.min(workload.round(rt, alloc, &MANY)?.picoseconds());
        }
        println!(rt; "{name} {}.{:03}", least / 1000, least % 1000)
    }
}

/// Reads the arguments, and runs the workloads, compares the locks, or measures how cost grows.
fn main(rt: HostRuntime) -> io::Result<()> {
    let mut words = std::env::args(&rt)?.skip(1);
    let first = words.next();
    let second = words.next();
    match (first.as_ref().map(|word| word.as_str()), number(&second)) {
        (Some("locks"), Some(pairs)) => return lock::compare(&rt, rt.alloc(), pairs),
        (Some("growth"), Some(rounds)) => return growth::run(&rt, rt.alloc(), rounds),
        (Some("hold"), Some(values)) => {
            return growth::hold(rt.alloc(), u32::try_from(values).unwrap_or(u32::MAX));
        }
        _ => {}
    }
    let asked = Asked {
        rounds: number(&first),
        name: second,
    };
    let alloc = rt.alloc();
    for workload in Small::ALL {
        asked.run(&rt, alloc, Workload::Small(workload))?;
    }
    for workload in Alone::ALL {
        asked.run(&rt, alloc, Workload::Alone(workload))?;
    }
    for workload in Together::ALL {
        asked.run(&rt, alloc, Workload::Together(workload))?;
    }
    Ok(())
}
