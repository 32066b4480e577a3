//! The program `tls`, with both commands: it passes on its arguments, its streams and the tally of
//! its workers, which add up numbers in a table, each in a cell of its own.
#![tactic(auto)]

mod gate;
#[cfg(test)]
mod moves_tests;
#[cfg(test)]
mod run_tests;
#[cfg(test)]
mod tally_tests;
mod workers;

ghost use Rattle.thread_local_tls.specs.Limits.{IsWithinLimits};

use crate::gate::Open;
use crate::workers::tally;
use std::process::ExitCode;
use thread_local_base::LocalError;
use thread_local_tls::{read_arguments, run};

/// Answers the command line, on standard output and standard error.
fn main(rt: HostRuntime) -> ExitCode {
    let mut err = rt.stderr();
    match read_arguments(&rt) {
        Ok(words) => ExitCode::from(run(
            rt.alloc(),
            &words,
            |workers: usize, numbers: u64| -> Result<u64, LocalError>
                requires { IsWithinLimits workers numbers }
            { tally(&rt, rt.alloc(), workers, numbers, &Open) },
            &mut rt.stdout(),
            &mut err,
        )),
        Err(fault) => ExitCode::from(fault.report(&mut err)),
    }
}
