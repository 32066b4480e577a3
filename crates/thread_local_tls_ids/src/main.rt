//! The program `tls` with the command `ids` alone: it uses no table, so it is proved and built in
//! three minutes. `tally` is a wrong argument here.
#![tactic(auto)]

use std::process::ExitCode;
use thread_local_tls::{Fault, read_arguments, run, tally_of};

/// Answers the command line, on standard output and standard error.
fn main(rt: HostRuntime) -> ExitCode {
    let mut err = rt.stderr();
    let status = match read_arguments(&rt) {
        Ok(words) if tally_of(&words).is_none() => run(
            rt.alloc(),
            &words,
            |_, _| unreachable!(),
            &mut rt.stdout(),
            &mut err,
        ),
        Ok(_) => Fault::Usage.report(&mut err),
        Err(fault) => fault.report(&mut err),
    };
    ExitCode::from(status)
}
