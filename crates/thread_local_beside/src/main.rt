//! Reads a script of calls, one a line, makes them on the port, and prints a line for each answer.
//! `beside/src/bin/answers.rs` does the same with the Rust crate, and `beside/script` makes scripts
//! and says what the calls are.
//!
//! The file `stdin` beside this folder is such a script, and `stdout` has the Rust crate's answers.
#![tactic(auto)]

mod call;
mod counted;
mod owner;
mod threads;

use call::Call;
use counted::{Counted, Drops, new_table};
use std::alloc::Global;
use std::io::{self, BufRead, BufReader, BufWriter, Print, Write};
use std::sync::Wait;
use thread_local::ThreadLocal;
use thread_local_base::ThreadIdManager;

/// The table with the manager, and the drops that its values count.
#[derive(Drop)]
struct Subjects {
    manager: ThreadIdManager,
    table: ThreadLocal<Counted>,
    drops: Drops,
}

/// A call of the manager, or one that begins anew.
fn begin<W: Write>(
    alloc: Global,
    subjects: &mut Subjects,
    call: Call,
    out: &mut W,
) -> io::Result<()> {
    match call {
        Call::Ids => {
            subjects.manager = ThreadIdManager::new(alloc);
            writeln!(out, "ids")
        }
        Call::Take => match subjects.manager.alloc() {
            Ok(id) => writeln!(out, "{id}"),
            Err(_) => writeln!(out, "refused"),
        },
        Call::Give(id) => {
            if subjects.manager.is_held(id) {
                subjects.manager.free(id);
                writeln!(out, "given")
            } else {
                writeln!(out, "not held")
            }
        }
        Call::Table(capacity) => {
            subjects.table = new_table(alloc, capacity)?;
            subjects.drops = Drops::new(alloc)?;
            writeln!(out, "table")
        }
        call => owner::make(alloc, &mut subjects.table, call, &subjects.drops, out),
    }
}

/// Makes the calls and writes the answers.
fn play<R: Wait, W: Write>(rt: &R, alloc: Global, calls: &[Call], out: &mut W) -> io::Result<()> {
    let mut subjects = Subjects {
        manager: ThreadIdManager::new(alloc),
        table: new_table(alloc, None)?,
        drops: Drops::new(alloc)?,
    };
    let mut rest = calls;
    for _ in 0..calls.len() {
        let made = threads::share(rt, alloc, &subjects.table, rest, &subjects.drops, out)?;
        let (_, after) = rest.split_at(made.min(rest.len()));
        let Some((call, after)) = after.split_first() else {
            break;
        };
        begin(alloc, &mut subjects, *call, out)?;
        rest = after;
    }
    Ok(())
}

/// Answers the script on standard input.
fn main(rt: HostRuntime) -> io::Result<()> {
    let alloc = rt.alloc();
    let mut calls = Vec::new(alloc);
    for line in BufReader::new(alloc, rt.reader())?.lines(alloc) {
        match call::parse(line?.as_str()) {
            Some(call) => calls.push(call)?,
            None => return Err(io::Error::from(io::ErrorKind::InvalidInput)),
        }
    }
    let mut out = BufWriter::new(alloc, io::writer(&rt))?;
    play(&rt, alloc, calls.as_slice(), &mut out)?;
    out.flush()
}
