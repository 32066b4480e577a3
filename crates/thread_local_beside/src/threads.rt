//! The calls that threads make, each in its turn. A thread of the script is a `Local` here, which
//! is dropped where that thread ends.

use crate::call::Call;
use crate::counted::{Counted, Drops};
use std::alloc::{AllocError, Global};
use std::io::{self, Write};
use std::sync::Wait;
use thread_local::ThreadLocal;
use thread_local::local::{Local, TryError};
use thread_local_base::judge_sync;

/// How many threads a script has at once.
const THREADS: usize = 64;

/// Writes the value that a slot has.
fn show<W: Write>(value: Option<&Counted>, out: &mut W) -> io::Result<()> {
    match value {
        Some(there) => writeln!(out, "{}", there.value),
        None => writeln!(out, "none"),
    }
}

/// Makes a call of one thread.
fn make<R: Wait, W: Write>(
    local: &mut Local<'_, Counted, R>,
    call: Call,
    drops: &Drops,
    out: &mut W,
) -> io::Result<()> {
    match call {
        Call::GetOr(_, value) => {
            let mut made = None;
            if local.get().is_none() {
                made = Some(drops.counted(value)?);
            }
            match made {
                Some(value) => {
                    let there = local.get_or(|| value)?;
                    writeln!(out, "{}", there.value)
                }
                None => show(local.get(), out),
            }
        }
        Call::Try(_, value) => match local.get_or_try(|| drops.counted(value)) {
            Ok(there) => writeln!(out, "{}", there.value),
            Err(_) => Err(AllocError.into()),
        },
        Call::Fail(_, error) => match local.get_or_try(|| Err(error)) {
            Ok(there) => writeln!(out, "{}", there.value),
            Err(TryError::Create(error)) => writeln!(out, "error {error}"),
            Err(TryError::Memory(error)) => Err(error.into()),
        },
        _ => show(local.get(), out),
    }
}

/// The number of the thread that makes a call.
fn thread_of(call: Call) -> Option<usize> {
    match call {
        Call::Look(number) | Call::Leave(number) => Some(number),
        Call::GetOr(number, _) | Call::Try(number, _) | Call::Fail(number, _) => Some(number),
        _ => None,
    }
}

/// The values of a shared walk.
fn walk<W: Write>(table: &ThreadLocal<Counted>, out: &mut W) -> io::Result<()> {
    let mut first = true;
    judge_sync::<Counted>();
    for there in table.iter() {
        if first {
            write!(out, "{}", there.value)?;
        } else {
            write!(out, " {}", there.value)?;
        }
        first = false;
    }
    writeln!(out)
}

/// Makes the calls up to one of the owner's. Answers how many they are.
pub(crate) fn share<R: Wait, W: Write>(
    rt: &R,
    alloc: Global,
    table: &ThreadLocal<Counted>,
    calls: &[Call],
    drops: &Drops,
    out: &mut W,
) -> io::Result<usize> {
    let mut threads: Vec<Option<Local<'_, Counted, R>>> = Vec::new(alloc);
    for _ in 0..THREADS {
        threads.push(None)?;
    }
    for (made, call) in calls.iter().enumerate() {
        match *call {
            Call::Local(number) if number < threads.len() => match table.local(rt) {
                Ok(local) => {
                    write!(out, "{} ", local.id())?;
                    show(local.get(), out)?;
                    threads[number] = Some(local);
                }
                Err(_) => return Err(AllocError.into()),
            },
            Call::Walk => walk(table, out)?,
            call => match thread_of(call) {
                Some(number) if number < threads.len() => {
                    if let Call::Leave(_) = call {
                        threads[number] = None;
                        writeln!(out, "left")?;
                    } else if let Some(local) = &mut threads[number] {
                        make(local, call, drops, out)?;
                    }
                }
                _ => return Ok(made),
            },
        }
    }
    Ok(calls.len())
}
