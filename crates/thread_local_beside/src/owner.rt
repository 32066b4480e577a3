//! The calls of a table's owner, who makes them alone.
ghost use Rattle.std.specs.Prelude.{◌<◌, ◌-◌, ◌^◌};

use crate::call::Call;
use crate::counted::{Counted, Drops, new_table};
use std::alloc::{AllocError, Global};
use std::io::{self, Write};
use std::mem::replace;
use thread_local::ThreadLocal;
use thread_local_base::Thread;

/// How many ids there are.
const IDS: usize = (1 << 63) - 1;

/// A walk that lends up to `most` values, and adds 1 to each: whether its hint isn't its length, how
/// many are left, and the value.
fn walk_mut<W: Write>(
    table: &mut ThreadLocal<Counted>,
    most: usize,
    out: &mut W,
) -> io::Result<()> {
    let mut walk = table.iter_mut();
    for _ in 0..most {
        let left = walk.len();
        if walk.size_hint() != (left, Some(left)) {
            write!(out, "hint ")?;
        }
        match walk.next() {
            Some(there) => {
                there.value = there.value.saturating_add(1);
                write!(out, "{left}:{} ", there.value)?;
            }
            None => break,
        }
    }
    writeln!(out, "{}", walk.len())
}

/// A walk that moves up to `most` values out, and is dropped with the others.
fn walk_out<W: Write>(
    table: ThreadLocal<Counted>,
    most: usize,
    drops: &Drops,
    out: &mut W,
) -> io::Result<()> {
    let mut walk = table.into_iter();
    for _ in 0..most {
        let left = walk.len();
        if walk.size_hint() != (left, Some(left)) {
            write!(out, "hint ")?;
        }
        match walk.next() {
            Some(value) => write!(out, "{left}:{} ", value.value)?,
            None => break,
        }
    }
    write!(out, "{}", walk.len())?;
    drop(walk);
    writeln!(out, " dropped {}", drops.number())
}

/// Puts a value into an id's slot. Answers which value stands there.
fn insert(table: &mut ThreadLocal<Counted>, id: usize, value: Counted) -> Result<u64, AllocError>
    requires { id < 2 ^ 63 - 1 }
{
    match table.buckets_mut().insert(Thread::new(id), value) {
        Ok(there) => Ok(there.value),
        Err(_value) => Err(AllocError),
    }
}

/// Makes a call of an owner and writes the answer.
pub(crate) fn make<W: Write>(
    alloc: Global,
    table: &mut ThreadLocal<Counted>,
    call: Call,
    drops: &Drops,
    out: &mut W,
) -> io::Result<()> {
    match call {
        Call::Insert(id, value) if id < IDS => {
            let value = drops.counted(value)?;
            let stands = insert(table, id, value)?;
            writeln!(out, "{stands}")
        }
        Call::Get(id) if id < IDS => match table.buckets_mut().get_mut(Thread::new(id)) {
            Some(there) => writeln!(out, "{}", there.value),
            None => writeln!(out, "none"),
        },
        Call::Slots => writeln!(out, "{}", table.slots()),
        Call::IterMut(most) => walk_mut(table, most, out),
        Call::IntoIter(most) => {
            let table = replace(table, new_table(alloc, None)?);
            walk_out(table, most, drops, out)
        }
        Call::Clear => {
            table.clear();
            writeln!(out, "dropped {}", drops.number())
        }
        Call::Close => {
            *table = new_table(alloc, None)?;
            writeln!(out, "dropped {}", drops.number())
        }
        _ => Err(io::Error::from(io::ErrorKind::InvalidInput)),
    }
}
