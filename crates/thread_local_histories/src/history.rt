//! A history: each call with a stamp before it, a stamp after it, and its answer. All threads draw
//! stamps from one counter, so a call that ends before another begins has the smaller stamps.

use crate::gate::{Gate, STRETCH};
use std::alloc::{AllocError, Global};
use std::fmt;
use std::io::{self, Write};
use std::sync::atomic::AtomicU64;
use std::sync::atomic::Ordering::SeqCst;

/// What a call answers. `Memory` is out of memory, `Exhausted` is no id left, `Error` is the
/// closure's error, and `Back` is a value that comes back.
#[derive(Clone, Copy)]
pub(crate) enum Answer {
    Nothing,
    Number(u64),
    Memory,
    Exhausted,
    Error(u64),
    Back(u64),
}

impl Answer {
    /// A number, or nothing.
    pub(crate) fn of(found: Option<u64>) -> Answer {
        match found {
            Some(number) => Answer::Number(number),
            None => Answer::Nothing,
        }
    }
}

impl fmt::Display for Answer {
    fn fmt<W: fmt::Write>(&self, f: &mut fmt::Formatter<W>) -> fmt::Result {
        match self {
            Answer::Nothing => write!(f, "-"),
            Answer::Number(number) => write!(f, "{number}"),
            Answer::Memory => write!(f, "memory"),
            Answer::Exhausted => write!(f, "exhausted"),
            Answer::Error(error) => write!(f, "error:{error}"),
            Answer::Back(value) => write!(f, "back:{value}"),
        }
    }
}

/// What a walk gives at a time: a value, with its id where the walk tells it, and with what the
/// walker wrote in its place where it did.
#[derive(Clone, Copy)]
pub(crate) struct Item {
    pub(crate) id: Option<u64>,
    pub(crate) value: u64,
    pub(crate) written: Option<u64>,
}

impl Item {
    /// A value alone.
    pub(crate) fn value(value: u64) -> Item {
        Item {
            id: None,
            value,
            written: None,
        }
    }

    /// A value, with its id where the walk tells it, and what was written in its place.
    pub(crate) fn written(id: Option<u64>, value: u64, written: u64) -> Item {
        Item {
            id,
            value,
            written: Some(written),
        }
    }

    /// A value with its id.
    pub(crate) fn entry(id: usize, value: u64) -> Item {
        Item {
            id: Some(id as u64),
            value,
            written: None,
        }
    }
}

impl fmt::Display for Item {
    fn fmt<W: fmt::Write>(&self, f: &mut fmt::Formatter<W>) -> fmt::Result {
        if let Some(id) = self.id {
            write!(f, "{id}:")?;
        }
        write!(f, "{}", self.value)?;
        if let Some(written) = self.written {
            write!(f, ":{written}")?;
        }
        Ok(())
    }
}

/// A call: its name, the number of its `Local`, what it was given, its answer, and what it walked
/// over.
#[derive(Drop)]
pub(crate) struct Call {
    pub(crate) name: &'static str,
    pub(crate) local: Option<u64>,
    pub(crate) given: Option<u64>,
    pub(crate) answer: Answer,
    pub(crate) items: Vec<Item>,
}

impl Call {
    /// A call that walks over nothing.
    pub(crate) fn new(
        alloc: Global,
        name: &'static str,
        local: Option<u64>,
        given: Option<u64>,
        answer: Answer,
    ) -> Call {
        Call {
            name,
            local,
            given,
            answer,
            items: Vec::new(alloc),
        }
    }

    /// A walk.
    pub(crate) fn walk(
        name: &'static str,
        local: Option<u64>,
        given: Option<u64>,
        answer: Answer,
        items: Vec<Item>,
    ) -> Call {
        Call {
            name,
            local,
            given,
            answer,
            items,
        }
    }
}

/// A call between its stamps.
#[derive(Drop)]
struct Entry {
    before: u64,
    after: u64,
    call: Call,
}

/// What one thread records, in memory of its own, and the numbers that it makes. No two threads
/// make the same number.
#[derive(Drop)]
pub(crate) struct Record<'c> {
    pub(crate) alloc: Global,
    clock: &'c AtomicU64,
    gate: Option<&'c Gate>,
    // Before which of its calls the thread meets the others, how often it has, and before which call
    // it no longer does.
    next: usize,
    times: u64,
    end: usize,
    thread: u64,
    made: u64,
    entries: Vec<Entry>,
}

impl<'c> Record<'c> {
    /// An empty record of a thread that races with others for `end` calls, and makes numbers from
    /// `first` on.
    pub(crate) fn racing(
        alloc: Global,
        clock: &'c AtomicU64,
        gate: &'c Gate,
        end: usize,
        thread: u64,
        first: u64,
    ) -> Record<'c> {
        Record {
            alloc,
            clock,
            gate: Some(gate),
            next: 0,
            times: 0,
            end,
            thread,
            made: first,
            entries: Vec::new(alloc),
        }
    }

    /// An empty record of a thread that is alone, and makes numbers from `first` on.
    pub(crate) fn new(alloc: Global, clock: &'c AtomicU64, thread: u64, first: u64) -> Record<'c> {
        Record {
            alloc,
            clock,
            gate: None,
            next: 0,
            times: 0,
            end: 0,
            thread,
            made: first,
            entries: Vec::new(alloc),
        }
    }

    /// How many calls are recorded.
    pub(crate) fn len(&self) -> usize {
        self.entries.len()
    }

    /// A number that nobody made before.
    pub(crate) fn fresh(&mut self) -> u64 {
        self.made = self.made.wrapping_add(1);
        self.made
    }

    /// The stamp before a call. Now and then the thread then meets the others, so that their calls
    /// are made at once, and one that is kept waiting has a call under way.
    pub(crate) fn begin(&mut self) -> u64 {
        let now = self.stamp();
        if let Some(gate) = self.gate {
            if self.entries.len() >= self.next && self.next < self.end {
                self.next = self.next.saturating_add(STRETCH);
                self.times = self.times.wrapping_add(1);
                gate.meet(self.times);
            }
        }
        now
    }

    /// The next stamp.
    pub(crate) fn stamp(&self) -> u64 {
        self.clock.fetch_add(1, SeqCst)
    }

    /// Keeps a call that ended at the stamp `after`.
    pub(crate) fn keep(&mut self, before: u64, after: u64, call: Call) -> Result<(), AllocError> {
        self.entries.push(Entry {
            before,
            after,
            call,
        })?;
        Ok(())
    }

    /// Keeps a call that has just ended and that walks over nothing.
    pub(crate) fn ended(
        &mut self,
        before: u64,
        name: &'static str,
        local: Option<u64>,
        given: Option<u64>,
        answer: Answer,
    ) -> Result<(), AllocError> {
        let after = self.stamp();
        let call = Call::new(self.alloc, name, local, given, answer);
        self.keep(before, after, call)
    }

    /// Writes a line for each call.
    pub(crate) fn write<W: Write>(self, out: &mut W) -> io::Result<()> {
        let Self {
            alloc: _,
            clock: _,
            gate: _,
            next: _,
            times: _,
            end: _,
            thread,
            made: _,
            entries,
        } = self;
        for entry in entries {
            write_entry(&entry, thread, out)?;
        }
        Ok(())
    }
}

/// Writes a call's line.
fn write_entry<W: Write>(entry: &Entry, thread: u64, out: &mut W) -> io::Result<()> {
    let call = &entry.call;
    let local = Answer::of(call.local);
    let given = Answer::of(call.given);
    write!(
        out,
        "{} {} {thread} {} ",
        entry.before, entry.after, call.name
    )?;
    write!(out, "{local} {given} {}", call.answer)?;
    for item in call.items.iter() {
        write!(out, " {item}")?;
    }
    writeln!(out)
}
