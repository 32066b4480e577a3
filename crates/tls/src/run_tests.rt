//! The program's answers: what it writes, and its status.
ghost use Rattle.thread_local_tls.specs.Limits.{IsWithinLimits};

use crate::gate::Open;
use crate::workers::tally;
use std::alloc::{AllocError, Global};
use std::io;
use std::io::Write;
use std::process::Abort;
use std::sync::Wait;
use std::test::Fail;
use std::thread::Threads;
use thread_local_base::LocalError;
use thread_local_tls::run;

/// A writer over memory that fails at its write with this number, counted from 0, and at each flush
/// where so set.
#[derive(Drop)]
struct Memory {
    bytes: Vec<u8>,
    writes: usize,
    fails_at: usize,
    flush_fails: bool,
}

impl Memory {
    fn new(alloc: Global, fails_at: usize) -> Memory {
        Memory {
            bytes: Vec::new(alloc),
            writes: 0,
            fails_at,
            flush_fails: false,
        }
    }

    fn sound(alloc: Global) -> Memory {
        Memory::new(alloc, usize::MAX)
    }
}

impl Write for Memory {
    fn write(&mut self, buf: &[u8]) -> io::Result<usize> {
        let number = self.writes;
        self.writes = self.writes.saturating_add(1);
        if number == self.fails_at {
            return Err(io::Error::from(io::ErrorKind::Other));
        }
        self.bytes.extend_from_slice(buf)?;
        Ok(buf.len())
    }

    fn flush(&mut self) -> io::Result<()> {
        if self.flush_fails {
            return Err(io::Error::from(io::ErrorKind::Other));
        }
        Ok(())
    }
}

const USAGE: &str = "usage: tls ids WORDS.. | tls tally WORKERS NUMBERS\n";

/// The words of a line.
fn words(alloc: Global, line: &str) -> Result<Vec<String>, AllocError> {
    let mut words = Vec::new(alloc);
    for word in line.split_whitespace() {
        words.push(word.to_string(alloc)?)?;
    }
    Ok(words)
}

/// Runs the words with the program's workers.
fn answer<R: Threads + Wait + Sync, O: Write, E: Write>(
    rt: &R,
    alloc: Global,
    words: &[String],
    out: &mut O,
    err: &mut E,
) -> u8 {
    run(
        alloc,
        words,
        |workers: usize, numbers: u64| -> Result<u64, LocalError>
            requires { IsWithinLimits workers numbers }
        { tally(rt, alloc, workers, numbers, &Open) },
        out,
        err,
    )
}

/// Runs the line. Answers whether what is written and the status are these.
fn is_answered<R: Threads + Wait + Sync>(
    rt: &R,
    alloc: Global,
    line: &str,
    output: &str,
    fault: &str,
    status: u8,
) -> bool {
    let Ok(words) = words(alloc, line) else {
        return false;
    };
    let mut out = Memory::sound(alloc);
    let mut err = Memory::sound(alloc);
    answer(rt, alloc, &words, &mut out, &mut err) == status
        && out.bytes.as_slice() == output.as_bytes()
        && err.bytes.as_slice() == fault.as_bytes()
}

/// Runs the line, and compares what is written and the status.
fn expect<R: Abort + Threads + Wait + Sync>(
    rt: &R,
    alloc: Global,
    line: &str,
    output: &str,
    fault: &str,
    status: u8,
) {
    let answered = is_answered(rt, alloc, line, output, fault, status);
    assert!(rt; answered, "the answer of '{line}'");
}

#[test]
fn prints_the_least_ids(rt: HostRuntime) -> Result<(), Fail> {
    let lines = [
        (
            "ids take take take give 1 give 0 take take take",
            "0\n1\n2\n0\n1\n3\n",
        ),
        ("ids take give 0 take", "0\n0\n"),
        ("ids take take give 00 give 1 take", "0\n1\n0\n"),
        ("ids take give 00000000000000000000000000 take", "0\n0\n"),
    ];
    for (line, output) in lines {
        expect(&rt, rt.alloc(), line, output, "", 0);
    }
    Ok(())
}

/// A line that takes ids, as many as are asked for, and then goes on, and what it prints: the ids
/// from 0 on, and then these.
fn many_takes(
    alloc: Global,
    takes: usize,
    moves: &str,
    ids: &[usize],
) -> Result<(String, String), AllocError> {
    let mut line = String::new(alloc);
    let mut output = String::new(alloc);
    line.push_str("ids")?;
    for id in 0..takes {
        line.push_str(" take")?;
        output.push_str(id.to_string(alloc)?.as_str())?;
        output.push_str("\n")?;
    }
    line.push_str(moves)?;
    for id in ids {
        output.push_str(id.to_string(alloc)?.as_str())?;
        output.push_str("\n")?;
    }
    Ok((line, output))
}

#[test]
fn prints_the_least_ids_of_more_than_a_word(rt: HostRuntime) -> Result<(), Fail> {
    let moves = " give 64 give 3 take take take";
    let (line, output) = many_takes(rt.alloc(), 66, moves, &[3, 64, 66])?;
    expect(&rt, rt.alloc(), line.as_str(), output.as_str(), "", 0);
    let (line, output) = many_takes(rt.alloc(), 64, " give 63 take take", &[63, 64])?;
    expect(&rt, rt.alloc(), line.as_str(), output.as_str(), "", 0);
    Ok(())
}

#[test]
fn prints_the_total_of_all_workers(rt: HostRuntime) -> Result<(), Fail> {
    let lines = [
        ("tally 5 10", "55\n"),
        ("tally 1 0", "0\n"),
        ("tally 64 1000000", "500000500000\n"),
        ("tally 3 7", "28\n"),
        ("tally 64 1", "1\n"),
        ("tally 0005 00010", "55\n"),
    ];
    for (line, output) in lines {
        expect(&rt, rt.alloc(), line, output, "", 0);
    }
    Ok(())
}

#[test]
fn wrong_arguments_print_the_usage(rt: HostRuntime) -> Result<(), Fail> {
    let lines = [
        "",
        "ids",
        "ids give 0",
        "ids take give",
        "ids take give 0 give 0",
        "ids take give +0",
        "ids take give 18446744073709551615",
        "ids take give 18446744073709551616",
        "tally 0 10",
        "tally 65 10",
        "tally 5 1000001",
        "tally",
        "tally 5",
        "tally 5 10 1",
        "tally +5 10",
        "tally 5 ten",
        "tally 18446744073709551616 10",
    ];
    for line in lines {
        expect(&rt, rt.alloc(), line, "", USAGE, 2);
    }
    Ok(())
}

/// Runs the words with a write that fails. Answers whether there was such a write, and whether the
/// run ended as it must: with that told, or else with everything written.
fn is_told<R: Threads + Wait + Sync>(
    rt: &R,
    alloc: Global,
    words: &[String],
    fails_at: usize,
    output: &str,
) -> (bool, bool) {
    let mut out = Memory::new(alloc, fails_at);
    let mut err = Memory::sound(alloc);
    let status = answer(rt, alloc, words, &mut out, &mut err);
    if out.writes <= fails_at {
        let written = status == 0 && out.bytes.as_slice() == output.as_bytes();
        (false, written && 0 < fails_at)
    } else {
        let told = err.bytes.as_slice() == b"tls: write failed\n".as_slice();
        (true, status == 1 && told)
    }
}

/// Runs the line once for each write that may fail, until a run meets no failure.
fn expect_each_write_told<R: Abort + Threads + Wait + Sync>(
    rt: &R,
    alloc: Global,
    line: &str,
    output: &str,
) -> Result<(), AllocError> {
    let words = words(alloc, line)?;
    for fails_at in 0..100 {
        let (failed, as_promised) = is_told(rt, alloc, &words, fails_at, output);
        assert!(rt; as_promised, "write {fails_at} of '{line}'");
        if !failed {
            return Ok(());
        }
    }
    assert!(rt; false, "each run met a failing write");
    Ok(())
}

#[test]
fn a_failed_write_is_told(rt: HostRuntime) -> Result<(), Fail> {
    let lines = [
        ("ids take take", "0\n1\n"),
        ("ids take take take give 1 take", "0\n1\n2\n1\n"),
        ("tally 3 10", "55\n"),
    ];
    for (line, output) in lines {
        expect_each_write_told(&rt, rt.alloc(), line, output)?;
    }
    Ok(())
}

/// Whether a line that prints 0 and 1 is told to have failed where a flush fails.
fn is_flush_told<R: Threads + Wait + Sync>(rt: &R, alloc: Global, line: &str) -> bool {
    let Ok(words) = words(alloc, line) else {
        return false;
    };
    let mut out = Memory::sound(alloc);
    out.flush_fails = true;
    let mut err = Memory::sound(alloc);
    answer(rt, alloc, &words, &mut out, &mut err) == 1
        && out.bytes.as_slice() == b"0\n1\n".as_slice()
        && err.bytes.as_slice() == b"tls: write failed\n".as_slice()
}

#[test]
fn a_failed_flush_is_told(rt: HostRuntime) -> Result<(), Fail> {
    assert!(rt; is_flush_told(&rt, rt.alloc(), "ids take take"));
    Ok(())
}

/// Whether a line that is refused keeps its status where that can't be written, and writes nothing.
fn keeps_its_status<R: Threads + Wait + Sync>(rt: &R, alloc: Global, line: &str) -> bool {
    let Ok(words) = words(alloc, line) else {
        return false;
    };
    let mut out = Memory::sound(alloc);
    let mut err = Memory::new(alloc, 0);
    answer(rt, alloc, &words, &mut out, &mut err) == 2 && out.bytes.is_empty()
}

#[test]
fn a_fault_that_cannot_be_told_keeps_its_status(rt: HostRuntime) -> Result<(), Fail> {
    assert!(rt; keeps_its_status(&rt, rt.alloc(), "ids give 0"));
    Ok(())
}
