//! Runs a command: reads the words, runs it, then writes its output, or the line of its fault.
ghost use Rattle.std.specs.Prelude.{◌≡◌, ◌≤◌, ◌⊎◌, None, Some, Err, OnOk, IfErr, IsErrOf};
ghost use Rattle.std.specs.Io.KnownBytes.{Appends, Keeps};
ghost use Rattle.thread_local_base.specs.declared.manager.LocalError.{LocalError};
ghost use Rattle.thread_local_tls.specs.Words.{texts, tally_of, lines_of, MayNotRun, IsMisuse, IsRunnable, NamesMoves, MayBeRun};
ghost use Rattle.thread_local_tls.specs.Limits.{IsWithinLimits};
ghost use Rattle.thread_local_tls.specs.Faults.{Answers, AnswersIds, IsToldAndWritten, IsTold, MayBeRefused, IsRefused, IsCutOff};

use crate::fault::Fault;
use crate::moves::ids;
use crate::words::{moves_named, tally_of};
use std::alloc::Global;
use std::io::Write;
use thread_local_base::LocalError;

/// Runs the command that the words name, and answers the program's status: 0 if it is done, 1 if
/// memory, ids or a write was refused, 2 if the words are no command. The output goes to `out`,
/// after the command has run, and the line of a fault to `err`; the status stays where that line
/// can't be written. What each gets, and nothing else, is proved for writers whose bytes a contract
/// can name.
///
/// `tally` adds the numbers up. It is called where the words spell a tally within the limits, and
/// the call waits where it does. `run` takes memory for the moves and the ids.
pub fn run<T: FnOnce(usize, u64) -> Result<u64, LocalError> + Drop, O: Write, E: Write>(
    alloc: Global,
    words: &[String],
    tally: T,
    out: &mut O,
    err: &mut E,
) -> u8
    requires tally { (workers numbers : _)
        → tally_of (texts words.now) ≡ Some (workers, numbers)
        → IsWithinLimits workers numbers
        → T.pre tally workers numbers }
    ensures status { result ≤ 2 }
    ensures done { result ≡ 0
        → Answers (T.post tally) (texts words.now) (O.contents out.old) (O.contents out.new) }
    ensures silent { result ≡ 0 → Keeps (E.contents err.old) (E.contents err.new) }
    ensures misuse { result ≡ 2 → IsMisuse (texts words.now) × Keeps (O.contents out.old) (O.contents out.new) }
    ensures usage { result ≡ 2 → IsTold Fault.Usage (E.contents err.old) (E.contents err.new) }
    ensures hindered { result ≡ 1
        → IsRefused (T.post tally) (texts words.now) (O.contents out.old) (O.contents out.new)
        (E.contents err.old) (E.contents err.new)
        ⊎ IsCutOff (texts words.now) (E.contents err.old) (E.contents err.new) }
{
    match answer(alloc, words, tally, out) {
        Ok(()) => 0,
        Err(fault) => fault.report(err),
    }
}

/// Runs the command and writes its output.
fn answer<T: FnOnce(usize, u64) -> Result<u64, LocalError> + Drop, O: Write>(
    alloc: Global,
    words: &[String],
    tally: T,
    out: &mut O,
) -> Result<(), Fault>
    requires tally { (workers numbers : _)
        → tally_of (texts words.now) ≡ Some (workers, numbers)
        → IsWithinLimits workers numbers
        → T.pre tally workers numbers }
    ensures done { OnOk result
        (Answers (T.post tally) (texts words.now) (O.contents out.old) (O.contents out.new)) }
    ensures misuse { IsErrOf result Fault.Usage
        → IsMisuse (texts words.now) × Keeps (O.contents out.old) (O.contents out.new) }
    ensures memory { IsErrOf result Fault.Memory → Keeps (O.contents out.old) (O.contents out.new) }
    ensures refused { IsErrOf result Fault.Memory → MayBeRefused (T.post tally) (texts words.now) }
    ensures write { IsErrOf result Fault.Write → MayBeRun (texts words.now) }
{
    match tally_of(words) {
        Some((workers, numbers)) => answer_tally(workers, numbers, tally, out),
        None => answer_ids(alloc, words, out),
    }
}

/// Calls `tally`, and writes the total.
fn answer_tally<T: FnOnce(usize, u64) -> Result<u64, LocalError> + Drop, O: Write>(
    workers: usize,
    numbers: u64,
    tally: T,
    out: &mut O,
) -> Result<(), Fault>
    requires { T.pre tally workers numbers }
    ensures done { OnOk result
        (IsToldAndWritten (T.post tally workers numbers) (O.contents out.old)
        (O.contents out.new)) }
    ensures no_misuse { IsErrOf result Fault.Usage → ⊥ }
    ensures memory { IsErrOf result Fault.Memory → Keeps (O.contents out.old) (O.contents out.new) }
    ensures refused { IsErrOf result Fault.Memory
        → (error : LocalError) × T.post tally workers numbers (Err error) }
{
    let total = tally(workers, numbers)?;
    print(&[total as usize], out)
}

/// Runs the moves that the words spell, and writes the ids. It takes memory for both.
fn answer_ids<O: Write>(alloc: Global, words: &[String], out: &mut O) -> Result<(), Fault>
    ensures done { OnOk result (AnswersIds (texts words.now) (O.contents out.old) (O.contents out.new)) }
    ensures misuse { IsErrOf result Fault.Usage
        → MayNotRun (texts words.now) × Keeps (O.contents out.old) (O.contents out.new) }
    ensures memory { IsErrOf result Fault.Memory → Keeps (O.contents out.old) (O.contents out.new) }
    ensures refused { IsErrOf result Fault.Memory → NamesMoves (texts words.now) }
    ensures write { IsErrOf result Fault.Write → IsRunnable (texts words.now) }
{
    let moves = moves_named(alloc, words)?;
    let ids = ids(alloc, &moves)?;
    print(&ids, out)
}

/// Writes a line for each number, and flushes the writer.
fn print<O: Write>(numbers: &[usize], out: &mut O) -> Result<(), Fault>
    ensures written { OnOk result (Appends (O.contents out.old) (O.contents out.new) (lines_of numbers.now)) }
    ensures fault { IfErr result (λ fault. fault ≡ Fault.Write) }
{
    for number in numbers {
        if writeln!(out, "{number}").is_err() {
            return Err(Fault::Write);
        }
    }
    if out.flush().is_err() {
        return Err(Fault::Write);
    }
    Ok(())
}
