//! Why the program fails: wrong arguments, out of memory or ids, or a failed write; each has its
//! status and its line.
ghost use Rattle.thread_local_tls.specs.Faults.{IsBegun};

use crate::moves::IdsError;
use std::alloc::{AllocError, AllocFailed};
use std::io::Write;
use thread_local_base::LocalError;

/// Why the program ends with a status other than 0.
#[derive(Clone, Copy)]
pub enum Fault {
    /// The arguments are wrong.
    Usage,
    /// Out of memory, or all ids are held.
    Memory,
    /// Standard output could not be written.
    Write,
}

impl Fault {
    ghost use Rattle.std.specs.Prelude.{◌≡◌};
    ghost use Rattle.thread_local_tls.specs.Faults.{status_of, line_of, IsTold};

    /// The status with which the program ends.
    pub fn status(self) -> u8
        ensures { result ≡ status_of self }
    {
        match self {
            Fault::Usage => 2,
            Fault::Memory | Fault::Write => 1,
        }
    }

    /// The line that tells of the fault.
    pub fn line(self) -> &'static str
        ensures { result.now ≡ line_of self }
    {
        match self {
            Fault::Usage => "usage: tls ids WORDS.. | tls tally WORKERS NUMBERS\n",
            Fault::Memory => "tls: out of memory\n",
            Fault::Write => "tls: write failed\n",
        }
    }

    /// Writes the fault's line to `err`, up to a write that fails, and answers its status in any
    /// case.
    pub fn report<E: Write>(self, err: &mut E) -> u8
        ensures status { result ≡ status_of self }
        ensures line { IsTold self (E.contents err.old) (E.contents err.new) }
    {
        write_text(self.line().as_bytes(), err);
        self.status()
    }
}

/// Writes the text, up to a write that fails or takes nothing. No contract says what `writeln!` has
/// written where it fails.
fn write_text<W: Write>(text: &[u8], out: &mut W)
    ensures { IsBegun text.now (W.contents out.old) (W.contents out.new) }
{
    let mut rest = text;
    while !rest.is_empty() {
        match out.write(rest) {
            Ok(count) if 0 < count => rest = &rest[count..],
            _ => return,
        }
    }
}

impl<T: Drop> From<AllocFailed<T>> for Fault {
    ghost use Rattle.std.specs.Prelude.{◌≡◌};
    ghost use Rattle.thread_local_tls.specs.declared.fault.Fault.TheVariants.{Memory};

    ghost from_gives = { λ _ fault. fault ≡ Memory };

    fn from(_: AllocFailed<T>) -> Fault {
        Fault::Memory
    }
}

impl From<AllocError> for Fault {
    ghost use Rattle.std.specs.Prelude.{◌≡◌};
    ghost use Rattle.thread_local_tls.specs.declared.fault.Fault.TheVariants.{Memory};

    ghost from_gives = { λ _ fault. fault ≡ Memory };

    fn from(_: AllocError) -> Fault {
        Fault::Memory
    }
}

impl From<LocalError> for Fault {
    ghost use Rattle.std.specs.Prelude.{◌≡◌};
    ghost use Rattle.thread_local_tls.specs.declared.fault.Fault.TheVariants.{Memory};

    ghost from_gives = { λ _ fault. fault ≡ Memory };

    fn from(_: LocalError) -> Fault {
        Fault::Memory
    }
}

impl From<IdsError> for Fault {
    ghost use Rattle.std.specs.Prelude.{◌≡◌};
    ghost use Rattle.thread_local_tls.specs.Faults.{fault_of};

    ghost from_gives = { λ error fault. fault ≡ fault_of error };

    fn from(error: IdsError) -> Fault {
        match error {
            IdsError::Local(_) => Fault::Memory,
            IdsError::NotHeld => Fault::Usage,
        }
    }
}
