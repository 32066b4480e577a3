//! Reads the words that the program was called with.

use crate::fault::Fault;
use std::env;
use std::io::ErrorKind;
use std::rt::Env;

/// The arguments without the program's name. It takes memory for them: `Memory` means out of
/// memory, and `Usage` that a word isn't UTF-8.
pub fn read_arguments<R: Env + AllocGlobal>(rt: &R) -> Result<Vec<String>, Fault> {
    match env::args(rt) {
        Ok(args) => Ok(args.skip(1).collect(rt.alloc())?),
        Err(error) if error.kind() == ErrorKind::OutOfMemory => Err(Fault::Memory),
        Err(_) => Err(Fault::Usage),
    }
}
