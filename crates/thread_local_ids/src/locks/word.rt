//! The compare-and-exchange of a 64-bit word, which returns the word as it was.
ghost use Rattle.std.specs.Prelude.{◌≡◌, ◌==◌};
ghost use types.Logic.{sem};
ghost use prog.Atomic.{either};
ghost use Rattle.std.specs.Sync.RawAtomic.{asks, always, word_found};

use std::sync::atomic::Ordering::SeqCst;
use std::sync::atomic::raw;
use std::sync::atomic::raw::Outcome;

/// The word that a compare-and-exchange found, whether it wrote or not.
fn word_of(seen: Result<u64, u64>) -> u64
    ensures { result ≡ word_found seen }
{
    match seen {
        Ok(word) => word,
        Err(word) => word,
    }
}

/// Writes `new` if the word is `old`, in one atomic step, and returns the word as it was.
pub unsafe fn exchange<O: Outcome>(word: *const u64, old: u64, new: u64) -> u64
    requires* { asks 𝓛 word (λ n. either (n == old) new n) always O.after }
    ensures* { sem 𝓛 (O.after result) }
{
    word_of(unsafe { raw::compare_exchange::<O>(word, old, new, SeqCst, SeqCst) })
}
