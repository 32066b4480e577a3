//! The manager of a table's ids: it gives out the least id that isn't held, and takes ids back.
ghost use Rattle.std.specs.Prelude.{◌≡◌, ◌+◌, ◌-◌, ◌*◌, ◌^◌, ◌<◌, ◌≤◌, min, [], length, IsTrue, IsOk, OnErr, OnOk, IfOk};
ghost use Rattle.std.specs.Prelude.{alloc_error};
ghost use Rattle.thread_local_base.specs.Bits.{IsNextUnset};
ghost use Rattle.thread_local_base.specs.Held.{is_held, least, Takes, Gives, NeedsMemory, IsExhausted};

use std::alloc::{AllocError, Global};
use std::marker::Model;

/// How many ids there are: 0 to 2^63 - 2.
pub const IDS: usize = (1 << 63) - 1;

/// Why a call obtained no id.
#[derive(Clone, Copy, Debug, PartialEq, Eq)]
pub enum LocalError {
    /// Out of memory, for the bit of a further id or for anything else that the call allocates.
    Memory(AllocError),
    /// Every id is held.
    Exhausted,
}

/// Gives out the least id that isn't held, and takes ids back.
///
/// Contracts see the held ids, as a truth value for each id below the peak, and the room: how many
/// ids have a bit, so that taking them needs no memory. The peak is the greatest number of ids held
/// at one moment.
///
/// No call waits. Only `with_room` and `alloc` take memory, in whole words.
///
/// Unlike in the Rust crate it is public, one for each table, and the memory for an id's bit is
/// taken with the id, so that its return needs none. In the Rust crate `alloc` returns the bare id,
/// and there is no `with_room`, `is_held`, `peak` or `clear`.
#[derive(Drop)]
pub struct ThreadIdManager {
    bits: IdBits,
    // The id that was given back last, whose bit is still set, or `IDS` where there is none.
    returned: usize,
}

impl Model for ThreadIdManager {
    ghost use Rattle.thread_local_base.specs.Held.{Manager, given_to};

    ghost Value = { Manager };

    ghost use Rattle.thread_local_base.specs.Words.{HasReturned};

    ghost view = { λ m. given_to m.bits m.returned };

    ghost invariant = { λ m. HasReturned m.bits m.returned };
}

impl ThreadIdManager {
    /// A manager with no id held. It takes no memory.
    pub fn new(alloc: Global) -> ThreadIdManager
        ensures held { result.held ≡ [] }
        ensures room { result.room ≡ 0 }
    {
        ThreadIdManager {
            bits: IdBits {
                words: Vec::new(alloc),
                peak: 0,
                lowest: 0,
            },
            returned: IDS,
        }
    }

    /// A manager with no id held, and room for `ids` ids, or for all ids where they are fewer. It
    /// asks for memory once, and for no id not at all. `Err` means out of memory.
    pub fn with_room(alloc: Global, ids: usize) -> Result<ThreadIdManager, AllocError>
        ensures held { IfOk result (λ manager. manager.held ≡ []) }
        ensures room { IfOk result (λ manager. min ids (2 ^ 63 - 1) ≤ manager.room) }
        ensures few { IfOk result (λ manager. manager.room < min ids (2 ^ 63 - 1) + 64) }
        ensures room_in_range { IfOk result (λ manager. manager.room ≤ 2 ^ 63 - 1) }
        ensures no_ids { ids ≡ 0 → IsOk result }
    {
        let mut words = Vec::new(alloc);
        words.resize(ids.min(IDS).div_ceil(64), 0)?;
        Ok(ThreadIdManager {
            bits: IdBits {
                words,
                peak: 0,
                lowest: 0,
            },
            returned: IDS,
        })
    }

    /// Takes the least id that isn't held. It asks for memory only where every id below the peak is
    /// held and there is no room for one more.
    ///
    /// `Memory` means out of memory. `Exhausted` means that all 2^63 - 1 ids are held.
    #[inline(always)]
    pub fn alloc(&mut self) -> Result<usize, LocalError>
        ensures ok { IfOk result (λ id. Takes self.old self.new id) }
        ensures memory { result ≡ Err (LocalError.Memory alloc_error) → NeedsMemory self.old }
        ensures exhausted { result ≡ Err LocalError.Exhausted → IsExhausted self.old }
        ensures err { OnErr result (self.new ≡ self.old) }
    {
        let id = self.returned;
        if id < self.bits.lowest() {
            self.returned = IDS;
            return Ok(id);
        }
        if id != IDS {
            self.returned = IDS;
            self.bits.free(id);
        }
        let id = self.bits.lowest();
        // The last word has a bit past the last id.
        if id >= IDS {
            return Err(LocalError::Exhausted);
        }
        self.bits.set_lowest()?;
        Ok(id)
    }

    /// Whether an id is held. `id` may be any number.
    pub fn is_held(&self, id: usize) -> bool
        ensures held { result ≡ is_held self.now.held id }
        ensures peak_in_room { length self.now.held ≤ self.now.room }
        ensures room_in_range { self.now.room ≤ 2 ^ 63 - 1 }
    {
        self.returned != id && self.bits.is_held(id)
    }

    /// The peak: the most ids held at one moment since the manager was new or cleared.
    pub fn peak(&self) -> usize
        ensures { result ≡ length self.now.held }
    {
        self.bits.peak()
    }

    /// Takes back an id, which the caller shows to be held.
    #[inline(always)]
    pub fn free(&mut self, id: usize)
        requires { IsTrue (is_held self.old.held id) }
        ensures { Gives self.old self.new id }
    {
        let before = self.returned;
        self.returned = id;
        if before != IDS {
            self.bits.free(before);
        }
    }

    /// Takes every id back. The peak starts again from 0, and the room stays.
    pub fn clear(&mut self)
        ensures held { self.new.held ≡ [] }
        ensures room { self.new.room ≡ self.old.room }
    {
        self.returned = IDS;
        self.bits.clear();
    }
}

/// A bit for each id. Contracts see the ids whose bit is set as held.
#[derive(Drop)]
struct IdBits {
    // 64 bits to a word, the lowest first.
    words: Vec<u64>,
    // No bit from the peak on is set.
    peak: usize,
    // The lowest bit that isn't set.
    lowest: usize,
}

impl Model for IdBits {
    ghost use Rattle.thread_local_base.specs.Held.{Manager};

    ghost Value = { Manager };

    ghost use Rattle.thread_local_base.specs.Words.{manager_of, IsManager};

    ghost view = { λ m. manager_of m.words.items m.peak };

    ghost invariant = { λ m. IsManager m.words.items m.peak m.lowest };
}

impl IdBits {
    /// The lowest bit that isn't set.
    fn lowest(&self) -> usize
        ensures { result ≡ least self.now.held }
    {
        self.lowest
    }

    /// The most bits that were set at one moment.
    fn peak(&self) -> usize
        ensures { result ≡ length self.now.held }
    {
        self.peak
    }

    /// Sets the lowest bit that isn't set, for which it asks for memory where there is no room.
    #[inline(never)]
    fn set_lowest(&mut self) -> Result<(), AllocError>
        requires { least self.old.held < 2 ^ 63 - 1 }
        ensures ok { OnOk result (Takes self.old self.new (least self.old.held)) }
        ensures memory { result ≡ Err alloc_error → NeedsMemory self.old }
        ensures err { OnErr result (self.new ≡ self.old) }
    {
        let id = self.lowest;
        if id / 64 == self.words.len() {
            self.words.push(0)?;
        }
        self.words[id / 64] ^= 1 << (id % 64);
        self.peak = self.peak.max(id + 1);
        self.lowest = next_unset(&self.words, id / 64);
        Ok(())
    }

    /// Whether a bit is set. `id` may be any number.
    fn is_held(&self, id: usize) -> bool
        ensures { result ≡ is_held self.now.held id }
    {
        id / 64 < self.words.len() && (self.words[id / 64] >> (id % 64)) & 1 == 1
    }

    /// Clears a bit that is set.
    #[inline(never)]
    fn free(&mut self, id: usize)
        requires { IsTrue (is_held self.old.held id) }
        ensures { Gives self.old self.new id }
    {
        self.words[id / 64] ^= 1 << (id % 64);
        self.lowest = self.lowest.min(id);
    }

    /// Clears every bit.
    fn clear(&mut self)
        ensures held { self.new.held ≡ [] }
        ensures room { self.new.room ≡ self.old.room }
    {
        self.words.fill(0);
        self.peak = 0;
        self.lowest = 0;
    }
}

/// The lowest bit that isn't set, from word `from` on. Past the last word no bit is set.
fn next_unset(words: &[u64], from: usize) -> usize
    requires { (from ≤ length words.now) × (length words.now ≤ 2 ^ 57) }
    ensures { IsNextUnset words.now (from * 64) result }
{
    for at in from..words.len() {
        let word = words[at];
        if word != u64::MAX {
            return at * 64 + word.trailing_ones() as usize;
        }
    }
    words.len() * 64
}
