//! The first 58 ids of a table, as the bits of one word that threads change by atomic steps, each
//! least id by one compare and exchange. For proofs the word keeps the history of all ids of the table
//! and their rights. The further ids lie under a lock.
ghost use Rattle.std.specs.Prelude.{◌≡◌, ◌≢◌, ◌+◌, ◌*◌, ◌-◌, ◌/◌, ◌%◌, ◌^◌, ◌<◌, ◌≤◌, ◌==◌, ◌&&◌, ℕ, max, true, false, List, [], length, if◌then◌else◌};
ghost use Rattle.std.specs.Prelude.{IfSome, None};
ghost use mathlib.Core.List.{IsPrefix};
ghost use Rattle.thread_local_base.specs.Bits.{IsLowestUnset};
ghost use Rattle.thread_local_base.specs.SharedWord.{word_shares, word_owns};
ghost use Rattle.thread_local_base.specs.IdMoves.{IdMove, Take, moves_coded, held_after, noted, published_in};
ghost use Rattle.thread_local_ids.specs.Rights.{taken_id};
ghost use Rattle.thread_local_base.specs.Buckets.{values};
ghost use Rattle.thread_local_base.specs.Held.{is_held};
ghost use Rattle.thread_local_ids.specs.Sharings.{IsFirst, left_of};
ghost use Rattle.thread_local_ids.specs.Taken.{IsStepped, IsTakenAfter};
ghost use Rattle.thread_local_ids.specs.FirstIds.{FirstView, first_coded, lies_with, log_owns};
ghost use Rattle.thread_local_ids.specs.FirstIds.{IsWordOf, IsSameBeyond, IsGivenBeyond, HasFurther, IsReturn};
ghost use Rattle.thread_local_ids.specs.FirstIds.{is_full as is_full_word, word_with as word_that_holds};

use crate::locks::word::exchange;
use crate::rights::held::HeldId;
use crate::rights::page::Page;
use crate::rights::right::{Right, SlotRights};
use crate::tokens::book::Book;
use std::marker::{Brand, Model, Move, Owns, PhantomData};
use std::sync::atomic::Ordering::SeqCst;
use std::sync::atomic::raw;
use thread_local_base::ThreadIdManager;

/// How many ids have a bit in the word.
pub(crate) const FIRST_IDS: usize = 58;

/// The bits of the ids where all of the first are held.
const ALL: u64 = (1 << 58) - 1;

/// The word once id 0 of a new table is taken: the id's bit, and a peak of 1.
const FIRST_TAKEN: u64 = 64 + 1;

/// How often a take tries to exchange the word, in a new table after a first try.
const TRIES: u64 = 16;

/// Which of the first 58 ids are held, a bit each, and their peak in the 6 bits below. A contract sees
/// the name of the table.
#[derive(Drop)]
pub(crate) struct FirstIds {
    word: u64,
}

impl Owns for FirstIds {
    ghost Value = { FirstView };

    ghost coded = { first_coded };

    ghost shr_at = { λ first p κ. word_shares (lies_with first.table) p κ };
}

impl Move for FirstIds {
    ghost own_val = { λ first vs. word_owns (lies_with first.table) (λ n. Fields.own_val (record { word = n }) vs) };
}

/// All moves of a table up to the last one of a further id: the half of what is kept of them that lies
/// with the further ids. It has no bytes.
#[derive(Drop)]
pub(crate) struct Log {
    pub(crate) marker: PhantomData<()>,
    pub ghost table: { ℕ },
    pub ghost moves: { List IdMove } by { moves_coded },
}

impl Model for Log {
    ghost also_owns = { λ l. log_owns l.table false l.moves };
}

impl FirstIds {
    /// The first ids of a new table whose further ids the manager gives out. Beside them are the log, the
    /// page from before any id is taken, and the rights to its slots.
    pub(crate) fn begun(manager: &ThreadIdManager) -> (FirstIds, Log, (Page, SlotRights))
        ensures log { (result.1.table ≡ result.0.table) × (result.1.moves ≡ []) }
        ensures page { (result.2.0.table ≡ result.0.table) × (result.2.0.moves ≡ []) }
        ensures room { result.2.0.room ≡ max 58 manager.now.room }
        ensures slots { result.2.1.table ≡ result.0.table }
    {
        let _ = manager;
        (
            FirstIds { word: 0 },
            Log {
                marker: PhantomData,
            },
            (
                Page {
                    marker: PhantomData,
                },
                SlotRights {
                    marker: PhantomData,
                },
            ),
        )
    }

    /// Shows that the ids of two tables have two names. At run time it does nothing.
    pub(crate) fn apart(&mut self, other: &mut FirstIds)
        ensures tables { self.old.table ≢ other.old.table }
        ensures same { (self.new ≡ self.old) × (other.new ≡ other.old) }
    {}

    /// The book with all that was done with the ids by then. In the table's first sharing it tells of each
    /// id that isn't held what the history says.
    pub(crate) fn with_history<T>(self, book: Book<T>) -> Book<T>
        ensures book { (result.sharing ≡ book.sharing) × (result.contents ≡ book.contents) }
        ensures history { (result.table ≡ self.table) × (result.whole ≡ true) }
        ensures left { IsFirst book.sharing self.table
            → (id : ℕ)
            → id < 2 ^ 63 - 1
            → is_held (held_after result.moves) id ≡ false
            → published_in result.moves id ≡ left_of T.row (values result.contents id) }
    {
        book
    }

    /// Takes the least id of the table, if it is one of the first, by one compare and exchange. It
    /// answers none where all of these are held, or where other threads changed the word each time
    /// that it tried. The page is then left as it is.
    pub(crate) fn take(&self, page: &mut Page) -> Option<HeldId>
        requires { page.old.table ≡ self.now.table }
        ensures taken { IfSome result (λ held. IsTakenAfter self.now.table page.old.moves page.new.moves held) }
        ensures table { page.new.table ≡ page.old.table }
        ensures none { result ≡ None → page.new ≡ page.old }
    {
        let mut seen = self.seen();
        if seen == 0 {
            // In a new table the word to store is known, so the exchange waits for no sum.
            let (found, right) = self.try_take(0, FIRST_TAKEN, 0, page);
            if found == 0 {
                return Some(right.into_held(0, page));
            }
            seen = found;
        }
        for _ in 0..TRIES {
            let id = (seen >> 6).trailing_ones() as usize;
            if id >= FIRST_IDS {
                return None;
            }
            let (found, right) = self.try_take(seen, word_with(seen, id as u64), id, page);
            if found == seen {
                return Some(right.into_held(id, page));
            }
            seen = found;
        }
        None
    }

    /// The word as it was at one atomic load.
    fn seen(&self) -> u64 {
        unsafe { raw::load::<Brand>(&raw const self.word, SeqCst) }
    }

    /// Takes the least id if the word is still as it was seen, by one compare and exchange. The right isn't
    /// held where it wasn't.
    fn try_take(&self, seen: u64, new: u64, id: usize, page: &Page) -> (u64, Right)
        requires table { page.now.table ≡ self.now.table }
        requires lowest { IsLowestUnset (seen / 64) id }
        requires first { id < 58 }
        requires new { new ≡ word_that_holds seen id }
        ensures right { IsStepped self.now.table (result.0 == seen) result.1 }
        ensures early { IsPrefix page.now.moves result.1.before }
        ensures least { result.1.held ≡ true → id ≡ taken_id result.1.before }
    {
        let _ = id;
        let _ = page;
        let found = unsafe { exchange::<Brand>(&raw const self.word, seen, new) };
        let right = Right {
            marker: PhantomData,
        };
        (found, right)
    }

    /// Looks at the word by one atomic load. If it shows that all of the first ids are held, and the
    /// caller takes a further id, then that is the least, and it is taken at this load.
    pub(crate) fn look(&self, log: &mut Log, page: &Page, takes: bool) -> (u64, Right)
        requires table { (page.now.table ≡ self.now.table) × (log.old.table ≡ self.now.table) }
        requires further { takes ≡ true → HasFurther (held_after log.old.moves) }
        ensures right { IsStepped self.now.table (takes && is_full_word result.0) result.1 }
        ensures early { IsPrefix page.now.moves result.1.before }
        ensures word { IsWordOf result.0 (held_after result.1.before) }
        ensures beyond { IsSameBeyond (held_after log.old.moves) (held_after result.1.before) }
        ensures peak { length (held_after log.old.moves) - 58 ≡ length (held_after result.1.before) - 58 }
        ensures log { (log.new.table ≡ log.old.table)
            × (log.new.moves ≡ (if result.1.held then noted result.1.before Take else log.old.moves)) }
    {
        let _ = log;
        let _ = page;
        let _ = takes;
        let found = unsafe { raw::load::<Brand>(&raw const self.word, SeqCst) };
        let right = Right {
            marker: PhantomData,
        };
        (found, right)
    }

    /// Gives one of the first ids back, whose bit is given, by one atomic step.
    pub(crate) fn give(&self, right: Right, bit: u64) -> Page
        requires table { right.table ≡ self.now.table }
        requires held { (right.held ≡ true) × (right.lent ≡ false) }
        requires first { taken_id right.before < 58 }
        requires bit { bit ≡ 64 * 2 ^ taken_id right.before % 2 ^ 64 }
        ensures table { result.table ≡ self.now.table }
        ensures moves { IsReturn right.before (taken_id right.before) result.moves }
        ensures left { published_in result.moves (taken_id right.before) ≡ right.left }
    {
        let Right { marker: _ } = right;
        unsafe { raw::fetch_sub::<Brand>(&raw const self.word, bit, SeqCst) };
        Page {
            marker: PhantomData,
        }
    }

    /// Notes that a further id is given back, at an atomic load of the word.
    pub(crate) fn give_further(&self, log: &mut Log, right: Right) -> Page
        requires table { (right.table ≡ self.now.table) × (log.old.table ≡ self.now.table) }
        requires held { (right.held ≡ true) × (right.lent ≡ false) }
        requires further { (58 ≤ taken_id right.before) × (taken_id right.before < 2 ^ 63 - 1) }
        ensures table { result.table ≡ self.now.table }
        ensures moves { IsReturn right.before (taken_id right.before) result.moves }
        ensures left { published_in result.moves (taken_id right.before) ≡ right.left }
        ensures given { IsGivenBeyond (held_after log.old.moves) (held_after result.moves) (taken_id right.before) }
        ensures log { (log.new.table ≡ log.old.table) × (log.new.moves ≡ result.moves) }
    {
        let Right { marker: _ } = right;
        let _ = log;
        unsafe { raw::load::<Brand>(&raw const self.word, SeqCst) };
        Page {
            marker: PhantomData,
        }
    }
}

impl Right {
    /// The id that a step took. The page becomes that of the moves with the take.
    pub(crate) fn into_held(self, id: usize, page: &mut Page) -> HeldId
        requires step { IsStepped page.old.table true self }
        requires id { (id ≡ taken_id self.before) × (id < 2 ^ 63 - 1) }
        requires early { IsPrefix page.old.moves self.before }
        ensures taken { IsTakenAfter self.table page.old.moves page.new.moves result }
        ensures table { page.new.table ≡ page.old.table }
    {
        *page = self.page();
        HeldId { id, right: self }
    }
}

/// Whether all of the first ids are held.
pub(crate) fn is_full(word: u64) -> bool
    ensures { result ≡ is_full_word word }
{
    word >> 6 == ALL
}

/// The peak of the first ids.
pub(crate) fn peak(word: u64) -> usize
    ensures { result ≡ word % 64 }
{
    (word % 64) as usize
}

/// The word once the least id is taken too. Where as many of the first ids are held as ever were at
/// once, their peak grows.
fn word_with(word: u64, id: u64) -> u64
    requires lowest { IsLowestUnset (word / 64) id }
    requires first { id < 58 }
    ensures { result ≡ word_that_holds word id }
{
    let _ = id;
    // The id's bit by itself, so that the sum waits for no shift by the id.
    let ids = word >> 6;
    let lowest = (ids + 1) & !ids;
    let taken = word + (lowest << 6);
    if lowest == 1 << (word % 64) {
        taken + 1
    } else {
        taken
    }
}

unsafe impl Send for FirstIds {}

unsafe impl Sync for FirstIds {}

unsafe impl Send for Log {}

unsafe impl Sync for Log {}
