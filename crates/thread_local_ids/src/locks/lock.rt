//! The word of a lock is 0 while it is free, 1 while it is taken, and 2 while it is taken and a
//! thread may sleep for it.
ghost use Rattle.std.specs.Prelude.{◌≡◌, ◌≢◌, ℕ, ◌<◌, IfSome};
ghost use Rattle.thread_local_ids.specs.Locking.{LockView, lock_coded, lock_owns, lock_shares, guard_owns, guard_shares, Fitting};

use crate::locks::word::exchange;
use std::hint::spin_loop;
use std::marker::{Brand, Model, Move, Owns, PhantomData};
use std::sync::Wait;
use std::sync::atomic::Ordering::SeqCst;
use std::sync::atomic::raw;
use std::thread;

mod lends;

/// What a lock keeps true of its value.
pub trait Fits {
    /// A number of the value that stays as it is while threads share the lock.
    ghost tag: { Self → ℕ };

    /// What holds of the value whenever the lock is free.
    ghost fits: { Self → Type 0 };
}

/// The word of a lock that is free.
const FREE: u64 = 0;

/// The word of a lock that is taken.
const TAKEN: u64 = 1;

/// The word of a lock that is taken and for which a thread may sleep.
const AWAITED: u64 = 2;

/// How many seconds a thread sleeps, unless it is woken.
const FOR_EVER: u64 = i64::MAX as u64;

/// How often a thread waits for a moment and looks, before it yields. The waits double.
const TURNS: u64 = 10;

/// How often a thread yields and looks, before it sleeps.
const YIELDS: u64 = 99;

/// A value that one thread at a time writes through a `&`, and that fits whenever the lock is free.
/// A contract sees the tag of the value. An owner takes the lock apart to drop it (`into_inner`).
///
/// Only `lock` may wait, and no call takes memory. A guard that is forgotten leaves the lock taken
/// until its owner calls `get_mut` or takes it apart.
pub struct Lock<V: Fits> {
    word: u64,
    value: V,
}

impl<V: Fits> Owns for Lock<V> {
    ghost Value = { LockView };

    ghost coded = { lock_coded };

    ghost shr_at = { λ lock p κ. lock_shares V.row (Fitting V.tag V.fits lock.tag) p κ };
}

impl<V: Fits> Move for Lock<V> {
    ghost own_val = { λ lock vs.
        lock_owns V.row (Fitting V.tag V.fits lock.tag) (λ n x.
        Fields.own_val (record { word = n; value = x }) vs) };
}

/// The right to a lock's value. Dropping it releases the lock, and requires that the value fits
/// again.
pub struct LockGuard<'a, V: Fits> {
    lock: *const Lock<V>,
    marker: PhantomData<&'a V>,
    pub ghost tag: { ℕ },
    pub ghost value: { V } by { V.code },
}

impl<'a, V: Fits> Model for LockGuard<'a, V> {
    ghost also_owns = { λ g. guard_owns 'a V.row (Fitting V.tag V.fits g.tag) g.lock g.value };

    ghost also_shares = { λ g _ κ. guard_shares 'a V.row g.lock g.value κ };
}

impl<V: Fits> Lock<V> {
    /// A free lock, of a value that fits.
    pub fn new(value: V) -> Lock<V>
        requires { V.fits value }
        ensures { result.tag ≡ V.tag value }
    {
        Lock { word: FREE, value }
    }

    /// The value, of which nothing is known, since a guard may have been forgotten.
    pub fn into_inner(self) -> V {
        let Self { word: _, value } = self;
        value
    }

    /// Takes the lock if it is free, by one compare and exchange.
    #[inline]
    pub fn try_lock(&self) -> Option<LockGuard<'_, V>>
        ensures tag { IfSome result (λ guard. (guard.tag ≡ self.now.tag) × (V.tag guard.value ≡ self.now.tag)) }
        ensures fits { IfSome result (λ guard. V.fits guard.value) }
    {
        self.take(TAKEN)
    }

    /// Takes the lock. May wait: it looks for a while, first with short waits in between and then
    /// with yields, and tries where the lock is free. Then it sleeps until a release wakes it, and
    /// tries again.
    #[inline]
    pub fn lock<R: Wait>(&self, rt: &R) -> LockGuard<'_, V>
        ensures tag { (result.tag ≡ self.now.tag) × (V.tag result.value ≡ self.now.tag) }
        ensures fits { V.fits result.value }
    {
        if let Some(guard) = self.take(TAKEN) {
            return guard;
        }
        self.lock_contended(rt)
    }

    /// Takes the lock, which another thread had a moment ago.
    #[cold]
    #[inline(never)]
    fn lock_contended<R: Wait>(&self, rt: &R) -> LockGuard<'_, V>
        ensures tag { (result.tag ≡ self.now.tag) × (V.tag result.value ≡ self.now.tag) }
        ensures fits { V.fits result.value }
    {
        for turn in 0..TURNS + YIELDS {
            pause(turn);
            // Even a try that fails takes the word's line of the cache away from whoever has the
            // lock, and a look doesn't.
            if self.seen() == FREE {
                if let Some(guard) = self.take(TAKEN) {
                    return guard;
                }
            }
        }
        for _ in rt.forever() {
            self.sleep(rt, FOR_EVER);
            if let Some(guard) = self.take(AWAITED) {
                return guard;
            }
        }
        unreachable!()
    }

    /// The word as it was at one atomic load.
    fn seen(&self) -> u64 {
        unsafe { raw::load::<Brand>(&raw const self.word, SeqCst) }
    }

    /// Takes the lock if it is free: the word is `word` from then on.
    #[inline]
    fn take(&self, word: u64) -> Option<LockGuard<'_, V>>
        requires { word ≢ 0 }
        ensures tag { IfSome result (λ guard. (guard.tag ≡ self.now.tag) × (V.tag guard.value ≡ self.now.tag)) }
        ensures fits { IfSome result (λ guard. V.fits guard.value) }
    {
        let found = unsafe { exchange::<Brand>(&raw const self.word, FREE, word) };
        if found == FREE {
            Some(LockGuard {
                lock: self,
                marker: PhantomData,
            })
        } else {
            None
        }
    }

    /// Tells whoever has the lock that a thread may sleep for it, and sleeps until a release wakes
    /// it, for at most `secs` seconds. It doesn't sleep where the lock is released before.
    fn sleep<R: Wait>(&self, rt: &R, secs: u64) {
        unsafe { exchange::<Brand>(&raw const self.word, TAKEN, AWAITED) };
        unsafe { raw::park::<Brand, R>(rt, &raw const self.word, AWAITED, secs, 0) };
    }
}

impl<V: Fits> LockGuard<'_, V> {
    /// Forgets the guard: the lock stays taken until its owner calls `get_mut` or takes it apart.
    pub fn forget(self) {
        let Self { lock: _, marker: _ } = self;
    }
}

impl<V: Fits> Drop for LockGuard<'_, V> {
    #[inline]
    fn drop(self)
        requires tag { V.tag self.value ≡ self.tag }
        requires fits { V.fits self.value }
    {
        let Self { lock, marker: _ } = self;
        let word = unsafe { &raw const (*lock).word };
        let seen = unsafe { raw::swap::<Brand>(word, FREE, SeqCst) };
        unsafe { wake_if(word, seen) };
    }
}

/// Waits for a moment and goes on running. The moment doubles from turn to turn. After `TURNS`
/// turns it yields in place of that.
fn pause(turn: u64) {
    if turn < TURNS {
        for _ in 0..1u64 << turn {
            spin_loop();
        }
    } else {
        thread::yield_now();
    }
}

/// Wakes a thread that sleeps on the word, if `seen` says that one may.
#[inline]
unsafe fn wake_if(word: *const u64, seen: u64) {
    if seen == AWAITED {
        unsafe { raw::wake_one(word) };
    }
}

unsafe impl<V: Fits + Send> Send for Lock<V> {}

unsafe impl<V: Fits + Send> Sync for Lock<V> {}

unsafe impl<V: Fits + Sync> Sync for LockGuard<'_, V> {}
