//! What a test does with one id of a table.
ghost use Rattle.std.specs.Prelude.{◌≡◌, ◌-◌, ◌^◌, ◌<◌, IfOk, IsSome, Some};
ghost use Rattle.thread_local_base.specs.Judged.{Judged};
ghost use Rattle.thread_local_ids.specs.Sharings.{Belongs, IsFirst, first_of};
ghost use Rattle.thread_local_base.specs.Bits.{is_set};

use std::alloc::Global;
use std::cell::Cell;
use std::process::Abort;
use std::sync::Wait;
use thread_local_base::{LocalError, Thread, bucket_size};
use thread_local_buckets::{Buckets, flag_word_at};
use thread_local_ids::{Book, HeldId, Page, SharedIds, SlotRights, Told};
use thread_local_shared_buckets::{Claim, Shared};

/// The ids of a table, with its first page.
#[derive(Drop)]
pub struct Table {
    pub ids: SharedIds,
    pub start: Page,
    ghost of_one: { start.table ≡ ids.table },
}

impl Table {
    /// None of the ids is held.
    pub fn new(alloc: Global) -> Table {
        Table::with_slots(alloc).0
    }

    /// The same, with the rights to the slots.
    pub fn with_slots(alloc: Global) -> (Table, SlotRights)
        ensures { result.1.table ≡ result.0.ids.table }
    {
        let (ids, start, slots) = SharedIds::new(alloc);
        let table = Table { ids, start };
        (table, slots)
    }

    /// Takes every id back, and answers what is another table from then on, with the rights to its slots.
    pub fn cleared(self) -> (Table, SlotRights)
        ensures { result.1.table ≡ result.0.ids.table }
    {
        let Self { mut ids, start: _ } = self;
        let (start, slots) = ids.clear();
        let table = Table { ids, start };
        (table, slots)
    }

    /// The ids alone.
    pub fn into_ids(self) -> SharedIds
        ensures { result ≡ self.ids }
    {
        let Self { ids, start: _ } = self;
        ids
    }

    /// Takes an id that isn't given back.
    pub fn take<R: Wait>(&self, rt: &R) -> Result<HeldId, LocalError>
        ensures { IfOk result (λ held. held.right.table ≡ self.now.ids.table) }
    {
        self.ids.take(rt, &mut self.start.again())
    }

    /// The same, where the test ends if there is none.
    pub fn hold<R: Wait + Abort>(&self, rt: &R) -> HeldId
        ensures { result.right.table ≡ self.now.ids.table }
    {
        self.take(rt).expect(rt, "an id")
    }
}

/// A new table whose buckets have no value, in its first sharing.
pub fn begun<T>(alloc: Global) -> (Table, Shared<T>)
    requires judged { Judged T.row }
    ensures table { result.1.table ≡ result.0.ids.table }
    ensures sharing { result.1.sharing ≡ Some (first_of result.1.table) }
    ensures first { IsFirst result.1.sharing result.1.table }
    ensures belongs { Belongs result.1.sharing result.1.table }
{
    let (table, slots) = Table::with_slots(alloc);
    let (pointers, reserved) = Buckets::new(alloc).into_parts();
    let shared = Shared::first(pointers, reserved, slots);
    (table, shared)
}

/// Puts a value at an id, and answers whether there was memory.
pub fn put<T: Drop>(buckets: &mut Buckets<T>, id: usize, value: T) -> bool
    requires { id < 2 ^ 63 - 1 }
{
    buckets.insert(Thread::new(id), value).is_ok()
}

/// Lets threads share an owner's buckets. The sharing may have any name.
pub fn share<T>(buckets: Buckets<T>, page: &Page) -> Shared<T>
    requires judged { Judged T.row }
    ensures table { result.table ≡ page.now.table }
    ensures sharing { IsSome result.sharing }
    ensures belongs { Belongs result.sharing result.table }
    ensures reserved { result.reserved ≡ buckets.reserved }
{
    let (pointers, reserved) = buckets.into_parts();
    Shared::new(pointers, reserved, page)
}

/// A new table whose buckets have no value, in a sharing of any name.
pub fn empty_shared<T>(alloc: Global) -> (Table, Shared<T>)
    requires judged { Judged T.row }
    ensures table { result.1.table ≡ result.0.ids.table }
    ensures sharing { IsSome result.1.sharing }
    ensures belongs { Belongs result.1.sharing result.1.table }
{
    let table = Table::new(alloc);
    let shared = share(Buckets::new(alloc), &table.start);
    (table, shared)
}

/// The same with the buckets of a capacity.
pub fn reserved_shared<R: Abort, T: Drop>(
    rt: &R,
    alloc: Global,
    capacity: usize,
) -> (Table, Shared<T>)
    requires judged { Judged T.row }
    ensures table { result.1.table ≡ result.0.ids.table }
    ensures sharing { IsSome result.1.sharing }
    ensures belongs { Belongs result.1.sharing result.1.table }
{
    let buckets = Buckets::with_capacity(alloc, capacity).expect(rt, "memory");
    let table = Table::new(alloc);
    let shared = share(buckets, &table.start);
    (table, shared)
}

/// The same where an owner put a value at id 0 before. Answers whether it did.
pub fn one_shared(alloc: Global, value: u32) -> (Table, Shared<u32>, bool)
    ensures table { result.1.table ≡ result.0.ids.table }
    ensures belongs { Belongs result.1.sharing result.1.table }
{
    let mut buckets = Buckets::new(alloc);
    let is_put = put(&mut buckets, 0, value);
    let table = Table::new(alloc);
    let shared = share(buckets, &table.start);
    (table, shared, is_put)
}

/// Gives the buckets back to an owner, with what the slots were published with.
pub fn take_back<T>(shared: Shared<T>) -> (Buckets<T>, Book<T>)
    ensures reserved { result.0.reserved ≡ shared.reserved }
    ensures sharing { result.1.sharing ≡ shared.sharing }
    ensures contents { result.1.contents ≡ result.0.contents }
{
    let (pointers, reserved, book) = shared.into_parts();
    (Buckets::from_parts(pointers, reserved), book)
}

/// A claim that is given up when this is dropped.
pub struct Kept<'a, T> {
    pub claim: Claim<'a, T>,
}

impl<'a, T> Kept<'a, T> {
    /// The claim alone.
    pub fn into_claim(self) -> Claim<'a, T>
        ensures { result ≡ self.entry.claim }
    {
        let Self { claim } = self;
        claim
    }
}

impl<T> Drop for Kept<'_, T> {
    fn drop(self) {
        let Self { claim } = self;
        claim.give_up();
    }
}

/// Publishes a value at an id whose slot is empty, with a block for its bucket where that is missing.
/// Answers whether it did.
pub fn publish<T: Drop>(shared: &Shared<T>, held: HeldId, alloc: Global, value: T) -> (HeldId, bool)
    requires held { held.right.table ≡ shared.now.table }
    requires sharing { Belongs shared.now.sharing shared.now.table }
    ensures table { result.0.right.table ≡ shared.now.table }
    ensures id { result.0.id ≡ held.id }
{
    let mut claim = shared.claim(held);
    if claim.get().is_some() {
        return (claim.give_up(), false);
    }
    let is_set = claim.set(alloc, value).is_ok();
    (claim.give_up(), is_set)
}

/// Publishes a value in a slot that is vacant, and answers whether it did.
pub fn publish_claimed<T: Drop>(claim: Claim<'_, T>, value: T) -> (HeldId, bool)
    ensures table { result.0.right.table ≡ claim.entry.table }
    ensures id { result.0.id ≡ claim.entry.id }
{
    let mut claim = claim;
    if claim.is_missing() || claim.get().is_some() {
        return (claim.give_up(), false);
    }
    claim.publish(Thread::new(claim.id()), value);
    (claim.give_up(), true)
}

/// What an owner's walk gives first, second and third.
pub fn first_three(buckets: Buckets<u32>) -> [Option<u32>; 3] {
    let mut values = buckets.into_iter();
    [values.next(), values.next(), values.next()]
}

/// How many slots an owner has then, and what its walk gives first, second and third.
pub fn left(shared: Shared<u32>) -> (usize, [Option<u32>; 3]) {
    let mut buckets = take_back(shared).0;
    (buckets.slots(), first_three(buckets))
}

/// What is in the first cell of an owner's walk.
pub fn first_number<T: Copy>(shared: Shared<Cell<T>>) -> Option<T> {
    match take_back(shared).0.into_iter().next() {
        Some(cell) => Some(cell.get()),
        None => None,
    }
}

/// Whether a bit of a word is set.
pub fn has_bit(word: u64, bit: usize) -> bool
    requires { bit < 64 }
    ensures { result ≡ is_set word bit }
{
    word >> bit & 1 == 1
}

/// What a walker finds at an id.
pub fn look(shared: &Shared<u32>, id: usize) -> Option<u32>
    requires { id < 2 ^ 63 - 1 }
{
    let thread = Thread::new(id);
    let told = Told::new();
    let row = shared.bucket(thread.bucket).load(&told)?;
    let chunk = thread.index / 64;
    let flag_word = flag_word_at::<u32>(bucket_size(thread.bucket), chunk);
    let seen = row.look(chunk, flag_word, &told);
    let bit = thread.index % 64;
    if !has_bit(seen.flags(), bit) {
        return None;
    }
    let (_, value) = seen.give(bit, id);
    Some(*value)
}

/// What a walker finds at the ids 0, 1 and 2.
pub fn look_at_three(shared: &Shared<u32>) -> [Option<u32>; 3] {
    [look(shared, 0), look(shared, 1), look(shared, 2)]
}
