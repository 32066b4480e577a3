//! Buckets are shared at concrete types.
ghost use Rattle.std.specs.Prelude.{◌≡◌, ◌^◌, ◌<◌, ◌≤◌};
ghost use Rattle.thread_local_base.specs.Judged.{Judged};

use crate::same::assert_same;
use crate::steps::{Table, has_bit, put, share, take_back};
use std::alloc::Global;
use std::cell::{Cell, RefCell};
use std::process::Abort;
use thread_local_base::{Judge, bucket_size, judge_sync};
use thread_local_buckets::{Buckets, flag_word_at};
use thread_local_ids::{Page, Token, Told};
use thread_local_shared_buckets::{Row, Shared, SharedBucket};

fn crosses<X: Send + Sync>(_there: &X) {}

fn number(buckets: Buckets<u32>, page: &Page) -> Shared<u32>
    ensures { result.reserved ≡ buckets.reserved }
{
    share(buckets, page)
}

fn boxed(buckets: Buckets<Box<u32>>, page: &Page) -> Shared<Box<u32>>
    ensures { result.reserved ≡ buckets.reserved }
{
    share(buckets, page)
}

fn text(buckets: Buckets<String>, page: &Page) -> Shared<String>
    ensures { result.reserved ≡ buckets.reserved }
{
    judge_sync::<String>();
    share(buckets, page)
}

fn cell(buckets: Buckets<Cell<u64>>, page: &Page) -> Shared<Cell<u64>>
    ensures { result.reserved ≡ buckets.reserved }
{
    Cell::<u64>::judge();
    share(buckets, page)
}

fn ref_cell(buckets: Buckets<RefCell<String>>, page: &Page) -> Shared<RefCell<String>>
    ensures { result.reserved ≡ buckets.reserved }
{
    RefCell::<String>::judge();
    let shared = share(buckets, page);
    crosses(&shared);
    shared
}

fn generic<T>(buckets: Buckets<T>, page: &Page) -> Shared<T>
    requires judged { Judged T.row }
    ensures { (result.table ≡ page.now.table) × (result.reserved ≡ buckets.reserved) }
{
    share(buckets, page)
}

fn sync<T: Send + Sync>(buckets: Buckets<T>, page: &Page) -> Shared<T>
    ensures { result.reserved ≡ buckets.reserved }
{
    share(buckets, page)
}

fn cell_row(shared: &Shared<Cell<u64>>) -> Option<Row<'_, Cell<u64>>> {
    shared.bucket(3).load(&Told::new())
}

fn slots(shared: &Shared<RefCell<String>>, page: &Page) -> usize
    requires { page.now.table ≡ shared.now.table }
    ensures { shared.now.reserved ≤ result }
{
    shared.slots_reached(page, &Told::new()).0
}

fn owner_slots(shared: &mut Shared<RefCell<String>>) -> usize
    ensures slots { shared.old.reserved ≤ result }
    ensures same { (shared.new.table ≡ shared.old.table) × (shared.new.reserved ≡ shared.old.reserved) }
{
    shared.owner().slots()
}

fn back(shared: Shared<RefCell<String>>) -> Buckets<RefCell<String>>
    ensures { result.reserved ≡ shared.reserved }
{
    take_back(shared).0
}

/// Buckets that are shared anew, by a caller that knows of the type what the buckets keep.
fn anew<T>(shared: Shared<T>, page: &Page) -> Shared<T>
    ensures { (result.table ≡ page.now.table) × (result.reserved ≡ shared.reserved) }
{
    shared.judged();
    share(take_back(shared).0, page)
}

fn published<'a>(row: &Row<'a, String>, bucket: usize, index: usize) -> Option<&'a String>
    requires bucket { row.now.of.bucket ≡ bucket }
    requires in_table { bucket < 63 }
    requires in_bucket { index < 2 ^ bucket }
{
    judge_sync::<String>();
    let chunk = index / 64;
    let size = bucket_size(bucket);
    let flag_word = flag_word_at::<String>(size, chunk);
    let seen = row.look(chunk, flag_word, &Told::new());
    let bit = index % 64;
    if !has_bit(seen.flags(), bit) {
        return None;
    }
    let (_, text) = seen.give(bit, size - 1 + index);
    Some(text)
}

fn bucket_crosses(bucket: &SharedBucket<RefCell<String>>) {
    crosses(bucket)
}

/// Buckets of a capacity of 8.
fn of_eight<R: Abort, T: Drop>(rt: &R, alloc: Global) -> Buckets<T> {
    Buckets::with_capacity(alloc, 8).expect(rt, "memory")
}

/// How many slots are reserved in shared buckets of a capacity of 8, at four types.
fn reserved_at_types<R: Abort>(rt: &R, alloc: Global) -> [usize; 4] {
    let page = Table::new(alloc).start;
    let numbers = number(of_eight(rt, alloc), &page).reserved();
    let boxes = boxed(of_eight(rt, alloc), &page).reserved();
    let cells = ref_cell(of_eight(rt, alloc), &page).reserved();
    let bytes = sync::<u8>(of_eight(rt, alloc), &page).reserved();
    [numbers, boxes, cells, bytes]
}

/// Whether bucket 3 stands in shared buckets of cells, of a capacity of 8.
fn has_cell_row<R: Abort>(rt: &R, alloc: Global) -> bool {
    let page = Table::new(alloc).start;
    let shared = cell(of_eight(rt, alloc), &page);
    bucket_crosses_of(alloc, &page);
    cell_row(&shared).is_some()
}

/// Looks at a bucket of texts in cells.
fn bucket_crosses_of(alloc: Global, page: &Page) {
    bucket_crosses(ref_cell(Buckets::new(alloc), page).bucket(0));
}

/// How many slots threads, an owner and a later owner count in buckets of a capacity of 8.
fn slots_of_three<R: Abort>(rt: &R, alloc: Global) -> [usize; 3] {
    RefCell::<String>::judge();
    let page = Table::new(alloc).start;
    let mut shared = generic(of_eight(rt, alloc), &page);
    let by_threads = slots(&shared, &page);
    let by_owner = owner_slots(&mut shared);
    let mut buckets = back(anew(shared, &page));
    [by_threads, by_owner, buckets.slots()]
}

/// How many bytes the text has that a walker finds at id 0.
fn length_found(shared: &Shared<String>) -> Option<usize> {
    match shared.bucket(0).load(&Told::new()) {
        Some(row) => published(&row, 0, 0).map(|found| found.len()),
        None => None,
    }
}

/// The same where an owner puts one there before.
fn length_at_the_first<R: Abort>(rt: &R, alloc: Global) -> Option<usize> {
    let mut buckets = Buckets::new(alloc);
    let four = String::from_str(alloc, "four").expect(rt, "memory");
    let is_put = put(&mut buckets, 0, four);
    let found = length_found(&text(buckets, &Table::new(alloc).start));
    if is_put { found } else { None }
}

#[test]
fn buckets_are_shared_at_each_type(rt: HostRuntime) {
    let alloc = rt.alloc();
    let reserved = reserved_at_types(&rt, alloc);
    let has_row = has_cell_row(&rt, alloc);
    let slots = slots_of_three(&rt, alloc);
    assert_same(
        &rt,
        (reserved, has_row, slots, length_at_the_first(&rt, alloc)),
        ([15; 4], true, [15; 3], Some(4)),
    );
}
