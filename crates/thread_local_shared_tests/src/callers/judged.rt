//! Types that are judged.
ghost use Rattle.thread_local_base.specs.Judged.{Judged};

use crate::same::assert_same;
use std::alloc::Global;
use std::cell::{Cell, RefCell};
use std::process::Abort;
use thread_local_base::{Judge, judge_sync};

/// Stands for a call that asks for the fact.
fn offered<T: Send>(value: T) -> T
    requires judged { Judged T.row }
{
    value
}

fn shared<T: Send + Sync>(value: T) -> T {
    offered(value)
}

fn judging<T: Judge + Send>(value: T) -> T {
    T::judge();
    offered(value)
}

fn number() -> u32 {
    shared(offered(5u32))
}

fn boxed(value: Box<u32>) -> Box<u32> {
    offered(value)
}

fn text(value: String) -> String {
    judge_sync::<String>();
    offered(value)
}

fn pair(value: (u32, String)) -> (u32, String) {
    judge_sync::<(u32, String)>();
    offered(value)
}

fn cell(value: Cell<u64>) -> Cell<u64> {
    Cell::<u64>::judge();
    offered(value)
}

fn ref_cell(value: RefCell<u32>) -> RefCell<u32> {
    judging(value)
}

fn unsigned_numbers() {
    judging(1u8);
    judging(2u16);
    judging(3u32);
    judging(4u64);
    judging(5u128);
    judging(6usize);
}

fn signed_numbers() {
    judging(-1i8);
    judging(-2i16);
    judging(-3i32);
    judging(-4i64);
    judging(-5i128);
    judging(-6isize);
}

fn other_plain_values() {
    judging(0.5f32);
    judging(0.25f64);
    judging(true);
    judging('a');
    judging(());
}

fn texts(value: String) -> String {
    judging(value)
}

fn in_boxes(number: Box<u32>, cell: Box<Cell<u32>>) -> (Box<u32>, Box<Cell<u32>>) {
    (judging(number), judging(cell))
}

fn in_vectors(alloc: Global) -> (Vec<String>, Vec<RefCell<u32>>) {
    (judging(Vec::new(alloc)), judging(Vec::new(alloc)))
}

fn in_options() -> (Option<u8>, Option<Cell<u64>>) {
    (judging(Some(13)), judging(Some(Cell::new(14))))
}

fn nested(
    cell: RefCell<Vec<Option<Cell<u64>>>>,
    vector: Vec<Box<Option<Cell<u64>>>>,
) -> (RefCell<Vec<Option<Cell<u64>>>>, Vec<Box<Option<Cell<u64>>>>) {
    (judging(cell), judging(vector))
}

/// The numbers that come back of 5 to 8, of which three were in boxes.
fn numbers<R: Abort>(rt: &R, alloc: Global) -> [u32; 4] {
    let six = Box::new(alloc, 6u32).expect(rt, "memory");
    let seven = Box::new(alloc, 7u32).expect(rt, "memory");
    let eight = Box::new(alloc, Cell::new(8u32)).expect(rt, "memory");
    let (other, in_cell) = in_boxes(seven, eight);
    [number(), *boxed(six), *other, in_cell.get()]
}

/// How many bytes the texts have that come back, with the number beside one.
fn lengths<R: Abort>(rt: &R, alloc: Global) -> ([usize; 3], u32) {
    let one = text(String::from_str(alloc, "a").expect(rt, "memory"));
    let two = texts(String::from_str(alloc, "bb").expect(rt, "memory"));
    let three = String::from_str(alloc, "ccc").expect(rt, "memory");
    let (number, three) = pair((9, three));
    ([one.len(), two.len(), three.len()], number)
}

/// What comes back in cells, in an option and in vectors.
fn in_cells(alloc: Global) -> ([u64; 2], Option<u8>, [usize; 2]) {
    let (number, in_cell) = in_options();
    let (texts, cells) = in_vectors(alloc);
    let (nested, vector) = nested(RefCell::new(Vec::new(alloc)), Vec::new(alloc));
    let found = ref_cell(RefCell::new(12)).into_inner();
    let in_option = in_cell.map(|cell| cell.get()).unwrap_or(0);
    (
        [cell(Cell::new(11)).get(), u64::from(found)],
        if in_option == 14 { number } else { None },
        [
            texts.len().wrapping_add(cells.len()),
            nested.into_inner().len().wrapping_add(vector.len()),
        ],
    )
}

#[test]
fn judged_values_come_back(rt: HostRuntime) {
    unsigned_numbers();
    signed_numbers();
    other_plain_values();
    let numbers = numbers(&rt, rt.alloc());
    let lengths = lengths(&rt, rt.alloc());
    assert_same(
        &rt,
        (numbers, lengths, in_cells(rt.alloc())),
        ([5, 6, 7, 8], ([1, 2, 3], 9), ([11, 12], Some(13), [0, 0])),
    );
}
