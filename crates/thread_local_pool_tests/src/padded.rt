//! Padded values: their size, the way in, and the way to the value.
ghost use Rattle.std.specs.Prelude.{◌≡◌};

use crate::same::assert_same;
use std::cell::Cell;
use std::mem::size_of;
use std::sync::Wait;
use thread_local::table::Judge;
use thread_local::{Padded, ThreadLocal};
use thread_local_test_helpers::printed::prints;

/// What is written to a padded value is what it holds then.
fn swapped<T>(value: T, other: T) -> (T, T)
    ensures { result ≡ (value, other) }
{
    let mut padded = Padded::new(value);
    let old = std::mem::replace(&mut *padded, other);
    (old, padded.into_inner())
}

/// What a padded value of 5 is to whoever borrows it, and to whoever takes it apart.
fn five_twice() -> (u32, u32) {
    let padded = Padded::from(5u32);
    (*padded, padded.into_inner())
}

#[test]
fn a_padded_value_is_the_value(rt: HostRuntime) {
    let default = Padded::<u64>::default().into_inner();
    assert_same(
        &rt,
        (swapped(1u8, 2), five_twice(), default),
        ((1, 2), (5, 5), 0),
    );
    assert!(rt; prints(&Padded::new(5), rt.alloc(), "Padded { value: 5 }"));
}

#[test]
fn a_slot_has_room_on_both_sides(rt: HostRuntime) {
    let sizes = (
        size_of::<Padded<u8>>(),
        size_of::<Padded<Cell<u64>>>(),
        size_of::<Padded<[u64; 3]>>(),
    );
    assert_same(&rt, sizes, (128, 128, 144));
}

/// Whether two `Local`s that are held at once publish padded cells, the first of which is set to 10.
fn publish_two<R: Wait>(table: &ThreadLocal<Padded<Cell<u64>>>, rt: &R) -> Option<bool> {
    let Ok(mut first) = table.local(rt) else {
        return None;
    };
    let Ok(mut second) = table.local(rt) else {
        return None;
    };
    first.get_or(|| Padded::new(Cell::new(1))).ok()?.set(10);
    Some(second.get_or(|| Padded::new(Cell::new(2))).is_ok())
}

/// The values of a table, as digits to the base of 100.
fn moved_out(table: ThreadLocal<Padded<Cell<u64>>>) -> u64 {
    let mut digits = 0u64;
    for cell in table {
        digits = digits.wrapping_mul(100).wrapping_add(cell.get());
    }
    digits
}

#[test]
fn a_table_keeps_padded_cells(rt: HostRuntime) {
    Padded::<Cell<u64>>::judge();
    let table = ThreadLocal::new(rt.alloc());
    let published = publish_two(&table, &rt);
    assert_same(&rt, (published, moved_out(table)), (Some(true), 1002));
}
