//! Walks print their cursor, and a `Local` and its seat their value.

use crate::numbers::{publish_held, publishes};
use crate::same::assert_same;
use std::alloc::Global;
use std::sync::Wait;
use thread_local::ThreadLocal;
use thread_local_buckets::IterMut;
use thread_local_shared_buckets::Iter;
use thread_local_test_helpers::printed::prints;

/// The cursor before the first value.
const FRESH: &str = "Iter { raw: RawIter { yielded: 0, bucket: 0, bucket_size: 1, index: 0 } }";

/// That behind a value at id 1.
const BEHIND: &str = "Iter { raw: RawIter { yielded: 1, bucket: 1, bucket_size: 2, index: 1 } }";

/// And that past the last bucket.
const PAST: &str = "Iter { raw: RawIter { yielded: 1, bucket: 63, \
    bucket_size: 9223372036854775808, index: 0 } }";

/// Whether a walk over one value, 2 at id 1, is shown with its cursor: before it, behind it, and
/// past the last bucket.
fn shows_its_cursor(mut walk: Iter<'_, u32>, alloc: Global) -> bool {
    let is_fresh = prints(&walk, alloc, FRESH);
    let first = walk.next().copied();
    let is_behind = prints(&walk, alloc, BEHIND);
    let second = walk.next().copied();
    let is_past = prints(&walk, alloc, PAST);
    first == Some(2) && second.is_none() && is_fresh && is_behind && is_past
}

/// The second of two `Local`s publishes 2. Answers whether it does, and then whether the walks over
/// the table and of the second show their cursor.
fn second_shows<R: Wait>(table: &ThreadLocal<u32>, rt: &R, alloc: Global) -> Option<[bool; 3]> {
    let Ok(_first) = table.local(rt) else {
        return None;
    };
    let Ok(mut second) = table.local(rt) else {
        return None;
    };
    Some([
        publishes(&mut second, 2),
        shows_its_cursor(table.iter(), alloc),
        shows_its_cursor(second.iter(), alloc),
    ])
}

/// Whether walks with ids and with tokens are shown with their cursor.
fn others_show_their_cursor(table: &ThreadLocal<u32>, alloc: Global) -> [bool; 2] {
    let entries =
        "Entries { walk: Iter { raw: RawIter { yielded: 0, bucket: 0, bucket_size: 1, index: 0 } } }";
    let tokens =
        "Tokens { walk: Iter { raw: RawIter { yielded: 0, bucket: 0, bucket_size: 1, index: 0 } } }";
    [
        prints(&table.entries(), alloc, entries),
        prints(&table.tokens(), alloc, tokens),
    ]
}

#[test]
fn a_shared_walk_prints_its_cursor(rt: HostRuntime) {
    let table = ThreadLocal::<u32>::new(rt.alloc());
    let shown = second_shows(&table, &rt, rt.alloc());
    let others = others_show_their_cursor(&table, rt.alloc());
    assert_same(&rt, (shown, others), (Some([true; 3]), [true; 2]));
}

/// Whether a lending walk over the value 1 is shown with its cursor: before it, behind it, and so
/// still after its first None.
fn lending_shows_its_cursor(mut walk: IterMut<'_, u32>, alloc: Global) -> bool {
    let fresh = "IterMut { raw: RawIter { yielded: 0, bucket: 0, bucket_size: 1, index: 0 } }";
    let past = "IterMut { raw: RawIter { yielded: 1, bucket: 0, bucket_size: 1, index: 1 } }";
    let is_fresh = prints(&walk, alloc, fresh);
    let first = walk.next().map(|there| *there);
    let is_past = prints(&walk, alloc, past);
    let ends = walk.next().is_none();
    let stays = prints(&walk, alloc, past);
    first == Some(1) && is_fresh && is_past && ends && stays && walk.next().is_none()
}

/// Whether a walk that moves values out is shown with its cursor before the first.
fn moving_shows_its_cursor(table: ThreadLocal<u32>, alloc: Global) -> bool {
    let fresh = "IntoIter { raw: RawIter { yielded: 0, bucket: 0, bucket_size: 1, index: 0 } }";
    prints(&table.into_iter(), alloc, fresh)
}

/// Whether a value is published in a table, and each of its three walks is shown with its cursor.
fn three_show_their_cursor<R: Wait>(
    mut table: ThreadLocal<u32>,
    rt: &R,
    alloc: Global,
) -> [bool; 4] {
    let published = publish_held(&table, rt, alloc, 1);
    let shared = prints(&table.iter(), alloc, FRESH);
    let lending = lending_shows_its_cursor(table.iter_mut(), alloc);
    [
        published,
        shared,
        lending,
        moving_shows_its_cursor(table, alloc),
    ]
}

#[test]
fn the_three_walks_of_one_value_print_their_cursor(rt: HostRuntime) {
    let table = ThreadLocal::<u32>::new(rt.alloc());
    assert_same(
        &rt,
        three_show_their_cursor(table, &rt, rt.alloc()),
        [true; 4],
    );
}

/// Whether a new `Local` that publishes -3 is shown with it, and so is its seat.
fn shows_a_negative_number<R: Wait>(table: &ThreadLocal<i32>, rt: &R, alloc: Global) -> bool {
    let Ok(mut local) = table.local(rt) else {
        return false;
    };
    let told = local.get_or(|| -3).ok().copied();
    let text = "ThreadLocal { local_data: Some(-3) }";
    told == Some(-3) && prints(&local, alloc, text) && prints(local.seat(), alloc, text)
}

#[test]
fn a_negative_number_is_shown(rt: HostRuntime) {
    let table = ThreadLocal::<i32>::new(rt.alloc());
    assert!(rt; shows_a_negative_number(&table, &rt, rt.alloc()));
}
