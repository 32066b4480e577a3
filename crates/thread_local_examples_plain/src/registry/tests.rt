//! A reader walks while threads append, and the owner drains the lists by ascending id.
use super::*;
use std::thread;

#[test]
fn a_reader_walks_while_threads_append(rt: HostRuntime) {
    let lists = registry(rt.alloc());
    let (registered, seen) = thread::join(
        &rt,
        || {
            thread::join(
                &rt,
                || register(&lists, &rt, &[1, 2]).is_ok(),
                || register(&lists, &rt, &[30]).is_ok(),
            )
        },
        || sum_so_far(&lists),
    );
    assert!(rt; [0, 1, 3, 30, 31, 33].contains(&seen));
    assert!(rt; (registered, sum_so_far(&lists)) == ((true, true), 33));
}

/// Of two `Local`s that are held at once, the second appends 2, and then the first 1. Answers whether
/// none was refused.
fn append_two<R: Wait>(lists: &ThreadLocal<Events>, rt: &R) -> Option<()> {
    let mut first = lists.local(rt).ok()?;
    let mut second = lists.local(rt).ok()?;
    second.get_or(|| Events::new()).ok()?.append(2);
    first.get_or(|| Events::new()).ok()?.append(1);
    Some(())
}

/// How many lists there are, and their sums as digits.
fn drained(lists: ThreadLocal<Events>) -> (usize, u64) {
    let walk = lists.into_iter();
    let count = walk.len();
    let mut digits = 0u64;
    for list in walk {
        digits = digits.wrapping_mul(10).wrapping_add(list.sum());
    }
    (count, digits)
}

#[test]
fn the_owner_drains_the_lists_by_ascending_id(rt: HostRuntime) {
    let lists = registry(rt.alloc());
    let appended = append_two(&lists, &rt);
    assert!(rt; (appended, drained(lists)) == (Some(()), (2, 12)));
}
