//! Ids that are refused memory: of 64 the first alone needs any, and a returned one needs none.
use crate::same::assert_same;
use std::alloc::Global;
use std::io::Print;
use std::process::Abort;
use std::test::Fail;
use thread_local_base::{LocalError, ThreadIdManager};

/// Takes an id; where memory is refused, nothing has changed and the same call succeeds.
fn take(
    rt: &(impl Abort + Print),
    manager: &mut ThreadIdManager,
    held: &[usize],
) -> Result<usize, LocalError> {
    match manager.alloc() {
        Ok(id) => Ok(id),
        Err(LocalError::Exhausted) => Err(LocalError::Exhausted),
        Err(LocalError::Memory(_)) => {
            let _told = println!(rt; "refused: alloc");
            for id in 0..8 {
                assert_eq!(rt;
                    manager.is_held(id),
                    held.contains(&id),
                    "id {id} after a refusal"
                );
            }
            manager.alloc()
        }
    }
}

/// Takes an id where no memory is asked for, so a refusal would be a fault of the manager's.
pub fn take_at_hand(manager: &mut ThreadIdManager) -> Result<usize, LocalError> {
    manager.alloc()
}

/// Gives an id back if it is held, and answers whether it was.
pub fn give(manager: &mut ThreadIdManager, id: usize) -> bool {
    let is_held = manager.is_held(id);
    if is_held {
        manager.free(id);
    }
    is_held
}

/// Which of the first four ids are held.
fn first_held(manager: &ThreadIdManager) -> [bool; 4] {
    [
        manager.is_held(0),
        manager.is_held(1),
        manager.is_held(2),
        manager.is_held(3),
    ]
}

/// Takes three ids, before each of which these are held.
fn take_three(
    rt: &(impl Abort + Print),
    manager: &mut ThreadIdManager,
    held: [&[usize]; 3],
) -> Result<[usize; 3], LocalError> {
    Ok([
        take(rt, manager, held[0])?,
        take(rt, manager, held[1])?,
        take(rt, manager, held[2])?,
    ])
}

#[test]
fn least_ids_in_turn(rt: HostRuntime) -> Result<(), Fail> {
    let mut manager = ThreadIdManager::new(rt.alloc());
    let before = first_held(&manager);
    let taken = take_three(&rt, &mut manager, [&[], &[0], &[0, 1]])?;
    let given = [give(&mut manager, 1), give(&mut manager, 0)];
    let left = first_held(&manager);
    let again = take_three(&rt, &mut manager, [&[2], &[0, 2], &[0, 1, 2]])?;
    assert_same(
        &rt,
        (before, taken, given),
        ([false; 4], [0, 1, 2], [true; 2]),
    );
    assert_same(&rt, (left, again), ([false, false, true, false], [0, 1, 3]));
    Ok(())
}

#[test]
fn a_returned_id_needs_no_memory(rt: HostRuntime) -> Result<(), Fail> {
    let mut manager = ThreadIdManager::new(rt.alloc());
    let first = [0, 1, 2, 3, 4, 5, 6, 7];
    for id in 0..70usize {
        assert_same(&rt, take(&rt, &mut manager, &first[..id.min(8)])?, id);
    }
    let given = [give(&mut manager, 33), give(&mut manager, 7)];
    let again = [take_at_hand(&mut manager)?, take_at_hand(&mut manager)?];
    assert_same(&rt, (given, again), ([true; 2], [7, 33]));
    Ok(())
}

/// The first id of a manager with room for no id.
fn first_without_room(rt: &(impl Abort + Print), alloc: Global) -> Result<usize, LocalError> {
    let mut empty = ThreadIdManager::with_room(alloc, 0)?;
    assert!(rt; !empty.is_held(0));
    take(rt, &mut empty, &[])
}

/// Whether room for so many ids is refused.
fn is_refused(alloc: Global, ids: usize) -> bool {
    ThreadIdManager::with_room(alloc, ids).is_err()
}

/// Takes ids that need no memory, and looks that they are the first so many.
fn take_first(
    rt: &impl Abort,
    manager: &mut ThreadIdManager,
    count: usize,
) -> Result<(), LocalError> {
    for id in 0..count {
        assert_same(rt, take_at_hand(manager)?, id);
    }
    Ok(())
}

#[test]
fn room_that_was_made_is_enough(rt: HostRuntime) -> Result<(), Fail> {
    let Ok(mut manager) = ThreadIdManager::with_room(rt.alloc(), 67) else {
        println!(rt; "refused: with_room")?;
        return Ok(());
    };
    take_first(&rt, &mut manager, 67)?;
    assert!(rt; !manager.is_held(67));
    let first = first_without_room(&rt, rt.alloc())?;
    let refused = [9223372036854775807, usize::MAX].map(|ids| is_refused(rt.alloc(), ids));
    assert_same(&rt, (first, refused), (0, [true; 2]));
    Ok(())
}

#[test]
fn room_is_made_in_whole_words(rt: HostRuntime) -> Result<(), Fail> {
    let Ok(mut manager) = ThreadIdManager::with_room(rt.alloc(), 65) else {
        println!(rt; "refused: with_room")?;
        return Ok(());
    };
    take_first(&rt, &mut manager, 128)?;
    assert_same(
        &rt,
        take(&rt, &mut manager, &[0, 1, 2, 3, 4, 5, 6, 7])?,
        128,
    );
    Ok(())
}

#[test]
fn the_memory_of_an_id_serves_64(rt: HostRuntime) -> Result<(), Fail> {
    let mut manager = ThreadIdManager::new(rt.alloc());
    assert_same(&rt, take(&rt, &mut manager, &[])?, 0);
    for id in 1..64usize {
        assert_same(&rt, take_at_hand(&mut manager)?, id);
    }
    Ok(())
}
