//! The manager of ids: ten thousand takes and gives beside a set of the ids held.
use crate::refusals::{give, take_at_hand};
use std::collections::BTreeSet;
use std::test::Fail;
use thread_local_base::{LocalError, ThreadIdManager};

/// The least number that isn't in the set.
fn least_absent(held: &BTreeSet<usize>) -> usize {
    let mut least = 0usize;
    for id in held.iter() {
        if *id != least {
            return least;
        }
        least = least.saturating_add(1);
    }
    least
}

/// The n-th number of the set, counted from the least on and around.
fn nth_of(held: &BTreeSet<usize>, n: u64) -> Option<usize> {
    let count = held.len() as u64;
    if count == 0 {
        return None;
    }
    held.iter().nth((n % count) as usize).copied()
}

/// Gives back the held id that a number draws, if there is one and the number asks for it, or else
/// takes an id. Of four numbers so many ask for a take. Answers the id where that went wrong: where it
/// wasn't held until it was given back, or wasn't the least that wasn't held.
fn make_move(
    manager: &mut ThreadIdManager,
    held: &mut BTreeSet<usize>,
    draw: u64,
    takes: u64,
) -> Result<Option<usize>, LocalError> {
    let given = if draw % 4 < takes {
        None
    } else {
        nth_of(held, draw / 4)
    };
    match given {
        Some(id) => {
            held.remove(&id);
            let is_right = give(manager, id) && !manager.is_held(id);
            Ok(if is_right { None } else { Some(id) })
        }
        None => {
            let least = least_absent(held);
            let id = take_at_hand(manager)?;
            held.insert(id)?;
            Ok(if id == least { None } else { Some(id) })
        }
    }
}

/// Each move draws a number, by one multiplication and one addition. Of 5000 moves three of four
/// among the first 2500 take an id, and one of four among the others, so the held ids come to fill
/// some twenty words and leave them again, twice.
#[test]
fn ten_thousand_moves_give_the_least_ids(rt: HostRuntime) -> Result<(), Fail> {
    let mut manager = ThreadIdManager::new(rt.alloc());
    let mut held = BTreeSet::new(rt.alloc());
    let mut most = 0usize;
    let mut state = 1u64;
    for turn in 0..10_000u64 {
        state = state
            .wrapping_mul(6364136223846793005)
            .wrapping_add(1442695040888963407);
        let takes = if turn % 5000 < 2500 { 3 } else { 1 };
        let wrong = make_move(&mut manager, &mut held, state >> 33, takes)?;
        assert_eq!(rt; wrong, None, "move {turn}");
        most = most.max(held.len());
    }
    assert!(rt;
        1000 < most && held.len() < 200,
        "{most} and {}",
        held.len()
    );
    Ok(())
}
