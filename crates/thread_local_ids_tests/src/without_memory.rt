//! Ids where no memory is left.

use crate::same::assert_same;
use std::alloc::{AllocError, Global};
use std::test::Fail;
use thread_local_base::ThreadIdManager;
use thread_local_test_helpers::memory::take_all;

/// How many ids a manager gives without memory, each the least, of as many as are asked for.
fn count_given(
    manager: &mut ThreadIdManager,
    alloc: Global,
    asked: usize,
) -> Result<usize, AllocError> {
    let taken = take_all(alloc)?;
    let mut count = 0usize;
    for id in 0..asked {
        if manager.alloc() != Ok(id) {
            break;
        }
        count = count.saturating_add(1);
    }
    drop(taken);
    Ok(count)
}

// There is room for no word, for one, two and three whole words, and there may be more.
#[test]
fn room_for_ids_is_made_in_whole_words(rt: HostRuntime) -> Result<(), Fail> {
    for (room, asked, given) in [(0, 1, 0), (3, 64, 64), (65, 128, 128), (129, 192, 192)] {
        let mut manager = ThreadIdManager::with_room(rt.alloc(), room)?;
        assert_same(&rt, count_given(&mut manager, rt.alloc(), asked)?, given);
    }
    Ok(())
}
