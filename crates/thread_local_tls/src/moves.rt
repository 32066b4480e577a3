//! The moves of `tls ids`, which take an id or give one back, and how they run.
ghost use Rattle.std.specs.Prelude.{◌≡◌, [], IfOk, IsErrOf};
ghost use Rattle.thread_local_tls.specs.Moves.{ids_given, MayRun, GivesWhatIsNotHeld, RunsOutOfIds};

use std::alloc::{AllocError, Global};
use thread_local_base::{LocalError, ThreadIdManager};

/// A step of `tls ids`.
#[derive(Clone, Copy)]
pub enum Move {
    /// Take the least id that isn't held.
    Take,
    /// Give this id back.
    Give(usize),
}

/// Why a list of moves was not run to its end.
#[derive(Clone, Copy)]
pub enum IdsError {
    /// No id was left, or out of memory, for the ids or the answer.
    Local(LocalError),
    /// An id was given back that isn't held.
    NotHeld,
}

impl From<LocalError> for IdsError {
    ghost use Rattle.std.specs.Prelude.{◌≡◌};
    ghost use Rattle.thread_local_tls.specs.declared.moves.IdsError.TheVariants.{Local};

    ghost from_gives = { λ error e. e ≡ Local error };

    fn from(error: LocalError) -> IdsError {
        IdsError::Local(error)
    }
}

/// Runs the moves in order, at first with no id held, and answers the ids that were taken. It never
/// waits. It takes memory for the manager and the answer: `Local(Memory(..))` means out of memory.
pub fn ids(alloc: Global, moves: &[Move]) -> Result<Vec<usize>, IdsError>
    ensures ok { IfOk result (λ ids. (ids.items ≡ ids_given [] moves.now) × MayRun [] moves.now) }
    ensures not_held { IsErrOf result IdsError.NotHeld → GivesWhatIsNotHeld moves.now }
    ensures exhausted { IsErrOf result (IdsError.Local LocalError.Exhausted) → RunsOutOfIds moves.now }
{
    let mut manager = ThreadIdManager::new(alloc);
    let mut ids = Vec::new(alloc);
    for step in moves {
        match *step {
            Move::Take => {
                let id = manager.alloc()?;
                if ids.push(id).is_err() {
                    return Err(IdsError::Local(LocalError::Memory(AllocError)));
                }
            }
            Move::Give(id) => {
                if !manager.is_held(id) {
                    return Err(IdsError::NotHeld);
                }
                manager.free(id);
            }
        }
    }
    Ok(ids)
}
