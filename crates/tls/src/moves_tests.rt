//! The moves of `tls ids`.
ghost use Rattle.std.specs.Prelude.{◌≡◌, [], ◌∷◌, IfOk};

use std::alloc::Global;
use std::test::Fail;
use thread_local_tls::{IdsError, Move, ids};

#[test]
fn moves_run_in_order(rt: HostRuntime) -> Result<(), Fail> {
    let moves = [Move::Take, Move::Take, Move::Give(0), Move::Take];
    match ids(rt.alloc(), &moves) {
        Ok(given) => assert_eq!(rt; given.as_slice(), [0, 1, 0].as_slice()),
        Err(_) => assert!(rt; false, "the moves may be run"),
    }
    let stuck = [Move::Take, Move::Give(1), Move::Take];
    assert!(rt; matches!(ids(rt.alloc(), &stuck), Err(IdsError::NotHeld)));
    Ok(())
}

/// The ids that the moves of README's command line take, by the contract of `ids` alone.
fn ids_of_readme(alloc: Global) -> Result<Vec<usize>, IdsError>
    ensures { IfOk result (λ ids. ids.items ≡ 0 ∷ 1 ∷ 2 ∷ 0 ∷ 1 ∷ 3 ∷ []) }
{
    let moves = [
        Move::Take,
        Move::Take,
        Move::Take,
        Move::Give(1),
        Move::Give(0),
        Move::Take,
        Move::Take,
        Move::Take,
    ];
    ids(alloc, &moves)
}

#[test]
fn least_ids_come_again(rt: HostRuntime) -> Result<(), Fail> {
    match ids_of_readme(rt.alloc()) {
        Ok(given) => assert_eq!(rt; given.as_slice(), [0, 1, 2, 0, 1, 3].as_slice()),
        Err(_) => assert!(rt; false, "the moves may be run"),
    }
    Ok(())
}
