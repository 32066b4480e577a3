//! A snapshot of a registry, while others publish more: what was told of by tokens is in it.
ghost use Rattle.std.specs.Prelude.{◌≡◌, ◌<◌, Contains, IfOk, IsSome};
ghost use Rattle.std.specs.List.{AllPairs};
ghost use Rattle.thread_local.specs.TokenLists.{AllOf};

use std::alloc::{AllocError, Global};
use std::sync::Wait;
use thread_local::iter::entries_give_told;
use thread_local::local::Local;
use thread_local::table::{Token, Told};

/// What all have published by now, with their ids. The value of each token of the list is in it, at
/// the token's id, and no id comes twice. `Err` means out of memory for the list.
pub fn snapshot<R: Wait>(
    local: &Local<'_, u32, R>,
    told: Told<u32>,
    alloc: Global,
) -> Result<Vec<(usize, u32)>, AllocError>
    ensures ascending { IfOk result (λ given. AllPairs (λ one other. one.0 < other.0) given.items) }
    ensures all { IfOk result (λ given.
        AllOf
        local.now.sharing
        (λ p. Contains given.items (p.id, p.value))
        told) }
{
    // What a walk with ids gives that runs to its end.
    entries_give_told::<u32>();
    let mut given = Vec::new(alloc);
    for (id, value) in local.iter_told(told).with_ids() {
        given.push((id, *value))?;
    }
    Ok(given)
}

/// A snapshot that has what another thread told of.
pub fn snapshot_with<R: Wait>(
    local: &Local<'_, u32, R>,
    other: &Token<u32>,
    alloc: Global,
) -> Result<Vec<(usize, u32)>, AllocError>
    requires sharing { other.now.sharing ≡ local.now.sharing }
    requires named { IsSome local.now.sharing }
    ensures { IfOk result (λ given. Contains given.items (other.now.id, other.now.value)) }
{
    snapshot(local, Told::new().and(other), alloc)
}

#[cfg(test)]
mod tests {
    use super::snapshot_with;
    use std::alloc::Global;
    use std::sync::Wait;
    use thread_local::ThreadLocal;

    // Whether a snapshot has both values and no more, where two `Local`s published 6 and 7.
    fn has_both<R: Wait>(table: &ThreadLocal<u32>, rt: &R, alloc: Global) -> Option<bool>
        requires named { IsSome table.now.sharing }
    {
        let mut one = table.local(rt).ok()?;
        let mut other = table.local(rt).ok()?;
        one.set(6).ok()?;
        let told = other.publish(7).ok()?;
        let given = snapshot_with(&one, &told, alloc).ok()?;
        Some(given.as_slice() == [(0, 6), (1, 7)].as_slice())
    }

    #[test]
    fn a_snapshot_has_what_was_told(rt: HostRuntime) {
        let table = ThreadLocal::new(rt.alloc());
        assert!(rt; has_both(&table, &rt, rt.alloc()) == Some(true));
    }
}
