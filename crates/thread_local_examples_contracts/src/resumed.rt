//! Work that another thread goes on with: a worker publishes how far it came and ends, and whoever
//! takes its id next reads it there.
ghost use Rattle.std.specs.Prelude.{◌≡◌, IfOk, IfSome, IsSome};
ghost use Rattle.thread_local.specs.Held.{least};
ghost use Rattle.thread_local.specs.IdMoves.{Take, held_after, noted};
ghost use mathlib.Core.List.{IsPrefix};

use std::sync::Wait;
use thread_local::ThreadLocal;
use thread_local::local::Local;
use thread_local::table::Token;
use thread_local::thread_id::LocalError;

/// Publishes how far a worker came, unless an earlier holder of its id has published, and ends.
pub fn begin<R: Wait>(steps: &ThreadLocal<u64>, rt: &R, step: u64) -> Result<Token<u64>, LocalError>
    ensures { IfOk result (λ token. token.sharing ≡ steps.now.sharing) }
{
    let mut local = steps.local(rt)?;
    if local.get().is_none() {
        local.get_or(|| step)?;
    }
    match local.token() {
        Some(token) => Ok(token),
        None => unreachable!(),
    }
}

/// How far the worker of a token came, for whoever has its id now, or None with another id.
pub fn resume<R: Wait>(
    steps: &ThreadLocal<u64>,
    rt: &R,
    begun: &Token<u64>,
) -> Result<Option<u64>, LocalError>
    requires sharing { begun.now.sharing ≡ steps.now.sharing }
    requires named { IsSome steps.now.sharing }
    ensures { IfOk result (λ found. IfSome found (λ step. step ≡ begun.now.value)) }
{
    let mut local = steps.local(rt)?;
    if local.id() != begun.id() {
        return Ok(None);
    }
    local.agrees(begun);
    Ok(local.get().copied())
}

/// Ends a worker, and begins the next one with the least id that is free then. The clauses say that
/// it began after the worker that ended; at run time it has that one's id or a lower one, unless
/// another worker took it in between.
pub fn relieve<'a, R: Wait>(
    steps: &'a ThreadLocal<u64>,
    rt: &'a R,
    ended: Local<'_, u64, R>,
) -> Result<Local<'a, u64, R>, LocalError>
    requires { ended.table ≡ steps.now.table }
    ensures least { IfOk result (λ next. next.id ≡ least (held_after next.before)) }
    ensures later { IfOk result (λ next. IsPrefix (noted ended.entry.before Take) next.before) }
{
    let mut page = ended.give_back();
    steps.local_after(rt, &mut page)
}

#[cfg(test)]
mod tests {
    use super::*;
    use std::thread;

    /// What a worker resumes that takes another id while the first is held, and what the first has.
    fn resume_beside<R: Wait>(
        steps: &ThreadLocal<u64>,
        rt: &R,
        begun: &Token<u64>,
    ) -> Option<(Option<u64>, Option<u64>)>
        requires sharing { begun.now.sharing ≡ steps.now.sharing }
        requires named { IsSome steps.now.sharing }
    {
        let first = steps.local(rt).ok()?;
        let other = resume(steps, rt, begun).ok()?;
        Some((other, first.get().copied()))
    }

    #[test]
    fn another_thread_goes_on(rt: HostRuntime) {
        let steps = ThreadLocal::new(rt.alloc());
        let (begun, ()) = thread::join(&rt, || begin(&steps, &rt, 41), || {});
        let begun = begun.expect(&rt, "memory and an id");
        let (resumed, ()) = thread::join(&rt, || resume(&steps, &rt, &begun).ok(), || {});
        let beside = resume_beside(&steps, &rt, &begun);
        assert!(rt; (resumed, beside) == (Some(Some(41)), Some((None, Some(41)))));
    }

    /// Of two workers the first is relieved. Answers the ids of the second and of the next.
    fn relieve_first<R: Wait>(steps: &ThreadLocal<u64>, rt: &R) -> Option<(usize, usize)> {
        let first = steps.local(rt).ok()?;
        let second = steps.local(rt).ok()?;
        let next = relieve(steps, rt, first).ok()?;
        Some((second.id(), next.id()))
    }

    #[test]
    fn the_next_worker_has_the_id(rt: HostRuntime) {
        let steps = ThreadLocal::new(rt.alloc());
        assert!(rt; relieve_first(&steps, &rt) == Some((1, 0)));
    }
}
