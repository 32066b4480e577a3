//! Seeds that stay with ids: a job that ends leaves its seed in its id's slot, and the next job with
//! that id goes on with it. Nothing is passed on but a page, which has no bytes.
ghost use Rattle.std.specs.Prelude.{◌≡◌, ℕ, Some, IfOk, IsSome};
ghost use Rattle.thread_local.specs.Locals.{IsSameLocal};
ghost use Rattle.thread_local.specs.Sharings.{IsFirst};

use std::sync::Wait;
use thread_local::ThreadLocal;
use thread_local::local::Local;
use thread_local::thread_id::LocalError;

/// Ends a job, and begins the next one. With the same id that has the seed of the job that ended,
/// and with another id it has a seed of an earlier job, or this fresh one.
pub fn relay<'a, R: Wait>(
    seeds: &'a ThreadLocal<u64>,
    rt: &'a R,
    ended: Local<'_, u64, R>,
    fresh: u64,
) -> Result<Local<'a, u64, R>, LocalError>
    requires table { (ended.table ≡ seeds.now.table) × (ended.sharing ≡ seeds.now.sharing) }
    requires first { IsFirst seeds.now.sharing seeds.now.table }
    ensures seeded { IfOk result (λ next. IsSome next.value) }
    ensures same_seed { IfOk result (λ next.
        (seed : ℕ)
        → ended.entry.value ≡ Some seed
        → next.id ≡ ended.entry.id
        → next.value ≡ Some seed) }
{
    let mut page = ended.give_back();
    let mut next = seeds.local_after(rt, &mut page)?;
    seed(&mut next, fresh)?;
    Ok(next)
}

/// Gives a job this seed, unless it has one.
fn seed<R: Wait>(job: &mut Local<'_, u64, R>, fresh: u64) -> Result<(), LocalError>
    ensures seeded { IfOk result (λ _. IsSome job.new.value) }
    ensures kept { (seed : ℕ) → job.old.value ≡ Some seed → job.new.value ≡ Some seed }
    ensures same { IsSameLocal job.old job.new }
{
    job.get_or(|| fresh)?;
    Ok(())
}

#[cfg(test)]
mod tests {
    use super::*;

    /// The id and the seed of a job.
    fn told<R: Wait>(job: &Local<'_, u64, R>) -> (usize, Option<u64>) {
        (job.id(), job.get().copied())
    }

    /// A first job begins with the seed 7. Answers the ids and seeds of the next one, with which it
    /// is alone, and of one that begins once another job has the least id.
    fn two_relays<R: Wait>(
        seeds: &ThreadLocal<u64>,
        rt: &R,
    ) -> Option<((usize, Option<u64>), (usize, Option<u64>))>
        requires first { IsFirst seeds.now.sharing seeds.now.table }
    {
        let mut first = seeds.local(rt).ok()?;
        seed(&mut first, 7).ok()?;
        let second = relay(seeds, rt, first, 8).ok()?;
        let of_second = told(&second);
        let beside = seeds.local(rt).ok()?;
        let third = relay(seeds, rt, beside, 9).ok()?;
        Some((of_second, told(&third)))
    }

    #[test]
    fn the_next_job_with_an_id_has_its_seed(rt: HostRuntime) {
        let seeds = ThreadLocal::new(rt.alloc());
        assert!(rt; two_relays(&seeds, &rt) == Some(((0, Some(7)), (1, Some(9)))));
    }
}
