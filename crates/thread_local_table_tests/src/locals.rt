//! What single `Local`s of numbers find and publish, and what an owner's walk lends.

ghost use Rattle.std.specs.Prelude.{IsSome};

use std::alloc::Global;
use std::mem::forget;
use std::sync::Wait;
use thread_local::ThreadLocal;
use thread_local::local::Local;

/// A table of numbers.
pub fn numbers(alloc: Global) -> ThreadLocal<u32>
    ensures { IsSome result.sharing }
{
    ThreadLocal::new(alloc)
}

/// What a `Local` finds.
pub fn found<R: Wait>(local: &Local<'_, u32, R>) -> Option<u32> {
    local.get().copied()
}

/// Publishes a number. Answers what the slot holds then, or None where memory was refused.
pub fn published<R: Wait>(local: &mut Local<'_, u32, R>, number: u32) -> Option<u32> {
    local.get_or(|| number).ok().copied()
}

/// What a new `Local` finds.
pub fn found_by_another<R: Wait>(table: &ThreadLocal<u32>, rt: &R) -> Option<Option<u32>> {
    let local = table.local(rt).ok()?;
    Some(found(&local))
}

/// What a new `Local` finds, what it is told when it publishes a number, and what it finds then.
pub fn published_by_another<R: Wait>(
    table: &ThreadLocal<u32>,
    rt: &R,
    number: u32,
) -> Option<[Option<u32>; 3]> {
    let mut local = table.local(rt).ok()?;
    Some([found(&local), published(&mut local, number), found(&local)])
}

/// Whether an owner's walk gives these values and then none.
pub fn lends(table: &mut ThreadLocal<u32>, expected: &[u32]) -> bool {
    let mut values = table.iter_mut();
    for value in expected {
        if values.next().map(|there| *there) != Some(*value) {
            return false;
        }
    }
    values.next().is_none()
}

/// What the slot of a `Local` holds that publishes a number and is forgotten.
pub fn publish_and_forget<R: Wait>(table: &ThreadLocal<u32>, rt: &R, number: u32) -> Option<u32> {
    let mut local = table.local(rt).ok()?;
    let held = published(&mut local, number);
    forget(local);
    held
}
