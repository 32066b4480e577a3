//! A number that is published, and read through the table once its `Local` is gone.
ghost use Rattle.std.specs.Prelude.{◌≡◌, IfSome, IsSome};

use std::sync::Wait;
use thread_local::ThreadLocal;

/// Publishes a number where an id's slot is empty, and lends it for as long as the table is lent,
/// whatever other threads do. None: no id or no memory was left, or the slot held a number.
pub fn post<'a, R: Wait>(table: &'a ThreadLocal<u64>, runtime: &R, number: u64) -> Option<&'a u64>
    requires named { IsSome table.now.sharing }
    ensures posted { IfSome result (λ it. it.now ≡ number) }
{
    let mut local = table.local(runtime).ok()?;
    let token = local.publish(number).ok()?;
    Some(table.value(&token))
}

#[cfg(test)]
mod tests {
    use super::*;

    #[test]
    fn a_number_is_read_where_it_was_posted(rt: HostRuntime) {
        let table = ThreadLocal::new(rt.alloc());
        let first = post(&table, &rt, 7).copied();
        // The id is free again, and its slot holds the number.
        let second = post(&table, &rt, 8).copied();
        assert!(rt; (first, second) == (Some(7), None));
    }
}
