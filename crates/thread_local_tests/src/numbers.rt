//! `Local`s that publish numbers.

use std::alloc::Global;
use std::sync::Wait;
use thread_local::ThreadLocal;
use thread_local::local::Local;

/// Publishes a number. Answers whether the slot holds it then.
pub fn publishes<R: Wait>(local: &mut Local<'_, u32, R>, number: u32) -> bool {
    local.get_or(|| number) == Ok(&number)
}

/// `Local`s that are held at once publish 1, 2 and so on, up to a number. Answers whether none was
/// refused.
pub fn publish_held<R: Wait>(table: &ThreadLocal<u32>, rt: &R, alloc: Global, last: u32) -> bool {
    let mut locals = Vec::new(alloc);
    for number in 0..last {
        let Ok(mut local) = table.local(rt) else {
            return false;
        };
        if !publishes(&mut local, number.wrapping_add(1)) || locals.push(local).is_err() {
            return false;
        }
    }
    true
}
