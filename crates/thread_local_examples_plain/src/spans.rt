//! Span stacks: each thread keeps the spans that it is in on a stack of its own, and after a round
//! of work the owner looks over all stacks.
use std::alloc::Global;
use std::cell::RefCell;
use std::default::MadeWith;
use std::sync::Wait;
use thread_local::ThreadLocal;
use thread_local::local::Local;

/// The names of the spans that a thread is in, the innermost last.
pub type Stack = RefCell<Vec<&'static str>>;

/// A table of stacks.
pub fn stacks(alloc: Global) -> ThreadLocal<Stack> {
    ThreadLocal::made_with(alloc)
}

/// Enters a span. False means out of memory, and the thread is in no further span then.
pub fn enter<R: Wait>(local: &mut Local<'_, Stack, R>, alloc: Global, span: &'static str) -> bool {
    let Ok(stack) = local.get_or(|| RefCell::new(Vec::new(alloc))) else {
        return false;
    };
    let Ok(mut spans) = stack.try_borrow_mut() else {
        return false;
    };
    spans.push(span).is_ok()
}

/// Leaves the innermost span.
pub fn leave<R: Wait>(local: &Local<'_, Stack, R>) -> Option<&'static str> {
    local.get()?.try_borrow_mut().ok()?.pop()
}

/// Leaves all spans of all threads, between two rounds of work, and answers how many they were.
pub fn leave_all(stacks: &mut ThreadLocal<Stack>) -> usize {
    let mut left = 0usize;
    for stack in stacks.iter_mut() {
        let spans = stack.get_mut();
        left = left.wrapping_add(spans.len());
        spans.clear();
    }
    left
}

#[cfg(test)]
mod tests {
    use super::*;
    use std::thread;

    /// Enters the spans, and leaves one. It keeps its `Local` for the whole round.
    fn work<R: Wait>(
        table: &ThreadLocal<Stack>,
        rt: &R,
        alloc: Global,
        spans: &[&'static str],
    ) -> Option<&'static str> {
        let mut local = table.local(rt).ok()?;
        for span in spans {
            if !enter(&mut local, alloc, *span) {
                return None;
            }
        }
        leave(&local)
    }

    #[test]
    fn spans_that_are_left_open_are_found(rt: HostRuntime) {
        let alloc = rt.alloc();
        let mut table = stacks(alloc);
        let innermost = thread::join(
            &rt,
            || work(&table, &rt, alloc, &["serve", "read", "parse"]),
            || work(&table, &rt, alloc, &["serve", "write"]),
        );
        let open = (leave_all(&mut table), leave_all(&mut table));
        assert!(rt; (innermost, open) == ((Some("parse"), Some("write")), (3, 0)));
    }
}
