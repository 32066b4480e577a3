//! A cache: a worker finds the matcher of its id, or makes one, which is expensive. Whoever made it,
//! it is of the cache's pattern. That is a rule of its type: the ghost field states it, and each later
//! holder, walk and owner of the table finds it kept.
ghost use Rattle.std.specs.Prelude.{◌≡◌, IfOk, eqb};
ghost use Rattle.std.specs.List.{list_any};
ghost use Rattle.thread_local_examples_contracts.specs.declared.cache.TheConstants.{PATTERN};

use std::alloc::{AllocError, Global};
use std::sync::Wait;
use std::sync::atomic::{AtomicU64, Ordering};
use thread_local::ThreadLocal;
use thread_local::local::Local;
use thread_local::table::judge_sync;

/// The pattern: texts that have this byte.
pub const PATTERN: u8 = b',';

/// Finds out which texts are of the pattern.
#[derive(Drop)]
pub struct Matcher {
    looks_for: u8,
    ghost of_the_pattern: { looks_for ≡ PATTERN },
}

impl Matcher {
    /// A matcher, at a cost that `compiled` counts.
    pub fn compile(compiled: &AtomicU64) -> Matcher {
        compiled.fetch_add(1, Ordering::Relaxed);
        Matcher { looks_for: PATTERN }
    }

    /// Whether a text is of the pattern.
    pub fn matches(&self, text: &[u8]) -> bool
        ensures { result ≡ list_any (λ byte. eqb byte PATTERN) text.now }
    {
        text.contains(&self.looks_for)
    }
}

/// A table of matchers. Threads may share a matcher: `judge_sync` shows it, as `new` asks.
pub fn matchers(alloc: Global) -> ThreadLocal<Matcher> {
    judge_sync::<Matcher>();
    ThreadLocal::new(alloc)
}

/// Whether a text is of the pattern, by the matcher of a worker that keeps its `Local` for all texts.
/// The answer doesn't depend on who made the matcher.
pub fn matches<R: Wait>(
    local: &mut Local<'_, Matcher, R>,
    text: &[u8],
    compiled: &AtomicU64,
) -> Result<bool, AllocError>
    ensures { IfOk result (λ found. found ≡ list_any (λ byte. eqb byte PATTERN) text.now) }
{
    Ok(local.get_or(|| Matcher::compile(compiled))?.matches(text))
}

#[cfg(test)]
mod tests {
    use super::*;
    use std::thread;
    use thread_local::thread_id::LocalError;

    /// How many of the texts have a comma.
    fn with_comma<R: Wait>(
        matchers: &ThreadLocal<Matcher>,
        rt: &R,
        texts: &[&str],
        compiled: &AtomicU64,
    ) -> Result<u64, LocalError> {
        let mut local = matchers.local(rt)?;
        let mut found = 0u64;
        for text in texts {
            if matches(&mut local, text.as_bytes(), compiled)? {
                found = found.wrapping_add(1);
            }
        }
        Ok(found)
    }

    #[test]
    fn two_threads_compile_at_most_two_matchers(rt: HostRuntime) {
        let matchers = matchers(rt.alloc());
        let compiled = AtomicU64::new(0);
        for _ in 0..100 {
            let found = thread::join(
                &rt,
                || with_comma(&matchers, &rt, &["a,b", "ab", ","], &compiled),
                || with_comma(&matchers, &rt, &["", "one, two"], &compiled),
            );
            assert!(rt; found == (Ok(2), Ok(1)));
        }
        assert!(rt; (1..=2).contains(&compiled.load(Ordering::Relaxed)));
    }
}
