//! A pool of matchers: a matcher is expensive to make, and writes to its own room while it matches,
//! so threads use one after another, each alone.
use std::alloc::{AllocError, Global};
use std::sync::Wait;
use std::sync::atomic::{AtomicU64, Ordering};
use thread_local::thread_id::LocalError;
use thread_local_pool::{Pool, Pooled};

/// Finds a set of bytes in texts, and notes where. The room for its notes stays from text to text.
#[derive(Drop)]
pub struct Matcher {
    is_in: [bool; 256],
    found: Vec<usize>,
}

impl Matcher {
    /// Compiles a set, and counts the compilation.
    pub fn compile(bytes: &[u8], alloc: Global, compiled: &AtomicU64) -> Matcher {
        compiled.fetch_add(1, Ordering::Relaxed);
        let mut is_in = [false; 256];
        for byte in bytes {
            is_in[*byte as usize] = true;
        }
        Matcher {
            is_in,
            found: Vec::new(alloc),
        }
    }

    /// Where the bytes of the set are in a text.
    pub fn find(&mut self, text: &[u8]) -> Result<&[usize], AllocError> {
        self.found.clear();
        for (place, byte) in text.iter().enumerate() {
            if self.is_in[*byte as usize] {
                self.found.push(place)?;
            }
        }
        Ok(self.found.as_slice())
    }
}

/// A worker that keeps its matcher from line to line. It goes to the pool only to take it and to put
/// it back, so a worker that lives long is as fast as one that owns its matcher.
#[derive(Drop)]
pub struct Worker<'a, R: Wait> {
    matcher: Pooled<'a, Matcher, R>,
}

impl<'a, R: Wait> Worker<'a, R> {
    /// A worker. A matcher is compiled only where as many are in use at once as never before.
    pub fn new(
        matchers: &'a Pool<Matcher>,
        rt: &'a R,
        alloc: Global,
        compiled: &AtomicU64,
    ) -> Result<Worker<'a, R>, LocalError> {
        let matcher = matchers.get(rt, || Matcher::compile(b"aeiou", alloc, compiled))?;
        Ok(Worker { matcher })
    }

    /// Where the last vowel of a line is, or 0 where it has none.
    pub fn last_vowel(&mut self, line: &str) -> Result<usize, AllocError> {
        let found = self.matcher.find(line.as_bytes())?;
        Ok(found.last().copied().unwrap_or(0))
    }
}

#[cfg(test)]
mod tests {
    use super::*;
    use std::thread;

    /// Where the last vowel of each line is, the places added up.
    fn last_vowels<R: Wait>(
        matchers: &Pool<Matcher>,
        rt: &R,
        alloc: Global,
        lines: &[&str],
        compiled: &AtomicU64,
    ) -> Result<usize, LocalError> {
        let mut worker = Worker::new(matchers, rt, alloc, compiled)?;
        let mut places = 0usize;
        for line in lines {
            places = places.wrapping_add(worker.last_vowel(line)?);
        }
        Ok(places)
    }

    #[test]
    fn two_threads_compile_at_most_two_matchers(rt: HostRuntime) {
        let alloc = rt.alloc();
        let matchers = Pool::new(alloc);
        let compiled = AtomicU64::new(0);
        for _ in 0..100 {
            let found = thread::join(
                &rt,
                || last_vowels(&matchers, &rt, alloc, &["one", "two"], &compiled),
                || last_vowels(&matchers, &rt, alloc, &["three", "four", "xyz"], &compiled),
            );
            assert!(rt; found == (Ok(4), Ok(6)));
        }
        assert!(rt; (1..=2).contains(&compiled.load(Ordering::Relaxed)));
    }
}
