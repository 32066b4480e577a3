//! A connection for each worker, where making one may fail: a worker tries a few times. The `Local`s
//! are taken before the threads start, and handed to them. So they are held at once, and no worker
//! finds the connection of one that ended: a value belongs to a `Local`, not to a thread.
use std::sync::Wait;
use std::sync::atomic::{AtomicU64, Ordering};
use thread_local::local::{Local, TryError};

/// How often a worker asks for its connection.
pub const ATTEMPTS: usize = 3;

/// The server had no time.
#[derive(Clone, Copy, PartialEq, Debug)]
pub struct Busy;

/// A connection, numbered by how often its server was asked before.
#[derive(Drop)]
pub struct Connection {
    number: u64,
}

/// A server that is busy at first.
#[derive(Drop)]
pub struct Server {
    asked: AtomicU64,
    busy: u64,
}

impl Server {
    /// A server that refuses so many times, and then accepts.
    pub fn new(busy: u64) -> Server {
        Server {
            asked: AtomicU64::new(0),
            busy,
        }
    }

    /// Asks the server for a connection.
    pub fn accept(&self) -> Result<Connection, Busy> {
        let number = self.asked.fetch_add(1, Ordering::SeqCst);
        if number < self.busy {
            return Err(Busy);
        }
        Ok(Connection { number })
    }
}

/// The connection of this `Local`, which is made where it has none. `try_fill` lends nothing, so the
/// loop has the `Local` again each time. `get_or_try` lends the connection, or tries a last time.
pub fn connect<'a, R: Wait>(
    local: &'a mut Local<'_, Connection, R>,
    server: &Server,
) -> Result<&'a Connection, TryError<Busy>> {
    for _ in 1..ATTEMPTS {
        if local.try_fill(|| server.accept()).is_ok() {
            break;
        }
    }
    local.get_or_try(|| server.accept())
}

/// A worker with a `Local` that was handed to it. Answers the number of its connection.
pub fn work<R: Wait>(
    mut local: Local<'_, Connection, R>,
    server: &Server,
) -> Result<u64, TryError<Busy>> {
    Ok(connect(&mut local, server)?.number)
}

#[cfg(test)]
mod tests {
    use super::*;
    use std::thread;
    use std::thread::Threads;
    use thread_local::ThreadLocal;

    /// The numbers of two workers' connections, added up.
    fn work_in_two<R: Threads + Wait + Sync>(
        connections: &ThreadLocal<Connection>,
        rt: &R,
        server: &Server,
    ) -> Option<u64> {
        let first = connections.local(rt).ok()?;
        let second = connections.local(rt).ok()?;
        let (first, second) = thread::join(
            rt,
            move || work(first, server).ok(),
            move || work(second, server).ok(),
        );
        first?.checked_add(second?)
    }

    #[test]
    fn two_workers_have_two_connections(rt: HostRuntime) {
        let server = Server::new(2);
        let connections = ThreadLocal::new(rt.alloc());
        let numbers = work_in_two(&connections, &rt, &server);
        // Two attempts were refused, so the connections are 2 and 3.
        let asked = server.asked.load(Ordering::SeqCst);
        assert!(rt; (numbers, asked, connections.into_iter().len()) == (Some(5), 4, 2));
    }
}
