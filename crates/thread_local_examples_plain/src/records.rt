//! Records that never change: each worker publishes its own once, and a status report lists all that
//! have come by then, while more come. In `registry.rt` the values are lists that grow.
use std::alloc::{AllocError, Global};
use std::sync::Wait;
use thread_local::ThreadLocal;
use thread_local::local::Local;
use thread_local::table::judge_sync;

/// What a worker says of itself.
#[derive(Drop)]
pub struct Record {
    name: String,
    queue: u16,
}

impl Record {
    /// The record of a worker that serves a queue.
    pub fn new(alloc: Global, name: &str, queue: u16) -> Result<Record, AllocError> {
        Ok(Record {
            name: String::from_str(alloc, name)?,
            queue,
        })
    }
}

/// A table of no record. Threads may share a record: `judge_sync` shows it, as `new` asks.
pub fn records(alloc: Global) -> ThreadLocal<Record> {
    judge_sync::<Record>();
    ThreadLocal::new(alloc)
}

/// Publishes a worker's record. The worker keeps the `Local` while it works, so its id is its own.
/// None: no id or no memory was left, or an ended worker left its record at this id. It stays listed
/// until the owner drains the table.
pub fn announce<'a, R: Wait>(
    records: &'a ThreadLocal<Record>,
    rt: &'a R,
    record: Record,
) -> Option<Local<'a, Record, R>> {
    let mut local = records.local(rt).ok()?;
    local.set(record).ok()?;
    Some(local)
}

/// A line for each worker that has come, by ascending id.
pub fn report(records: &ThreadLocal<Record>, alloc: Global) -> Result<String, AllocError> {
    let mut report = String::new(alloc);
    for record in records.iter() {
        writeln!(report, "{} serves {}", record.name, record.queue)?;
    }
    Ok(report)
}

#[cfg(test)]
mod tests {
    use super::*;
    use std::thread;
    use std::thread::Threads;

    /// A worker that announces itself.
    fn come<'a, R: Wait>(
        records: &'a ThreadLocal<Record>,
        rt: &'a R,
        alloc: Global,
        name: &str,
        queue: u16,
    ) -> Option<Local<'a, Record, R>> {
        announce(records, rt, Record::new(alloc, name, queue).ok()?)
    }

    /// The report that is made while two workers come, and the one once both have come.
    fn reports<R: Threads + Wait + Sync>(
        records: &ThreadLocal<Record>,
        rt: &R,
        alloc: Global,
    ) -> Option<(String, String)> {
        let ((ada, bo), early) = thread::join(
            rt,
            || {
                thread::join(
                    rt,
                    || come(records, rt, alloc, "Ada", 7),
                    || come(records, rt, alloc, "Bo", 8),
                )
            },
            || report(records, alloc).ok(),
        );
        let (_ada, _bo) = (ada?, bo?);
        Some((early?, report(records, alloc).ok()?))
    }

    /// Whether the early report lists some of the workers, and the last one both.
    fn list_who_came(reports: &(String, String)) -> bool {
        let both = ["Ada serves 7\nBo serves 8\n", "Bo serves 8\nAda serves 7\n"];
        let some = ["", "Ada serves 7\n", "Bo serves 8\n", both[0], both[1]];
        some.contains(&reports.0.as_str()) && both.contains(&reports.1.as_str())
    }

    #[test]
    fn a_report_lists_who_came(rt: HostRuntime) {
        let records = records(rt.alloc());
        let reports = reports(&records, &rt, rt.alloc());
        assert!(rt; reports.is_some_and(|reports| list_who_came(&reports)));
    }
}
