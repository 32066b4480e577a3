//! Ten thousand moves on a table, made by a rule of whole numbers, beside a set of the ids held and
//! a map of the values by id.

use std::alloc::Global;
use std::collections::{BTreeMap, BTreeSet};
use std::sync::Wait;
use thread_local::ThreadLocal;
use thread_local::local::Local;

/// How many `Local`s are held at once at most.
const MOST_HELD: usize = 40;

/// What a table should be: which ids are held, and which values stand. Beside it, where the rule
/// is.
#[derive(Drop)]
struct Expected {
    held: BTreeSet<usize>,
    values: BTreeMap<usize, u64>,
    /// The last number of the rule.
    number: u64,
    /// How many values were used.
    used: u64,
}

impl Expected {
    fn new(alloc: Global) -> Expected {
        Expected {
            held: BTreeSet::new(alloc),
            values: BTreeMap::new(alloc),
            number: 0,
            used: 0,
        }
    }

    /// The rule: the upper half of the next number.
    fn next_number(&mut self) -> usize {
        self.number = self
            .number
            .wrapping_mul(6364136223846793005)
            .wrapping_add(1442695040888963407);
        (self.number >> 32) as usize
    }

    /// The least id that isn't held.
    fn least(&self) -> usize {
        for id in 0..MOST_HELD {
            if !self.held.contains(&id) {
                return id;
            }
        }
        MOST_HELD
    }

    /// A number that wasn't used before, and the value that stands at an id once it was asked for with
    /// that number.
    fn asked(&mut self, id: usize) -> Option<(u64, u64)> {
        let number = self.used;
        self.used = self.used.wrapping_add(1);
        if let Some(standing) = self.values.get(&id) {
            return Some((number, *standing));
        }
        self.values.insert(id, number).ok()?;
        Some((number, number))
    }

    /// The slots of the buckets in which a value stands.
    fn slots(&self) -> usize {
        let mut slots = 0usize;
        for size in [1usize, 2, 4, 8, 16, 32] {
            let ids = size - 1..size * 2 - 1;
            if self.values.iter().any(|(id, _)| ids.contains(id)) {
                slots = slots.wrapping_add(size);
            }
        }
        slots
    }
}

/// The `Local`s that are held, each beside its id.
#[derive(Drop)]
struct Held<'a, R: Wait> {
    ids: Vec<usize>,
    locals: Vec<Local<'a, u64, R>>,
}

/// Takes the least id not held. Answers whether its `get` is the value that stands there.
fn take<'a, R: Wait>(
    rt: &'a R,
    table: &'a ThreadLocal<u64>,
    expected: &mut Expected,
    held: &mut Held<'a, R>,
) -> Option<bool> {
    let id = expected.least();
    let Ok(local) = table.local(rt) else {
        return None;
    };
    let found = local.get() == expected.values.get(&id);
    expected.held.insert(id).ok()?;
    held.ids.push(id).ok()?;
    held.locals.push(local).ok()?;
    Some(found)
}

/// Asks a `Local` for its value, with a number that wasn't used before. Answers whether it is the
/// value that stands there.
fn publish<R: Wait>(
    expected: &mut Expected,
    id: usize,
    local: &mut Local<'_, u64, R>,
) -> Option<bool> {
    let (number, standing) = expected.asked(id)?;
    Some(local.get_or(|| number) == Ok(&standing))
}

/// One move. Answers whether the table did what was expected.
fn step<'a, R: Wait>(
    rt: &'a R,
    table: &'a ThreadLocal<u64>,
    expected: &mut Expected,
    held: &mut Held<'a, R>,
) -> Option<bool> {
    let count = held.locals.len();
    let number = expected.next_number();
    if count == 0 || count < MOST_HELD && number % 8 < 3 {
        return take(rt, table, expected, held);
    }
    let index = number / 8 % count;
    if number % 8 < 5 {
        if index < held.ids.len() {
            expected.held.remove(&held.ids.swap_remove(index));
        }
        held.locals.swap_remove(index);
        return Some(true);
    }
    match (held.ids.get(index), held.locals.get_mut(index)) {
        (Some(id), Some(local)) => publish(expected, *id, local),
        _ => Some(false),
    }
}

/// Whether a shared walk gives the values that stand, by ascending id.
fn is_walked(table: &ThreadLocal<u64>, expected: &Expected) -> bool {
    let mut found = table.iter();
    for (_, value) in &expected.values {
        if found.next() != Some(value) {
            return false;
        }
    }
    found.next().is_none()
}

/// A thousand moves on a table, with a walk after each hundred. Answers whether all was as
/// expected.
fn thousand<R: Wait>(
    alloc: Global,
    rt: &R,
    table: &ThreadLocal<u64>,
    expected: &mut Expected,
) -> Option<bool> {
    let mut held = Held {
        ids: Vec::new(alloc),
        locals: Vec::new(alloc),
    };
    for _ in 0..10 {
        for _ in 0..100 {
            if !step(rt, table, expected, &mut held)? {
                return Some(false);
            }
        }
        if !is_walked(table, expected) {
            return Some(false);
        }
    }
    Some(true)
}

/// Whether an owner's walk knows how many values stand, and gives them by ascending id.
fn is_lent(table: &mut ThreadLocal<u64>, expected: &Expected) -> bool {
    let mut found = table.iter_mut();
    if found.len() != expected.values.len() {
        return false;
    }
    for (_, value) in &expected.values {
        if found.next().map(|there| *there) != Some(*value) {
            return false;
        }
    }
    found.next().is_none()
}

/// A thousand moves on a table without values, which the owner walks over and clears then. Answers
/// whether all was as expected.
fn round<R: Wait>(
    alloc: Global,
    rt: &R,
    table: &mut ThreadLocal<u64>,
    expected: &mut Expected,
) -> bool {
    let moved = thousand(alloc, rt, table, expected) == Some(true);
    let lent = is_lent(table, expected);
    let as_many_slots = table.slots() == expected.slots();
    table.clear();
    expected.held.clear();
    expected.values.clear();
    moved && lent && as_many_slots
}

#[test]
fn moves_made_by_a_rule_leave_what_a_set_and_a_map_say(rt: HostRuntime) {
    let mut table = ThreadLocal::<u64>::new(rt.alloc());
    let mut expected = Expected::new(rt.alloc());
    for _ in 0..10 {
        assert!(rt; round(rt.alloc(), &rt, &mut table, &mut expected));
    }
}
