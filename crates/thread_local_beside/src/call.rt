//! The calls of a script. A number is an id, a thread's number in the script, a capacity, or how
//! many items a walk gives.

/// A call with its numbers. What is published comes last.
#[derive(Clone, Copy)]
pub(crate) enum Call {
    Ids,
    Take,
    Give(usize),
    Table(Option<usize>),
    Insert(usize, u64),
    Get(usize),
    Slots,
    IterMut(usize),
    IntoIter(usize),
    Clear,
    Close,
    Local(usize),
    Look(usize),
    GetOr(usize, u64),
    Try(usize, u64),
    Fail(usize, u64),
    Leave(usize),
    Walk,
}

/// The call that a line spells.
pub(crate) fn parse(line: &str) -> Option<Call> {
    let mut words = line.split(' ');
    let name = words.next()?;
    let first: Option<usize> = words.next().and_then(|word| word.parse().ok());
    let second: Option<u64> = words.next().and_then(|word| word.parse().ok());
    match (name, first, second) {
        ("ids", _, _) => Some(Call::Ids),
        ("take", _, _) => Some(Call::Take),
        ("give", Some(id), _) => Some(Call::Give(id)),
        ("table", capacity, _) => Some(Call::Table(capacity)),
        ("insert", Some(id), Some(value)) => Some(Call::Insert(id, value)),
        ("get", Some(id), _) => Some(Call::Get(id)),
        ("slots", _, _) => Some(Call::Slots),
        ("iter_mut", Some(most), _) => Some(Call::IterMut(most)),
        ("into_iter", Some(most), _) => Some(Call::IntoIter(most)),
        ("clear", _, _) => Some(Call::Clear),
        ("close", _, _) => Some(Call::Close),
        ("local", Some(number), _) => Some(Call::Local(number)),
        ("look", Some(number), _) => Some(Call::Look(number)),
        ("get_or", Some(number), Some(value)) => Some(Call::GetOr(number, value)),
        ("try", Some(number), Some(value)) => Some(Call::Try(number, value)),
        ("fail", Some(number), Some(error)) => Some(Call::Fail(number, error)),
        ("leave", Some(number), _) => Some(Call::Leave(number)),
        ("walk", _, _) => Some(Call::Walk),
        _ => None,
    }
}
