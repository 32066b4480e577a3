//! Values of a pool: who makes them, how often, and what comes back.
ghost use Rattle.std.specs.Prelude.{◌≡◌, true, IfOk, IfSome};

use crate::same::assert_same;
use std::alloc::Global;
use std::mem::forget;
use std::sync::Wait;
use thread_local::thread_id::LocalError;
use thread_local_pool::Pool;

/// A new value is what the closure made, and what is written to one stands in it.
fn seven_or_another<R: Wait>(pool: &Pool<u32>, rt: &R) -> Result<bool, LocalError>
    ensures { IfOk result (λ holds. holds ≡ true) }
{
    let mut pooled = pool.get(rt, || 7)?;
    if pooled.is_new() && *pooled != 7 {
        return Ok(false);
    }
    *pooled = 8;
    Ok(*pooled == 8)
}

/// Takes a value, writes to it and puts it back. Answers whether it was new, and what it was.
fn use_once<T: Drop + Send, R: Wait, F: FnOnce() -> T + Drop>(
    pool: &Pool<T>,
    rt: &R,
    create: F,
    left: T,
) -> Option<(bool, T)>
    requires { F.pre create }
    ensures { IfSome result (λ was. was.0 ≡ true → F.post create was.1) }
{
    let Ok(mut pooled) = pool.get(rt, create) else {
        return None;
    };
    let is_new = pooled.is_new();
    let was = std::mem::replace(&mut *pooled, left);
    Some((is_new, was))
}

/// What is told when 2, 4 and 6 are left in turn.
fn use_thrice<R: Wait>(numbers: &Pool<u64>, rt: &R) -> [Option<(bool, u64)>; 3] {
    [
        use_once(numbers, rt, || 1, 2),
        use_once(numbers, rt, || 3, 4),
        use_once(numbers, rt, || 5, 6),
    ]
}

#[test]
fn a_value_comes_back_as_it_was_left(rt: HostRuntime) {
    let numbers = Pool::new(rt.alloc());
    assert_same(
        &rt,
        use_thrice(&numbers, &rt),
        [Some((true, 1)), Some((false, 2)), Some((false, 4))],
    );
    let other = Pool::new(rt.alloc());
    assert_same(&rt, seven_or_another(&other, &rt), Ok(true));
}

/// Whether a text is new and empty where it is first asked for, and then as it was left.
fn are_texts_kept<R: Wait>(texts: &Pool<String>, rt: &R, alloc: Global) -> Option<[bool; 2]> {
    let text = String::from_str(alloc, "left").ok()?;
    let first = use_once(texts, rt, || String::new(alloc), text)?;
    let second = use_once(texts, rt, || String::new(alloc), String::new(alloc))?;
    Some([is_text(&first, true, ""), is_text(&second, false, "left")])
}

/// Whether a text was new or not, as is expected, and what it was.
fn is_text(used: &(bool, String), is_new: bool, text: &str) -> bool {
    used.0 == is_new && used.1.as_str() == text
}

#[test]
fn a_text_comes_back_with_its_room(rt: HostRuntime) {
    let texts = Pool::new(rt.alloc());
    assert_same(
        &rt,
        are_texts_kept(&texts, &rt, rt.alloc()),
        Some([true; 2]),
    );
}

/// Values 1, 2 and 3 of a pool, of which the second is forgotten.
fn put_three<R: Wait>(pool: &Pool<u64>, rt: &R) -> Option<()> {
    let Ok(first) = pool.get(rt, || 1) else {
        return None;
    };
    let Ok(second) = pool.get(rt, || 2) else {
        return None;
    };
    let Ok(third) = pool.get(rt, || 3) else {
        return None;
    };
    forget(second);
    drop(third);
    drop(first);
    Some(())
}

/// Adds ten to each value that a pool has. Answers how many slots it has.
fn add_ten(pool: &mut Pool<u64>) -> usize {
    for value in pool.iter_mut() {
        *value = value.wrapping_add(10);
    }
    pool.slots()
}

/// The same by a loop over the pool.
fn add_ten_by_a_loop(pool: &mut Pool<u64>) {
    for value in pool {
        *value = value.wrapping_add(10);
    }
}

/// The values of a pool that are moved out, as digits to the base of 100.
fn moved_out(pool: Pool<u64>) -> u64 {
    let mut digits = 0u64;
    for value in pool {
        digits = digits.wrapping_mul(100).wrapping_add(value);
    }
    digits
}

/// The same of a pool that is drained.
fn drained(pool: &mut Pool<u64>) -> u64 {
    let mut digits = 0u64;
    for value in pool.drain() {
        digits = digits.wrapping_mul(100).wrapping_add(value);
    }
    digits
}

#[test]
fn an_owner_walks_over_the_values_of_a_pool(rt: HostRuntime) {
    let mut pool = Pool::new(rt.alloc());
    let put = put_three(&pool, &rt);
    let slots = add_ten(&mut pool);
    assert_same(&rt, (put, slots, moved_out(pool)), (Some(()), 3, 1113));
}

#[test]
fn a_loop_over_a_pool_goes_over_its_values(rt: HostRuntime) {
    let mut pool = Pool::new(rt.alloc());
    let put = put_three(&pool, &rt);
    add_ten_by_a_loop(&mut pool);
    assert_same(&rt, (put, moved_out(pool)), (Some(()), 1113));
}

/// What the three walks over a pool know of how many values they give.
fn hints(mut pool: Pool<u64>) -> [(usize, Option<usize>); 3] {
    let lending = pool.iter_mut().size_hint();
    let draining = pool.drain().size_hint();
    [lending, draining, pool.into_iter().size_hint()]
}

// Three cells, and none once they are drained.
#[test]
fn walks_over_a_pool_know_how_many_cells_there_are(rt: HostRuntime) {
    let pool = Pool::new(rt.alloc());
    let put = put_three(&pool, &rt);
    assert_same(
        &rt,
        (put, hints(pool)),
        (Some(()), [(0, Some(3)), (0, Some(3)), (0, Some(0))]),
    );
}

/// Whether a value of the pool is new, and what it is.
fn another<R: Wait>(pool: &Pool<u64>, rt: &R) -> Option<(bool, u64)> {
    let Ok(pooled) = pool.get(rt, || 9) else {
        return None;
    };
    Some((pooled.is_new(), *pooled))
}

/// What is drained of a pool, how many slots it has then, and what another value is.
fn drained_and_asked<R: Wait>(pool: &mut Pool<u64>, rt: &R) -> (u64, usize, Option<(bool, u64)>) {
    let drained = drained(pool);
    (drained, pool.slots(), another(pool, rt))
}

/// How many slots a cleared pool has, and what another value is.
fn cleared_and_asked<R: Wait>(pool: &mut Pool<u64>, rt: &R) -> (usize, Option<(bool, u64)>) {
    pool.clear();
    (pool.slots(), another(pool, rt))
}

#[test]
fn a_drained_pool_keeps_its_slots_and_a_cleared_one_has_none(rt: HostRuntime) {
    let mut pool = Pool::new(rt.alloc());
    let put = put_three(&pool, &rt);
    let drained = drained_and_asked(&mut pool, &rt);
    let cleared = cleared_and_asked(&mut pool, &rt);
    assert_same(
        &rt,
        (put, drained, cleared),
        (Some(()), (103, 3, Some((true, 9))), (0, Some((true, 9)))),
    );
}

/// What is told where a closure fails, where the next makes 5, and where a third would make 6 though
/// 5 was put back.
fn try_thrice<R: Wait>(pool: &Pool<u64>, rt: &R) -> Option<[Result<(bool, u64), u8>; 3]> {
    Some([
        tried(pool, rt, Err(1))?,
        tried(pool, rt, Ok(5))?,
        tried(pool, rt, Ok(6))?,
    ])
}

/// Whether a value is new and what it is, or the error of what would make it.
fn tried<R: Wait>(
    pool: &Pool<u64>,
    rt: &R,
    made: Result<u64, u8>,
) -> Option<Result<(bool, u64), u8>> {
    match pool.get_or_try(rt, move || made).ok()? {
        Ok(pooled) => Some(Ok((pooled.is_new(), *pooled))),
        Err(error) => Some(Err(error)),
    }
}

#[test]
fn a_closure_that_fails_leaves_the_cell_empty(rt: HostRuntime) {
    let pool = Pool::new(rt.alloc());
    assert_same(
        &rt,
        try_thrice(&pool, &rt),
        Some([Err(1), Ok((true, 5)), Ok((false, 5))]),
    );
}

/// Whether twenty closures fail, one after another.
fn fail_twenty_times<R: Wait>(pool: &Pool<u64>, rt: &R) -> bool {
    for _ in 0..20 {
        if tried(pool, rt, Err(1)) != Some(Err(1)) {
            return false;
        }
    }
    true
}

// Each gave its id back, so there is one slot.
#[test]
fn closures_that_fail_keep_no_id(rt: HostRuntime) {
    let mut pool = Pool::new(rt.alloc());
    let failed = fail_twenty_times(&pool, &rt);
    assert_same(&rt, (failed, pool.slots()), (true, 1));
}

/// A value that is taken out of a pool, and whether the next is new.
fn take_out<R: Wait>(pool: &Pool<u64>, rt: &R) -> Option<(u64, bool)> {
    let taken = pool.get(rt, || 5).ok()?.take();
    Some((taken, another(pool, rt)?.0))
}

// Its id went back: there is one slot.
#[test]
fn a_value_that_is_taken_out_is_made_anew(rt: HostRuntime) {
    let mut pool = Pool::new(rt.alloc());
    let taken = take_out(&pool, &rt);
    assert_same(&rt, (taken, pool.slots()), (Some((5, true)), 1));
}
