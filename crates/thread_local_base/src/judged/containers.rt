//! `Judge` for what holds values of other types.
ghost use Rattle.std.specs.Prelude.{[], ◌∷◌, None, Ok};
ghost use Rattle.std.specs.contracts.alloc.Global as heap;
ghost use Rattle.std.specs.contracts.impls.GlobalAllocator.TheImpl.{ghosts};
ghost use denote.Param.{number};
ghost use denote.Struct.Tuple.{tuple_type};
ghost use Rattle.thread_local_base.specs.Parts.{structure, enumeration, a_value};
ghost use Rattle.thread_local_base.specs.Containing.{box, vector, deque, array, text};

use crate::judged::Judge;
use std::boxed::{BoxedSlice, BoxedStr};
use std::cmp::Reverse;
use std::collections::{BinaryHeap, VecDeque};
use std::num::{Saturating, Wrapping};

impl<T: Judge> Judge for Box<T> {
    ghost everywhere = { box T.row T.everywhere };
}

impl<T: Judge> Judge for Vec<T> {
    ghost everywhere = { vector T.row T.everywhere };
}

impl<T: Judge> Judge for VecDeque<T> {
    ghost everywhere = { deque T.row T.everywhere };
}

impl<T: Judge, const N: usize> Judge for [T; N] {
    ghost everywhere = { array T.row (number N) T.everywhere };
}

impl<T: Judge> Judge for BoxedSlice<T> {
    ghost use Rattle.std.specs.contracts.boxed.BoxedSlice.{the_type};

    ghost everywhere = { structure (the_type T.row heap.the_row ghosts) (λ v. tt) (vector T.row T.everywhere, tt) };
}

impl<T: Judge + Ord> Judge for BinaryHeap<T> {
    ghost use Rattle.std.specs.contracts.collections.BinaryHeap.{the_type};

    ghost everywhere = { structure (the_type T.row heap.the_row ghosts) (λ v. tt) (vector T.row T.everywhere, tt) };
}

impl Judge for String {
    ghost everywhere = { text };
}

impl Judge for BoxedStr {
    ghost use Rattle.std.specs.contracts.boxed.BoxedStr.{the_type};

    ghost everywhere = { structure (the_type heap.the_row ghosts) (λ v. tt) (text, tt) };
}

impl<T: Judge> Judge for Wrapping<T> {
    ghost use Rattle.std.specs.contracts.num.Wrapping.{the_type};

    ghost everywhere = { structure (the_type T.row) (λ v. tt) (T.everywhere, tt) };
}

impl<T: Judge> Judge for Saturating<T> {
    ghost use Rattle.std.specs.contracts.num.Saturating.{the_type};

    ghost everywhere = { structure (the_type T.row) (λ v. tt) (T.everywhere, tt) };
}

impl<T: Judge> Judge for Reverse<T> {
    ghost use Rattle.std.specs.contracts.cmp.Reverse.{the_type};

    ghost everywhere = { structure (the_type T.row) (λ v. tt) (T.everywhere, tt) };
}

impl<T: Judge> Judge for Option<T> {
    ghost use Rattle.std.specs.contracts.option.Option.{enum};

    ghost everywhere = { enumeration (enum T.row) None (tt, ((T.everywhere, tt), tt)) };
}

impl<T: Judge, E: Judge> Judge for Result<T, E> {
    ghost use Rattle.std.specs.contracts.result.Result.{enum};

    ghost everywhere = { enumeration (enum T.row E.row) (Ok (a_value T.row T.everywhere)) ((T.everywhere, tt), ((E.everywhere, tt), tt)) };
}

impl<A: Judge, B: Judge> Judge for (A, B) {
    ghost everywhere = { structure (tuple_type (A.row ∷ B.row ∷ [])) (λ v. tt) (A.everywhere, (B.everywhere, tt)) };
}

impl<A: Judge, B: Judge, C: Judge> Judge for (A, B, C) {
    ghost everywhere = { structure (tuple_type (A.row ∷ B.row ∷ C.row ∷ [])) (λ v. tt) (A.everywhere, (B.everywhere, (C.everywhere, tt))) };
}

impl<A: Judge, B: Judge, C: Judge, D: Judge> Judge for (A, B, C, D) {
    ghost everywhere = { structure (tuple_type (A.row ∷ B.row ∷ C.row ∷ D.row ∷ [])) (λ v. tt) (A.everywhere, (B.everywhere, (C.everywhere, (D.everywhere, tt)))) };
}
