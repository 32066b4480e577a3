//! `Judge` for values without parts: numbers, times, atomics.
ghost use Rattle.std.specs.Prelude.{pos};
ghost use Rattle.std.proofs.Common.{inl, lit<, rules};
ghost use Rattle.thread_local_base.specs.Chain.{chain_keyless};

use crate::judged::Judge;
use std::cmp::Ordering;
use std::marker::PhantomData;
use std::num::{
    NonZeroI8, NonZeroI16, NonZeroI32, NonZeroI64, NonZeroI128, NonZeroIsize, NonZeroU8,
    NonZeroU16, NonZeroU32, NonZeroU64, NonZeroU128, NonZeroUsize,
};
use std::sync::atomic::{
    AtomicBool, AtomicI8, AtomicI16, AtomicI32, AtomicI64, AtomicIsize, AtomicU8, AtomicU16,
    AtomicU32, AtomicU64, AtomicUsize,
};
use std::time::{Duration, Instant, SystemTime};

impl Judge for u8 {
    ghost everywhere = { Prim.search rules };
}

impl Judge for u16 {
    ghost everywhere = { Prim.search rules };
}

impl Judge for u32 {
    ghost everywhere = { Prim.search rules };
}

impl Judge for u64 {
    ghost everywhere = { Prim.search rules };
}

impl Judge for u128 {
    ghost everywhere = { Prim.search rules };
}

impl Judge for usize {
    ghost everywhere = { Prim.search rules };
}

impl Judge for f32 {
    ghost everywhere = { Prim.search rules };
}

impl Judge for f64 {
    ghost everywhere = { Prim.search rules };
}

impl Judge for bool {
    ghost everywhere = { Prim.search rules };
}

impl Judge for char {
    ghost everywhere = { Prim.search rules };
}

impl Judge for () {
    ghost everywhere = { Prim.search rules };
}

impl Judge for NonZeroU8 {
    ghost everywhere = { Prim.search rules };
}

impl Judge for NonZeroU16 {
    ghost everywhere = { Prim.search rules };
}

impl Judge for NonZeroU32 {
    ghost everywhere = { Prim.search rules };
}

impl Judge for NonZeroU64 {
    ghost everywhere = { Prim.search rules };
}

impl Judge for NonZeroU128 {
    ghost everywhere = { Prim.search rules };
}

impl Judge for NonZeroUsize {
    ghost everywhere = { Prim.search rules };
}

impl Judge for Ordering {
    ghost everywhere = { Prim.search rules };
}

impl Judge for Duration {
    ghost everywhere = { Prim.search rules };
}

impl Judge for SystemTime {
    ghost everywhere = { Prim.search rules };
}

impl Judge for i8 {
    ghost everywhere = { inl (pos 0, Prim.search rules) };
}

impl Judge for i16 {
    ghost everywhere = { inl (pos 0, Prim.search rules) };
}

impl Judge for i32 {
    ghost everywhere = { inl (pos 0, Prim.search rules) };
}

impl Judge for i64 {
    ghost everywhere = { inl (pos 0, Prim.search rules) };
}

impl Judge for i128 {
    ghost everywhere = { inl (pos 0, Prim.search rules) };
}

impl Judge for isize {
    ghost everywhere = { inl (pos 0, Prim.search rules) };
}

impl Judge for NonZeroI8 {
    ghost everywhere = { inl (record { value = pos 1; ok = lit< tt }, Prim.search rules) };
}

impl Judge for NonZeroI16 {
    ghost everywhere = { inl (record { value = pos 1; ok = lit< tt }, Prim.search rules) };
}

impl Judge for NonZeroI32 {
    ghost everywhere = { inl (record { value = pos 1; ok = lit< tt }, Prim.search rules) };
}

impl Judge for NonZeroI64 {
    ghost everywhere = { inl (record { value = pos 1; ok = lit< tt }, Prim.search rules) };
}

impl Judge for NonZeroI128 {
    ghost everywhere = { inl (record { value = pos 1; ok = lit< tt }, Prim.search rules) };
}

impl Judge for NonZeroIsize {
    ghost everywhere = { inl (record { value = pos 1; ok = lit< tt }, Prim.search rules) };
}

impl Judge for Instant {
    ghost everywhere = { inl (record { since_start = record { secs = 0; nanos = 0 } }, Prim.search rules) };
}

impl Judge for AtomicBool {
    ghost everywhere = { inl (record { word = tt }, Prim.search (rules, chain_keyless)) };
}

impl Judge for AtomicU8 {
    ghost everywhere = { inl (record { word = tt }, Prim.search (rules, chain_keyless)) };
}

impl Judge for AtomicU16 {
    ghost everywhere = { inl (record { word = tt }, Prim.search (rules, chain_keyless)) };
}

impl Judge for AtomicU32 {
    ghost everywhere = { inl (record { word = tt }, Prim.search (rules, chain_keyless)) };
}

impl Judge for AtomicUsize {
    ghost everywhere = { inl (record { word = tt }, Prim.search (rules, chain_keyless)) };
}

impl Judge for AtomicI8 {
    ghost everywhere = { inl (record { word = tt }, Prim.search (rules, chain_keyless)) };
}

impl Judge for AtomicI16 {
    ghost everywhere = { inl (record { word = tt }, Prim.search (rules, chain_keyless)) };
}

impl Judge for AtomicI32 {
    ghost everywhere = { inl (record { word = tt }, Prim.search (rules, chain_keyless)) };
}

impl Judge for AtomicI64 {
    ghost everywhere = { inl (record { word = tt }, Prim.search (rules, chain_keyless)) };
}

impl Judge for AtomicIsize {
    ghost everywhere = { inl (record { word = tt }, Prim.search (rules, chain_keyless)) };
}

impl Judge for AtomicU64 {
    ghost everywhere = { inl (tt, Prim.search (rules, chain_keyless)) };
}

impl<T> Judge for PhantomData<T> {
    ghost everywhere = { inl (record {}, λ x b o κ. (tt, λ q. tt)) };
}
