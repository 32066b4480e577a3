//! Callers at concrete types and generic ones, and tests that run them.
mod buckets;
mod claims;
mod judged;
