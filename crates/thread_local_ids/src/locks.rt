//! A lock whose value is seen as its tag, and the atomic word that it goes by.

pub mod lock;
pub mod word;
