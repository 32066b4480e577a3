//! What the slots of ids were published with: tokens, lists of them, and the book of all.

pub mod book;
pub mod token;
pub mod told_list;
