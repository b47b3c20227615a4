// Strings: their hash, and their payload in the heap.
#![tactic(auto)]

pub mod fxhash;
pub mod name;
pub mod payload;

// A payload's alignment: keys of a table over strings lie so far apart.
pub const ALIGN: u64 = 4;
