// What a machine is lent to run: an image, and what is refused of it.
#![tactic(auto)]

mod image;
pub mod loader;

pub use image::{Image, Tables};

// The ends of an image's sections, before the first of them: code, globals, of the `Switch` tables firsts, ends and entries, the same of `Lookup`,
// defaults.
pub const HEADER: usize = 9;

pub const MAX_CODE: usize = 65536;

pub const MAX_GLOBALS: usize = 4096;

// Of `Switch` and of `Lookup` each, and their entries in all.
pub const MAX_TABLES: usize = 256;

pub const MAX_ENTRIES: usize = 4096;

// The words of an image whose every section is as long as it may be: a longer one is refused by its length alone.
pub const LONGEST_IMAGE: usize = HEADER + MAX_CODE + MAX_GLOBALS + 2 * MAX_ENTRIES + 5 * MAX_TABLES;
