//! Callers of `bittle`, `bittle_ext`, `bit_pages` and `bit_slots`. The contract of each caller says
//! what its own values hold. The check proves these contracts from public contracts and lemmas.
#![tactic(auto)]

pub mod board;
pub mod changed_bits;
pub mod changes;
pub mod counts;
pub mod entities;
pub mod free_runs;
pub mod keys;
pub mod lent;
pub mod macro_lists;
pub mod nested;
pub mod own_order;
pub mod pages;
pub mod permissions;
pub mod ranks;
pub mod relations;
pub mod reserved;
pub mod rows;
pub mod scheduler;
pub mod searches;
pub mod shared_slices;
pub mod sieve;
pub mod slices;
pub mod slots;
pub mod sums;
pub mod tables;
pub mod totals;
pub mod words;
pub mod wrapped_slices;
