//! Tests of the proved callers (functions that call the library) and of the page allocator, against
//! values worked out by hand.
//!
//! The callers are in `bittle_uses` and `bittle_ext_uses`, and the allocator is in `bit_pages`.
#![tactic(auto)]

#[cfg(test)]
mod checks;
#[cfg(test)]
mod debug_texts;
#[cfg(test)]
mod everyday_callers;
#[cfg(test)]
mod requests;
#[cfg(test)]
mod worked_values;
