//! Tests of the sets with a summary in the crate `bittle_tiers`, by its public calls.
#![tactic(auto)]

#[cfg(test)]
mod calls;
#[cfg(test)]
mod checks;
#[cfg(test)]
mod common;
#[cfg(test)]
mod drawn;
#[cfg(test)]
mod flags;
#[cfg(test)]
mod maps;
#[cfg(test)]
mod sizes;
#[cfg(test)]
mod small;
