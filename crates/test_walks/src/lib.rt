//! Tests of iterators, of searches in a range and of joins.
#![tactic(auto)]

#[cfg(test)]
mod checks;
#[cfg(test)]
mod joins;
#[cfg(test)]
mod vectors;
#[cfg(test)]
mod walk_runs;
#[cfg(test)]
mod walks;
