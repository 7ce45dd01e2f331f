//! Tests of what the calls of `bittle` return on words, arrays and slices, and callers of iterators
//! that no test runs.
#![tactic(auto)]

#[cfg(test)]
mod checks;
#[cfg(test)]
mod generic_callers;
#[cfg(test)]
mod lists;
#[cfg(test)]
mod operations;
#[cfg(test)]
mod ranges;
#[cfg(test)]
mod runs;
#[cfg(test)]
mod values;
#[cfg(test)]
mod word_calls;
