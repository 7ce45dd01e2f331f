//! Tests of `bittle_script`: what scripts print, and what the program does if a read, a write or a
//! flush fails.
#![tactic(auto)]

#[cfg(test)]
mod checks;
#[cfg(test)]
mod failures;
#[cfg(test)]
mod full_sets;
#[cfg(test)]
mod lengths;
#[cfg(test)]
mod scripts;
#[cfg(test)]
mod streams;
