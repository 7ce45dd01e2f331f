//! Tests of the everyday calls (`bittle_ext`). They call the library from outside, as a user does.
#![tactic(auto)]

#[cfg(test)]
mod between;
#[cfg(test)]
mod calls;
#[cfg(test)]
mod changes;
#[cfg(test)]
mod checked_indexes;
#[cfg(test)]
mod checks;
#[cfg(test)]
mod copies;
#[cfg(test)]
mod found_runs;
#[cfg(test)]
mod lazy_views;
#[cfg(test)]
mod made;
#[cfg(test)]
mod numbers;
#[cfg(test)]
mod random;
#[cfg(test)]
mod ranges;
#[cfg(test)]
mod reads;
#[cfg(test)]
mod rotations;
#[cfg(test)]
mod spans;
#[cfg(test)]
mod texts;
#[cfg(test)]
mod unlike;
#[cfg(test)]
mod views;
#[cfg(test)]
mod walked_runs;
