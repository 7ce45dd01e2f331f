//! Tests of capacities: of capacity 0, of large capacities, which stop at `u32::MAX`, and of the
//! capacities of nested arrays and slices.
#![tactic(auto)]

#[cfg(test)]
mod capacities;
#[cfg(test)]
mod checks;
#[cfg(test)]
mod shapes;
#[cfg(test)]
mod without_capacity;
