//! Tests of the examples in README's guide and in the comments above the public calls.
#![tactic(auto)]

#[cfg(test)]
mod checks;
#[cfg(test)]
mod examples;
#[cfg(test)]
mod guide;
