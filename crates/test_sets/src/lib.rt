//! Tests of `Set`: its calls, comparisons and debug text. Also the debug texts of `replay`'s types.
#![tactic(auto)]

#[cfg(test)]
mod checks;
#[cfg(test)]
mod comparisons;
#[cfg(test)]
mod run_texts;
#[cfg(test)]
mod sets;
#[cfg(test)]
mod texts;
