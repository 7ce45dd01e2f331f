//! Tests of what calls cost. Sets of this crate count how many words a call fetches from them, and
//! how many other calls it makes to them.
#![tactic(auto)]

#[cfg(test)]
mod asked;
#[cfg(test)]
mod between;
#[cfg(test)]
mod checks;
#[cfg(test)]
mod comparisons;
#[cfg(test)]
mod everyday_changes;
#[cfg(test)]
mod everyday_iterators;
#[cfg(test)]
mod everyday_pairs;
#[cfg(test)]
mod everyday_reads;
#[cfg(test)]
mod numbers;
#[cfg(test)]
mod pages;
#[cfg(test)]
mod plain_changes;
#[cfg(test)]
mod plain_reads;
#[cfg(test)]
mod probe;
#[cfg(test)]
mod probe_rows;
#[cfg(test)]
mod queues_and_worlds;
#[cfg(test)]
mod replays;
#[cfg(test)]
mod rows;
#[cfg(test)]
mod searches;
#[cfg(test)]
mod sets;
#[cfg(test)]
mod spans;
#[cfg(test)]
mod tiers;
#[cfg(test)]
mod walked;
#[cfg(test)]
mod walks;
#[cfg(test)]
mod word_probe;
