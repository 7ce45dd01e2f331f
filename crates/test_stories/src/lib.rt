//! Tests of ready queues, of roles, of entities, of slots with generations and of runs of pages.
//! Results are compared with values worked out by hand. The results of drawn (pseudo-random) calls
//! are compared with those of a plain model.
#![tactic(auto)]

#[cfg(test)]
mod checks;
#[cfg(test)]
mod drawn;
#[cfg(test)]
mod entities;
#[cfg(test)]
mod page_runs;
#[cfg(test)]
mod queues;
#[cfg(test)]
mod roles;
#[cfg(test)]
mod slot_histories;
#[cfg(test)]
mod slot_keys;
#[cfg(test)]
mod slot_rows;
#[cfg(test)]
mod texts;
