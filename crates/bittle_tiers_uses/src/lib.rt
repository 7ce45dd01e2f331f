//! Callers of `bittle_tiers`. What is proved of any set holds of a set with a summary as well. So
//! no caller has to write a proof.
#![tactic(auto)]

pub mod pages;
pub mod runs;
pub mod sparse;
