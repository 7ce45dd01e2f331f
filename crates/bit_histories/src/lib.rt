//! Histories of calls on a machine: definitions and lemmas that the crates above share. This crate
//! has no code.
//!
//! The contract of a call says that the call gives the machine's answer to a request, and leaves
//! the machine's next state. So a caller that makes such calls one after the other proves that they
//! are a history, and each law of lists of requests holds of them.
#![tactic(auto)]
