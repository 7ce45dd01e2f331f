//! Lemmas for callers of `bittle` and `bittle_ext`: facts about sets after calls, which a caller's
//! own clauses and ghost fields need. This crate has no code. To use a lemma, a function names it
//! in its `tactic` attribute, or a proof file imports the lemma.
#![tactic(auto)]
