//! Functions that use the everyday calls of the library. Each is proved from the public contracts
//! of these calls. Most have no proof file. The proof files of the others have the measure or the
//! invariant of a loop, or a few lines for a clause, as for `one_line` and `found_bits`.
#![tactic(auto)]

pub mod any_changes;
pub mod bits_after;
pub mod blocks;
pub mod chains;
pub mod checked_indexes;
pub mod clauses;
pub mod combined_walks;
pub mod equal_sets;
pub mod field;
pub mod filled;
pub mod first_forms;
pub mod found_bits;
pub mod graphs;
pub mod handed_on;
pub mod kept_members;
pub mod known_members;
pub mod lent_changes;
pub mod listed;
pub mod made_sets;
pub mod mines;
pub mod numbers;
pub mod one_line;
pub mod pops;
pub mod range_walks;
pub mod reads;
pub mod relation_chains;
pub mod retained;
pub mod rotations;
pub mod run_walks;
pub mod seats;
pub mod sets_between;
pub mod shape_changes;
pub mod shots;
pub mod sizes;
pub mod spans;
pub mod std_counts;
pub mod texts;
pub mod views;
pub mod word_changes;
