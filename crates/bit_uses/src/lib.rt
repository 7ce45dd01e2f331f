//! Callers of ready queues, roles, entities and slots. What one call promises is what the next call
//! requires, so the contracts alone prove the callers. Few have a proof file.
#![tactic(auto)]

pub mod entities;
pub mod queues;
pub mod roles;
pub mod slots;
