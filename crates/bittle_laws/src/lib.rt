//! Laws of the sets and orders in the library's contracts. Each law is the contract of a function
//! that does nothing.
//!
//! The library needs none of these laws, and this crate adds no calls. The sets, their calls and
//! the contracts are in `bittle` and `bittle_bits`. So are the laws of the traits, which each impl
//! proves.
#![tactic(auto)]

pub mod algebra;
pub mod comparison;
pub mod lists;
pub mod orders;
pub mod partition;
pub mod types;
