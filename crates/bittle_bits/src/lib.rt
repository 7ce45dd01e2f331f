//! Sets of small numbers in the bits of integers, arrays and slices. This crate has the traits of
//! sets, the two bit orders, the impls for integers, arrays and slices, and the iterators.
//!
//! Users name the crate `bittle`, which exports the public items of this crate. The project's own
//! crates also use the hidden module `extension`.
#![tactic(auto)]

mod array;
pub mod bits;
pub mod bits_mut;
pub mod bits_owned;
#[doc(hidden)]
pub mod end;
pub mod endian;
#[doc(hidden)]
pub mod extension;
#[doc(hidden)]
pub mod fixed_capacity;
#[doc(hidden)]
pub mod integer;
mod integers;
mod internal;
pub mod join;
#[doc(hidden)]
pub mod kind;
pub mod number;
mod one_word;
#[doc(hidden)]
pub mod operation;
#[doc(hidden)]
pub mod read_words;
pub mod shape;
mod slice;
pub mod walk;
#[doc(hidden)]
pub mod word;
