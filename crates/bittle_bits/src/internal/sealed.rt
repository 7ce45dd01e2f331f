//! What seals the traits.

/// A type that seals traits. A crate that depends only on `bittle` cannot name it. So such a crate
/// cannot implement a trait with a constant of this type.
#[derive(Drop)]
pub struct Sealed {}
