//! Sets with a summary, the kinds `Ones` and `Zeros` of a summary, and the traits of sets, for
//! `use bittle_tiers::prelude::*`.

pub use crate::sizes::{Tiered4K, Tiered64K, Tiered256K};
pub use crate::tiered::Tiered;
pub use bittle_bits::bits::Bits;
pub use bittle_bits::bits_mut::BitsMut;
pub use bittle_bits::bits_owned::BitsOwned;
pub use bittle_bits::extension::{Ones, Zeros};
