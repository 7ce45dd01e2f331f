//! The traits of sets, for `use bittle::prelude::*`.

pub use bittle_bits::bits::Bits;
pub use bittle_bits::bits_mut::BitsMut;
pub use bittle_bits::bits_owned::BitsOwned;
