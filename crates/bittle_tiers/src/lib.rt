//! Sets with a summary of their words. The summary is a set itself: it shows which words have a bit
//! of one kind, set or unset. A search or an iterator for bits of this kind skips most words that
//! have none, instead of reading each word.
//!
//! ```rust
//! use bittle::{Bits, BitsMut, BitsOwned};
//! use bittle_tiers::{Ones, Tiered, Tiered4K, Zeros};
//!
//! let mut sparse = Tiered4K::<Ones>::zeros();
//! sparse.set_bit(4000);
//! sparse.iter_ones().next();        // Some(4000), with one word of the 64 read
//!
//! let mut taken = Tiered::<[u64; 8], u8, Zeros>::ones();
//! taken.clear_bit(500);
//! taken.iter_zeros().next();        // Some(500)
//! ```
#![tactic(auto)]

pub mod prelude;
#[doc(hidden)]
pub mod sizes;
#[doc(hidden)]
pub mod tiered;
mod upkeep;

pub use bittle_bits::extension::{Kind, Ones, Zeros};
pub use sizes::{Tiered4K, Tiered64K, Tiered256K};
pub use tiered::Tiered;
