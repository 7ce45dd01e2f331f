//! Types of sets with a summary, in the usual sizes. In the larger types the summary has a summary
//! itself. This second one is of the kind [`Ones`], whatever the kind of the set, since a search
//! looks for the set bits of the first summary.

ghost use Rattle.std.specs.Prelude.{◌≡◌, true};
ghost use Rattle.bittle.specs.BitPatterns.{bit_set};
ghost use Rattle.bittle.specs.PlainSet.{empty_set, size};
ghost use Rattle.bittle.specs.Rows.{row_set};
ghost use Rattle.bittle.specs.Values.{set_mirrored};

use crate::tiered::Tiered;
use bittle_bits::bits_owned::BitsOwned;
use bittle_bits::extension::{Kind, Ones};
use bittle_bits::shape::Shape;

/// A set of 4,096 bits: 64 words, and a summary of one word.
///
/// ```
/// Tiered4K::<Ones>::zeros();                          // for sparse sets
/// Tiered4K::<Zeros>::zeros();                         // for allocators
/// ```
pub type Tiered4K<K> = Tiered<[u64; 64], u64, K>;

/// A set of 65,536 bits: 1,024 words, a summary of 16 words, and one word that summarizes the
/// summary.
///
/// ```
/// Tiered64K::<Ones>::bits();                          // 65,536
/// ```
pub type Tiered64K<K> = Tiered<[u64; 1024], Tiered<[u64; 16], u64, Ones>, K>;

/// A set of 262,144 bits: 4,096 words, a summary of 64 words, and one word that summarizes the
/// summary.
///
/// ```
/// Tiered256K::<Zeros>::bits();                        // 262,144
/// ```
pub type Tiered256K<K> = Tiered<[u64; 4096], Tiered4K<Ones>, K>;

impl<K: Kind> From<[u64; 64]> for Tiered4K<K> {
    ghost from_gives = { λ map t. t.map ≡ map };

    fn from(map: [u64; 64]) -> Tiered4K<K> {
        Tiered::new(map)
    }
}

impl<K: Kind> Default for Tiered4K<K> {
    ghost is_default = { λ t. (row_set 64 64 (bit_set 64) t.map ≡ empty_set 4096)
        × (set_mirrored ⟦<Tiered4K<K> as Shape>⟧ true t ≡ empty_set 4096)
        × (size (row_set 64 64 (bit_set 64) t.map) ≡ 0) };

    fn default() -> Tiered4K<K> {
        Tiered4K::zeros()
    }
}

impl<K: Kind> From<[u64; 1024]> for Tiered64K<K> {
    ghost from_gives = { λ map t. t.map ≡ map };

    fn from(map: [u64; 1024]) -> Tiered64K<K> {
        Tiered::new(map)
    }
}

impl<K: Kind> Default for Tiered64K<K> {
    ghost is_default = { λ t. (row_set 1024 64 (bit_set 64) t.map ≡ empty_set 65536)
        × (set_mirrored ⟦<Tiered64K<K> as Shape>⟧ true t ≡ empty_set 65536)
        × (size (row_set 1024 64 (bit_set 64) t.map) ≡ 0) };

    fn default() -> Tiered64K<K> {
        Tiered64K::zeros()
    }
}

impl<K: Kind> From<[u64; 4096]> for Tiered256K<K> {
    ghost from_gives = { λ map t. t.map ≡ map };

    fn from(map: [u64; 4096]) -> Tiered256K<K> {
        Tiered::new(map)
    }
}

impl<K: Kind> Default for Tiered256K<K> {
    ghost is_default = { λ t. (row_set 4096 64 (bit_set 64) t.map ≡ empty_set 262144)
        × (set_mirrored ⟦<Tiered256K<K> as Shape>⟧ true t ≡ empty_set 262144)
        × (size (row_set 4096 64 (bit_set 64) t.map) ≡ 0) };

    fn default() -> Tiered256K<K> {
        Tiered256K::zeros()
    }
}
