//! Words: the twelve integer types, with the operations of a processor. Users name the integer
//! types. The project's own crates name the trait `Word`, which they import from
//! [`extension`](crate::extension).

ghost use Rattle.std.specs.Prelude.{◌≡◌, ℕ, ◌+◌, ◌-◌, ◌<◌, ◌^◌, ◌==◌, bit_and, bit_or, bit_xor};
ghost use Rattle.std.specs.Prelude.{count_ones};
ghost use Rattle.std.specs.Int.Count.{count_leading_zeros, count_trailing_zeros};
ghost use Rattle.bittle_bits.specs.LawProofs.{positive_bytes};

/// A type of words: one of the twelve integer types, with the operations of a processor.
pub trait Word: Copy {
    // How many bits a word has.
    ghost width: { ℕ };

    // The bit pattern of a word as a number. A negative word has the pattern of its two's
    // complement.
    ghost pattern: { Self → ℕ };

    /// Returns how many bits a word has.
    fn width() -> u32
        ensures { result ≡ width };

    /// Returns the word whose only set bit has the weight `2 ^ place`.
    fn one_at(place: u32) -> Self
        requires { place < width }
        ensures { pattern result ≡ 2 ^ place };

    /// Returns the word whose only set bit lies `below` places under the bit of greatest weight.
    /// The call shifts the word in which only the bit of greatest weight is set. That takes one
    /// instruction fewer than `one_at(width - 1 - below)`.
    #[inline]
    final fn one_below_top(below: u32) -> Self
        requires { below < width }
        ensures { pattern result ≡ 2 ^ (width - 1 - below) }
    {
        Self::from_bits(Self::one_at(Self::width() - 1).to_bits() >> below)
    }

    /// Returns the word in which just the bits of weight below `2 ^ place` are set.
    #[inline]
    final fn low(place: u32) -> Self
        requires { place < width }
        ensures { pattern result ≡ 2 ^ place - 1 }
    {
        Self::from_bits(Self::one_at(place).to_bits() - 1)
    }

    /// Returns the word with no bit set.
    #[inline]
    final fn zero() -> Self
        ensures { pattern result ≡ 0 }
    {
        Self::from_bits(0)
    }

    /// Returns the bit pattern as a number.
    fn to_bits(self) -> u128
        ensures pattern { result ≡ pattern self }
        ensures range { pattern self < 2 ^ width };

    /// Returns the word that has this bit pattern.
    fn from_bits(value: u128) -> Self
        requires { value < 2 ^ width }
        ensures { pattern result ≡ value };

    /// Returns the word with each bit flipped.
    #[inline]
    final fn not(self) -> Self
        ensures pattern { pattern result ≡ 2 ^ width - 1 - pattern self }
        ensures range { pattern self < 2 ^ width }
    {
        let top = Self::one_at(Self::width() - 1).to_bits();
        Self::from_bits(top - 1 + top - self.to_bits())
    }

    /// Returns the bits that are set in both words.
    #[inline]
    final fn and(self, other: Self) -> Self
        ensures { pattern result ≡ bit_and (pattern self) (pattern other) }
    {
        Self::from_bits(self.to_bits() & other.to_bits())
    }

    /// Returns the bits that are set in either word.
    #[inline]
    #[tactic(auto, using(std::proofs::lemmas::Nat::or_lt))]
    final fn or(self, other: Self) -> Self
        ensures { pattern result ≡ bit_or (pattern self) (pattern other) }
    {
        Self::from_bits(self.to_bits() | other.to_bits())
    }

    /// Returns the bits that are set in just one of the words.
    #[inline]
    #[tactic(auto, using(std::proofs::lemmas::Nat::xor_lt))]
    final fn xor(self, other: Self) -> Self
        ensures { pattern result ≡ bit_xor (pattern self) (pattern other) }
    {
        Self::from_bits(self.to_bits() ^ other.to_bits())
    }

    /// Returns whether no bit is set.
    #[inline]
    final fn is_zero(self) -> bool
        ensures zero { result ≡ (pattern self == 0) }
        ensures range { pattern self < 2 ^ width }
    {
        self.to_bits() == 0
    }

    /// Returns how many bits are set.
    #[inline]
    final fn count_ones(self) -> u32
        ensures count { result ≡ count_ones (pattern self) }
        ensures range { pattern self < 2 ^ width }
    {
        self.to_bits().count_ones()
    }

    /// Returns how many unset bits lie below the set bit of least weight, or the width if no bit is
    /// set.
    fn trailing_zeros(self) -> u32
        ensures count { result ≡ count_trailing_zeros width (pattern self) }
        ensures range { pattern self < 2 ^ width };

    /// Returns how many unset bits lie above the set bit of greatest weight, or the width if no bit
    /// is set.
    fn leading_zeros(self) -> u32
        ensures count { result ≡ count_leading_zeros width (pattern self) }
        ensures range { pattern self < 2 ^ width };

    // The number of bytes, of eight bits each, is a power of two.
    ghost whole_bytes: { (log : ℕ) × (width ≡ 2 ^ (3 + log)) };

    // So a word has at least one bit.
    ghost width_positive: { 0 < width } = { positive_bytes width whole_bytes };
}
