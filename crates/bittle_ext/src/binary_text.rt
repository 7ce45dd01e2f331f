//! The bits of a set as text.

ghost use Rattle.std.specs.Prelude.{◌≡◌, Some};
ghost use Rattle.std.specs.Fmt.{WritesOnOk};
ghost use Rattle.bittle.specs.BitPatterns.{bit_set};
ghost use Rattle.bittle.specs.Orders.{read_in};
ghost use Rattle.bittle.specs.Values.{set_in, ShapeFits};
ghost use Rattle.bittle_ext.specs.Texts.{binary_text, digit};

use crate::copies::width_of_words;
use crate::numbers::{number_of, width_of};
use bittle::{Bits, Endian, Shape};
use bittle_bits::extension::Word;
use std::fmt;

/// A borrowed set that is printed as a binary number. The text has one digit for each bit, from the
/// greatest index down to index 0, in both orders. The flags of the format change nothing.
#[derive(Drop)]
pub struct BinaryText<'a, B: Shape> {
    set: &'a B,
    pub ghost fits: { ShapeFits B.Shape set.now },
}

impl<'a, B: Bits> fmt::Display for BinaryText<'a, B> {
    ghost output = { λ t. Some (binary_text (set_in B.Shape B.Order.Endian t.set.now)) };

    fn fmt<W: fmt::Write>(&self, f: &mut fmt::Formatter<W>) -> fmt::Result {
        write_bits::<B, B::Order, W>(self.set, f)
    }
}

/// Writes one digit for each bit, from the greatest index down to index 0. So the last word is
/// written first.
fn write_bits<B: Bits, E: Endian, W: fmt::Write>(set: &B, f: &mut fmt::Formatter<W>) -> fmt::Result
    requires { ShapeFits B.Shape set.now }
    ensures { WritesOnOk W.write_str_gives f.old result
        (binary_text (set_in B.Shape E.Endian set.now)) f.new }
{
    let mut k = (set.bits_capacity() / width_of_words::<B>()) as usize;
    while 0 < k {
        k -= 1;
        write_word::<B::LeafWord, E, W>(set.nth_leaf_word(k), f)?;
    }
    Ok(())
}

/// Writes one digit for each bit of a word, from the greatest index down to index 0.
fn write_word<T: Word, E: Endian, W: fmt::Write>(word: T, f: &mut fmt::Formatter<W>) -> fmt::Result
    ensures { WritesOnOk W.write_str_gives f.old result
        (binary_text (read_in E.mirrored T.width (bit_set T.width (T.pattern word)))) f.new }
{
    let number = number_of::<T, E>(word);
    let mut index = width_of::<T>();
    while 0 < index {
        index -= 1;
        write_bit(f, number >> index & 1 == 1)?;
    }
    Ok(())
}

/// Writes the digit of a bit.
#[inline]
fn write_bit<W: fmt::Write>(f: &mut fmt::Formatter<W>, bit: bool) -> fmt::Result
    ensures { WritesOnOk W.write_str_gives f.old result (digit bit) f.new }
{
    if bit {
        f.write_str("1")
    } else {
        f.write_str("0")
    }
}

/// Text of any set.
pub trait BitsTextExt: Bits {
    /// Returns the set as a binary number, which `{}` prints. The text has one digit for each bit,
    /// from the greatest index down to index 0. Indexes follow the bit order of the type.
    ///
    /// The shape has to fit (`bits_capacity() < u32::MAX`). With capacity 0 the text is empty. The
    /// call itself reads and writes nothing. Printing the result reads each word once, and makes
    /// one write for each digit.
    ///
    /// ```
    /// let row = [0x05u8, 0x80];
    /// println!(rt; "{}", row.binary_text())?;             // 1000000000000101
    /// ```
    #[inline]
    final fn binary_text<'a>(&'a self) -> BinaryText<'a, Self>
    where
        Self: Sized,
        requires { ShapeFits Self.Shape self.now }
        ensures { result.set.now ≡ self.now }
    {
        BinaryText { set: self }
    }
}

impl<B: Bits> BitsTextExt for B {}
