//! The text of a set.

ghost use Rattle.std.specs.Prelude.{Some};
ghost use Rattle.std.specs.Fmt.{WritesOnOk};
ghost use Rattle.std.specs.Iterator.{IsFinite};
ghost use Rattle.bittle.specs.DebugText.{index_text, list_text, set_text};
ghost use Rattle.bittle_bits.specs.Values.{set_in};

use super::Set;
use bittle_bits::bits::Bits;
use bittle_bits::endian::Endian;
use bittle_bits::extension::Counted;
use std::fmt;

/// Prints the indexes of the set bits in increasing order between braces, as `{1, 14}`. Format
/// flags have no effect.
impl<T: Bits, E: Endian> fmt::Debug for Set<T, E> {
    ghost debug_output = { λ s. Some (set_text (set_in T.Shape E.Endian s.bits)) };

    fn fmt<W: fmt::Write>(&self, f: &mut fmt::Formatter<W>) -> fmt::Result {
        write_all(self.bits.iter_ones_in::<E>(), f)
    }
}

/// Writes the items of an iterator between braces, with a comma and a space between two items.
pub fn write_all<I: Counted + Drop, W: fmt::Write>(
    indexes: I,
    f: &mut fmt::Formatter<W>,
) -> fmt::Result
    requires { IsFinite (I.remaining indexes) }
    ensures { WritesOnOk W.write_str_gives f.old result
        (list_text (I.walk indexes).remaining) f.new }
{
    f.write_str("{")?;
    let mut first = true;
    for index in indexes {
        write_index(f, first, index)?;
        first = false;
    }
    f.write_str("}")
}

// Writes an index, after a comma and a space if it is not the first.
#[inline]
fn write_index<W: fmt::Write>(f: &mut fmt::Formatter<W>, first: bool, index: u32) -> fmt::Result
    ensures { WritesOnOk W.write_str_gives f.old result (index_text first index) f.new }
{
    if !first {
        f.write_str(", ")?;
    }
    write!(f, "{index}")
}
