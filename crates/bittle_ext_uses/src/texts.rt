//! Sets as text.

ghost use Rattle.std.specs.Fmt.{WritesOnOk};
ghost use Rattle.bittle.specs.Values.{set_in, ShapeFits};
ghost use Rattle.bittle_ext.specs.Texts.{binary_text};

use bittle::Bits;
use bittle_ext::BitsTextExt;
use std::fmt;

/// Writes any set as a binary number.
pub fn write_binary<B: Bits, W: fmt::Write>(set: &B, f: &mut fmt::Formatter<W>) -> fmt::Result
    requires { ShapeFits B.Shape set.now }
    ensures { WritesOnOk W.write_str_gives f.old result
        (binary_text (set_in B.Shape B.Order.Endian set.now)) f.new }
{
    write!(f, "{}", set.binary_text())
}
