//! Where a range begins and ends among pieces of equal length, such as words or elements.

ghost use Rattle.std.specs.Prelude.{◌<◌};
ghost use Rattle.bittle_bits.specs.Pieces.{LiesAt};

/// Returns four numbers: the piece that the first index of `from..to` lies in, the offset of this
/// index in the piece, and then the piece and the offset of the last index.
#[inline]
pub fn ends(length: u32, from: u32, to: u32) -> (u32, u32, u32, u32)
    requires some { 0 < length }
    requires ordered { from < to }
    ensures { LiesAt length from to result.0 result.1 result.2 result.3 }
{
    let last = to - 1;
    (from / length, from % length, last / length, last % length)
}
