//! Sequences of calls on the caller's slice. When the borrow ends, the slice has all changes.

ghost use Rattle.std.specs.Prelude.{◌≡◌, ◌*◌, ◌<◌, length, true, false};
ghost use Rattle.bittle.specs.BitPatterns.{bit_set};
ghost use Rattle.bittle.specs.Machine.{replies_of, final_set};
ghost use Rattle.bittle.specs.Orders.{read_in};
ghost use Rattle.bittle.specs.Rows.{row_set};
ghost use Rattle.bittle.specs.Shapes.{Fits};

use bittle::replay::{Call, Reply, replay};
use bittle::{BigEndian, BitsOwned, Endian, LittleEndian};

/// Makes the calls on the caller's slice, read in the order `E`, and writes a reply to each.
pub fn replay_on_slice<T: BitsOwned, E: Endian>(
    elements: &mut [T],
    calls: &[Call],
    replies: &mut [Reply],
)
    requires fits { Fits T.indexable (length elements.old * T.type_capacity) }
    requires room { length replies.old ≡ length calls.now }
    ensures replies { replies.new ≡ replies_of (read_in E.mirrored T.width
        (row_set (length elements.old) T.type_capacity T.big elements.old)) calls.now }
    ensures set { read_in E.mirrored T.width
        (row_set (length elements.new) T.type_capacity T.big elements.new)
        ≡ final_set (read_in E.mirrored T.width
        (row_set (length elements.old) T.type_capacity T.big elements.old)) calls.now }
{
    let mut held = (elements,);
    let lent = &mut held;
    replay::<&mut [T], E>(&mut lent.0, calls, replies);
}

/// Makes the calls on words of 16 bits in little-endian order: index 0 is the most significant bit
/// of the first word.
pub fn replay_on_words(words: &mut [u16], calls: &[Call], replies: &mut [Reply])
    requires fits { length words.old * 16 < 4294967295 }
    requires room { length replies.old ≡ length calls.now }
    ensures { read_in true 16 (row_set (length words.new) 16 (bit_set 16) words.new)
        ≡ final_set (read_in true 16 (row_set (length words.old) 16 (bit_set 16) words.old))
        calls.now }
{
    replay_on_slice::<u16, LittleEndian>(words, calls, replies);
}

/// Makes the calls on pairs of bytes in big-endian order: index 0 is the least significant bit of
/// the first byte.
pub fn replay_on_pairs(pairs: &mut [[u8; 2]], calls: &[Call], replies: &mut [Reply])
    requires fits { length pairs.old * 16 < 4294967295 }
    requires room { length replies.old ≡ length calls.now }
    ensures { read_in false 8
        (row_set (length pairs.new) 16 (row_set 2 8 (bit_set 8)) pairs.new)
        ≡ final_set
        (read_in false 8
        (row_set (length pairs.old) 16 (row_set 2 8 (bit_set 8)) pairs.old)) calls.now }
{
    replay_on_slice::<[u8; 2], BigEndian>(pairs, calls, replies);
}
