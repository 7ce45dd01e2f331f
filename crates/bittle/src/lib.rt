//! Sets of small numbers in the bits of integers, arrays and slices, proved correct.
//!
//! A set has `u32` indexes, one for each bit. An integer is a set. So is an array of integers,
//! nested to any depth, and so is a slice. Each function is proved to do what its contract says.
//!
//! ```text
//!      0b0010_0010u8                    0b0010_0010u8
//!          ^    ^                           ^    ^
//!          5    1   BigEndian               2    6   LittleEndian
//!               (index 0 is the rightmost bit)   (index 0 is the leftmost bit)
//! ```
//!
//! The examples below begin with this line:
//!
//! ```rust
//! use bittle::{BigEndian, Bits, BitsMut, BitsOwned, LittleEndian, Set};
//! ```
//!
//! # Words and orders
//!
//! An index names a bit. In [`BigEndian`], the default, index 0 is the rightmost bit of a word as
//! it is written. In [`LittleEndian`] it is the leftmost bit. An index at or past the capacity
//! wraps.
//!
//! ```rust
//! let mut word = 0b0010_0010u8;     // bits 1 and 5 are set
//! word.set_bit(0);                  // 0b0010_0011
//! word.clear_bit(9);                // 9 wraps to 1: 0b0010_0001
//! word.test_bit(5);                 // true
//! word.test_bit_le(2);              // true: index 2 from the left is bit 5
//! ```
//!
//! # Arrays and slices
//!
//! An array of sets that own their bits is a set, to any depth.
//!
//! ```rust
//! let mut row = [0u16; 2];          // capacity 32
//! row.set_bit(31);                  // [0, 0x8000]
//! row.count_ones();                 // 1
//!
//! let mut nested = [[0u8; 2]; 2];
//! nested.set_bit_le(17);            // [[0, 0], [0x40, 0]]
//!
//! <[u32; 4]>::bits();               // 128
//! Bits::count_zeros(&u8::ones());   // 0: an integer has a method of the name too
//! ```
//!
//! A slice reference is a set too. A `&[T]` can be read; a `&mut [T]` changes the caller's words.
//! To use a `Vec` as a set, borrow its slice. To use a part of a slice as a set, borrow the part,
//! as in `(&mut words[1..3])`.
//!
//! An iterator borrows the slice reference. If you keep the iterator in a variable, keep the
//! reference in one too.
//!
//! ```rust
//! let mut words = [0u32; 4];
//! let mut lent = words.as_mut_slice();
//! lent.set_bit(65);                 // words is [0, 0, 2, 0]
//!
//! let mut pages: Vec<u64> = Vec::new(alloc);
//! pages.push(0)?;
//! let mut lent = pages.as_mut_slice();
//! lent.set_bit(3);                  // pages is [8]
//!
//! fn take(mut words: &mut [u64], slot: u32) {
//!     words.set_bit(slot);          // a slice that is passed in is declared `mut`
//! }
//! ```
//!
//! # Macros
//!
//! [`set!`] makes the set of the indexes in a list. The indexes follow the bit order of the set's
//! type. [`set_le!`] and [`set_be!`] use the order that they name.
//!
//! ```rust
//! let mask: u8 = bittle::set![0, 2..=3, 6..];       // 0b1100_1101
//! let left: u8 = bittle::set_le![0, 1, 3];          // 0b1101_0000
//! let few: u128 = bittle::set![31, 67];
//! few.conjunction(bittle::set![31, 62]);            // the set of 31
//! ```
//!
//! # Iterators and joins
//!
//! An iterator yields the indexes of the set bits, or of the unset bits below the capacity. It can
//! be stepped from both ends.
//!
//! ```rust
//! let row: [u32; 4] = bittle::set![4, 67, 71, 127];
//! let mut mixed = 0;
//! for index in row.iter_ones() {
//!     mixed ^= index;                               // 4, 67, 71, 127
//! }
//! let mut walk = row.iter_ones();
//! walk.next();                                      // Some(4)
//! walk.next_back();                                 // Some(127)
//! 0b1101u8.iter_zeros().next();                     // Some(1)
//! row.first_one_in::<BigEndian>(5, 128);            // Some(67)
//! ```
//!
//! A join uses a set as a mask over the items of an iterator. It yields item `k` if bit `k` is set.
//!
//! ```rust
//! let mask: u8 = bittle::set![0, 2, 5];
//! mask.join_ones([10, 20, 30]);                     // yields 10, 30
//! ```
//!
//! # A set that remembers its order
//!
//! A [`Set`] remembers its order. It is compared and hashed by the indexes of its set bits, and
//! prints these indexes.
//!
//! ```rust
//! let set = Set::new_le(0b1101_0000u8);
//! set.test_bit(3);                                  // true
//! println!(rt; "{set:?}")?;                         // {0, 1, 3}
//! set.eq_bits(&Set::new(0b1011u16));                // true: each side is read in its own order
//! ```
//!
//! # Names
//!
//! A call whose name ends in `_in` takes the order as a type argument, as in
//! `test_bit_in::<LittleEndian>(3)`. Calls that end in `_le` and `_be` are short forms for the two
//! orders. A call without an ending uses the order of the type: [`BigEndian`], or the order that a
//! [`Set`] remembers. `join_ones` always uses [`BigEndian`].
//!
//! No call on a set is named `is_empty` or `len`, since slices have methods of these names. Call
//! `all_zeros`, `all_ones`, `count_ones` and `bits_capacity` instead.
#![tactic(auto)]

#[doc(hidden)]
pub mod macros;
pub mod prelude;
pub mod replay;
#[doc(hidden)]
pub mod set;

pub use bittle_bits::bits::Bits;
pub use bittle_bits::bits_mut::BitsMut;
pub use bittle_bits::bits_owned::BitsOwned;
pub use bittle_bits::endian::{BigEndian, DefaultEndian, Endian, LittleEndian};
pub use bittle_bits::shape::Shape;
pub use bittle_bits::{join, number, walk};
pub use set::Set;
