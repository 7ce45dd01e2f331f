//! Everyday calls on any set, in addition to those of `bittle`. They find the first and the last
//! set or unset bit, and the next and the previous one from an index. They change a bit and return
//! whether it changed, change a range at once, remove the first or last set bit, and flip all bits.
//! They make a set from a list of indexes, and iterate over a range and over runs.
//!
//! The calls are in extension traits. Every set has the traits whose calls read it. A set that can
//! be changed also has those whose calls change it, and an owned set those whose calls make a set.
//! The calls are proved from contracts alone: from those that users see, and from those of
//! `bittle_bits::extension`, which is for the crates of this project. The twelve integer types, the
//! orders, searches, iterators, joins and the operations on two sets are in `bittle`. A call uses
//! the bit order of the set's type. For another order, make the call on the view that
//! [`in_order`](BitsViewExt::in_order) or [`in_order_mut`](BitsMutViewExt::in_order_mut) returns,
//! or wrap an owned set in a `Set`, which remembers its order.
//!
//! ```rust
//! use bittle::prelude::*;
//! use bittle::{LittleEndian, Set};
//! use bittle_ext::prelude::*;
//!
//! let mut word = 0b0010_0010u8;
//! word.first_one();                 // Some(1)
//! word.next_one(2);                 // Some(5)
//! word.rank(5);                     // 1
//! word.is_subset(&0x1F22u16);       // true
//! word.insert(0);                   // true: it was unset
//! word.set_range(2, 4);             // 0b0010_1111
//! word.pop_last();                  // Some(5)
//! word.iter_zero_runs();            // yields 4..8
//! u8::from_iter(2..4).complement(); // 0b1111_0011
//!
//! let view = word.in_order::<LittleEndian>();
//! view.first_one();                 // Some(4)
//! word.in_order_mut::<LittleEndian>().insert(0); // true: word is 0b1000_1111
//! Set::new_le(word).rotated_up(1);  // the set of 0, 1, 5, 6, 7
//! ```
#![tactic(auto)]

// A file `bits_.._ext` has the extension trait of its name, `binary_text` has `BitsTextExt`, and
// `views` has the views and their traits. A file `.._laws` states a law, and `prelude` exports the
// traits. Each other file has the functions of one subject, which the traits call.
pub mod binary_text;
mod bits_combine_ext;
mod bits_copy_ext;
mod bits_ext;
mod bits_index_ext;
mod bits_mut_ext;
mod bits_number_ext;
mod bits_owned_ext;
mod bits_range_ext;
mod bits_rank_ext;
mod bits_relation_ext;
mod bits_shift_ext;
mod bits_span_ext;
mod bits_span_mut_ext;
mod capacities;
mod combinations;
mod copies;
mod counts;
mod in_place_rotations;
mod inserted;
mod numbers;
mod one_bit;
mod other_words;
pub mod prelude;
pub mod range_iterators;
#[doc(hidden)]
pub mod rank_laws;
mod relations;
mod retained;
mod rotations;
pub mod run_iterators;
#[doc(hidden)]
pub mod run_laws;
mod runs;
mod select;
mod shifts;
mod short_runs;
mod spans;
pub mod views;

pub use binary_text::BitsTextExt;
pub use bits_combine_ext::BitsCombineExt;
pub use bits_copy_ext::BitsCopyExt;
pub use bits_ext::BitsExt;
pub use bits_index_ext::{BitsIndexExt, BitsIndexMutExt};
pub use bits_mut_ext::BitsMutExt;
pub use bits_number_ext::{BitsNumberExt, BitsNumberMutExt};
pub use bits_owned_ext::BitsOwnedExt;
pub use bits_range_ext::BitsRangeExt;
pub use bits_rank_ext::BitsRankExt;
pub use bits_relation_ext::BitsRelationExt;
pub use bits_shift_ext::BitsShiftExt;
pub use bits_span_ext::BitsSpanExt;
pub use bits_span_mut_ext::BitsSpanMutExt;
pub use views::in_order_mut::BitsMutViewExt;
pub use views::{BitsViewExt, View};
