//! Items for the project's own crates, and for no other crate. They are used by `Set` in `bittle`,
//! by the everyday calls in `bittle_ext`, by the sets with a summary in `bittle_tiers`, and by
//! tests.

pub use crate::end::{Back, End, Front, words_at_end};
pub use crate::fixed_capacity::FixedCapacity;
pub use crate::integer::Integer;
pub use crate::internal::buffer::Count;
pub use crate::internal::by_fours::first_in_words;
pub use crate::internal::decided::{first_decided_below, first_decided_in_first_words};
pub use crate::internal::range_count::count_ones as count_ones_in_range;
pub use crate::internal::sealed::Sealed;
pub use crate::internal::search::{end_in, first_from, last_of};
pub use crate::internal::source::{OwnedSource, word_of_kind};
pub use crate::kind::{Kind, Ones, Zeros, bits_of_kind};
pub use crate::one_word::{all_zeros as is_without_bits, pop, range, test_bit};
pub use crate::operation::{
    Conjunction, Difference, Operation, RangeOperation, SymmetricDifference, Union,
};
pub use crate::read_words::{ReadWords, are_alike, word_width};
pub use crate::walk::Counted;
pub use crate::word::Word;
