//! The extension traits of sets, for `use bittle_ext::prelude::*`.

pub use crate::binary_text::BitsTextExt;
pub use crate::bits_combine_ext::BitsCombineExt;
pub use crate::bits_copy_ext::BitsCopyExt;
pub use crate::bits_ext::BitsExt;
pub use crate::bits_index_ext::{BitsIndexExt, BitsIndexMutExt};
pub use crate::bits_mut_ext::BitsMutExt;
pub use crate::bits_number_ext::{BitsNumberExt, BitsNumberMutExt};
pub use crate::bits_owned_ext::BitsOwnedExt;
pub use crate::bits_range_ext::BitsRangeExt;
pub use crate::bits_rank_ext::BitsRankExt;
pub use crate::bits_relation_ext::BitsRelationExt;
pub use crate::bits_shift_ext::BitsShiftExt;
pub use crate::bits_span_ext::BitsSpanExt;
pub use crate::bits_span_mut_ext::BitsSpanMutExt;
pub use crate::views::in_order_mut::BitsMutViewExt;
pub use crate::views::{BitsViewExt, View};
