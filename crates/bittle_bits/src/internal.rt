//! The parts that the public modules are built on. [`extension`](crate::extension) exports those
//! parts that the project's other crates need.

pub(crate) mod buffer;
pub(crate) mod by_fours;
pub(crate) mod cursor;
pub(crate) mod decided;
pub(crate) mod ends;
pub(crate) mod halves;
pub(crate) mod range_count;
pub(crate) mod row;
pub(crate) mod sealed;
pub(crate) mod search;
pub(crate) mod source;
