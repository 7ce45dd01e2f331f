//! The twelve integers as words.

mod int128;
mod int16;
mod int32;
mod int64;
mod int8;
mod int_size;
