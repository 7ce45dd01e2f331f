//! Uses of the macros `set!`, `set_le!` and `set_be!` with lists of indexes, without ranges. Each
//! function `listed_*` returns the three sets that the macros make from one list. For each form of
//! index, some list has two indexes of that form side by side.

ghost use Rattle.std.specs.Prelude.{◌≡◌, ◌+◌, ◌<◌, IsTrue, slice_index};
ghost use Rattle.bittle.specs.Values.{set_mirrored};
ghost use Rattle.bittle_uses.specs.MacroLists.{AreListed, listed_two_set, listed_three_set};
ghost use Rattle.bittle_uses.specs.MacroLists.{listed_four_set};

use bittle::BitsOwned;

// Expands to the sets that `set!`, `set_le!` and `set_be!` make of one list.
macro_rules! by_each {
    ($($list:tt)*) => {
        (bittle::set![$($list)*], bittle::set_le![$($list)*], bittle::set_be![$($list)*])
    };
}

/// A place with a number.
#[derive(Drop)]
pub struct Place {
    /// The number.
    pub x: u32,
}

impl Place {
    /// Returns the number.
    pub fn number(&self) -> u32
        ensures { result ≡ self.now.x }
    {
        self.x
    }
}

/// A module with a constant, so that a path can name an index.
pub mod numbers {
    /// The number.
    pub const SEVEN: u32 = 7;
}

// Expands to its argument.
macro_rules! its {
    ($index:expr) => {
        $index
    };
}

/// Returns its argument.
pub fn same(index: u32) -> u32
    ensures { result ≡ index }
{
    index
}

/// Lists two names beside one another, and then a call.
pub fn listed_names<B: BitsOwned>(a: u32, b: u32, c: u32) -> (B, B, B)
    requires { IsTrue B.indexable }
    ensures { AreListed (set_mirrored B.Shape) B.Order.Endian.mirrored result
        (listed_three_set B.type_capacity a b c) }
{
    by_each![a, b, same(c)]
}

/// Lists two calls, and then two indexes in parentheses.
pub fn listed_calls_twice<B: BitsOwned>(a: u32, b: u32, c: u32, d: u32) -> (B, B, B)
    requires { IsTrue B.indexable }
    ensures { AreListed (set_mirrored B.Shape) B.Order.Endian.mirrored result
        (listed_four_set B.type_capacity a b c d) }
{
    by_each![same(a), same(b), (c), (d)]
}

/// Lists two fields, and then two casts.
pub fn listed_fields_twice<B: BitsOwned>(p: Place, q: Place, a: u8, b: u8) -> (B, B, B)
    requires { IsTrue B.indexable }
    ensures { AreListed (set_mirrored B.Shape) B.Order.Endian.mirrored result
        (listed_four_set B.type_capacity p.x q.x a b) }
{
    by_each![p.x, q.x, a as u32, b as u32]
}

/// Lists two calls of methods beside one another.
pub fn listed_methods<B: BitsOwned>(p: Place, q: Place) -> (B, B, B)
    requires { IsTrue B.indexable }
    ensures { AreListed (set_mirrored B.Shape) B.Order.Endian.mirrored result
        (listed_two_set B.type_capacity p.x q.x) }
{
    by_each![p.number(), q.number()]
}

/// Makes a set by each macro from four indexes: two macro calls, and then two blocks.
pub fn listed_groups_twice<B: BitsOwned>(a: u32, b: u32, c: u32) -> (B, B, B)
    requires { IsTrue B.indexable }
    ensures { AreListed (set_mirrored B.Shape) B.Order.Endian.mirrored result
        (listed_four_set B.type_capacity a b c a) }
{
    by_each![its!(a), its!(b), { c }, { a }]
}

/// Lists two elements of an array, and then two dereferences.
pub fn listed_places_twice<B: BitsOwned>(a: [u32; 2], b: &u32, c: &u32) -> (B, B, B)
    requires { IsTrue B.indexable }
    ensures { AreListed (set_mirrored B.Shape) B.Order.Endian.mirrored result
        (listed_four_set B.type_capacity (slice_index a 0) (slice_index a 1) b.now c.now) }
{
    by_each![a[0], a[1], *b, *c]
}

/// Lists a path twice, and then two sums.
pub fn listed_terms_twice<B: BitsOwned>(a: u32, b: u32) -> (B, B, B)
    requires indexable { IsTrue B.indexable }
    requires first_small { a < 4294967295 }
    requires second_small { b < 4294967295 }
    ensures { AreListed (set_mirrored B.Shape) B.Order.Endian.mirrored result
        (listed_four_set B.type_capacity 7 7 (1 + a) (1 + b)) }
{
    by_each![numbers::SEVEN, numbers::SEVEN, 1 + a, 1 + b]
}
