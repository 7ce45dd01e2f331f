//! Laws of how two sets of any shapes are ordered, tested for equality and hashed. Each function
//! does nothing, and its contract is the law.

ghost use Rattle.bittle_laws.specs.ComparisonLaws.{OrderIsTotal, OrderAgreesWithEquality};
ghost use Rattle.bittle_laws.specs.ComparisonLaws.{OrderReverses, EqualityIsSymmetric};
ghost use Rattle.bittle_laws.specs.ComparisonLaws.{EqualSetsFeedAlike};

/// States that the order of sets is total.
pub fn order_is_total()
    ensures { OrderIsTotal }
{}

/// States that two sets are equal exactly if the comparison of their order gives `Equal`.
pub fn order_agrees_with_equality()
    ensures { OrderAgreesWithEquality }
{}

/// States that the order of two sets, of any two shapes, is reversed if the two change places.
pub fn order_reverses()
    ensures { OrderReverses }
{}

/// States that the equality of two sets, of any two shapes, is symmetric.
pub fn equality_is_symmetric()
    ensures { EqualityIsSymmetric }
{}

/// States that equal sets feed the same numbers to a hasher.
pub fn equal_sets_feed_alike()
    ensures { EqualSetsFeedAlike }
{}
