//! The law of the increasing list of a set, as the contract of a function that does nothing.

ghost use Rattle.bittle_laws.specs.ListLaws.{ListsIncrease};

/// States that the list of the members is increasing, and contains exactly the members.
pub fn lists_increase()
    ensures { ListsIncrease }
{}
