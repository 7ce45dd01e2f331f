//! The law that each number below the capacity of a set is a one (a set bit) or a zero (an unset
//! bit). It is the contract of a function that does nothing.

ghost use Rattle.bittle_laws.specs.CountLaws.{OnesAndZerosPartition};

/// States that every number below the capacity is a one or a zero of the set, and not both.
pub fn ones_and_zeros_partition()
    ensures { OnesAndZerosPartition }
{}
