//! The laws of the operations on two sets.
//!
//! The laws hold for plain sets (the sets of numbers in contracts) of the same capacity. The
//! contracts of calls such as `union` state results as plain sets, so the laws hold for the values
//! of an owned type too.

ghost use Rattle.bittle_laws.specs.AlgebraLaws.{Commutes, Associates, IsIdempotent};
ghost use Rattle.bittle_laws.specs.AlgebraLaws.{DistributesOver, UndoesItself};
ghost use Rattle.bittle.specs.SetOperations.{union_of, conjunction_of, symmetric_difference_of};

/// States that it does not matter which of two sets comes first in their union or conjunction.
pub fn union_and_conjunction_commute()
    ensures union { Commutes union_of }
    ensures conjunction { Commutes conjunction_of }
{}

/// States that in a union or a conjunction of three sets, it does not matter which two neighbours
/// are combined first.
pub fn union_and_conjunction_associate()
    ensures union { Associates union_of }
    ensures conjunction { Associates conjunction_of }
{}

/// States that the union of a set with itself is that set, and so is its conjunction with itself.
pub fn union_and_conjunction_are_idempotent()
    ensures union { IsIdempotent union_of }
    ensures conjunction { IsIdempotent conjunction_of }
{}

/// States that union distributes over conjunction, and conjunction over union.
pub fn union_and_conjunction_distribute()
    ensures union { DistributesOver conjunction_of union_of }
    ensures conjunction { DistributesOver union_of conjunction_of }
{}

/// States that the symmetric difference taken twice with the same second set gives the first set
/// back.
pub fn symmetric_difference_undoes_itself()
    ensures { UndoesItself symmetric_difference_of }
{}
