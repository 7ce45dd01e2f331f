//! Calls that read no index, over any set, with contracts in the set's own bit order.

ghost use Rattle.std.specs.Prelude.{◌≡◌, ◌==◌, IsTrue};
ghost use Rattle.bittle.specs.PlainSet.{empty_set, full_set, size, without_members};
ghost use Rattle.bittle.specs.SetOperations.{difference_of, union_of};
ghost use Rattle.bittle.specs.Shapes.{Fits};
ghost use Rattle.bittle.specs.Values.{set_in, ShapeFits};

use bittle::{Bits, BitsMut, BitsOwned};

/// The tasks that are waiting, kept in any owned set.
#[derive(Drop)]
pub struct Waiting<B: BitsOwned> {
    tasks: B,
    pub ghost fits: { Fits B.indexable B.type_capacity },
}

impl<B: BitsOwned> Waiting<B> {
    /// Returns a value in which no task waits.
    pub fn none() -> Waiting<B>
        requires { IsTrue B.indexable }
        ensures { set_in B.Shape B.Order.Endian result.tasks ≡ empty_set B.type_capacity }
    {
        Waiting { tasks: B::zeros() }
    }

    /// Returns a value in which each task waits.
    pub fn all() -> Waiting<B>
        requires { IsTrue B.indexable }
        ensures { set_in B.Shape B.Order.Endian result.tasks ≡ full_set B.type_capacity }
    {
        Waiting { tasks: B::ones() }
    }

    /// Returns how many tasks wait.
    pub fn count(&self) -> u32
        ensures { result ≡ size (set_in B.Shape B.Order.Endian self.now.tasks) }
    {
        self.tasks.count_ones()
    }

    /// Returns whether no task waits.
    pub fn is_empty(&self) -> bool
        ensures { result ≡ (size (set_in B.Shape B.Order.Endian self.now.tasks) == 0) }
    {
        self.tasks.all_zeros()
    }

    /// Lets the tasks of `more` wait, too.
    pub fn add_all(&mut self, more: &B)
        ensures { set_in B.Shape B.Order.Endian self.new.tasks
            ≡ union_of (set_in B.Shape B.Order.Endian self.old.tasks)
            (set_in B.Shape B.Order.Endian more.now) }
    {
        self.tasks.union_assign(more);
    }

    /// Ends the wait of all tasks.
    pub fn release(&mut self)
        ensures { set_in B.Shape B.Order.Endian self.new.tasks
            ≡ without_members (set_in B.Shape B.Order.Endian self.old.tasks) }
    {
        self.tasks.clear_bits();
    }

    /// Returns the tasks that wait here and not in `other`.
    pub fn only_here(&self, other: &Waiting<B>) -> B
        ensures { set_in B.Shape B.Order.Endian result
            ≡ difference_of (set_in B.Shape B.Order.Endian self.now.tasks)
            (set_in B.Shape B.Order.Endian other.now.tasks) }
    {
        self.tasks.difference(other.tasks)
    }
}

/// Returns how many bits of a set are set, for a set of any shape.
pub fn members<B: Bits>(set: &B) -> u32
    requires { ShapeFits B.Shape set.now }
    ensures { result ≡ size (set_in B.Shape B.Order.Endian set.now) }
{
    set.count_ones()
}
