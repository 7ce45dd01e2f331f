//! A set that always includes another set: all reserved seats of a hall are among the taken seats.
//! A ghost field of the type promises that. No function of the type has a proof file.

ghost use Rattle.std.specs.Prelude.{◌≡◌, ◌&&◌, fold, not, true, false, IfSome};
ghost use Rattle.bittle.specs.BitPatterns.{bit_set};
ghost use Rattle.bittle.specs.PlainSet.{complement, contains, with_index, without_index};
ghost use Rattle.bittle.specs.Searches.{IsFirstIn};
ghost use Rattle.bittle.specs.Rows.{row_set};
ghost use Rattle.bittle_ext.specs.ReservedSpans.{includes};

use bittle::{Bits, BitsMut};
use bittle_ext::{BitsExt, BitsMutExt};

/// A hall of 256 seats. The reserved ones count as taken.
#[derive(Drop)]
pub struct Seats {
    taken: [u64; 4],
    reserved: [u64; 4],
    pub ghost kept: { includes (row_set 4 64 (bit_set 64) taken)
        (row_set 4 64 (bit_set 64) reserved) ≡ true },
}

impl Seats {
    /// Returns a hall of which only the reserved seats are taken.
    #[tactic(auto, using(bittle_ext::proofs::IncludedSets::includes_itself))]
    pub fn new(reserved: [u64; 4]) -> Seats
        ensures taken { result.taken ≡ reserved }
        ensures reserved { result.reserved ≡ reserved }
    {
        Seats {
            taken: reserved,
            reserved,
        }
    }

    /// Takes the first free seat, which is never a reserved one. Returns `None` if all are taken.
    #[tactic(auto, using(bittle_ext::proofs::IncludedSets::includes_after_set, bittle_ext::proofs::IncludedSets::not_included_if_unset, bittle_ext::proofs::CallerMembers::unset_where_found))]
    pub fn take(&mut self) -> Option<u32>
        ensures first { IsFirstIn (complement (row_set 4 64 (bit_set 64) self.old.taken)) 0 256
            result }
        ensures free { IfSome result
            (λ seat. contains (row_set 4 64 (bit_set 64) self.old.reserved) seat ≡ false) }
        ensures taken { IfSome result (λ seat. row_set 4 64 (bit_set 64) self.new.taken
            ≡ with_index (row_set 4 64 (bit_set 64) self.old.taken) seat) }
        ensures reserved { self.new.reserved ≡ self.old.reserved }
    {
        let seat = self.taken.first_zero()?;
        self.taken.set_bit(seat);
        Some(seat)
    }

    /// Takes all seats of a list. Some of them may be taken already.
    #[tactic(auto, using(bittle_ext::proofs::IncludedSets::includes_after_all))]
    pub fn take_all(&mut self, seats: &[u32])
        ensures { row_set 4 64 (bit_set 64) self.new.taken
            ≡ fold with_index (row_set 4 64 (bit_set 64) self.old.taken) seats.now }
    {
        self.taken.insert_all(seats);
    }

    /// Gives a seat back, and returns whether it was taken. Returns `false` and changes nothing for
    /// a reserved seat.
    #[tactic(auto, using(bittle_ext::proofs::IncludedSets::includes_after_clear))]
    pub fn give_back(&mut self, seat: u32) -> bool
        ensures was { result ≡ (not (contains (row_set 4 64 (bit_set 64) self.old.reserved) seat)
            && contains (row_set 4 64 (bit_set 64) self.old.taken) seat) }
        ensures free { result ≡ true → row_set 4 64 (bit_set 64) self.new.taken
            ≡ without_index (row_set 4 64 (bit_set 64) self.old.taken) seat }
        ensures reserved { self.new.reserved ≡ self.old.reserved }
    {
        !self.reserved.test_bit(seat) && self.taken.remove(seat)
    }

    /// Returns whether a seat is taken. A reserved seat is always taken.
    #[tactic(auto, using(bittle_ext::proofs::IncludedSets::set_if_included))]
    pub fn is_taken(&self, seat: u32) -> bool
        ensures taken { result ≡ contains (row_set 4 64 (bit_set 64) self.now.taken) seat }
        ensures reserved { contains (row_set 4 64 (bit_set 64) self.now.reserved) seat ≡ true
            → contains (row_set 4 64 (bit_set 64) self.now.taken) seat ≡ true }
    {
        self.taken.test_bit(seat)
    }
}
