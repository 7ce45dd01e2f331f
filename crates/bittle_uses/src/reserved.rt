//! A set in which some bits are always set, such as the reserved addresses of an allocator. Ghost
//! fields of the type promise that these bits are set. No function has a proof file.

ghost use Rattle.std.specs.Prelude.{◌≡◌, ◌+◌, ◌<◌, ◌≤◌, true, false, IfSome, IsTrue};
ghost use Rattle.bittle.specs.BitPatterns.{bit_set};
ghost use Rattle.bittle.specs.PlainSet.{contains, empty_set, with_span, without_index};
ghost use Rattle.bittle.specs.Rows.{row_set};
ghost use Rattle.bittle_ext.specs.ReservedSpans.{has_span};

use bittle::{BitsMut, BitsOwned};
use bittle_ext::{BitsExt, BitsMutExt};

/// Leases of 256 addresses. The first ten and the last six are reserved, and count as leased.
pub struct Leases {
    leased: [u64; 4],
    pub ghost first: { has_span (row_set 4 64 (bit_set 64) leased) 0 10 ≡ true },
    pub ghost last: { has_span (row_set 4 64 (bit_set 64) leased) 250 256 ≡ true },
}

impl Leases {
    /// Returns leases in which only the reserved addresses count as leased.
    #[tactic(auto, using(bittle_ext::proofs::CallerSpans::has_span_after_set_span, bittle_ext::proofs::CallerSpans::has_span_after_other_span))]
    pub fn new() -> Leases
        ensures { row_set 4 64 (bit_set 64) result.leased
            ≡ with_span (with_span (empty_set 256) 0 10) 250 256 }
    {
        let mut leased = <[u64; 4]>::zeros();
        leased.set_range(0, 10);
        leased.set_range(250, 256);
        Leases { leased }
    }

    /// Leases the least free address. If none is free, it changes nothing and returns `None`.
    #[tactic(auto, using(bittle::proofs::CallerChanges::contains_after_set, bittle_ext::proofs::CallerSpans::has_span_after_set, bittle_ext::proofs::CallerMembers::unset_where_found))]
    pub fn lease(&mut self) -> Option<u32>
        ensures not_reserved { IfSome result (λ address. (10 ≤ address) × (address < 250)) }
        ensures was_free { IfSome result
            (λ address. contains (row_set 4 64 (bit_set 64) self.old.leased) address ≡ false) }
        ensures is_leased { IfSome result
            (λ address. contains (row_set 4 64 (bit_set 64) self.new.leased) address ≡ true) }
    {
        let address = self.leased.first_zero_in_range(10, 250)?;
        self.leased.set_bit(address);
        Some(address)
    }

    /// Releases `address`, and returns whether it was leased. For a reserved address, and for an
    /// address of 256 or more, it returns `false` and changes nothing.
    #[tactic(auto, using(bittle_ext::proofs::CallerSpans::has_span_after_clear, bittle_ext::proofs::CallerSpans::has_span_after_clear_past))]
    pub fn release(&mut self, address: u32) -> bool
        ensures was_leased { 10 ≤ address → address < 250
            → result ≡ contains (row_set 4 64 (bit_set 64) self.old.leased) address }
        ensures not_reserved { IsTrue result → (10 ≤ address) × (address < 250) }
        ensures is_free { 10 ≤ address → address < 250
            → row_set 4 64 (bit_set 64) self.new.leased
            ≡ without_index (row_set 4 64 (bit_set 64) self.old.leased) address }
        ensures reserved_stays { (address < 10 → self.new.leased ≡ self.old.leased)
            × (250 ≤ address → self.new.leased ≡ self.old.leased) }
    {
        10 <= address && address < 250 && self.leased.remove(address)
    }

    /// Returns the address at which the first run of `length` free addresses begins, or `None` if
    /// there is no such run. No address of the run is reserved.
    pub fn first_run(&self, length: u32) -> Option<u32>
        ensures { IfSome result (λ address. address + length ≤ 250) }
    {
        self.leased.first_zero_run_in_range(10, 250, length)
    }
}
