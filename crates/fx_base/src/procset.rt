ghost use Rattle.std.specs.Prelude.{◌≡◌, ◌<◌, IfSome, IfNone};
ghost use Rattle.std.specs.FinSet as set;
ghost use Rattle.fx_base.specs.Sets.{IsLeastOf, IsBelow};

use std::marker::Model;

/// A set of numbers from 0 to 31, as of the processes that a process knows to be lost.
#[derive(Clone, Copy, Debug, PartialEq, Eq)]
pub struct ProcSet {
    bits: u32,
}

impl Model for ProcSet {
    ghost use Rattle.std.specs.Prelude.{◌<◌, ◌^◌};
    ghost use Rattle.std.specs.Ordering.{nat_cmp};
    ghost use Rattle.std.specs.FinSet as set;
    ghost use Rattle.std.specs.Coded.{coded_ℕ};
    ghost use Rattle.fx_base.specs.Sets.{set_below, has_bit, number_with};
    ghost use Rattle.std.proofs.Common.{ap};
    ghost use Rattle.fx_base.specs.SetFields.{number_again};

    ghost Value = { set.FinSet nat_cmp };

    ghost coded = { set.code coded_ℕ };

    ghost view = { λ s. set_below (has_bit s.bits) 32 };

    ghost invariant = { λ s. s.bits < 2 ^ 32 };

    ghost inverse = { λ s. record { bits = number_with (set.contains s) 32 } };

    ghost inverse_ok = { λ s h. ap (λ n. record { bits = n }) (number_again s.bits h) };
}

impl ProcSet {
    /// The empty set.
    pub fn new() -> ProcSet
        ensures { result ≡ set.empty }
    {
        ProcSet { bits: 0 }
    }

    /// Adds a number from 0 to 31.
    pub fn insert(&mut self, n: u8)
        requires { n < 32 }
        ensures { self.new ≡ set.insert self.old n }
    {
        self.bits |= 1 << n;
    }

    /// Takes a number from 0 to 31 out.
    pub fn remove(&mut self, n: u8)
        requires { n < 32 }
        ensures { self.new ≡ set.remove self.old n }
    {
        self.bits &= !(1 << n);
    }

    /// Whether a number from 0 to 31 is in the set. Each member is below 32.
    pub fn has(&self, n: u8) -> bool
        requires { n < 32 }
        ensures member { result ≡ set.contains self.now n }
        ensures below { IsBelow 32 self.now }
    {
        (self.bits >> n) & 1 == 1
    }

    /// What is in either set. Each member is below 32.
    pub fn union(&self, other: ProcSet) -> ProcSet
        ensures union { result ≡ set.union self.now other }
        ensures below { IsBelow 32 result }
    {
        ProcSet {
            bits: self.bits | other.bits,
        }
    }

    /// What is in this set and not in the other. Each member of this one is below 32.
    pub fn difference(&self, other: ProcSet) -> ProcSet
        ensures difference { result ≡ set.difference self.now other }
        ensures below { IsBelow 32 self.now }
    {
        ProcSet {
            bits: self.bits & !other.bits,
        }
    }

    /// The number of members, from 0 to 32. Each is below 32.
    pub fn count(&self) -> u8
        ensures members { result ≡ set.len self.now }
        ensures below { IsBelow 32 self.now }
    {
        self.bits.count_ones() as u8
    }

    /// The least member, which is below 32; `None` exactly where the set is empty.
    pub fn least(&self) -> Option<u8>
        ensures least { IfSome result (IsLeastOf self.now) }
        ensures below { IfSome result (λ n. n < 32) }
        ensures none { IfNone result (self.now ≡ set.empty) }
    {
        if self.bits == 0 {
            return None;
        }
        Some(self.bits.trailing_zeros() as u8)
    }
}
