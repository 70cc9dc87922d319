//! Sets of trustees.

ghost use Rattle.std.specs.Prelude.{◌≡◌, ◌↔◌, ◌^◌, ◌<◌, ◌≤◌, length, nat_eq, IsTrue, Contains};
ghost use Rattle.std.specs.Cmp.{partial_equiv_from_equiv};
ghost use Rattle.std.specs.Cmp.Lexicographic.{nat_list_eq_equiv, pointwise};
ghost use Rattle.coalition_map.specs.Members.{member_numbers, bits_of};

use std::marker::Model;

/// A set of trustees of the numbers 1 to 16, which contracts see as the list of them in ascending order.
#[derive(Clone, Copy, Debug)]
pub struct Members {
    bits: u16,
}

impl Model for Members {
    ghost use Rattle.std.specs.Prelude.{ℕ, List, ◌^◌, ◌<◌};
    ghost use Rattle.coalition_map.specs.Members.{member_numbers, bits_of};

    ghost Value = { List ℕ };

    ghost use Rattle.coalition_map.specs.MembersInside.{comes_back};

    ghost view = { λ m. member_numbers m.bits };

    ghost invariant = { λ m. m.bits < 2 ^ 16 };

    ghost inverse = { λ trustees. record { bits = bits_of trustees } };

    ghost inverse_ok = { λ m small. comes_back m small };
}

impl PartialEq for Members {
    ghost eq = { pointwise nat_eq };

    ghost laws = { partial_equiv_from_equiv nat_list_eq_equiv };

    fn eq(&self, other: &Members) -> bool {
        self.bits == other.bits
    }
}

impl Eq for Members {
    ghost laws = { nat_list_eq_equiv };
}

impl Members {
    /// The set of these bits: trustee `t` is in it if bit `t - 1` is set.
    pub fn of_bits(bits: u16) -> Members
        ensures { result ≡ member_numbers bits }
    {
        Members { bits }
    }

    /// Its bits.
    pub fn bits(&self) -> u16
        ensures value { result ≡ bits_of self.now }
        ensures same { self.now ≡ member_numbers result }
    {
        self.bits
    }

    /// Whether trustee `t` is in it.
    pub fn has(&self, t: u8) -> bool
        ensures { IsTrue result ↔ Contains self.now t }
    {
        // No trustee has number 0, which wraps to a place past the last.
        let place = t.wrapping_sub(1);
        place < 16 && (self.bits >> place) & 1 == 1
    }

    /// How many trustees are in it.
    pub fn size(&self) -> u8
        ensures number { result ≡ length self.now }
        ensures bound { result ≤ 16 }
    {
        self.bits.count_ones() as u8
    }
}
