//! Numbers of nodes and links, from 0, each a type of its own so that neither stands in the other's place.
//! Contracts see them as plain numbers.

ghost use Rattle.std.proofs.Common.{rules};
ghost use Rattle.std.specs.{Cmp.partial_order_from_own_ties, Cmp.Rules.comparing, Ordering.as_partial_cmp, Ordering.nat_cmp};
ghost use Rattle.std.specs.Prelude.{nat_eq};

use std::cmp::Ordering;
use std::marker::Model;

/// The number of a node of a graph, from 0.
#[derive(Clone, Copy, Default, PartialEq, Eq, PartialOrd, Ord)]
pub struct NodeNo(u16);

impl Model for NodeNo {
    ghost use Rattle.std.specs.Prelude.{ℕ};

    ghost Value = { ℕ };

    ghost view = { λ node. node.0 };

    ghost inverse = { λ number. record { 0 = number } };
}

impl NodeNo {
    ghost use Rattle.std.specs.Prelude.{◌≡◌, ◌<◌, ◌^◌};

    pub fn new(number: u16) -> NodeNo
        ensures { result ≡ number }
    {
        NodeNo(number)
    }

    pub fn get(&self) -> u16
        ensures value { result ≡ self.now }
        ensures small { self.now < 2 ^ 16 }
    {
        self.0
    }
}

/// The number of a link of a graph, from 0.
///
/// It stands as two bytes, the low one first, so that a row takes as many bytes in memory as in a file.
#[derive(Clone, Copy, Default)]
pub struct LinkNo {
    low: u8,
    high: u8,
}

impl Model for LinkNo {
    ghost use Rattle.std.specs.Prelude.{ℕ, [], ◌∷◌, slice_index_or};
    ghost use Rattle.std.proofs.Common.{ap, refl};
    ghost use Rattle.std.proofs.lemmas.Nat.{le_bytes_2};
    ghost use Rattle.mrt_graph.specs.steps.TwoBytes.{AreBytes, byte_of, two_byte_number};

    ghost Value = { ℕ };

    ghost view = { λ link. two_byte_number link.low link.high };

    ghost inverse = { λ number. record { low = byte_of number 0; high = byte_of number 1 } };

    ghost invariant = { λ link. AreBytes (link.low ∷ link.high ∷ []) };

    ghost inverse_ok = { λ link kept. ap (λ bytes. record { low = slice_index_or bytes 0 0; high = slice_index_or bytes 1 0 })
        (le_bytes_2 (link.low ∷ link.high ∷ []) (two_byte_number link.low link.high) refl kept refl) };
}

impl LinkNo {
    ghost use Rattle.std.specs.Prelude.{◌≡◌, ◌<◌, ◌^◌};

    pub fn new(number: u16) -> LinkNo
        ensures { result ≡ number }
    {
        let [low, high] = number.to_le_bytes();
        LinkNo { low, high }
    }

    pub fn get(&self) -> u16
        ensures value { result ≡ self.now }
        ensures small { self.now < 2 ^ 16 }
    {
        u16::from_le_bytes([self.low, self.high])
    }
}

impl PartialEq for LinkNo {
    ghost eq = { nat_eq };

    ghost laws = { Prim.search (comparing, rules) };

    fn eq(&self, other: &LinkNo) -> bool {
        self.get() == other.get()
    }
}

impl Eq for LinkNo {
    ghost laws = { Prim.search (comparing, rules) };
}

impl Ord for LinkNo {
    ghost cmp = { nat_cmp };

    ghost total = { Prim.search (comparing, rules) };

    ghost matches_partial_cmp = { Prim.search (comparing, rules) };

    ghost matches_eq = { Prim.search (comparing, rules) };

    fn cmp(&self, other: &LinkNo) -> Ordering {
        self.get().cmp(&other.get())
    }
}

impl PartialOrd for LinkNo {
    ghost partial_cmp = { as_partial_cmp nat_cmp };

    ghost laws = { partial_order_from_own_ties (Prim.search (comparing, rules)) (Prim.search (comparing, rules)) };

    fn partial_cmp(&self, other: &LinkNo) -> Option<Ordering> {
        Some(self.cmp(other))
    }
}
