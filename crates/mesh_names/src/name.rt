//! Names of elements.
ghost use Rattle.std.specs.Prelude.{◌≡◌, ◌<◌, ◌≤◌, ◌^◌, [], ◌∷◌, MatchOption, option_map};
ghost use Rattle.std.proofs.Common.{rules};
ghost use Rattle.std.specs.Cmp.{partial_order_from_own_ties};
ghost use Rattle.std.specs.Cmp.Rules.{comparing};
ghost use Rattle.std.specs.Ordering.{as_partial_cmp};
ghost use Rattle.mesh_names.specs.Names.{bits_of, child_name, depth, letters, name_cmp, name_eq, parent_of};
ghost use Rattle.mesh_names.specs.Order.{ranked};

use std::cmp::Ordering;
use std::marker::Model;

/// A macro element's index, and the word that says which child was taken at each bisection.
///
/// There are at most 24 letters, of which the first is the highest of the `level` low bits.
/// Names are ordered by index, then letter by letter, a proper prefix first.
#[derive(Clone, Copy, Debug)]
pub struct ElemName {
    root: u32,
    level: u8,
    bits: u32,
}

impl Model for ElemName {
    ghost use Rattle.std.specs.Prelude.{◌<◌, ◌≤◌, ◌^◌, length};
    ghost use Rattle.mesh_names.specs.Names.{Name, letters, bits_of};
    ghost use Rattle.mesh_names.specs.Letters.{length-letters, bits-letters};

    ghost Value = { Name };

    ghost view = { λ n. (n.root, letters n.level n.bits) };

    ghost invariant = { λ n. (n.root < 65535) × (n.level ≤ 24) × (n.bits < 2 ^ n.level) };

    ghost inverse = { λ n. record { root = n.0; level = length n.1; bits = bits_of n.1 } };

    ghost inverse_ok = { λ n h i. record { root = n.root; level = length-letters n.level n.bits i; bits = bits-letters n.level n.bits h.2 i } };
}

impl ElemName {
    /// The name of a macro element.
    pub fn top(root: u32) -> ElemName
        requires { root < 65535 }
        ensures { result ≡ (root, []) }
    {
        ElemName {
            root,
            level: 0,
            bits: 0,
        }
    }

    /// The index of the macro element above or at this element.
    pub fn root(self) -> u32
        ensures root { result ≡ self.0 }
        ensures small { result < 65535 }
    {
        self.root
    }

    /// How many bisections lie between the macro element and this element, at most 24.
    pub fn depth(self) -> u8
        ensures depth { result ≡ depth self }
        ensures small { result ≤ 24 }
    {
        self.level
    }

    /// The letters as bits, of which the lowest is the last letter.
    pub fn bits(self) -> u32
        ensures bits { result ≡ bits_of self.1 }
        ensures small { result < 2 ^ depth self }
    {
        self.bits
    }

    /// The name of an element by its index, the number of its letters, and its letters as bits.
    pub fn of_bits(root: u32, depth: u8, bits: u32) -> ElemName
        requires { (root < 65535) × (depth ≤ 24) × (bits < 2 ^ depth) }
        ensures { result ≡ (root, letters depth bits) }
    {
        ElemName {
            root,
            level: depth,
            bits,
        }
    }

    /// Child 0 or child 1.
    pub fn child(self, side: u8) -> ElemName
        requires { (side < 2) × (depth self < 24) }
        ensures { result ≡ child_name self side }
    {
        self.child_at(side == 1)
    }

    /// The child on this side: child 0 for `false`, child 1 for `true`.
    pub fn child_at(self, side: bool) -> ElemName
        requires { depth self < 24 }
        ensures { result ≡ (self.0, side ∷ self.1) }
    {
        ElemName {
            root: self.root,
            level: self.level + 1,
            bits: self.bits * 2 + side as u32,
        }
    }

    /// The parent, and on which side of it this is; `None` at a macro element.
    pub fn split(self) -> Option<(ElemName, bool)>
        ensures { MatchOption result (self.1 ≡ []) (λ p. self ≡ (p.0.0, p.1 ∷ p.0.1)) }
    {
        if self.level == 0 {
            return None;
        }
        let parent = ElemName {
            root: self.root,
            level: self.level - 1,
            bits: self.bits / 2,
        };
        Some((parent, self.bits % 2 == 1))
    }

    /// The parent; `None` at a macro element.
    pub fn parent(self) -> Option<ElemName>
        ensures { result ≡ option_map (λ w. (self.0, w)) (parent_of self.1) }
    {
        match self.split() {
            None => None,
            Some((parent, _)) => Some(parent),
        }
    }
}

// Three numbers as one: of two such numbers that one is less whose first part is, or where those are equal the second, and then the third.
fn ranked(root: u32, front: u32, level: u8) -> u64
    requires { (root < 65535) × (front < 16777216) × (level < 32) }
    ensures { result ≡ ranked root front level }
{
    (root as u64 * 16_777_216 + front as u64) * 32 + level as u64
}

impl PartialEq for ElemName {
    ghost eq = { name_eq };

    ghost laws = { Prim.search (comparing, rules) };

    fn eq(&self, other: &ElemName) -> bool {
        self.cmp(other).is_eq()
    }
}

impl Eq for ElemName {
    ghost laws = { Prim.search (comparing, rules) };
}

impl Ord for ElemName {
    ghost cmp = { name_cmp };

    ghost total = { Prim.search (comparing, rules) };

    ghost matches_partial_cmp = { Prim.search (comparing, rules) };

    ghost matches_eq = { Prim.search (comparing, rules) };

    // Both words are moved to the front of 24 bits, so that they compare as numbers do.
    fn cmp(&self, other: &ElemName) -> Ordering {
        let front = self.bits << (24 - self.level);
        let other_front = other.bits << (24 - other.level);
        let rank = ranked(self.root, front, self.level);
        rank.cmp(&ranked(other.root, other_front, other.level))
    }
}

impl PartialOrd for ElemName {
    ghost partial_cmp = { as_partial_cmp name_cmp };

    ghost laws = { partial_order_from_own_ties (Prim.search (comparing, rules)) (Prim.search (comparing, rules)) };

    fn partial_cmp(&self, other: &ElemName) -> Option<Ordering> {
        Some(self.cmp(other))
    }
}
