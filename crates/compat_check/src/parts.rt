//! Elements in parts that hang together, with the differences of their grades: disjoint sets whose
//! members keep their height above the head of the set.
ghost use Rattle.std.specs.Prelude.{◌≡◌, ℕ, ℤ, pos, negsuc, ◌<◌, ◌≤◌, ◌+ℤ◌, ◌-ℤ◌, ◌≤ℤ◌, [], ◌∷◌, List, IfOk, MatchBool, length};

use std::alloc::{AllocError, Global};

/// Elements by parts. The grade of an element is that of its parent and its rise; a head is its own
/// parent. Ranks rise from child to parent, so that no way to a head is longer than a logarithm.
#[derive(Drop)]
pub(crate) struct Parts {
    parents: Vec<u32>,
    rises: Vec<i32>,
    ranks: Vec<u32>,
}

// A height and a rise, over another height.
fn above(height: i32, rise: i32, other: i32) -> i32
    requires height { (negsuc 65534 ≤ℤ height) × (height ≤ℤ pos 65535) }
    requires rise { (negsuc 0 ≤ℤ rise) × (rise ≤ℤ pos 1) }
    requires other { (negsuc 65534 ≤ℤ other) × (other ≤ℤ pos 65535) }
    ensures { result ≡ (height +ℤ rise) -ℤ other }
{
    height + rise - other
}

fn opposite(rise: i32) -> i32
    requires { (negsuc 0 ≤ℤ rise) × (rise ≤ℤ pos 1) }
    ensures { rise +ℤ result ≡ pos 0 }
{
    -rise
}

impl Parts {
    ghost use Rattle.compat_check.specs.Parts.{AreParts, AreSettled, Leads, Links, Rule, Satisfies, rank_of, size};

    /// Each element alone.
    pub(crate) fn new(alloc: Global, count: u32) -> Result<Parts, AllocError>
        ensures { IfOk result (λ parts. AreSettled count [] parts) }
    {
        let mut parents = Vec::new(alloc);
        parents.try_reserve(count as usize)?;
        for element in 0..count {
            parents.push(element)?;
        }
        let rises = vec![in alloc; 0; count as usize]?;
        let ranks = vec![in alloc; 0; count as usize]?;
        Ok(Parts {
            parents,
            rises,
            ranks,
        })
    }

    /// How many elements there are.
    pub(crate) fn size(&self) -> u32
        requires { size self.now ≤ 65535 }
        ensures { result ≡ size self.now }
    {
        self.parents.len() as u32
    }

    /// The head of an element's part, and how much its grade is above the head's.
    pub(crate) fn find(&self, element: u32) -> (u32, i32)
        requires element { element < size self.now }
        requires few { size self.now ≤ 65535 }
        requires parts { AreParts (size self.now) self.now }
        ensures found { (head : ℕ → ℕ) (height : ℕ → ℤ) → Leads (size self.now) self.now head height → (result.0 ≡ head element) × (result.1 ≡ height element) }
        ensures within { result.0 < size self.now }
        ensures low { rank_of self.now result.0 < size self.now }
        ensures small { (negsuc 65534 ≤ℤ result.1) × (result.1 ≤ℤ pos 65535) }
    {
        let mut at = element;
        let mut height = 0;
        while self.parents[at as usize] != at {
            height += self.rises[at as usize];
            at = self.parents[at as usize];
        }
        (at, height)
    }

    // Puts the part of one head under another head.
    fn link(&mut self, child: u32, top: u32, rise: i32)
        requires child { (child < size self.old) × (child < length self.old.rises.items) × (child < length self.old.ranks.items) }
        requires top { top < length self.old.ranks.items }
        requires low { rank_of self.old child < 65535 }
        ensures { Links self.old self.new child top rise }
    {
        self.parents[child as usize] = top;
        self.rises[child as usize] = rise;
        self.ranks[top as usize] = self.ranks[top as usize].max(self.ranks[child as usize] + 1);
    }

    /// Asks that the grade of one element is that of another and a rise from -1 to 1. Answers false
    /// where no grades meet this and all that was asked before.
    pub(crate) fn ask(&mut self, first: u32, second: u32, rise: i32) -> bool
        requires first { first < size self.old }
        requires second { second < size self.old }
        requires few { size self.old ≤ 65535 }
        requires rise { (negsuc 0 ≤ℤ rise) × (rise ≤ℤ pos 1) }
        requires parts { AreParts (size self.old) self.old }
        ensures { (rules : List Rule) → AreSettled (size self.old) rules self.old → MatchBool result (AreSettled (size self.old) ((first, second, rise) ∷ rules) self.new) ((g : ℕ → ℤ) → Satisfies g ((first, second, rise) ∷ rules) → ⊥) }
    {
        let (head, height) = self.find(first);
        let (other, other_height) = self.find(second);
        let first_above = above(other_height, rise, height);
        if head == other {
            return first_above == 0;
        }
        if self.ranks[head as usize] <= self.ranks[other as usize] {
            self.link(head, other, first_above);
            return true;
        }
        let turned = opposite(rise);
        self.link(other, head, above(height, turned, other_height));
        true
    }
}
