//! Walks up from a name, no further than the answer needs, and along its letters.
ghost use Rattle.std.specs.Prelude.{◌≡◌, ◌<◌, ◌≤◌, ◌+◌, ◌-◌, ◌^◌, ◌++◌, ◌∷◌, Bool, List, cond, drop, length};
ghost use Rattle.mesh_names.specs.Names.{bits_of, depth};
ghost use Rattle.compat_check.specs.Climbing.{Climbs, IsEnd, moved, place_above};

use mesh_names::name::ElemName;

// The element above, or the same, below which the letters differ in pairs: each such pair leads to
// a part of the refinement edge above, in the middle of its element.
pub(crate) fn climbed(name: ElemName) -> ElemName
    ensures climbs { Climbs name result }
    ensures end { IsEnd result.1 }
{
    let mut at = name;
    while let Some((parent, last)) = at.split() {
        let here = at;
        let Some((above, before)) = parent.split() else {
            return here;
        };
        if before == last {
            return here;
        }
        at = above;
    }
    at
}

// How many letters lie between two names, and these letters as bits.
fn passed(name: ElemName, top: ElemName) -> (u8, u32)
    requires { Climbs name top }
    ensures { (v : List Bool) → name ≡ (top.0, v ++ top.1) → (result.0 ≡ length v) × (result.1 ≡ bits_of v) }
{
    let letters = name.depth() - top.depth();
    (letters, name.bits() - (top.bits() << letters))
}

// So many letters, or the other ones where the edge is turned, as bits.
fn turned_letters(letters: u8, bits: u32, turned: bool) -> u32
    requires few { letters ≤ 24 }
    requires bits { bits < 2 ^ letters }
    ensures { result ≡ cond turned (2 ^ letters - 1 - bits) bits }
{
    if turned {
        (1 << letters) - 1 - bits
    } else {
        bits
    }
}

// The name that is below `other` as `name` is below `top`, by the other letters where it is turned.
pub(crate) fn moved(other: ElemName, turned: bool, name: ElemName, top: ElemName) -> ElemName
    requires climbs { Climbs name top }
    requires low { depth other + depth name ≤ 24 + depth top }
    ensures { (v : List Bool) → name ≡ (top.0, v ++ top.1) → result ≡ moved v turned other }
{
    let (letters, passed) = passed(name, top);
    let below = turned_letters(letters, passed, turned);
    let bits = (other.bits() << letters) + below;
    ElemName::of_bits(other.root(), other.depth() + letters, bits)
}

// The letter of a name that follows so many first ones.
pub(crate) fn letter_after(name: ElemName, first: u8) -> bool
    requires { first < depth name }
    ensures { drop (depth name - (first + 1)) name.1 ≡ result ∷ drop (depth name - first) name.1 }
{
    (name.bits() >> (name.depth() - first - 1)) % 2 == 1
}

// Which corner of the parent a corner of a child is, where it is not the newest.
pub(crate) fn place_above(corner: u8, side: bool) -> u8
    requires { corner < 2 }
    ensures { result ≡ place_above corner side }
{
    if corner == 0 {
        if side { 1 } else { 2 }
    } else if side {
        2
    } else {
        0
    }
}
