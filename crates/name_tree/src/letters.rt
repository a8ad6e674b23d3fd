//! The first letters of names.
ghost use Rattle.std.specs.Prelude.{◌≡◌, ◌-◌, ◌<◌, ◌≤◌, ◌∷◌, IfSome};
ghost use Rattle.mesh_names.specs.Names.{depth};
ghost use Rattle.name_tree.specs.Letters.{first_letters};

use mesh_names::name::ElemName;

/// The name of the element above, or the same, that has so many letters.
pub(crate) fn first_letters(name: ElemName, letters: u8) -> ElemName
    requires { letters ≤ depth name }
    ensures { result ≡ first_letters name letters }
{
    let bits = name.bits() >> (name.depth() - letters);
    ElemName::of_bits(name.root(), letters, bits)
}

/// The last of so many first letters of a name.
pub(crate) fn letter(name: ElemName, letters: u8) -> bool
    requires some { 0 < letters }
    requires within { letters ≤ depth name }
    ensures { (first_letters name letters).1 ≡ result ∷ (first_letters name (letters - 1)).1 }
{
    match first_letters(name, letters).split() {
        Some((_, last)) => last,
        None => false,
    }
}

/// How many first letters the two names have in common; none where their macro elements differ.
pub(crate) fn common_letters(one: ElemName, other: ElemName) -> Option<u8>
    ensures within { IfSome result (λ k. (k ≤ depth one) × (k ≤ depth other)) }
    ensures same { IfSome result (λ k. first_letters one k ≡ first_letters other k) }
{
    let depth = one.depth().min(other.depth());
    let apart = first_letters(one, depth).bits() ^ first_letters(other, depth).bits();
    let letters = depth.saturating_sub((32 - apart.leading_zeros()) as u8);
    if first_letters(one, letters) == first_letters(other, letters) {
        Some(letters)
    } else {
        None
    }
}
