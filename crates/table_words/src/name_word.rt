//! NAME words.
ghost use Rattle.std.specs.Prelude.{◌≡◌, IfSome};
ghost use Rattle.table_words.specs.NameWords.{IsNameWord, IsRooted, name_of, name_word};

use mesh_names::name::ElemName;

/// The word of a member: 0 where there is none, else 1 and the name's root in bits 29 and above,
/// its depth in bits 24 to 28 and its letters in the bits below.
pub fn spell_name(name: Option<ElemName>) -> u64
    requires { IfSome name IsRooted }
    ensures { result ≡ name_word name }
{
    match name {
        None => 0,
        Some(name) => {
            1 + u64::from(name.root()) * 536870912
                + u64::from(name.depth()) * 16777216
                + u64::from(name.bits())
        }
    }
}

/// The name that a word spells; `None` for 0.
pub fn read_name(word: u64) -> Option<ElemName>
    requires { IsNameWord word }
    ensures { result ≡ name_of word }
{
    if word == 0 {
        return None;
    }
    let spelled = word - 1;
    Some(ElemName::of_bits(
        (spelled / 536870912) as u32,
        (spelled / 16777216 % 32) as u8,
        (spelled % 16777216) as u32,
    ))
}
