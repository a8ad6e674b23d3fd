//! The lines of elements are read.
ghost use Rattle.std.specs.Prelude.{◌≡◌, ◌<◌, ◌≤◌, ◌+◌, ◌++◌, [], ◌∷◌, IfErr, IfOk, MatchBool, OnOk, Some, drop, length, true};
ghost use Rattle.mesh_names.specs.Triangles.{size};
ghost use Rattle.compat_check.specs.Meshes.{shape_of};
ghost use Rattle.restart_file.specs.Walks.{HasByte, HasWords, coming};
ghost use Rattle.restart_file.specs.Lines.{IsLineRead, IsLineRefusal, MatchDeep};

use crate::refusal::RestartRefusal;
use crate::walk::next_after;
use compat_check::MacroMesh;
use mesh_names::name::ElemName;

/// The greatest level of a member.
const LAST_LEVEL: u32 = 23;

// Whether this byte stands at a place.
fn is_at(bytes: &[u8], place: usize, byte: u8) -> bool
    ensures next { MatchBool result (drop place bytes.now ≡ byte ∷ drop (place + 1) bytes.now) (HasByte byte (drop place bytes.now) → ⊥) }
    ensures within { result ≡ true → place < length bytes.now }
{
    if place >= bytes.len() {
        return false;
    }
    bytes[place] == byte
}

// How many elements are still to come at an element, with it.
fn count_coming(name: ElemName) -> usize
    ensures count { result ≡ length (coming (Some name)) }
    ensures few { result ≤ 25 }
{
    let _few = name.depth();
    let mut count = 1;
    let mut rest = name;
    while let Some((parent, side)) = rest.split() {
        if !side {
            count += 1;
        }
        rest = parent;
    }
    count
}

// Whether so many words and a newline stand at a place.
fn has_words(bytes: &[u8], first: usize, words: usize) -> bool
    requires first { first ≤ length bytes.now }
    requires few { words ≤ 25 }
    ensures { MatchBool result (HasWords words (drop first bytes.now)) (HasWords words (drop first bytes.now) → ⊥) }
{
    let mut count = words;
    let mut place = first;
    while count > 0 {
        let here = place;
        if is_at(bytes, here, b'1') {
            place = here + 1;
            count += 1;
        } else if is_at(bytes, here, b'0') {
            place = here + 1;
            count -= 1;
        } else {
            return false;
        }
    }
    is_at(bytes, place, b'\n')
}

// The refusal of an element whose word has a member of level above 23 at this place.
fn too_deep(bytes: &[u8], place: usize, name: ElemName) -> RestartRefusal
    requires { place ≤ length bytes.now }
    ensures { MatchDeep name.0 (HasWords (length (coming (Some name))) (drop place bytes.now)) result }
{
    let element = name.root();
    if has_words(bytes, place, count_coming(name)) {
        RestartRefusal::TooDeep { element }
    } else {
        RestartRefusal::BadWord { element }
    }
}

/// Reads the line of an element at a place: adds its members, in order, and answers where the line
/// ends. The refusals are `BadWord`, `TooDeep` and `Memory`.
pub(crate) fn read_line(
    mesh: &MacroMesh,
    bytes: &[u8],
    first: usize,
    root: u32,
    members: &mut Vec<ElemName>,
) -> Result<usize, RestartRefusal>
    requires root { root < size (shape_of mesh.now) }
    requires first { first ≤ length bytes.now }
    ensures ok { IfOk result (λ end. IsLineRead mesh.now root (drop first bytes.now) (drop end bytes.now) members.old.items members.new.items) }
    ensures within { IfOk result (λ end. end ≤ length bytes.now) }
    ensures refused { IfErr result (IsLineRefusal mesh.now root (drop first bytes.now)) }
{
    let _few = mesh.element_count();
    let mut at = Some(ElemName::top(root));
    let mut place = first;
    while let Some(name) = at {
        let here = place;
        if is_at(bytes, here, b'1') {
            if mesh.level(name) > LAST_LEVEL {
                return Err(too_deep(bytes, here, name));
            }
            add(members, name)?;
            place = here + 1;
            at = Some(name.child_at(false));
        } else if is_at(bytes, here, b'0') {
            place = here + 1;
            at = next_after(name);
        } else {
            return Err(RestartRefusal::BadWord { element: root });
        }
    }
    if is_at(bytes, place, b'\n') {
        Ok(place + 1)
    } else {
        Err(RestartRefusal::BadWord { element: root })
    }
}

fn add(members: &mut Vec<ElemName>, name: ElemName) -> Result<(), RestartRefusal>
    ensures ok { OnOk result (members.new.items ≡ members.old.items ++ name ∷ []) }
    ensures err { IfErr result (λ r. r ≡ RestartRefusal.Memory) }
{
    if members.push(name).is_err() {
        return Err(RestartRefusal::Memory);
    }
    Ok(())
}
