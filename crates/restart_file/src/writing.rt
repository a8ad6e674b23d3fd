//! Restart files are written.
ghost use Rattle.std.specs.Prelude.{◌≡◌, ◌<◌, ◌≤◌, ◌+◌, ◌++◌, [], ◌∷◌, All, IfErr, IfOk, List, MatchBool, OnOk, drop, length, true};
ghost use Rattle.mesh_names.specs.Names.{Name, depth};
ghost use Rattle.compat_check.specs.Meshes.{shape_of};
ghost use Rattle.restart_file.specs.Kept.{ArePast, IsKept};
ghost use Rattle.restart_file.specs.Trees.{Tree, bisected, word};
ghost use Rattle.restart_file.specs.Files.{IsPart, IsRestart, head_line};
ghost use Rattle.restart_file.specs.Walks.{IsLineDone};

use crate::refusal::RestartRefusal;
use crate::walk::next_after;
use compat_check::MacroMesh;
use mesh_io::put_whole;
use mesh_names::name::ElemName;
use std::alloc::{AllocError, Global};

// The line with the number of bytes of the macro part.
fn put_head(to: &mut Vec<u8>, count: usize) -> Result<(), RestartRefusal>
    requires { count ≤ 16777216 }
    ensures ok { OnOk result (to.new.items ≡ to.old.items ++ head_line count) }
    ensures err { IfErr result (λ r. r ≡ RestartRefusal.Memory) }
{
    to.extend_from_slice("restart: ".as_bytes())?;
    if put_whole(to, count as i64).is_err() {
        return Err(RestartRefusal::Memory);
    }
    to.extend_from_slice("\n".as_bytes())?;
    Ok(())
}

// Whether the name is the next of the members.
fn is_next(members: &[ElemName], next: usize, name: ElemName) -> bool
    ensures next { MatchBool result (drop next members.now ≡ name ∷ drop (next + 1) members.now) ((rest : List Name) → drop next members.now ≡ name ∷ rest → ⊥) }
    ensures within { result ≡ true → next < length members.now }
{
    if next >= members.len() {
        return false;
    }
    members[next] == name
}

// The line of an element, from the members that are next; answers how many members were before its end.
fn put_line(
    to: &mut Vec<u8>,
    root: u32,
    members: &[ElemName],
    first: usize,
) -> Result<usize, AllocError>
    requires root { root < 65535 }
    requires low { All (λ n. depth n < 24) members.now }
    requires first { first ≤ length members.now }
    ensures done { IfOk result (λ end. (t : Tree) (later : List Name) → drop first members.now ≡ bisected (root, []) t ++ later → ArePast root later → IsLineDone t later to.old.items to.new.items (drop end members.now)) }
    ensures within { IfOk result (λ end. end ≤ length members.now) }
{
    let mut at = Some(ElemName::top(root));
    let mut next = first;
    while let Some(name) = at {
        if is_next(members, next, name) {
            to.push(b'1')?;
            next += 1;
            at = Some(name.child_at(false));
        } else {
            to.push(b'0')?;
            at = next_after(name);
        }
    }
    to.push(b'\n')?;
    Ok(next)
}

/// The bytes of the restart file of a macro file, its mesh, and the members of a conforming forest
/// over it, in order. Takes one walk over the members.
pub fn put_restart(
    alloc: Global,
    macro_bytes: &[u8],
    mesh: &MacroMesh,
    members: &[ElemName],
) -> Result<Vec<u8>, RestartRefusal>
    requires part { IsPart macro_bytes.now mesh.now }
    requires members { IsKept (shape_of mesh.now) members.now }
    ensures ok { IfOk result (λ v. IsRestart v.items macro_bytes.now mesh.now members.now) }
    ensures err { IfErr result (λ r. r ≡ RestartRefusal.Memory) }
{
    let mut to = Vec::new(alloc);
    put_head(&mut to, macro_bytes.len())?;
    to.extend_from_slice(macro_bytes)?;
    let mut next = 0;
    for root in 0..mesh.element_count() {
        next = put_line(&mut to, root, members, next)?;
    }
    Ok(to)
}
