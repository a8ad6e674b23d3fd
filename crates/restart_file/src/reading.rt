//! Restart files are read.
ghost use Rattle.std.specs.Prelude.{◌≡◌, ◌<◌, ◌≤◌, IfErr, IfOk, MatchBool, MatchOption, Ok, length};
ghost use Rattle.std.specs.List.Sorted.{IsStrictlySortedBy};
ghost use Rattle.mesh_names.specs.Names.{name_cmp};
ghost use Rattle.mesh_names.specs.Triangles.{level, size};
ghost use Rattle.mesh_names.specs.Forests.{IsForest};
ghost use Rattle.macro_file.specs.Meaning.{meaning};
ghost use Rattle.macro_file.specs.Text.{macro_of};
ghost use Rattle.compat_check.specs.Meshes.{across_in, shape_of};
ghost use Rattle.restart_file.specs.Kept.{set_of};
ghost use Rattle.restart_file.specs.Files.{IsPart, IsRestart};
ghost use Rattle.restart_file.specs.Refusals.{HasPart, IsAlone, IsFirstAlone, IsLinesRefusal, IsRestartRefusal};
ghost use Rattle.restart_file.specs.Joined.{KeepsForest};
ghost use Rattle.restart_file.specs.Parts.{AreLinesRead, HoldsAllPartners, IsPartRefusal, RefusesHead, TellsCheck};

use crate::head::read_head;
use crate::lines::read_line;
use crate::members::is_member;
use crate::refusal::RestartRefusal;
use compat_check::{CheckRefusal, MacroMesh, check};
use macro_file::{MacroRefusal, MacroText, read_macro};
use mesh_names::name::ElemName;
use std::alloc::Global;

/// What a restart file keeps.
#[derive(Drop)]
pub struct Restart {
    /// The bytes of the macro file.
    pub macro_bytes: Vec<u8>,
    /// The mesh of the macro file.
    pub mesh: MacroMesh,
    /// The members of the forest, in order.
    pub members: Vec<ElemName>,
}

// The macro part, and what follows it.
fn split_part(bytes: &[u8]) -> Result<(&[u8], &[u8]), RestartRefusal>
    requires { length bytes.now ≤ 33554432 }
    ensures ok { IfOk result (λ p. HasPart bytes.now p.0.now p.1.now) }
    ensures refused { IfErr result (RefusesHead bytes.now) }
{
    let (count, rest) = match read_head(bytes) {
        None => return Err(RestartRefusal::BadHead),
        Some(head) => head,
    };
    if rest.len() < count as usize {
        return Err(RestartRefusal::MacroShort {
            wanted: count,
            found: rest.len() as u32,
        });
    }
    Ok(rest.split_at(count as usize))
}

fn read_text(alloc: Global, part: &[u8]) -> Result<MacroText, RestartRefusal>
    requires { length part.now ≤ 16777216 }
    ensures ok { IfOk result (λ text. meaning part.now ≡ Ok (macro_of text)) }
    ensures refused { IfErr result (IsPartRefusal part.now) }
{
    match read_macro(alloc, part) {
        Ok(text) => Ok(text),
        Err(MacroRefusal::Memory) => Err(RestartRefusal::Memory),
        Err(refusal) => Err(RestartRefusal::Macro { refusal }),
    }
}

// The refusal of a text that the check refuses.
fn check_refusal(refusal: CheckRefusal) -> RestartRefusal
    ensures { TellsCheck refusal result }
{
    match refusal {
        CheckRefusal::Memory => RestartRefusal::Memory,
        _ => RestartRefusal::Check { refusal },
    }
}

// The mesh of a macro part.
fn read_mesh(alloc: Global, part: &[u8]) -> Result<MacroMesh, RestartRefusal>
    requires { length part.now ≤ 16777216 }
    ensures ok { IfOk result (IsPart part.now) }
    ensures refused { IfErr result (IsPartRefusal part.now) }
{
    let text = read_text(alloc, part)?;
    match check(alloc, text) {
        Ok(mesh) => Ok(mesh),
        Err(refusal) => Err(check_refusal(refusal)),
    }
}

// The members that the lines after the macro part keep, in order.
fn read_lines(
    alloc: Global,
    mesh: &MacroMesh,
    bytes: &[u8],
) -> Result<Vec<ElemName>, RestartRefusal>
    ensures ok { IfOk result (λ v. AreLinesRead mesh.now bytes.now v.items) }
    ensures refused { IfErr result (IsLinesRefusal mesh.now bytes.now) }
{
    let mut members = Vec::new(alloc);
    let mut place = 0;
    for root in 0..mesh.element_count() {
        place = read_line(mesh, bytes, place, root, &mut members)?;
    }
    if place < bytes.len() {
        return Err(RestartRefusal::LeftOver);
    }
    Ok(members)
}

// Whether the name has a partner, which is none of the members. It is looked for near a place.
fn is_alone(mesh: &MacroMesh, members: &[ElemName], name: ElemName, near: &mut usize) -> bool
    requires in_order { IsStrictlySortedBy name_cmp members.now }
    requires root { name.0 < size (shape_of mesh.now) }
    requires level { level (shape_of mesh.now) name ≤ 24 }
    ensures { MatchBool result (IsAlone (across_in mesh.now) (set_of members.now) name) (IsAlone (across_in mesh.now) (set_of members.now) name → ⊥) }
{
    match mesh.partner(name) {
        None => false,
        Some(partner) => !is_member(members, partner, near),
    }
}

// The least member whose partner is no member.
fn first_alone(mesh: &MacroMesh, members: &[ElemName]) -> Option<ElemName>
    requires in_order { IsStrictlySortedBy name_cmp members.now }
    requires forest { IsForest (shape_of mesh.now) (set_of members.now) }
    ensures { MatchOption result (HoldsAllPartners (across_in mesh.now) (set_of members.now)) (IsFirstAlone (across_in mesh.now) (set_of members.now)) }
{
    let mut near = 0;
    for name in members {
        if is_alone(mesh, members, *name, &mut near) {
            return Some(*name);
        }
    }
    None
}

/// Reads a restart file: the bytes of its macro file, the mesh, and the members of the forest, in
/// order. It is refused for the first of the causes of `RestartRefusal`.
pub fn read_restart(alloc: Global, bytes: &[u8]) -> Result<Restart, RestartRefusal>
    requires { length bytes.now ≤ 33554432 }
    ensures ok { IfOk result (λ r. IsRestart bytes.now r.macro_bytes.items r.mesh r.members.items) }
    ensures keeps { IfOk result (λ r. KeepsForest r.macro_bytes.items r.mesh r.members.items) }
    ensures refused { IfErr result (IsRestartRefusal bytes.now) }
{
    let (part, rest) = split_part(bytes)?;
    let mesh = read_mesh(alloc, part)?;
    let members = read_lines(alloc, &mesh, rest)?;
    if let Some(member) = first_alone(&mesh, &members) {
        return Err(RestartRefusal::NotConforming { member });
    }
    let macro_bytes = Vec::from_slice(alloc, part)?;
    Ok(Restart {
        macro_bytes,
        mesh,
        members,
    })
}
