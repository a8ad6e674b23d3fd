//! Restart files of forests of the square, in which some leaves are bisected as a generator says.
ghost use Rattle.std.specs.Prelude.{◌+◌, ◌≤◌};
ghost use Rattle.mesh_names.specs.Names.{depth};

use anyhow::Result;
use compat_check::MacroMesh;
use mesh_names::name::ElemName;
use std::alloc::Global;
use std::fmt::Write;

const SQUARE: &str = "number of vertices: 4
number of elements: 2
vertex coordinates: 0 0 1 0 1 1 0 1
element vertices: 2 0 1 0 2 3
";

// The restart file of the square with these lines.
fn file(alloc: Global, lines: &str) -> Result<Vec<u8>> {
    let mut text = String::new(alloc);
    let count = SQUARE.len();
    write!(text, "restart: {count}\n{SQUARE}{lines}")?;
    Ok(text.as_bytes().to_vec(alloc)?)
}

/// The restart file of the square in which nothing is bisected.
pub fn unbisected(alloc: Global) -> Result<Vec<u8>> {
    file(alloc, "0\n0\n")
}

// Whether an element is bisected: what is told of it and of its partner is the same.
fn is_chosen(mesh: &MacroMesh, name: ElemName, seed: u32) -> bool {
    if name.root() >= mesh.element_count() || mesh.level(name) > 24 {
        return false;
    }
    let owner = match mesh.partner(name) {
        Some(partner) if partner < name => partner,
        _ => name,
    };
    let number = owner.bits().wrapping_mul(2).wrapping_add(owner.root());
    let mixed = number.wrapping_add(seed).wrapping_mul(2_654_435_761);
    (mixed ^ (mixed >> 15)).wrapping_mul(2_246_822_519) >> 31 == 1
}

// The word of a name, so many letters above the names of which some are bisected.
fn put_word(
    text: &mut String,
    mesh: &MacroMesh,
    name: ElemName,
    letters: u8,
    seed: u32,
) -> Result<()>
    requires { depth name + letters ≤ 24 }
{
    if letters == 0 {
        let word = if is_chosen(mesh, name, seed) {
            "100"
        } else {
            "0"
        };
        text.push_str(word)?;
        return Ok(());
    }
    text.push_str("1")?;
    put_word(text, mesh, name.child_at(false), letters - 1, seed)?;
    put_word(text, mesh, name.child_at(true), letters - 1, seed)
}

/// A restart file of the square: all names above a depth are bisected, and of that depth some.
pub fn sample(alloc: Global, mesh: &MacroMesh, depth: u8, seed: u32) -> Result<Vec<u8>>
    requires { depth ≤ 20 }
{
    let mut lines = String::new(alloc);
    for root in 0..2 {
        put_word(&mut lines, mesh, ElemName::top(root), depth, seed)?;
        lines.push_str("\n")?;
    }
    file(alloc, &lines)
}
