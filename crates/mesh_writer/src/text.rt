//! The text of a mesh.
ghost use Rattle.std.specs.Prelude.{◌≡◌, ◌++◌, ◌∷◌, All, IfOk, IsSome, OnOk, map};
ghost use Rattle.std.specs.Fmt.{decimal};
ghost use Rattle.std.specs.List.Sorted.{IsStrictlySortedBy};
ghost use Rattle.mesh_names.specs.Forests.{IsInMesh};
ghost use Rattle.mesh_names.specs.Names.{name_cmp};
ghost use Rattle.compat_check.specs.Meshes.{shape_of};
ghost use Rattle.dof_transfer.specs.Held.{value_of};
ghost use Rattle.macro_file.specs.Written.{head_lines, lines_text, list_lines};
ghost use Rattle.mesh_writer.specs.MeshText.{HaveValues, IsMeshText};
ghost use Rattle.mesh_writer.specs.Others.{AreOthers};

use crate::line::{Line, put_text};
use crate::numbering::Numbers;
use crate::others::other_edges;
use crate::pieces::put_lines;
use crate::refusal::WriterRefusal;
use crate::values::{element_values, vertex_values};
use compat_check::mesh::MacroMesh;
use dof_transfer::{ElementValues, VertexValues};
use mesh_names::laws;
use mesh_names::name::ElemName;
use std::alloc::{AllocError, Global};
use std::thread::Threads;

// The most leaves whose edges are counted in 32 bits; a text of more would not fit in memory.
const MOST_LEAVES: usize = 1_431_655_765;

/// The text of the mesh over these leaves, in the form of a macro file with every list: its sizes, where
/// its vertices lie, the leaves' corners, labels and neighbours, and the values of its vertices and
/// leaves. Its only refusal is want of memory. The lines are made in several threads where there are
/// such. Takes n log n steps for n leaves.
pub fn mesh_text<R: Threads + Sync>(
    rt: &R,
    alloc: Global,
    mesh: &MacroMesh,
    leaves: &[ElemName],
    vertices: &VertexValues,
    elements: &ElementValues,
) -> Result<Vec<u8>, WriterRefusal>
    requires leaves { All (IsInMesh (shape_of mesh.now)) leaves.now }
    requires order { IsStrictlySortedBy name_cmp leaves.now }
    requires vertex_values { HaveValues mesh.now leaves.now vertices.now }
    requires element_values { All (λ n. IsSome (value_of elements.now n)) leaves.now }
    ensures { IfOk result (λ text. IsMeshText mesh.now leaves.now vertices.now elements.now text.items) }
{
    laws::partner_is_only();
    laws::partners_pair();
    let _count = mesh.element_count();
    let known = Numbers::of_leaves(alloc, mesh, leaves)?;
    let mut text = Vec::new(alloc);
    put_head(&mut text, known.count(), leaves.len())?;
    put_list(rt, alloc, &mut text, "vertex coordinates:", &known.points)?;
    put_list(rt, alloc, &mut text, "element vertices:", &known.triples)?;
    put_list(rt, alloc, &mut text, "element boundaries:", &known.labels)?;
    let others = others(alloc, &known.triples)?;
    let (across, _) = others.as_chunks::<3>();
    put_list(rt, alloc, &mut text, "element neighbours:", across)?;
    let of_vertices = vertex_values(alloc, vertices, &known)?;
    let of_elements = element_values(alloc, elements, leaves)?;
    put_list(rt, alloc, &mut text, "vertex values:", &of_vertices)?;
    put_last_list(rt, alloc, &mut text, "element values:", &of_elements)?;
    Ok(text)
}

// For each edge of the leaves with these corners the first other place with the same edge.
fn others(alloc: Global, triples: &[[u32; 3]]) -> Result<Vec<Option<u32>>, AllocError>
    ensures { IfOk result (λ others. AreOthers triples.now others.items) }
{
    if triples.len() > MOST_LEAVES {
        return Err(AllocError);
    }
    other_edges(alloc, triples)
}

// Appends the number in decimal.
fn put_count(text: &mut Vec<u8>, number: usize) -> Result<(), AllocError>
    ensures { OnOk result (text.new.items ≡ text.old.items ++ decimal number) }
{
    let mut buffer = itoa::Buffer::new();
    text.extend_from_slice(buffer.format(number).as_bytes())
}

// Appends the dimensions and the sizes.
fn put_head(text: &mut Vec<u8>, vertex_count: usize, leaf_count: usize) -> Result<(), AllocError>
    ensures { OnOk result (text.new.items ≡ text.old.items ++ lines_text (head_lines vertex_count leaf_count)) }
{
    put_text(text, "DIM: 2\nDIM_OF_WORLD: 2\n\nnumber of vertices: ")?;
    put_count(text, vertex_count)?;
    put_text(text, "\nnumber of elements: ")?;
    put_count(text, leaf_count)?;
    put_text(text, "\n\n")
}

// Appends the key and a line for each item.
fn put_last_list<R: Threads + Sync, L: Line + Sync>(
    rt: &R,
    alloc: Global,
    text: &mut Vec<u8>,
    key: &str,
    items: &[L],
) -> Result<(), AllocError>
    ensures { OnOk result (text.new.items ≡ text.old.items ++ lines_text (key.now ∷ map L.line items.now)) }
{
    put_text(text, key)?;
    put_text(text, "\n")?;
    put_lines(rt, alloc, text, items)
}

// Appends the key, a line for each item, and an empty line.
fn put_list<R: Threads + Sync, L: Line + Sync>(
    rt: &R,
    alloc: Global,
    text: &mut Vec<u8>,
    key: &str,
    items: &[L],
) -> Result<(), AllocError>
    ensures { OnOk result (text.new.items ≡ text.old.items ++ lines_text (list_lines key.now L.line items.now)) }
{
    put_last_list(rt, alloc, text, key, items)?;
    put_text(text, "\n")
}
