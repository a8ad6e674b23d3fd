//! The library in one example: a mesh is read, refined towards a corner, asked for values, and written.
#![tactic(auto)]

mod corner;

use anyhow::{Result, anyhow};
use compat_check::check;
use corner::refine_at;
use forest_tree::forest::TreeForest;
use macro_file::read_macro;
use mesh_names::patch::VertexKey;
use mesh_rounds::adaptive::AdaptiveMesh;
use std::fs;
use std::io::Write;

// The corner of the L-shaped domain, as the macro file numbers its vertices.
const CORNER: u32 = 3;

fn main(rt: HostRuntime) -> Result<()> {
    let alloc = rt.alloc();
    let bytes = fs::read(&rt, "corner.macro")?;
    if bytes.len() > 16_777_216 {
        return Err(anyhow!("the macro file is too long"));
    }
    let text = read_macro(alloc, &bytes)?;
    let Ok(macro_mesh) = check(alloc, text) else {
        return Err(anyhow!("the mesh was refused"));
    };
    let forest = TreeForest::new(alloc, &macro_mesh, 1000);
    let Ok(mut mesh) = AdaptiveMesh::new(alloc, &macro_mesh, forest) else {
        return Err(anyhow!("out of memory"));
    };
    for round in 1..4 {
        refine_at(alloc, &mut mesh, VertexKey::Macro(CORNER), round)?;
    }
    if let Some(value) = mesh.vertex_value(VertexKey::Macro(CORNER)) {
        println!(&rt; "value at the corner: {value}")?;
    }
    let Ok(text) = mesh.text(&rt) else {
        return Err(anyhow!("out of memory"));
    };
    rt.stdout().write_all(&text)?;
    Ok(())
}
