//! The table.
ghost use Rattle.std.specs.Prelude.{◌≡◌, ◌<◌, ◌≤◌, ◌^◌, [], IfOk};
ghost use Rattle.compat_check.specs.Meshes.{shape_of};
ghost use Rattle.mesh_names.specs.Triangles.{size};
ghost use Rattle.table_words.specs.Layout.{word_count};
ghost use Rattle.table_words.specs.FreshWords.{AreFresh};
ghost use Rattle.mesh_table.specs.Sights.{owner_sight};

use crate::rule::{MeshRule, MeshSeat, Site, View};
use atomic_table::Table;
use compat_check::MacroMesh;
use std::alloc::{AllocError, Global};
use table_words::layout::{FREE, Layout};

/// A table over a mesh that it borrows.
#[derive(Drop)]
pub struct MeshTable<'m> {
    pub(crate) table: Table<(), View, Site<'m>, MeshRule, Global>,
    pub(crate) site: Site<'m>,
    ghost key: { table.shared.key ≡ site },
    ghost wide: { table.shared.table_id.words ≡ word_count site.layout },
    ghost small: { (site.layout.pool ≤ 1048576) × (site.layout.elements ≤ 65535) × (site.layout.rounds ≤ 65535) × (site.passes ≤ 1024) × (site.layout.elements ≡ size (shape_of site.mesh.now)) },
}

/// The words of a fresh table.
fn fresh_words(alloc: Global, layout: Layout) -> Result<Vec<u64>, AllocError>
    requires { layout.pool ≤ 1048576 }
    ensures { IfOk result (λ v. AreFresh layout v.items) }
{
    let mut words = vec![in alloc; 0u64; layout.word_count()]?;
    words[FREE] = u64::from(layout.pool);
    for number in 0..layout.pool {
        words[layout.row(number)] = u64::from(number);
    }
    Ok(words)
}

impl<'m> MeshTable<'m> {
    /// A fresh table, and the owner's seat.
    pub fn new(
        alloc: Global,
        mesh: &'m MacroMesh,
        pool: u32,
        rounds: u32,
        passes: u32,
    ) -> Result<(MeshTable<'m>, MeshSeat), AllocError>
        requires pool { pool ≤ 1048576 }
        requires rounds { rounds ≤ 65535 }
        requires passes { passes ≤ 1024 }
        ensures owner { IfOk result (λ r. (r.1.table_id ≡ r.0.table.shared.table_id) × (r.1.id ≡ 0) × (r.1.me ≡ (owner_sight r.0.site, []))) }
        ensures site { IfOk result (λ r. (r.0.site.mesh.now ≡ mesh.now) × (r.0.site.layout.rounds ≡ rounds) × (r.0.site.layout.pool ≡ pool) × (r.0.site.passes ≡ passes)) }
    {
        let site = Site {
            mesh,
            layout: Layout {
                rounds,
                elements: mesh.element_count(),
                pool,
            },
            passes,
        };
        let words = fresh_words(alloc, site.layout)?;
        let (table, owner) = Table::of_words(alloc, words.as_slice(), &site)?;
        Ok((MeshTable { table, site }, owner))
    }

    /// How the words lie.
    pub fn layout(&self) -> Layout
        ensures { result ≡ self.now.site.layout }
    {
        self.site.layout
    }

    /// The mesh.
    pub fn mesh(&self) -> &MacroMesh
        ensures { result.now ≡ self.now.site.mesh.now }
    {
        self.site.mesh
    }
}
