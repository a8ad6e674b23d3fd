//! The plain forest.
ghost use Rattle.std.specs.Prelude.{◌≡◌, ◌≤◌, [], All, IfErr, IfOk, OnOk};
ghost use Rattle.std.specs.FinSet.{empty, from_list};
ghost use Rattle.mesh_names.specs.Forests.{IsListOf};
ghost use Rattle.mesh_names.specs.Leaves.{leaves};
ghost use Rattle.mesh_names.specs.Marks.{IsWellFormed};
ghost use Rattle.compat_check.specs.Meshes.{across_in, shape_of};
ghost use Rattle.mesh_names.specs.Coarsening.{IsCoarsened, MarkedForest};
ghost use Rattle.forest_plain.specs.Deltas.{AreBorn};
ghost use Rattle.forest_plain.specs.LeafMarks.{marked_so};
ghost use Rattle.forest_plain.specs.Coarsening.{IsReached, IsUnderway};
ghost use Rattle.forest_plain.specs.Refined.{IsReady};
ghost use Rattle.forest_plain.specs.Rounds.{IsFine, IsFirstFault, IsRowsRefusal, Stands};

use crate::any_forest::Forest;
use crate::closing::close;
use crate::coarsening::coarsen;
use crate::delta::{born_patches, count_patches, died_patches};
use crate::leaf_marks::LeafMarks;
use crate::leaves::{is_leaf, leaf_list};
use crate::marks::Marks;
use crate::name_set::NameSet;
use crate::needs::needed_names;
use crate::refined::Refined;
use crate::refusal::RoundRefusal;
use crate::rows::{greatest_level, try_rows};
use compat_check::mesh::MacroMesh;
use mesh_names::name::ElemName;
use mesh_names::patch::RoundDelta;
use mesh_names::rows::{MarkRow, RoundMarks};
use std::alloc::{AllocError, Global};

/// A conforming forest over a macro mesh that it borrows, as a set of names.
#[derive(Drop)]
pub struct PlainForest<'m> {
    alloc: Global,
    mesh: &'m MacroMesh,
    pool: u32,
    members: NameSet,
    ghost stands: { Stands (shape_of mesh.now) (across_in mesh.now) pool members },
}

impl<'m> PlainForest<'m> {
    ghost use Rattle.forest_plain.specs.Forests.{members_of, mesh_of, pool_of, sides_of};

    /// The forest in which nothing is bisected, with room for `pool` patches. Takes no memory.
    pub fn new(alloc: Global, mesh: &'m MacroMesh, pool: u32) -> PlainForest<'m>
        requires { (1 ≤ pool) × (pool ≤ 1048576) }
        ensures members { members_of result ≡ empty }
        ensures pool { pool_of result ≡ pool }
        ensures mesh { mesh_of result ≡ shape_of mesh.entry.now }
        ensures sides { sides_of result ≡ across_in mesh.entry.now }
    {
        PlainForest {
            alloc,
            mesh,
            pool,
            members: NameSet::new(alloc),
        }
    }

    /// The forest in which these elements are bisected, with room for `pool` patches.
    pub fn of_members(
        alloc: Global,
        mesh: &'m MacroMesh,
        pool: u32,
        members: &[ElemName],
    ) -> Result<PlainForest<'m>, AllocError>
        requires { Stands (shape_of mesh.now) (across_in mesh.now) pool (from_list members.now) }
        ensures members { IfOk result (λ forest. members_of forest ≡ from_list members.now) }
        ensures pool { IfOk result (λ forest. pool_of forest ≡ pool) }
        ensures mesh { IfOk result (λ forest. mesh_of forest ≡ shape_of mesh.entry.now) }
        ensures sides { IfOk result (λ forest. sides_of forest ≡ across_in mesh.entry.now) }
    {
        let members = NameSet::of_names(alloc, members)?;
        Ok(PlainForest {
            alloc,
            mesh,
            pool,
            members,
        })
    }

    /// The bisected elements in the order of names.
    pub fn members(&self) -> Result<Vec<ElemName>, AllocError>
        ensures { IfOk result (λ v. IsListOf (members_of self.now) v.items) }
    {
        self.members.to_vec(self.alloc)
    }

    /// The patches that lead to this forest from the one in which nothing is bisected, by level and
    /// then by owner.
    pub fn patches_from_nothing(&self) -> Result<RoundDelta, AllocError>
        ensures born { IfOk result (λ delta. AreBorn (mesh_of self.now) (sides_of self.now) empty (members_of self.now) delta.born.items) }
        ensures died { IfOk result (λ delta. delta.died.items ≡ []) }
    {
        let _checked = self.mesh.element_count();
        let names = self.members.to_vec(self.alloc)?;
        let nothing = NameSet::new(self.alloc);
        let born = born_patches(self.alloc, self.mesh, &nothing, &names)?;
        Ok(RoundDelta {
            born,
            died: Vec::new(self.alloc),
        })
    }

    // The refined forest, where all rows can be done.
    fn refined(&self, rows: &[MarkRow]) -> Result<Refined, RoundRefusal>
        requires { All IsWellFormed rows.now }
        ensures fine { OnOk result (All (IsFine (mesh_of self.now) (members_of self.now)) rows.now) }
        ensures ready { IfOk result (IsReady (mesh_of self.now) (sides_of self.now) (members_of self.now) rows.now) }
        ensures refused { IfErr result (IsRowsRefusal (mesh_of self.now) (members_of self.now) rows.now) }
    {
        let leaves = leaf_list(self.alloc, self.mesh, &self.members)?;
        if let Err(refusal) = self.try_all(&leaves, rows) {
            return Err(refusal);
        }
        let closed = self.closed(&leaves, rows)?;
        Ok(closed)
    }

    // What is left of a refined forest.
    fn coarsened(&self, refined: Refined) -> Result<NameSet, AllocError>
        requires { IsUnderway (mesh_of self.now) (sides_of self.now) (marked_so refined.members refined.marks) refined.marks.parents.items }
        ensures { IfOk result (λ left. (first : MarkedForest) → IsReached (sides_of self.now) first (marked_so refined.members refined.marks) → IsCoarsened (sides_of self.now) first left) }
    {
        let mut members = refined.members;
        let mut marks = refined.marks;
        coarsen(self.mesh, &mut members, &mut marks)?;
        Ok(members)
    }

    // Tries the rows, where the list has the leaves.
    fn try_all(&self, list: &[ElemName], rows: &[MarkRow]) -> Result<(), RoundRefusal>
        requires leaves { IsListOf (leaves (mesh_of self.now) (members_of self.now)) list.now }
        requires formed { All IsWellFormed rows.now }
        ensures ok { OnOk result (All (IsFine (mesh_of self.now) (members_of self.now)) rows.now) }
        ensures refused { IfErr result (IsFirstFault (mesh_of self.now) (members_of self.now) rows.now) }
    {
        let _checked = self.mesh.element_count();
        let deepest = greatest_level(self.mesh, list);
        try_rows(self.mesh, &mut self.members.finder(), deepest, rows)
    }

    // The least forest, where the list has the leaves and the rows can be done, with the marks of
    // its leaves.
    fn closed(&self, list: &[ElemName], rows: &[MarkRow]) -> Result<Refined, AllocError>
        requires leaves { IsListOf (leaves (mesh_of self.now) (members_of self.now)) list.now }
        requires fine { All (IsFine (mesh_of self.now) (members_of self.now)) rows.now }
        requires formed { All IsWellFormed rows.now }
        ensures { IfOk result (IsReady (mesh_of self.now) (sides_of self.now) (members_of self.now) rows.now) }
    {
        let _checked = self.mesh.element_count();
        let marks = Marks::of_rows(self.alloc, rows)?;
        let needed = needed_names(self.alloc, list, &marks)?;
        let mut members = self.members.copy()?;
        close(self.mesh, &mut members, needed)?;
        let leaf_marks = LeafMarks::of_leaves(self.alloc, list, &marks, &members)?;
        Ok(Refined {
            members,
            marks: leaf_marks,
        })
    }
}

impl Forest for PlainForest<'_> {
    ghost use Rattle.forest_plain.specs.Forests.{seen_of};

    ghost seen = { seen_of };

    ghost kept = { λ _. 0 };

    fn round(&mut self, marks: &RoundMarks) -> Result<RoundDelta, RoundRefusal> {
        let _checked = self.mesh.element_count();
        let refined = self.refined(&marks.rows)?;
        let needed = count_patches(self.mesh, &refined.members);
        if needed > self.pool as usize {
            return Err(RoundRefusal::PoolFull {
                needed: needed.min(4_294_967_295) as u32,
                kept: 0,
                pool: self.pool,
            });
        }
        let names = refined.members.to_vec(self.alloc)?;
        let born = born_patches(self.alloc, self.mesh, &self.members, &names)?;
        let coarsened = self.coarsened(refined)?;
        let died = died_patches(self.alloc, self.mesh, &coarsened, &names)?;
        self.members = coarsened;
        Ok(RoundDelta { born, died })
    }

    fn is_leaf(&mut self, name: ElemName) -> bool {
        is_leaf(self.mesh, &mut self.members.finder(), name)
    }

    fn leaves(&mut self) -> Result<Vec<ElemName>, RoundRefusal> {
        let _checked = self.mesh.element_count();
        let found = leaf_list(self.alloc, self.mesh, &self.members)?;
        Ok(found)
    }

    fn patches(&self) -> u32 {
        count_patches(self.mesh, &self.members) as u32
    }
}
