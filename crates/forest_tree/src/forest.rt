//! A forest in a tree of names.
ghost use Rattle.std.specs.Prelude.{◌≡◌, ◌≤◌, [], IfOk};
ghost use Rattle.std.specs.FinSet.{empty, from_list};
ghost use Rattle.mesh_names.specs.Forests.{IsListOf};
ghost use Rattle.mesh_names.specs.Patches.{patch_count};
ghost use Rattle.compat_check.specs.Meshes.{across_in, shape_of};
ghost use Rattle.forest_plain.specs.Deltas.{AreBorn};
ghost use Rattle.forest_plain.specs.Rounds.{Stands};

use crate::held::HeldNames;
use crate::leaves::leaf_list;
use crate::plan::plan_round;
use compat_check::mesh::MacroMesh;
use forest_plain::any_forest::Forest;
use forest_plain::delta::{born_patches, count_patches};
use forest_plain::leaves::is_leaf;
use forest_plain::name_set::NameSet;
use forest_plain::refusal::RoundRefusal;
use mesh_names::name::ElemName;
use mesh_names::patch::RoundDelta;
use mesh_names::rows::RoundMarks;
use std::alloc::{AllocError, Global};

/// A conforming forest over a macro mesh that it borrows, as a tree of names.
#[derive(Drop)]
pub struct TreeForest<'m> {
    alloc: Global,
    mesh: &'m MacroMesh,
    pool: u32,
    members: HeldNames,
    patches: u32,
    ghost stands: { Stands (shape_of mesh.now) (across_in mesh.now) pool members },
    ghost counted: { patches ≡ patch_count (across_in mesh.now) members },
}

impl<'m> TreeForest<'m> {
    ghost use Rattle.forest_tree.specs.Forests.{members_of, mesh_of, pool_of, sides_of};

    /// The forest in which nothing is bisected, with room for `pool` patches. Takes no memory.
    pub fn new(alloc: Global, mesh: &'m MacroMesh, pool: u32) -> TreeForest<'m>
        requires { (1 ≤ pool) × (pool ≤ 1048576) }
        ensures members { members_of result ≡ empty }
        ensures pool { pool_of result ≡ pool }
        ensures mesh { mesh_of result ≡ shape_of mesh.entry.now }
        ensures sides { sides_of result ≡ across_in mesh.entry.now }
    {
        TreeForest {
            alloc,
            mesh,
            pool,
            members: HeldNames::new(alloc),
            patches: 0,
        }
    }

    /// The forest in which these elements are bisected, with room for `pool` patches.
    pub fn of_members(
        alloc: Global,
        mesh: &'m MacroMesh,
        pool: u32,
        members: &[ElemName],
    ) -> Result<TreeForest<'m>, AllocError>
        requires { Stands (shape_of mesh.now) (across_in mesh.now) pool (from_list members.now) }
        ensures members { IfOk result (λ forest. members_of forest ≡ from_list members.now) }
        ensures pool { IfOk result (λ forest. pool_of forest ≡ pool) }
        ensures mesh { IfOk result (λ forest. mesh_of forest ≡ shape_of mesh.entry.now) }
        ensures sides { IfOk result (λ forest. sides_of forest ≡ across_in mesh.entry.now) }
    {
        let set = NameSet::of_names(alloc, members)?;
        let patches = count_patches(mesh, &set) as u32;
        let mut held = HeldNames::new(alloc);
        held.add_all(members)?;
        Ok(TreeForest {
            alloc,
            mesh,
            pool,
            members: held,
            patches,
        })
    }

    /// The bisected elements in the order of names.
    pub fn members(&self) -> Result<Vec<ElemName>, AllocError>
        ensures { IfOk result (λ v. IsListOf (members_of self.now) v.items) }
    {
        self.members.to_vec(self.alloc, self.mesh.element_count())
    }

    /// The patches that lead to this forest from the one in which nothing is bisected, by level and
    /// then by owner.
    pub fn patches_from_nothing(&self) -> Result<RoundDelta, AllocError>
        ensures born { IfOk result (λ delta. AreBorn (mesh_of self.now) (sides_of self.now) empty (members_of self.now) delta.born.items) }
        ensures died { IfOk result (λ delta. delta.died.items ≡ []) }
    {
        let _checked = self.mesh.element_count();
        let names = self.members()?;
        let nothing = NameSet::new(self.alloc);
        let born = born_patches(self.alloc, self.mesh, &nothing, &names)?;
        Ok(RoundDelta {
            born,
            died: Vec::new(self.alloc),
        })
    }
}

impl Forest for TreeForest<'_> {
    ghost use Rattle.forest_tree.specs.Forests.{seen_of};

    ghost seen = { seen_of };

    ghost kept = { λ _. 0 };

    fn round(&mut self, marks: &RoundMarks) -> Result<RoundDelta, RoundRefusal> {
        let _checked = self.mesh.element_count();
        let plan = plan_round(
            self.alloc,
            self.mesh,
            self.pool,
            self.patches,
            &self.members,
            &marks.rows,
        )?;
        self.members.add_all(&plan.fresh)?;
        self.members.remove_all(&plan.gone);
        self.patches = plan.patches;
        Ok(plan.delta)
    }

    fn is_leaf(&mut self, name: ElemName) -> bool {
        is_leaf(self.mesh, &mut self.members.finder(), name)
    }

    fn leaves(&mut self) -> Result<Vec<ElemName>, RoundRefusal> {
        let _checked = self.mesh.element_count();
        let found = leaf_list(self.alloc, self.mesh, &self.members)?;
        Ok(found)
    }

    fn patches(&self) -> u32 {
        self.patches
    }
}
