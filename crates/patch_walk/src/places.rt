//! Where a worker's walk to a name comes in the first half: the longest prefix of the name that is an element.
ghost use Rattle.std.specs.Prelude.{◌≡◌, ℕ, List, ◌<◌, ◌≤◌, ◌++◌, IfSome};
ghost use Rattle.compat_check.specs.Meshes.{shape_of};
ghost use Rattle.mesh_names.specs.Triangles.{level, size};
ghost use Rattle.table_words.specs.NameWords.{name_code};
ghost use Rattle.table_words.specs.Views.{FirstHalf, Worker};
ghost use Rattle.mesh_table.specs.Saw.{Saw};
ghost use Rattle.mesh_table.specs.Sights.{setup_at};
ghost use Rattle.mesh_table.specs.Told.{IsOf, Stays, sight};
ghost use Rattle.patch_walk.specs.Reached.{IsAlive, IsReached};
ghost use Rattle.patch_walk.specs.Works.{Works};

use crate::visits::visit;
use mesh_names::name::ElemName;
use mesh_table::rule::MeshSeat;
use mesh_table::table::MeshTable;
use table_words::layout::ElemAt;

/// The longest prefix of a name that is an element.
#[derive(Clone, Copy, Debug)]
pub struct Found {
    /// How many letters it has.
    pub depth: u8,
    /// Where it stands.
    pub at: ElemAt,
    /// By which block, and as which member, it is bisected; then it is the whole name.
    pub block: Option<(u32, bool)>,
}

/// Walks down to a name at the current round.
pub fn locate(table: &MeshTable, pass: &mut MeshSeat, name: ElemName, round: u32) -> Found
    requires fit { IsOf table.now.table.shared.table_id pass.old }
    requires works { (sight pass.old).kind ≡ Worker }
    requires half { (sight pass.old).work.half ≡ FirstHalf }
    requires round { (sight pass.old).work.round ≡ round }
    requires root { name.0 < size (shape_of table.now.site.mesh.now) }
    requires level { level (shape_of table.now.site.mesh.now) name ≤ 24 }
    ensures stays { Stays pass.old pass.new }
    ensures works { Works (sight pass.old) (sight pass.new) }
    ensures saw { (news : List Saw) × ((sight pass.new).saw ≡ news ++ (sight pass.old).saw) }
    ensures reached { IsReached table.now.site.layout (setup_at table.now.site) (sight pass.old) (sight pass.new) name result }
{
    let Some((parent, side)) = name.split() else {
        let root = name.root();
        let at = ElemAt::Macro(root);
        table.note_top(pass, root);
        let block = visit(table, pass, at, name, round);
        return Found {
            depth: 0,
            at,
            block,
        };
    };
    let above = locate(table, pass, parent, round);
    let Some((block, second)) = above.block else {
        return above;
    };
    let at = ElemAt::Child {
        block,
        child: 2 * (second as u8) + side as u8,
    };
    let block = visit(table, pass, at, name, round);
    Found {
        depth: above.depth + 1,
        at,
        block,
    }
}

/// Whether a name is bisected at the current round, as far as this call's walk shows.
pub fn alive(table: &MeshTable, pass: &mut MeshSeat, name: ElemName, round: u32) -> bool
    requires fit { IsOf table.now.table.shared.table_id pass.old }
    requires works { (sight pass.old).kind ≡ Worker }
    requires half { (sight pass.old).work.half ≡ FirstHalf }
    requires round { (sight pass.old).work.round ≡ round }
    requires root { name.0 < size (shape_of table.now.site.mesh.now) }
    requires level { level (shape_of table.now.site.mesh.now) name ≤ 24 }
    ensures stays { Stays pass.old pass.new }
    ensures works { Works (sight pass.old) (sight pass.new) }
    ensures alive { IsAlive (sight pass.old) (sight pass.new) name result }
{
    locate(table, pass, name, round).block.is_some()
}
