//! Where a reader's walk to a name comes at its pin: the longest prefix of the name that is an element.
ghost use Rattle.std.specs.Prelude.{◌≡◌, ◌+◌, ◌<◌, ◌≤◌};
ghost use Rattle.compat_check.specs.Meshes.{shape_of};
ghost use Rattle.mesh_names.specs.Triangles.{level, size};
ghost use Rattle.table_words.specs.Views.{Reader};
ghost use Rattle.mesh_table.specs.Sights.{setup_at};
ghost use Rattle.mesh_table.specs.Told.{IsOf, Stays, sight};
ghost use Rattle.patch_walk.specs.Looks.{Learned};
ghost use Rattle.patch_walk.specs.Pinned.{IsAliveAt, IsReachedAt};

use crate::looks::look;
use crate::places::Found;
use mesh_names::name::ElemName;
use mesh_table::rule::MeshSeat;
use mesh_table::table::MeshTable;
use table_words::layout::ElemAt;

/// Walks down to a name at the pinned round.
pub fn locate_pinned(table: &MeshTable, pass: &mut MeshSeat, name: ElemName, round: u32) -> Found
    requires fit { IsOf table.now.table.shared.table_id pass.old }
    requires reads { (sight pass.old).kind ≡ Reader }
    requires pin { (sight pass.old).read.pin ≡ round + 1 }
    requires root { name.0 < size (shape_of table.now.site.mesh.now) }
    requires level { level (shape_of table.now.site.mesh.now) name ≤ 24 }
    ensures stays { Stays pass.old pass.new }
    ensures learned { Learned (sight pass.old) (sight pass.new) }
    ensures reached { IsReachedAt table.now.site.layout (setup_at table.now.site) (sight pass.new) round name result }
{
    let Some((parent, side)) = name.split() else {
        let at = ElemAt::Macro(name.root());
        let block = look(table, pass, at, name, round);
        return Found {
            depth: 0,
            at,
            block,
        };
    };
    let above = locate_pinned(table, pass, parent, round);
    let Some((block, second)) = above.block else {
        return above;
    };
    let at = ElemAt::Child {
        block,
        child: 2 * (second as u8) + side as u8,
    };
    let block = look(table, pass, at, name, round);
    Found {
        depth: above.depth + 1,
        at,
        block,
    }
}

/// Whether a name is bisected at the pinned round.
pub fn alive_pinned(table: &MeshTable, pass: &mut MeshSeat, name: ElemName, round: u32) -> bool
    requires fit { IsOf table.now.table.shared.table_id pass.old }
    requires reads { (sight pass.old).kind ≡ Reader }
    requires pin { (sight pass.old).read.pin ≡ round + 1 }
    requires root { name.0 < size (shape_of table.now.site.mesh.now) }
    requires level { level (shape_of table.now.site.mesh.now) name ≤ 24 }
    ensures stays { Stays pass.old pass.new }
    ensures learned { Learned (sight pass.old) (sight pass.new) }
    ensures alive { IsAliveAt (sight pass.new) round name result }
{
    locate_pinned(table, pass, name, round).block.is_some()
}
