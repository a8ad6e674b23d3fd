//! A walk from the top down to the place of a name, all above which is bisected already.
ghost use Rattle.std.specs.Prelude.{◌≡◌, ◌<◌, ◌≤◌, ◌∷◌, [], IfSome};
ghost use Rattle.compat_check.specs.Meshes.{shape_of};
ghost use Rattle.mesh_names.specs.Triangles.{level, size};
ghost use Rattle.table_words.specs.Entries.{HasEntry};
ghost use Rattle.table_words.specs.Layout.{IsElemAt};
ghost use Rattle.table_words.specs.NameWords.{name_code};
ghost use Rattle.table_words.specs.Places.{place_number};
ghost use Rattle.table_words.specs.Views.{FirstHalf, Worker};
ghost use Rattle.mesh_table.specs.Told.{IsOf, Stays, sight};
ghost use Rattle.patch_walk.specs.Wiser.{Wiser};
ghost use Rattle.patch_claims.specs.Needs.{HasPublished};

use mesh_names::name::ElemName;
use mesh_table::rule::MeshSeat;
use mesh_table::table::MeshTable;
use patch_walk::visits::visit;
use table_words::layout::ElemAt;

// The place of a macro element.
fn top_place(table: &MeshTable, pass: &mut MeshSeat, root: u32) -> ElemAt
    requires fit { IsOf table.now.table.shared.table_id pass.old }
    requires works { (sight pass.old).kind ≡ Worker }
    requires half { (sight pass.old).work.half ≡ FirstHalf }
    requires root { root < size (shape_of table.now.site.mesh.now) }
    ensures stays { Stays pass.old pass.new }
    ensures wiser { Wiser (sight pass.old) (sight pass.new) }
    ensures published { HasPublished (sight pass.old) (sight pass.new) 0 }
    ensures place { IsElemAt table.now.site.layout result }
    ensures found { HasEntry (sight pass.new).work.found (place_number table.now.site.layout result, name_code (root, [])) }
{
    let _count = table.mesh().element_count();
    table.note_top(pass, root);
    ElemAt::Macro(root)
}

// From a name's place to that of its child on a side, or nowhere where the name is not bisected.
fn step_down(
    table: &MeshTable,
    pass: &mut MeshSeat,
    at: ElemAt,
    name: ElemName,
    side: bool,
    round: u32,
) -> Option<ElemAt>
    requires fit { IsOf table.now.table.shared.table_id pass.old }
    requires place { IsElemAt table.now.site.layout at }
    requires works { (sight pass.old).kind ≡ Worker }
    requires found { HasEntry (sight pass.old).work.found (place_number table.now.site.layout at, name_code name) }
    requires half { (sight pass.old).work.half ≡ FirstHalf }
    requires round { (sight pass.old).work.round ≡ round }
    requires root { name.0 < size (shape_of table.now.site.mesh.now) }
    requires level { level (shape_of table.now.site.mesh.now) name < 24 }
    ensures stays { Stays pass.old pass.new }
    ensures wiser { Wiser (sight pass.old) (sight pass.new) }
    ensures published { HasPublished (sight pass.old) (sight pass.new) 0 }
    ensures some { IfSome result (λ next. IsElemAt table.now.site.layout next × HasEntry (sight pass.new).work.found (place_number table.now.site.layout next, name_code (name.0, side ∷ name.1))) }
{
    match visit(table, pass, at, name, round) {
        None => None,
        Some((block, second)) => Some(ElemAt::Child {
            block,
            child: 2 * (second as u8) + side as u8,
        }),
    }
}

/// The place of a name at the current round, or none where a name above it was found not bisected.
pub fn descend(table: &MeshTable, pass: &mut MeshSeat, name: ElemName, round: u32) -> Option<ElemAt>
    requires fit { IsOf table.now.table.shared.table_id pass.old }
    requires works { (sight pass.old).kind ≡ Worker }
    requires half { (sight pass.old).work.half ≡ FirstHalf }
    requires round { (sight pass.old).work.round ≡ round }
    requires root { name.0 < size (shape_of table.now.site.mesh.now) }
    requires level { level (shape_of table.now.site.mesh.now) name ≤ 24 }
    ensures stays { Stays pass.old pass.new }
    ensures wiser { Wiser (sight pass.old) (sight pass.new) }
    ensures published { HasPublished (sight pass.old) (sight pass.new) 0 }
    ensures some { IfSome result (λ at. IsElemAt table.now.site.layout at × HasEntry (sight pass.new).work.found (place_number table.now.site.layout at, name_code name)) }
{
    let mut at = top_place(table, pass, name.root());
    let mut above = ElemName::top(name.root());
    for depth in 0..name.depth() {
        let side = name.bits() >> (name.depth() - 1 - depth) & 1 == 1;
        at = step_down(table, pass, at, above, side, round)?;
        above = above.child_at(side);
    }
    Some(at)
}
