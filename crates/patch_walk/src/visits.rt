//! A worker's walk to a name in the first half.
ghost use Rattle.std.specs.Prelude.{◌≡◌, ◌<◌, ◌∷◌, IfNone, IfSome};
ghost use Rattle.compat_check.specs.Meshes.{shape_of};
ghost use Rattle.mesh_names.specs.Triangles.{level, size};
ghost use Rattle.table_words.specs.Entries.{HasEntry};
ghost use Rattle.table_words.specs.Layout.{IsElemAt};
ghost use Rattle.table_words.specs.NameWords.{name_code};
ghost use Rattle.table_words.specs.Places.{place_number};
ghost use Rattle.table_words.specs.Views.{FirstHalf, Worker};
ghost use Rattle.mesh_table.specs.Saw.{SawBisected, SawEnd};
ghost use Rattle.mesh_table.specs.Sights.{setup_at};
ghost use Rattle.mesh_table.specs.Told.{IsOf, MayWalk, Stays, ended_walk, gone, sight};
ghost use Rattle.patch_walk.specs.Wiser.{KnowsBisected, Wiser};

use mesh_names::name::ElemName;
use mesh_table::rule::MeshSeat;
use mesh_table::table::MeshTable;
use table_words::layout::ElemAt;
use table_words::link::Link;
use table_words::name_word::spell_name;

// Goes to the block that the LINK word of a name's place names, and tells which member it is.
pub(crate) fn walk_to(
    table: &MeshTable,
    pass: &mut MeshSeat,
    at: ElemAt,
    name: ElemName,
    round: u32,
) -> Option<(u32, bool)>
    requires fit { IsOf table.now.table.shared.table_id pass.old }
    requires place { IsElemAt table.now.site.layout at }
    requires may { MayWalk (setup_at table.now.site) (sight pass.old) (place_number table.now.site.layout at) (name_code name) }
    requires round { (sight pass.old).work.round ≡ round }
    ensures stays { Stays pass.old pass.new }
    ensures none { IfNone result (sight pass.new ≡ ended_walk (sight pass.old) (name_code name)) }
    ensures unknown { IfNone result (HasEntry (sight pass.old).work.known (name_code name) → ⊥) }
    ensures some { IfSome result (λ p. (p.0 < table.now.site.layout.pool) × (sight pass.new ≡ gone (sight pass.old) (place_number table.now.site.layout at) (name_code name) p.0 p.1)) }
{
    let link = Link::read(table.walk_link(pass, at, name));
    match link.block {
        None => None,
        Some(block) => {
            if link.died > 0 && link.died < round {
                None
            } else {
                let second = table.walk_name(pass, block, true) == spell_name(Some(name));
                Some((block, second))
            }
        }
    }
}

/// By which block, and as which member, a name is bisected in the current round.
pub fn visit(
    table: &MeshTable,
    pass: &mut MeshSeat,
    at: ElemAt,
    name: ElemName,
    round: u32,
) -> Option<(u32, bool)>
    requires fit { IsOf table.now.table.shared.table_id pass.old }
    requires place { IsElemAt table.now.site.layout at }
    requires may { MayWalk (setup_at table.now.site) (sight pass.old) (place_number table.now.site.layout at) (name_code name) }
    requires half { (sight pass.old).work.half ≡ FirstHalf }
    requires round { (sight pass.old).work.round ≡ round }
    ensures stays { Stays pass.old pass.new }
    ensures wiser { Wiser (sight pass.old) (sight pass.new) }
    ensures none { IfNone result (HasEntry (sight pass.new).work.absent (name_code name)) }
    ensures some { IfSome result (λ p. (p.0 < table.now.site.layout.pool) × KnowsBisected (setup_at table.now.site) (sight pass.new) (name_code name) p.0 p.1) }
    ensures unknown { IfNone result (HasEntry (sight pass.old).work.known (name_code name) → ⊥) }
    ensures ended { IfNone result ((sight pass.new).saw ≡ SawEnd (name_code name) ∷ (sight pass.old).saw) }
    ensures bisected { IfSome result (λ p. (sight pass.new).saw ≡ SawBisected (name_code name) ∷ (sight pass.old).saw) }
{
    match walk_to(table, pass, at, name, round) {
        None => None,
        Some((block, second)) => {
            if table.walk_born(pass, at, name, block, second) > 0 {
                Some((block, second))
            } else {
                table.walk_past(pass, at, name, block, second);
                None
            }
        }
    }
}
