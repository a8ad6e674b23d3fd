//! A worker's walk to a name in the second half, at the last finished round.
ghost use Rattle.std.specs.Prelude.{◌≡◌, ℕ, Bool, List, ◌<◌, ◌≤◌, ◌∷◌, ◌++◌, IfNone, IfSome, MatchOption};
ghost use Rattle.compat_check.specs.Meshes.{shape_of};
ghost use Rattle.mesh_names.specs.Triangles.{level, size};
ghost use Rattle.table_words.specs.Entries.{HasEntry};
ghost use Rattle.table_words.specs.Layout.{IsElemAt};
ghost use Rattle.table_words.specs.NameWords.{name_code};
ghost use Rattle.table_words.specs.Places.{place_number};
ghost use Rattle.mesh_table.specs.Saw.{Saw, SawEnd, SawHad};
ghost use Rattle.mesh_table.specs.SecondHalf.{WorksLate};
ghost use Rattle.mesh_table.specs.Sights.{setup_at};
ghost use Rattle.mesh_table.specs.Told.{IsOf, MayWalk, Stays, sight};
ghost use Rattle.patch_walk.specs.Finished.{AbsentAbove, Has, NothingRetired, StillKnows};

use crate::visits::walk_to;
use mesh_names::name::ElemName;
use mesh_table::rule::MeshSeat;
use mesh_table::table::MeshTable;
use table_words::layout::ElemAt;

/// By which block, and as which member, the last finished round bisects a name.
pub fn visit_finished(
    table: &MeshTable,
    pass: &mut MeshSeat,
    at: ElemAt,
    name: ElemName,
    round: u32,
) -> Option<(u32, bool)>
    requires fit { IsOf table.now.table.shared.table_id pass.old }
    requires place { IsElemAt table.now.site.layout at }
    requires may { MayWalk (setup_at table.now.site) (sight pass.old) (place_number table.now.site.layout at) (name_code name) }
    requires works { WorksLate (sight pass.old) }
    requires round { (sight pass.old).work.round ≡ round }
    ensures stays { Stays pass.old pass.new }
    ensures keeps { StillKnows (sight pass.old) (sight pass.new) }
    ensures idle { NothingRetired (sight pass.old) (sight pass.new) }
    ensures none { IfNone result (HasEntry (sight pass.new).work.absent (name_code name)) }
    ensures some { IfSome result (λ p. (p.0 < table.now.site.layout.pool) × Has (setup_at table.now.site) (sight pass.new) (name_code name) p.0 p.1) }
    ensures saw { MatchOption result ((sight pass.new).saw ≡ SawEnd (name_code name) ∷ (sight pass.old).saw) (λ p. (sight pass.new).saw ≡ SawHad (name_code name) ∷ (sight pass.old).saw) }
{
    match walk_to(table, pass, at, name, round) {
        None => None,
        Some((block, second)) => {
            let born = table.walk_late(pass, at, name, block, second);
            if born > 0 && born < u64::from(round) {
                Some((block, second))
            } else {
                table.walk_past(pass, at, name, block, second);
                None
            }
        }
    }
}

/// The place of a name at the last finished round, or none where the name or one above it is not an element there.
pub fn stand_finished(
    table: &MeshTable,
    pass: &mut MeshSeat,
    name: ElemName,
    round: u32,
) -> Option<ElemAt>
    requires fit { IsOf table.now.table.shared.table_id pass.old }
    requires works { WorksLate (sight pass.old) }
    requires round { (sight pass.old).work.round ≡ round }
    requires root { name.0 < size (shape_of table.now.site.mesh.now) }
    requires level { level (shape_of table.now.site.mesh.now) name ≤ 24 }
    ensures stays { Stays pass.old pass.new }
    ensures keeps { StillKnows (sight pass.old) (sight pass.new) }
    ensures idle { NothingRetired (sight pass.old) (sight pass.new) }
    ensures saw { (news : List Saw) × ((sight pass.new).saw ≡ news ++ (sight pass.old).saw) }
    ensures none { IfNone result (AbsentAbove (sight pass.new) name) }
    ensures some { IfSome result (λ at. IsElemAt table.now.site.layout at × MayWalk (setup_at table.now.site) (sight pass.new) (place_number table.now.site.layout at) (name_code name)) }
{
    match name.split() {
        None => Some(ElemAt::Macro(name.root())),
        Some((parent, side)) => match stand_finished(table, pass, parent, round) {
            None => None,
            Some(at) => match visit_finished(table, pass, at, parent, round) {
                None => None,
                Some((block, second)) => Some(ElemAt::Child {
                    block,
                    child: 2 * (second as u8) + side as u8,
                }),
            },
        },
    }
}
