//! A name is refined.
ghost use Rattle.std.specs.Prelude.{◌≡◌, ℕ, ◌+◌, ◌^◌, ◌<◌, ◌≤◌, ◌⊎◌, ◌∷◌, Bool, List, Some, None, option_map, true, false, [], IfErr, IfOk, vec_capacity};
ghost use Rattle.compat_check.specs.Meshes.{shape_of, across_in};
ghost use Rattle.mesh_names.specs.Chains.{chain_of};
ghost use Rattle.mesh_names.specs.Forests.{Has};
ghost use Rattle.mesh_names.specs.Names.{Name};
ghost use Rattle.mesh_names.specs.Partners.{partner as partner_in};
ghost use Rattle.mesh_names.specs.Patches.{patch_of};
ghost use Rattle.mesh_names.specs.Triangles.{level, size};
ghost use Rattle.table_words.specs.Entries.{HasEntry};
ghost use Rattle.table_words.specs.Layout.{IsElemAt};
ghost use Rattle.table_words.specs.NameWords.{name_code};
ghost use Rattle.table_words.specs.Places.{place_number};
ghost use Rattle.table_words.specs.Views.{FirstHalf, Worker};
ghost use Rattle.table_state.specs.Lists.{IsClosed};
ghost use Rattle.mesh_table.specs.Sights.{setup_at};
ghost use Rattle.mesh_table.specs.Told.{IsOf, MayClaim, Stays, sight};
ghost use Rattle.mesh_table.specs.Lost.{AllLiving};
ghost use Rattle.patch_claims.specs.Listed.{AreKept, AreListed, failed_by};
ghost use Rattle.patch_claims.specs.Needs.{Refused};
ghost use Rattle.patch_claims.specs.Refined.{IsRefined};
ghost use Rattle.patch_walk.specs.Works.{Works};

use crate::needs::{ClaimRefusal, make_bisected};
use crate::patch::Patch;
use mesh_io::Gate;
use mesh_names::name::ElemName;
use mesh_table::rule::MeshSeat;
use mesh_table::table::MeshTable;

/// What refining a name did.
#[derive(Clone, Copy, Debug)]
pub enum Done {
    /// The call published this many patches, at least one.
    Published(u32),
    /// The name was bisected already.
    Already,
}

/// Refines a name of the round's target: afterwards it is known as bisected in the current round. The patches that it publishes come to the end of the list, which takes no memory. It never waits.
pub fn refine_name<G: Gate>(
    table: &MeshTable,
    pass: &mut MeshSeat,
    published: &mut Vec<Patch>,
    name: ElemName,
    round: u32,
    gate: &G,
    number: u32,
) -> Result<Done, ClaimRefusal>
    requires fit { IsOf table.now.table.shared.table_id pass.old }
    requires works { (sight pass.old).kind ≡ Worker }
    requires half { (sight pass.old).work.half ≡ FirstHalf }
    requires round { (sight pass.old).work.round ≡ round }
    requires root { name.0 < size (shape_of table.now.site.mesh.now) }
    requires level { level (shape_of table.now.site.mesh.now) name < 24 }
    requires aimed { HasEntry (sight pass.old).work.plan.target (name_code name) }
    requires closed { IsClosed (setup_at table.now.site) (HasEntry (sight pass.old).work.plan.target) }
    requires living { AllLiving (sight pass.old).claims }
    requires listed { AreListed table.now.site (sight pass.old) (sight pass.old).claims published.old.items }
    requires room { table.now.site.layout.pool ≤ vec_capacity published.old }
    ensures stays { Stays pass.old pass.new }
    ensures works { Works (sight pass.old) (sight pass.new) }
    ensures done { IfOk result (IsRefined (sight pass.old) (sight pass.new) (name_code name)) }
    ensures refused { IfErr result (Refused (across_in table.now.site.mesh.now) (Has (chain_of (shape_of table.now.site.mesh.now) (across_in table.now.site.mesh.now) name)) (sight pass.old) (sight pass.new)) }
    ensures listed { IfOk result (λ r. AreListed table.now.site (sight pass.new) (sight pass.new).claims published.new.items) }
    ensures kept { IfErr result (λ e. AreKept table.now.site (sight pass.new) published.new.items (failed_by e)) }
    ensures capacity { vec_capacity published.new ≡ vec_capacity published.old }
{
    match make_bisected(table, pass, published, name, round, gate, number) {
        Err(refusal) => Err(refusal),
        Ok(made) => {
            if made.patches > 0 {
                Ok(Done::Published(made.patches))
            } else {
                Ok(Done::Already)
            }
        }
    }
}
