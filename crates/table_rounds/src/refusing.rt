//! A refused round is rolled back.
ghost use Rattle.std.specs.Prelude.{◌≡◌, ℕ, ◌+◌, ◌<◌, length, [], IfSome};
ghost use Rattle.table_words.specs.Claims.{Failed, Living, claim, ended};
ghost use Rattle.table_words.specs.Entries.{HasEntry, Noted};
ghost use Rattle.table_words.specs.Layout.{IsElemAt};
ghost use Rattle.table_words.specs.Places.{place_number};
ghost use Rattle.mesh_table.specs.Rounds.{MayRefuse};
ghost use Rattle.mesh_table.specs.Told.{IsOf, Stays, mate_number, sight};
ghost use Rattle.table_rounds.specs.Refusals.{AreHeld, EndedOne, HeldFit, IsHeld, IsTaking, RolledBackAll, TakenTo, RolledBackOne, progress_of};

use crate::patch::Held;
use mesh_table::rule::MeshSeat;
use mesh_table::table::MeshTable;
use table_words::layout::ElemAt;

/// Takes the published block of a patch of one member back: BORN becomes 0, the LINK word gets back
/// what it had before, and DIED becomes the refused round.
pub fn undo_single<'m>(
    table: &MeshTable<'m>,
    owner: &mut MeshSeat,
    first: ElemAt,
    block: u32,
    round: u32,
)
    requires fit { IsOf table.now.table.shared.table_id owner.old }
    requires taking { IsTaking (sight owner.old) round }
    requires first { IsElemAt table.now.site.layout first }
    requires block { block < table.now.site.layout.pool }
    requires claim { HasEntry (sight owner.old).claims (claim (place_number table.now.site.layout first) 0 (Living block)) }
    ensures stays { Stays owner.old owner.new }
    ensures rolled_back { RolledBackOne (sight owner.old) (sight owner.new) (place_number table.now.site.layout first) 0 block round }
{
    let old = table.look_history(owner, block, false);
    table.unbear(owner, first, block);
    table.unlink_first(owner, first, None, block, old);
    table.bury(owner, block, round);
}

/// And that of a patch of two members, the second member's LINK word first.
pub fn undo_pair<'m>(
    table: &MeshTable<'m>,
    owner: &mut MeshSeat,
    first: ElemAt,
    second: ElemAt,
    block: u32,
    round: u32,
)
    requires fit { IsOf table.now.table.shared.table_id owner.old }
    requires taking { IsTaking (sight owner.old) round }
    requires first { IsElemAt table.now.site.layout first }
    requires second { IsElemAt table.now.site.layout second }
    requires block { block < table.now.site.layout.pool }
    requires claim { HasEntry (sight owner.old).claims (claim (place_number table.now.site.layout first) (place_number table.now.site.layout second + 1) (Living block)) }
    ensures stays { Stays owner.old owner.new }
    ensures rolled_back { RolledBackOne (sight owner.old) (sight owner.new) (place_number table.now.site.layout first) (place_number table.now.site.layout second + 1) block round }
{
    let old = table.look_history(owner, block, false);
    let older = table.look_history(owner, block, true);
    table.unbear(owner, first, block);
    table.unlink_second(owner, first, second, block, older);
    table.unlink_first(owner, first, Some(second), block, old);
    table.bury(owner, block, round);
}

/// Ends a claim whose draw found no block.
pub fn drop_failed<'m>(table: &MeshTable<'m>, owner: &mut MeshSeat, first: ElemAt, round: u32)
    requires fit { IsOf table.now.table.shared.table_id owner.old }
    requires taking { IsTaking (sight owner.old) round }
    requires first { IsElemAt table.now.site.layout first }
    requires claim { (m : ℕ) × HasEntry (sight owner.old).claims (claim (place_number table.now.site.layout first) m Failed) }
    ensures stays { Stays owner.old owner.new }
    ensures dropped { sight owner.new ≡ record (sight owner.old) { claims = ended (sight owner.old).claims (place_number table.now.site.layout first); owned = (sight owner.new).owned } }
{
    let _round = round;
    let word = table.look_head(owner, first);
    table.drop_claim(owner, first, word);
}

/// Takes a claim of the refused round back.
pub fn end_held<'m>(table: &MeshTable<'m>, owner: &mut MeshSeat, held: Held, round: u32)
    requires fit { IsOf table.now.table.shared.table_id owner.old }
    requires taking { IsTaking (sight owner.old) round }
    requires fits { IsHeld table.now.site.layout held }
    requires claim { HasEntry (sight owner.old).claims (claim (place_number table.now.site.layout held.first) (mate_number table.now.site.layout held.second) (progress_of held.block)) }
    ensures stays { Stays owner.old owner.new }
    ensures ended { EndedOne table.now.site.layout (sight owner.old) (sight owner.new) held }
{
    match held.block {
        None => drop_failed(table, owner, held.first, round),
        Some(block) => match held.second {
            None => undo_single(table, owner, held.first, block, round),
            Some(second) => undo_pair(table, owner, held.first, second, block, round),
        },
    }
}

/// Takes all claims of the refused round back, in the order of the list.
pub fn end_all<'m>(table: &MeshTable<'m>, owner: &mut MeshSeat, claims: &[Held], round: u32)
    requires fit { IsOf table.now.table.shared.table_id owner.old }
    requires taking { IsTaking (sight owner.old) round }
    requires fits { HeldFit table.now.site.layout claims.now }
    requires claims { AreHeld table.now.site.layout (sight owner.old) claims.now }
    ensures stays { Stays owner.old owner.new }
    ensures taken { TakenTo table.now.site.layout (sight owner.old) (sight owner.new) claims.now (length claims.now) }
{
    for held in claims {
        end_held(table, owner, *held, round);
    }
}

/// Refuses the round, whose passes are joined, and rolls it back.
pub fn roll_back<'m>(table: &MeshTable<'m>, owner: &mut MeshSeat, claims: &[Held], round: u32)
    requires fit { IsOf table.now.table.shared.table_id owner.old }
    requires may { MayRefuse (sight owner.old) }
    requires round { (sight owner.old).ruling.finished + 1 ≡ round }
    requires fits { HeldFit table.now.site.layout claims.now }
    requires claims { AreHeld table.now.site.layout (sight owner.old) claims.now }
    ensures stays { Stays owner.old owner.new }
    ensures back { RolledBackAll table.now.site.layout (sight owner.old) (sight owner.new) claims.now }
{
    table.refuse(owner);
    end_all(table, owner, claims, round);
    table.restore(owner);
}
