//! A reader's walk to the block that bisects a name at its pin.
ghost use Rattle.std.specs.Prelude.{◌≡◌, ℕ, Bool, ◌+◌, ◌<◌, IfNone, IfSome, MatchOption, false, true};
ghost use Rattle.table_words.specs.Entries.{HasEntry};
ghost use Rattle.table_words.specs.Layout.{IsElemAt};
ghost use Rattle.table_words.specs.NameWords.{name_code};
ghost use Rattle.table_words.specs.Places.{place_number};
ghost use Rattle.table_words.specs.Views.{At, Past, Reader};
ghost use Rattle.mesh_table.specs.Sights.{setup_at};
ghost use Rattle.patch_walk.specs.Looks.{Learned, Noted, NotedAt, reach};
ghost use Rattle.mesh_table.specs.Told.{IsOf, MayRead, Stays, ended_read, gone_read, sight};

use mesh_names::name::ElemName;
use mesh_table::rule::MeshSeat;
use mesh_table::table::MeshTable;
use table_words::layout::ElemAt;
use table_words::link::Link;
use table_words::name_word::spell_name;

// Goes to the block that the LINK word names, and tells which member it is.
fn read_first(
    table: &MeshTable,
    pass: &mut MeshSeat,
    at: ElemAt,
    name: ElemName,
    round: u32,
) -> Option<(u32, bool)>
    requires fit { IsOf table.now.table.shared.table_id pass.old }
    requires place { IsElemAt table.now.site.layout at }
    requires may { MayRead (setup_at table.now.site) (sight pass.old) (place_number table.now.site.layout at) (name_code name) round }
    ensures stays { Stays pass.old pass.new }
    ensures learned { Learned (sight pass.old) (sight pass.new) }
    ensures none { IfNone result (Noted (sight pass.new) round (name_code name) false) }
    ensures some { IfSome result (λ p. (p.0 < table.now.site.layout.pool) × (sight pass.new ≡ gone_read (sight pass.old) (place_number table.now.site.layout at) (name_code name) p.0 p.1 (sight pass.new).read.back)) }
{
    let link = Link::read(table.read_link(pass, at, name, round));
    match link.block {
        None => None,
        Some(block) => {
            if link.died > 0 && link.died <= round {
                None
            } else {
                let second = table.read_member(pass, block, true, round) == spell_name(Some(name));
                Some((block, second))
            }
        }
    }
}

// Goes on to the block that the HISTORY word names.
fn read_next(
    table: &MeshTable,
    pass: &mut MeshSeat,
    at: ElemAt,
    name: ElemName,
    block: u32,
    second: bool,
    round: u32,
) -> Option<(u32, bool)>
    requires fit { IsOf table.now.table.shared.table_id pass.old }
    requires block { block < table.now.site.layout.pool }
    requires reads { (sight pass.old).kind ≡ Reader }
    requires pin { (sight pass.old).read.pin ≡ round + 1 }
    requires walk { (sight pass.old).read.walk ≡ Past (place_number table.now.site.layout at) (name_code name) block second }
    ensures stays { Stays pass.old pass.new }
    ensures learned { Learned (sight pass.old) (sight pass.new) }
    ensures none { IfNone result (Noted (sight pass.new) round (name_code name) false) }
    ensures some { IfSome result (λ p. (p.0 < table.now.site.layout.pool) × (sight pass.new ≡ gone_read (sight pass.old) (place_number table.now.site.layout at) (name_code name) p.0 p.1 (sight pass.new).read.back)) }
    ensures falls { IfSome result (λ p. reach (sight pass.new) < reach (sight pass.old)) }
{
    let link = Link::read(table.read_history(pass, at, name, block, second, round));
    match link.block {
        None => None,
        Some(block) => {
            if link.died > 0 && link.died <= round {
                None
            } else {
                let second = table.read_member(pass, block, true, round) == spell_name(Some(name));
                Some((block, second))
            }
        }
    }
}

/// By which block, and as which member, a name is bisected at the pinned round.
pub fn look(
    table: &MeshTable,
    pass: &mut MeshSeat,
    at: ElemAt,
    name: ElemName,
    round: u32,
) -> Option<(u32, bool)>
    requires fit { IsOf table.now.table.shared.table_id pass.old }
    requires place { IsElemAt table.now.site.layout at }
    requires may { MayRead (setup_at table.now.site) (sight pass.old) (place_number table.now.site.layout at) (name_code name) round }
    ensures stays { Stays pass.old pass.new }
    ensures learned { Learned (sight pass.old) (sight pass.new) }
    ensures none { IfNone result (Noted (sight pass.new) round (name_code name) false) }
    ensures some { IfSome result (λ p. (p.0 < table.now.site.layout.pool) × NotedAt (setup_at table.now.site) (sight pass.new) round (name_code name) p.0 p.1) }
{
    let mut place = read_first(table, pass, at, name, round);
    while let Some((block, second)) = place {
        let born = table.read_born(pass, at, name, block, second, round);
        if born > 0 && born <= u64::from(round) {
            return Some((block, second));
        }
        place = read_next(table, pass, at, name, block, second, round);
    }
    None
}
