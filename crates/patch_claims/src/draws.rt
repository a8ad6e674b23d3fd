//! A draw for a claim.
ghost use Rattle.std.specs.Prelude.{◌≡◌, ℕ, ◌+◌, ◌*◌, ◌<◌, ◌≤◌, ◌∷◌, [], IfErr, IfOk};
ghost use Rattle.table_words.specs.Claims.{Claimed, Drawn, Failed, Half, Living, Whole, claim, moved_on};
ghost use Rattle.table_words.specs.Entries.{HasEntry};
ghost use Rattle.table_words.specs.Layout.{IsElemAt};
ghost use Rattle.table_words.specs.NameWords.{name_code};
ghost use Rattle.table_words.specs.Places.{place_number};
ghost use Rattle.table_words.specs.Views.{Worker};
ghost use Rattle.mesh_table.specs.Saw.{SawBirth, SawClaim, SawDraw, SawFree};
ghost use Rattle.mesh_table.specs.Sights.{setup_at};
ghost use Rattle.mesh_table.specs.Told.{IsOf, MayClaim, MayFill, MayLink, Stays, codes, mate_number, noted_children, sight};
ghost use Rattle.mesh_table.specs.Lost.{AllLiving};
ghost use Rattle.patch_claims.specs.Claims.{AllLivingBut};
ghost use Rattle.patch_walk.specs.Works.{Works};
ghost use Rattle.patch_claims.specs.Kept.{SameWork, SureOnly};

use mesh_table::rule::MeshSeat;
use mesh_table::table::MeshTable;
use table_words::layout::ElemAt;

/// Draws a block for a claim, and learns which it got; or the number drawn, and how many free rows there are, which is no more.
pub fn draw_block(
    table: &MeshTable,
    pass: &mut MeshSeat,
    at: ElemAt,
    second: Option<ElemAt>,
) -> Result<u32, (u64, u64)>
    requires fit { IsOf table.now.table.shared.table_id pass.old }
    requires works { (sight pass.old).kind ≡ Worker }
    requires claim { HasEntry (sight pass.old).claims (claim (place_number table.now.site.layout at) (mate_number table.now.site.layout second) Claimed) }
    ensures stays { Stays pass.old pass.new }
    ensures same { SameWork (sight pass.old) (sight pass.new) }
    ensures none { IfErr result (λ p. (p.1 ≤ p.0) × ((sight pass.new).claims ≡ moved_on (sight pass.old).claims (place_number table.now.site.layout at) Failed) × ((sight pass.new).saw ≡ SawFree p.1 ∷ SawDraw p.0 ∷ (sight pass.old).saw)) }
    ensures some { IfOk result (λ b. (b < table.now.site.layout.pool) × ((sight pass.new).claims ≡ moved_on (sight pass.old).claims (place_number table.now.site.layout at) (Drawn b)) × ((d f : ℕ) × ((sight pass.new).saw ≡ SawFree f ∷ SawDraw d ∷ (sight pass.old).saw))) }
    ensures named { (x a b : ℕ) → HasEntry (sight pass.old).work.found (x, a) → HasEntry (sight pass.old).work.found (x, b) → a ≡ b }
{
    let _second = second;
    let number = table.draw(pass, at);
    let free = table.look_free(pass);
    if number >= free {
        return Err((number, free));
    }
    Ok(table.look_row(pass, number as u32) as u32)
}
