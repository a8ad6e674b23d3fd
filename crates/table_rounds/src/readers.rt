//! Readers' passes over the owner's lists.
ghost use Rattle.std.specs.Prelude.{◌≡◌, ◌-◌, ◌≤◌, cond, ltb};
ghost use Rattle.table_words.specs.Views.{Owner, Reader};
ghost use Rattle.mesh_table.specs.Passes.{joined_reader, left_by_reader, made_reader};
ghost use Rattle.mesh_table.specs.Told.{IsOf, Stays, sight};
ghost use Rattle.table_rounds.specs.Stocks.{IsStock, SameLists};

use crate::stock::Stock;
use mesh_table::rule::MeshSeat;
use mesh_table::table::MeshTable;

/// Makes a reader's pass, at any time.
pub fn split_reader<'m>(table: &MeshTable<'m>, owner: &mut MeshSeat, stock: &mut Stock) -> MeshSeat
    requires fit { IsOf table.now.table.shared.table_id owner.old }
    requires rules { (sight owner.old).kind ≡ Owner }
    requires few { (sight owner.old).ruling.readers ≤ table.now.site.passes }
    requires stock { IsStock table.now.site.layout (sight owner.old) stock.old }
    ensures stays { Stays owner.old owner.new }
    ensures left { sight owner.new ≡ left_by_reader (sight owner.old) }
    ensures pass { IsOf table.now.table.shared.table_id result }
    ensures made { sight result ≡ made_reader (sight owner.old) }
    ensures stock { IsStock table.now.site.layout (sight owner.new) stock.new }
    ensures lists { SameLists stock.old stock.new }
{
    let pass = table.split_reader(owner);
    stock.readers += 1;
    pass
}

// One pass less, and one early pass less where it was made before the last round was finished.
fn count_joined(stock: &mut Stock, made: u32)
    ensures fewer { stock.new ≡ record stock.old { readers = stock.old.readers - 1; early = cond (ltb made stock.old.finished) (stock.old.early - 1) stock.old.early } }
{
    stock.readers = stock.readers.saturating_sub(1);
    if made < stock.finished {
        stock.early = stock.early.saturating_sub(1);
    }
}

/// Joins a reader's pass, which was made when `made` was the last finished round.
pub fn join_reader<'m>(
    table: &MeshTable<'m>,
    owner: &mut MeshSeat,
    stock: &mut Stock,
    pass: MeshSeat,
    made: u32,
)
    requires fit { IsOf table.now.table.shared.table_id owner.old }
    requires pass { IsOf table.now.table.shared.table_id pass }
    requires rules { (sight owner.old).kind ≡ Owner }
    requires reads { (sight pass).kind ≡ Reader }
    requires unpinned { (sight pass).read.pin ≡ 0 }
    requires made { (sight pass).read.made ≡ made }
    requires stock { IsStock table.now.site.layout (sight owner.old) stock.old }
    ensures stays { Stays owner.old owner.new }
    ensures joined { sight owner.new ≡ joined_reader (sight owner.old) (sight pass) }
    ensures stock { IsStock table.now.site.layout (sight owner.new) stock.new }
    ensures lists { SameLists stock.old stock.new }
{
    table.join_reader(owner, pass);
    count_joined(stock, made);
}
