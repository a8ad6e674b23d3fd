//! The effective marks of a round.
ghost use Rattle.std.specs.Prelude.{◌≡◌, cond, IfOk, OnOk};
ghost use Rattle.mesh_names.specs.Names.{Name};
ghost use Rattle.mesh_names.specs.Marks.{effective_mark, marks_leaf};

use mesh_names::name::ElemName;
use mesh_names::rows::{MarkRow, Place, What};
use std::alloc::{AllocError, Global};
use std::collections::BTreeMap;

/// The marks of single leaves, and the mark of every other leaf.
#[derive(Drop)]
pub struct Marks {
    every: i64,
    single: BTreeMap<ElemName, i64>,
}

impl Marks {
    ghost use Rattle.forest_plain.specs.MarkMaps.{mark_in};

    /// The number of the last row that marks each leaf.
    pub fn of_rows(alloc: Global, rows: &[MarkRow]) -> Result<Marks, AllocError>
        ensures { IfOk result (λ m. (n : Name) → mark_in m n ≡ effective_mark rows.now n) }
    {
        let mut marks = Marks {
            every: 0,
            single: BTreeMap::new(alloc),
        };
        for row in rows {
            marks.add(alloc, row)?;
        }
        Ok(marks)
    }

    // A row overrules the rows before it at the leaves that it marks.
    fn add(&mut self, alloc: Global, row: &MarkRow) -> Result<(), AllocError>
        ensures { OnOk result ((n : Name) → mark_in self.new n ≡ cond (marks_leaf row.now n) row.now.number (mark_in self.old n)) }
    {
        if row.what != What::Mark {
            return Ok(());
        }
        match row.place {
            Place::EveryLeaf => {
                self.every = row.number;
                self.single = BTreeMap::new(alloc);
            }
            Place::Elem(name) => {
                self.single.insert(name, row.number)?;
            }
            Place::Corner(_, _) => {}
        }
        Ok(())
    }

    /// The effective mark of a leaf.
    pub fn of(&self, name: ElemName) -> i64
        ensures { result ≡ mark_in self.now name }
    {
        match self.single.get(&name) {
            Some(mark) => *mark,
            None => self.every,
        }
    }
}
