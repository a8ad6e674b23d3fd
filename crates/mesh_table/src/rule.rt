//! The rule that the table is made with.

use atomic_table::{Seat, TableRule};
use compat_check::MacroMesh;
use std::marker::Model;
use table_words::layout::Layout;

/// What a table is told once: the mesh, how large it is, and for how many readers' passes.
#[derive(Clone, Copy)]
pub struct Site<'m> {
    pub mesh: &'m MacroMesh,
    pub layout: Layout,
    pub passes: u32,
}

/// What a seat knows. No value of it is made.
pub struct View {
    nothing: (),
}

impl Model for View {
    ghost use Rattle.mesh_table.specs.Sights.{Sight, nobody};

    ghost Value = { Sight };

    ghost view = { λ _. nobody };
}

/// The rule.
pub struct MeshRule;

impl<'m> TableRule<(), View, Site<'m>> for MeshRule {
    ghost use Rattle.mesh_table.specs.Sights.{owner_sight};
    ghost use Rattle.mesh_table.specs.Holds.{Holds};

    ghost holds = { Holds };

    ghost first = { owner_sight };
}

/// A thread's seat.
pub type MeshSeat = Seat<(), View>;
