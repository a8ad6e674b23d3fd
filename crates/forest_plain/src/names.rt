//! What the steps of a round ask of a set of names, and do to it.
ghost use Rattle.std.specs.Prelude.{◌≡◌, not, IfOk, OnOk};
ghost use Rattle.std.specs.FinSet as set;
ghost use Rattle.mesh_names.specs.Forests.{Names};

use mesh_names::name::ElemName;
use std::alloc::AllocError;

/// Names that are looked up in turn.
pub trait Asked {
    // The names.
    ghost names: { Self → Names };

    /// Whether the name is one of these. Takes no memory.
    fn has(&mut self, name: ElemName) -> bool
        ensures found { result ≡ set.contains (names self.old) name }
        ensures same { names self.new ≡ names self.old };
}

/// Names to which others are added.
pub trait Growing {
    // The names.
    ghost grown: { Self → Names };

    // Those that were there at first, where others are added beside them.
    ghost start: { Self → Names };

    /// Adds a name, and says whether it is new.
    fn add(&mut self, name: ElemName) -> Result<bool, AllocError>
        ensures start { start self.new ≡ start self.old }
        ensures added { IfOk result (λ added. added ≡ not (set.contains (grown self.old) name)) }
        ensures held { OnOk result (grown self.new ≡ set.insert (grown self.old) name) };
}

/// Names of which some are taken away.
pub trait Shrinking {
    // The names.
    ghost left: { Self → Names };

    // Those that were there at first, where the others are noted as gone.
    ghost whole: { Self → Names };

    /// Whether the name is one of these. Takes no memory.
    fn is_left(&self, name: ElemName) -> bool
        ensures { result ≡ set.contains (left self.now) name };

    /// Takes the name away.
    fn take_away(&mut self, name: ElemName) -> Result<(), AllocError>
        ensures whole { whole self.new ≡ whole self.old }
        ensures left { OnOk result (left self.new ≡ set.remove (left self.old) name) };
}
