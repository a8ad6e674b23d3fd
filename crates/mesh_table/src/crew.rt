//! A round begins for the names that it needs; and passes of its second half, and of worker 0.
ghost use Rattle.std.specs.Prelude.{◌≡◌, ℕ, true};
ghost use Rattle.compat_check.specs.Meshes.{across_in, shape_of};
ghost use Rattle.table_words.specs.Entries.{HasEntry};
ghost use Rattle.table_words.specs.Views.{Owner, SecondHalf};
ghost use Rattle.table_state.specs.Lists.{IsClosed};
ghost use Rattle.mesh_table.specs.Sights.{setup_at};
ghost use Rattle.mesh_table.specs.Crews.{MayBeginFor, MayMakeLast, left_lone, plan_for};
ghost use Rattle.mesh_table.specs.Passes.{begun, made_worker};
ghost use Rattle.mesh_table.specs.Told.{IsOf, Stays, sight};

use crate::passes::Numbers;
use crate::rule::{MeshSeat, View};
use crate::steps::Tells;
use crate::table::MeshTable;
use atomic_table::Split;
use mesh_names::name::ElemName;
use std::marker::{Brand, PhantomData};
use table_words::layout::SEATS;

pub(crate) struct LateOf<B: Numbers> {
    of: PhantomData<B>,
}

impl<B: Numbers> Split<View> for LateOf<B> {
    ghost left = { λ v. left_lone v v.ruling.lone };

    ghost right = { λ v. made_worker v B.number };
}

pub(crate) struct LastOf {
    nothing: (),
}

impl Split<View> for LastOf {
    ghost left = { λ v. left_lone v true };

    ghost right = { λ v. made_worker v 0 };
}

impl<'m> MeshTable<'m> {
    /// The first half of a round begins, which needs these names. Its target is the least conforming forest that has them and the last finished forest.
    pub fn begin_for(&self, owner: &mut MeshSeat, needs: &[ElemName])
        requires fit { IsOf self.now.table.shared.table_id owner.old }
        requires may { MayBeginFor (setup_at self.now.site) (shape_of self.now.site.mesh.now) (sight owner.old) needs.now }
        ensures stays { Stays owner.old owner.new }
        ensures begun { sight owner.new ≡ begun (sight owner.old) (plan_for (shape_of self.now.site.mesh.now) (across_in self.now.site.mesh.now) (sight owner.old) needs.now) }
        ensures closed { IsClosed (setup_at self.now.site) (HasEntry (sight owner.new).ruling.plan.target) }
        ensures aimed { (i : ℕ) → HasEntry (sight owner.new).ruling.plan.needs i → HasEntry (sight owner.new).ruling.plan.target i }
    {
        let _count = self.site.mesh.element_count();
        self.get::<Brand, &[ElemName]>(owner, SEATS, needs);
    }

    fn split_late_as<B: Numbers>(&self, owner: &mut MeshSeat, number: u32) -> MeshSeat
        requires fit { IsOf self.now.table.shared.table_id owner.old }
        requires rules { (sight owner.old).kind ≡ Owner }
        requires half { (sight owner.old).ruling.phase ≡ SecondHalf }
        requires asked { B.number ≡ number }
        ensures owner { Stays owner.old owner.new }
        ensures left { sight owner.new ≡ left_lone (sight owner.old) (sight owner.old).ruling.lone }
        ensures pass { IsOf self.now.table.shared.table_id result }
        ensures made { sight result ≡ made_worker (sight owner.old) number }
    {
        let _number = number;
        self.table.shared.split_seat::<LateOf<B>>(owner)
    }

    /// A worker's pass of the second half.
    pub fn split_late(&self, owner: &mut MeshSeat, number: u32) -> MeshSeat
        requires fit { IsOf self.now.table.shared.table_id owner.old }
        requires rules { (sight owner.old).kind ≡ Owner }
        requires half { (sight owner.old).ruling.phase ≡ SecondHalf }
        ensures owner { Stays owner.old owner.new }
        ensures left { sight owner.new ≡ left_lone (sight owner.old) (sight owner.old).ruling.lone }
        ensures pass { IsOf self.now.table.shared.table_id result }
        ensures made { sight result ≡ made_worker (sight owner.old) number }
    {
        self.split_late_as::<Brand>(owner, number)
    }

    /// The pass of worker 0 of the first half, which is made while no other worker's is out and each claim has its living block.
    pub fn split_last(&self, owner: &mut MeshSeat) -> MeshSeat
        requires fit { IsOf self.now.table.shared.table_id owner.old }
        requires may { MayMakeLast (sight owner.old) }
        ensures owner { Stays owner.old owner.new }
        ensures left { sight owner.new ≡ left_lone (sight owner.old) true }
        ensures pass { IsOf self.now.table.shared.table_id result }
        ensures made { sight result ≡ made_worker (sight owner.old) 0 }
    {
        self.table.shared.split_seat::<LastOf>(owner)
    }
}
