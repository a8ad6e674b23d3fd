//! Runs of rounds on the square of two triangles.
ghost use Rattle.std.specs.Prelude.{◌≡◌, ◌<◌, ◌≤◌, All, IfOk, length, nat_abs};
ghost use Rattle.mesh_names.specs.Marks.{IsWellFormed};

use crate::any_forest::Forest;
use crate::forest::PlainForest;
use crate::refusal::{RoundRefusal, RunRefusal};
use crate::run::run_rounds;
use compat_check::{MacroMesh, check};
use macro_file::read_macro;
use mesh_names::name::ElemName;
use mesh_names::patch::{PatchName, RoundDelta};
use mesh_names::rows::{MarkRow, Place, RoundMarks, What};
use mesh_names::spelling::put_name;
use std::alloc::{AllocError, Global};
use std::test::Fail;

const SQUARE: &str = "number of vertices: 4
number of elements: 2
vertex coordinates: 0 0 1 0 1 1 0 1
element vertices: 2 0 1 0 2 3
";

fn square(alloc: Global) -> Result<MacroMesh, AllocError> {
    let text = read_macro(alloc, SQUARE.as_bytes()).map_err(|_| AllocError)?;
    check(alloc, text).map_err(|_| AllocError)
}

// A round that marks one element.
fn round_of(alloc: Global, number: u32, name: ElemName, mark: i64) -> Result<RoundMarks, AllocError>
    requires mark { nat_abs mark ≤ 24 }
    requires number { number < 100 }
    ensures { IfOk result (λ r. All IsWellFormed r.rows.items) }
{
    let mut rows = Vec::new(alloc);
    rows.push(MarkRow {
        row: number + 1,
        what: What::Mark,
        place: Place::Elem(name),
        number: mark,
    })?;
    Ok(RoundMarks { number, rows })
}

// Mark 0 by 1, and then 0.0 by 2.
fn two_rounds(alloc: Global) -> Result<Vec<RoundMarks>, AllocError>
    ensures two { IfOk result (λ v. length v.items ≡ 2) }
    ensures formed { IfOk result (λ v. All (λ r. All IsWellFormed r.rows.items) v.items) }
{
    let mut rounds = Vec::new(alloc);
    rounds.push(round_of(alloc, 1, ElemName::top(0), 1)?)?;
    rounds.push(round_of(alloc, 2, ElemName::top(0).child_at(false), 2)?)?;
    Ok(rounds)
}

// Mark 0 by 2.
fn one_round(alloc: Global) -> Result<Vec<RoundMarks>, AllocError>
    ensures one { IfOk result (λ v. length v.items ≡ 1) }
    ensures formed { IfOk result (λ v. All (λ r. All IsWellFormed r.rows.items) v.items) }
{
    let mut rounds = Vec::new(alloc);
    rounds.push(round_of(alloc, 1, ElemName::top(0), 2)?)?;
    Ok(rounds)
}

// The members with a `+` between them, each patch with a blank after it.
fn spelled(alloc: Global, patches: &[PatchName]) -> Result<Vec<u8>, AllocError> {
    let mut text = Vec::new(alloc);
    for patch in patches {
        put_name(&mut text, patch.first).map_err(|_| AllocError)?;
        if let Some(second) = patch.second {
            text.push(b'+')?;
            put_name(&mut text, second).map_err(|_| AllocError)?;
        }
        text.push(b' ')?;
    }
    Ok(text)
}

// A plain forest that takes a limited number of rounds.
#[derive(Drop)]
struct Limited<'m> {
    forest: PlainForest<'m>,
    rounds: u32,
    left: u32,
}

impl Forest for Limited<'_> {
    ghost use Rattle.std.specs.Prelude.{Some};
    ghost use Rattle.forest_plain.specs.Forests.{seen_of};

    ghost seen = { λ f. record (seen_of f.forest) { left = Some f.left; made_for = f.rounds } };

    ghost kept = { λ _. 0 };

    fn round(&mut self, marks: &RoundMarks) -> Result<RoundDelta, RoundRefusal> {
        if self.left == 0 {
            return Err(RoundRefusal::RoundsUsedUp {
                rounds: self.rounds,
            });
        }
        match self.forest.round(marks) {
            Ok(delta) => {
                self.left -= 1;
                Ok(delta)
            }
            Err(refusal) => Err(refusal),
        }
    }

    fn is_leaf(&mut self, name: ElemName) -> bool {
        self.forest.is_leaf(name)
    }

    fn leaves(&mut self) -> Result<Vec<ElemName>, RoundRefusal> {
        self.forest.leaves()
    }

    fn patches(&self) -> u32 {
        self.forest.patches()
    }
}

#[test]
fn a_run_tells_what_each_round_bisected(rt: HostRuntime) -> Result<(), Fail> {
    let alloc = rt.alloc();
    let mesh = square(alloc)?;
    let mut forest = PlainForest::new(alloc, &mesh, 65_536);
    let rounds = two_rounds(alloc)?;
    let deltas = run_rounds(alloc, &mut forest, &rounds).map_err(|_| AllocError)?;
    let mut born = Vec::new(alloc);
    for delta in &deltas {
        assert!(rt; delta.died.is_empty());
        born.extend_from_slice(&spelled(alloc, &delta.born)?)?;
        born.push(b'\n')?;
    }
    let want = b"0+1 \n0.0 0.1 1.1 0.00+0.11 0.01+1.10 \n";
    assert!(rt; born.as_slice() == want.as_slice());
    Ok(())
}

#[test]
fn a_run_tells_the_round_that_is_refused(rt: HostRuntime) -> Result<(), Fail> {
    let alloc = rt.alloc();
    let mesh = square(alloc)?;
    let mut forest = PlainForest::new(alloc, &mesh, 1);
    let rounds = one_round(alloc)?;
    let told = match run_rounds(alloc, &mut forest, &rounds) {
        Err(
            RunRefusal::AtRound {
                index,
                refusal: RoundRefusal::PoolFull { needed, kept, pool },
            },
        ) => (index, needed, kept, pool),
        _ => (9, 9, 9, 9),
    };
    assert_eq!(rt; told, (0, 3, 0, 1));
    let leaves = forest.leaves().map_err(|_| AllocError)?;
    assert_eq!(rt; leaves.len(), 2);
    assert!(rt; forest.is_leaf(ElemName::top(0)) && forest.is_leaf(ElemName::top(1)));
    Ok(())
}

#[test]
fn a_forest_for_one_round_refuses_the_second(rt: HostRuntime) -> Result<(), Fail> {
    let alloc = rt.alloc();
    let mesh = square(alloc)?;
    let mut forest = Limited {
        forest: PlainForest::new(alloc, &mesh, 65_536),
        rounds: 1,
        left: 1,
    };
    let rounds = two_rounds(alloc)?;
    let told = match run_rounds(alloc, &mut forest, &rounds) {
        Err(
            RunRefusal::AtRound {
                index,
                refusal: RoundRefusal::RoundsUsedUp { rounds },
            },
        ) => (index, rounds),
        _ => (9, 9),
    };
    assert_eq!(rt; told, (1, 1));
    assert_eq!(rt; forest.patches(), 1);
    Ok(())
}
