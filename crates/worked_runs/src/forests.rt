//! Plain forests by the library: leaves, deltas and pools.
ghost use Rattle.std.specs.Prelude.{All, IfOk};
ghost use Rattle.mesh_names.specs.Marks.{IsWellFormed};

use crate::files::{SQUARE, TURNED_SQUARE};
use crate::run::shelf;
use adapt_cli::load::{load_macro, load_marks};
use compat_check::mesh::MacroMesh;
use forest_plain::Forest;
use forest_plain::forest::PlainForest;
use forest_plain::refusal::RoundRefusal;
use mesh_names::name::ElemName;
use mesh_names::patch::PatchName;
use mesh_names::rows::RoundMarks;
use mesh_names::spelling::put_name;
use std::alloc::{AllocError, Global};
use std::str;
use std::test::Fail;

/// The mesh of this macro file.
pub fn mesh_of(alloc: Global, macro_text: &str) -> Result<MacroMesh, AllocError> {
    let mut shelf = shelf(alloc, &[("q", macro_text)])?;
    match load_macro(alloc, &mut shelf, "q") {
        Ok(mesh) => Ok(mesh),
        Err(_) => Err(AllocError),
    }
}

/// The rounds of these rows.
pub fn rounds_of(alloc: Global, rows: &str) -> Result<Vec<RoundMarks>, AllocError>
    ensures { IfOk result (λ rounds. All (λ r. All IsWellFormed r.rows.items) rounds.items) }
{
    let rows = format!(in alloc; "round,what,where,number\n{rows}")?;
    let mut shelf = shelf(alloc, &[("m", &rows)])?;
    match load_marks(alloc, &mut shelf, "m") {
        Ok(rounds) => Ok(rounds),
        Err(_) => Err(AllocError),
    }
}

/// The leaves' spellings, each with a blank after it.
fn spelled(alloc: Global, names: &[ElemName]) -> Result<Vec<u8>, AllocError> {
    let mut text = Vec::new(alloc);
    for name in names {
        put_name(&mut text, *name).map_err(|_| AllocError)?;
        text.push(b' ')?;
    }
    Ok(text)
}

/// The patches' spellings: the members with a `+` between them, each patch with a blank after it.
fn spelled_patches(alloc: Global, patches: &[PatchName]) -> Result<Vec<u8>, AllocError> {
    let mut text = Vec::new(alloc);
    for patch in patches {
        put_name(&mut text, patch.first).map_err(|_| AllocError)?;
        if let Some(second) = patch.second {
            text.push(b'+')?;
            put_name(&mut text, second).map_err(|_| AllocError)?;
        }
        text.push(b' ')?;
    }
    Ok(text)
}

#[test]
fn two_rounds_leave_eleven_leaves_in_order(rt: HostRuntime) -> Result<(), Fail> {
    let alloc = rt.alloc();
    let mesh = mesh_of(alloc, SQUARE)?;
    let rounds = rounds_of(alloc, "1,mark,0,1\n2,mark,0.0,2\n")?;
    let mut forest = PlainForest::new(alloc, &mesh, 65_536);
    for round in &rounds {
        assert!(rt; forest.round(round).is_ok());
    }
    let leaves = forest.leaves().map_err(|_| AllocError)?;
    let want = b"0.000 0.001 0.010 0.011 0.10 0.110 0.111 1.0 1.100 1.101 1.11 ";
    assert!(rt; spelled(alloc, &leaves)?.as_slice() == want.as_slice());
    assert_eq!(rt; forest.patches(), 6);
    Ok(())
}

#[test]
fn what_is_born_is_told_by_level_and_then_by_owner(rt: HostRuntime) -> Result<(), Fail> {
    let alloc = rt.alloc();
    let cases = [
        (SQUARE, "1,mark,0,1\n", "0+1 "),
        (TURNED_SQUARE, "1,mark,0,1\n", "1 0+1.0 "),
        (SQUARE, "1,mark,*,2\n", "0+1 0.0 0.1 1.0 1.1 "),
        (
            SQUARE,
            "1,mark,0,3\n",
            "0+1 0.0 0.1 1.0 1.1 0.00+0.11 0.01+1.10 0.10+1.01 ",
        ),
    ];
    for (macro_text, rows, want) in cases {
        let mesh = mesh_of(alloc, macro_text)?;
        let rounds = rounds_of(alloc, rows)?;
        let mut forest = PlainForest::new(alloc, &mesh, 65_536);
        for round in &rounds {
            let delta = forest.round(round).map_err(|_| AllocError)?;
            assert!(rt;
                spelled_patches(alloc, &delta.born)?.as_slice() == want.as_bytes(),
                "{want}"
            );
            assert!(rt; delta.died.is_empty());
        }
    }
    Ok(())
}

#[test]
fn what_went_is_told_from_the_greatest_level_down(rt: HostRuntime) -> Result<(), Fail> {
    let alloc = rt.alloc();
    let cases = [
        ("1,mark,*,2\n2,mark,*,-2\n", "0.0 0.1 1.0 1.1 0+1 "),
        (
            "1,mark,*,2\n2,mark,*,-2\n2,mark,0.00,-1\n",
            "0.0 0.1 1.0 1.1 ",
        ),
    ];
    for (rows, want) in cases {
        let mesh = mesh_of(alloc, SQUARE)?;
        let rounds = rounds_of(alloc, rows)?;
        let mut forest = PlainForest::new(alloc, &mesh, 65_536);
        let mut died = Vec::new(alloc);
        for round in &rounds {
            let delta = forest.round(round).map_err(|_| AllocError)?;
            died = spelled_patches(alloc, &delta.died)?;
        }
        assert!(rt; died.as_slice() == want.as_bytes(), "{want}");
    }
    Ok(())
}

#[test]
fn a_pool_of_three_takes_three_patches_and_a_pool_of_one_tells(
    rt: HostRuntime,
) -> Result<(), Fail> {
    let alloc = rt.alloc();
    let mesh = mesh_of(alloc, SQUARE)?;
    let rounds = rounds_of(alloc, "1,mark,0,2\n")?;
    for round in &rounds {
        let mut small = PlainForest::new(alloc, &mesh, 1);
        let told = match small.round(round) {
            Err(RoundRefusal::PoolFull { needed, kept, pool }) => (needed, kept, pool),
            _ => (0, 0, 0),
        };
        assert_eq!(rt; told, (3, 0, 1));
        assert_eq!(rt; small.patches(), 0);
        let mut ample = PlainForest::new(alloc, &mesh, 3);
        assert!(rt; ample.round(round).is_ok());
        assert_eq!(rt; ample.patches(), 3);
    }
    Ok(())
}
