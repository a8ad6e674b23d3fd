//! A large soak beside the same run by files. The files are made in plain loops, without the crates
//! that make and check a soak: the lines of the grid, and a draw for each leaf before each round.
use crate::forests::{mesh_of, rounds_of};
use crate::run::{run_in_room, run_words, shelf};
use forest_plain::Forest;
use forest_plain::forest::PlainForest;
use mesh_names::name::ElemName;
use mesh_names::spelling::put_name;
use std::alloc::{AllocError, Global};
use std::fmt::Write;
use std::str;
use std::test::Fail;

/// The vertices of the grid of 64 squares in a row, each of which some element has.
const GRID_VERTICES: u64 = 65 * 65;

/// The line of the soak, whose numbers independent programs have counted as well.
const LINE: &str =
    "soak 7 grid 64 rounds 4 leaves 96281 vertices 48415 patches 44190 bytes 5020347\n";

// The macro file of a grid of squares, each of two triangles with the diagonal as refinement edge;
// the value of each vertex and of each element is its number.
fn grid(alloc: Global, side: u8) -> Result<String, AllocError> {
    let row = u64::from(side) + 1;
    let vertices = row * row;
    let elements = u64::from(side) * u64::from(side) * 2;
    let mut text = format!(in alloc;
        "number of vertices: {vertices}\nnumber of elements: {elements}\nvertex coordinates:\n"
    )?;
    for y in 0..=side {
        for x in 0..=side {
            write!(text, "{x} {y}\n")?;
        }
    }
    write!(text, "element vertices:\n")?;
    for y in 0..side {
        for x in 0..side {
            let low = u64::from(y) * row + u64::from(x);
            let (right, up) = (low + 1, low + row);
            let high = up + 1;
            write!(text, "{high} {low} {right}\n{low} {high} {up}\n")?;
        }
    }
    put_numbers(&mut text, "vertex values", vertices)?;
    put_numbers(&mut text, "element values", elements)?;
    Ok(text)
}

// A list of so many numbers, from 0 on.
fn put_numbers(text: &mut String, key: &str, count: u64) -> Result<(), AllocError> {
    write!(text, "{key}:\n")?;
    for number in 0..count {
        write!(text, "{number}\n")?;
    }
    Ok(())
}

// The mark that a number from 0 to 15 stands for, if any.
fn mark_of(drawn: u32) -> Option<i32> {
    match drawn {
        0 | 1 => Some(1),
        2 => Some(2),
        3..=5 => Some(-1),
        _ => None,
    }
}

// Whether a leaf that has so many letters may have this mark: all macro elements are of level 0.
fn is_within(letters: u8, mark: i32) -> bool {
    mark < 0 || i32::from(letters) + mark.min(2) <= 24
}

// The rows of a round, and the generator's state after one draw for each leaf.
fn draw_rows(
    alloc: Global,
    number: u32,
    leaves: &[ElemName],
    before: u32,
) -> Result<(String, u32), AllocError> {
    let mut rows = String::new(alloc);
    let mut state = before;
    for leaf in leaves {
        state = state.wrapping_mul(75).wrapping_add(74) % 65537;
        let Some(mark) = mark_of(state % 16) else {
            continue;
        };
        if is_within(leaf.depth(), mark) {
            let name = spelled(alloc, *leaf)?;
            write!(rows, "{number},mark,{name},{mark}\n")?;
        }
    }
    Ok((rows, state))
}

// The spelling of a name.
fn spelled(alloc: Global, name: ElemName) -> Result<String, AllocError> {
    let mut text = Vec::new(alloc);
    put_name(&mut text, name).map_err(|_| AllocError)?;
    String::from_utf8(text).map_err(|_| AllocError)
}

// The rows of rounds, each drawn over the leaves that the rounds before it have led to.
fn all_rows(alloc: Global, grid: &str, start: u32, rounds: u32) -> Result<String, AllocError> {
    let mesh = mesh_of(alloc, grid)?;
    let mut forest = PlainForest::new(alloc, &mesh, 1_048_576);
    let mut all = String::new(alloc);
    let mut state = start;
    for number in 1..=rounds {
        let leaves = forest.leaves().map_err(|_| AllocError)?;
        let (rows, after) = draw_rows(alloc, number, &leaves, state)?;
        state = after;
        all.push_str(&rows)?;
        for round in &rounds_of(alloc, &rows)? {
            forest.round(round).map_err(|_| AllocError)?;
        }
    }
    Ok(all)
}

// The number on the first line that begins so.
fn number_after(text: &str, head: &str) -> Option<u64> {
    for line in text.lines() {
        if let Some(number) = line.strip_prefix(head) {
            return number.parse::<u64>().ok();
        }
    }
    None
}

// The line that a soak of 64 squares in a row has to write of this mesh text.
fn line_of(alloc: Global, text: &str) -> Result<String, AllocError> {
    let leaves = number_after(text, "number of elements: ").ok_or(AllocError)?;
    let vertices = number_after(text, "number of vertices: ").ok_or(AllocError)?;
    let patches = vertices.saturating_sub(GRID_VERTICES);
    let bytes = text.len();
    format!(in alloc;
        "soak 7 grid 64 rounds 4 leaves {leaves} vertices {vertices} patches {patches} bytes {bytes}\n"
    )
}

#[test]
fn a_soak_is_the_run_of_its_files(rt: HostRuntime) -> Result<(), Fail> {
    let alloc = rt.alloc();
    let grid = grid(alloc, 64)?;
    let rows = all_rows(alloc, &grid, 7, 4)?;
    let marks = format!(in alloc; "round,what,where,number\n{rows}")?;
    let files = shelf(alloc, &[("q", &grid), ("m", &marks)])?;
    let run = run_in_room(&rt, alloc, "run q m --pool 1048576", files, 1 << 24)?;
    assert_eq!(rt; run.status, 0);
    let line = line_of(
        alloc,
        str::from_utf8(run.out.bytes()).map_err(|_| AllocError)?,
    )?;
    assert!(rt; line.as_bytes() == LINE.as_bytes(), "{line}");
    let soak = run_words(&rt, alloc, "soak 7 64 4 --pool 1048576", shelf(alloc, &[])?)?;
    assert_eq!(rt; soak.status, 0);
    assert!(rt; soak.out.bytes() == line.as_bytes(), "{line}");
    Ok(())
}
