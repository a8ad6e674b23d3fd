//! Grades of elements: whole numbers by which each shared edge is bisected at one level from both
//! sides.
ghost use Rattle.std.specs.Prelude.{◌≡◌, ℕ, ℤ, pos, negsuc, suc, ◌+◌, ◌*◌, ◌<◌, ◌≤◌, ◌≤ℤ◌, ◌-ℤ◌, IfOk, List, MatchOption, [], length, slice_index_or};
ghost use Rattle.compat_check.specs.Faults.{IsFirst};
ghost use Rattle.compat_check.specs.Parts.{AreParts, AreSettled, InRange, Leads, Rule, Satisfies, size};
ghost use Rattle.compat_check.specs.Passes.{IsStuck};
ghost use Rattle.compat_check.specs.Grading.{AreFit, AreGrades, AreLows, rise_at, rules_before, weight};

use crate::mesh::Side;
use crate::parts::Parts;
use std::alloc::{AllocError, Global};

// 1 at the refinement edge, and 0 at the others.
fn weight(edge: u8) -> i32
    ensures { result ≡ pos (weight edge) }
{
    if edge == 2 { 1 } else { 0 }
}

// How much the grade of the element at a place is above that across its edge.
fn rise(place: usize, side: Side) -> i32
    ensures rise { result ≡ rise_at place side }
    ensures small { (negsuc 0 ≤ℤ result) × (result ≤ℤ pos 1) }
{
    weight((place % 3) as u8) - weight(side.edge)
}

/// Asks what each shared edge asks of the grades, in order. Answers the first place at which no
/// grades meet this and all that was asked before.
pub(crate) fn ask_all(parts: &mut Parts, sides: &[Option<Side>], count: u32) -> Option<usize>
    requires few { count ≤ 65535 }
    requires sides { length sides.now ≡ count * 3 }
    requires fit { AreFit count sides.now }
    requires alone { AreSettled count [] parts.old }
    ensures { MatchOption result (AreSettled count (rules_before sides.now (length sides.now)) parts.new) (IsStuck sides.now) }
{
    for place in 0..sides.len() {
        let Some(side) = sides[place] else {
            continue;
        };
        if !parts.ask((place / 3) as u32, side.element, rise(place, side)) {
            return Some(place);
        }
    }
    None
}

// For each head the lowest height in its part.
fn lowest(alloc: Global, parts: &Parts) -> Result<Vec<i32>, AllocError>
    requires few { size parts.now ≤ 65535 }
    requires parts { AreParts (size parts.now) parts.now }
    ensures { IfOk result (λ lows. (head : ℕ → ℕ) (height : ℕ → ℤ) → Leads (size parts.now) parts.now head height → AreLows (size parts.now) (size parts.now) head height lows.items) }
{
    let mut lows = vec![in alloc; 0; parts.size() as usize]?;
    for element in 0..parts.size() {
        let (head, height) = parts.find(element);
        if lows[head as usize] <= height {
            continue;
        }
        lows[head as usize] = height;
    }
    Ok(lows)
}

// The grade over the lowest of the part.
fn over(height: i32, low: i32) -> u32
    requires { (low ≤ℤ height) × ((height -ℤ low) ≤ℤ pos 65535) }
    ensures { pos result ≡ height -ℤ low }
{
    (height - low) as u32
}

/// The grades of elements in parts: in each part the least is 0.
pub(crate) fn grades(alloc: Global, parts: &Parts) -> Result<Vec<u32>, AllocError>
    requires few { size parts.now ≤ 65535 }
    requires parts { AreParts (size parts.now) parts.now }
    ensures { IfOk result (λ grades. (rules : List Rule) → InRange (size parts.now) rules → AreSettled (size parts.now) rules parts.now → AreGrades (size parts.now) rules grades.items) }
{
    let lows = lowest(alloc, parts)?;
    let mut grades = Vec::new(alloc);
    grades.try_reserve(parts.size() as usize)?;
    for element in 0..parts.size() {
        let (head, height) = parts.find(element);
        grades.push(over(height, lows[head as usize]))?;
    }
    Ok(grades)
}

/// The first element whose grade is above 24.
pub(crate) fn first_above(grades: &[u32]) -> Option<usize>
    ensures { IsFirst (length grades.now) (λ x. 24 < slice_index_or grades.now x 0) result }
{
    for (element, grade) in grades.iter().enumerate() {
        if *grade > 24 {
            return Some(element);
        }
    }
    None
}
