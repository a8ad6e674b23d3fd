//! The check of a macro text.
ghost use Rattle.std.specs.Prelude.{◌≡◌, ℕ, ◌<◌, ◌≤◌, ◌*◌, ◌+◌, ◌↔◌, IfErr, IfOk, IsTrue, None, OnOk, length, map, pos, slice_index_or, true, false};
ghost use Rattle.compat_check.specs.Faults.{AreSound, IsFirst, IsRepeated, triple_in};
ghost use Rattle.compat_check.specs.Grading.{AreFit, AreGrades, rules_before};
ghost use Rattle.compat_check.specs.Parts.{InRange};
ghost use Rattle.compat_check.specs.Passes.{IsEdgeFault, IsElementFault, IsGradeFault, IsNeighbourFault, IsTwinFault, IsValidityFault};
ghost use Rattle.compat_check.specs.Paired.{IsTable, Passes};
ghost use Rattle.compat_check.specs.Checks.{IsCheckRefusal, IsMeshOf};
ghost use Rattle.compat_check.specs.Tables.{AreMadeLabels, Differs, label_by, number_by};
ghost use Rattle.compat_check.specs.Twins.{TwinFree};

use crate::edges::{earlier_edges, first_third, sides};
use crate::grading::{ask_all, first_above, grades};
use crate::mesh::{MacroMesh, Side};
use crate::parts::Parts;
use crate::refusal::CheckRefusal;
use crate::triples::{first_flat, first_outside, first_repeated};
use crate::twins::earlier_twins;
use macro_file::{MacroElem, MacroText, MacroVertex};
use mesh_names::laws;
use std::alloc::{AllocError, Global};

pub(crate) fn corners_of(alloc: Global, elements: &[MacroElem]) -> Result<Vec<[u32; 3]>, AllocError>
    ensures { IfOk result (λ triples. triples.items ≡ map (λ e. e.corners) elements.now) }
{
    let mut triples = Vec::new(alloc);
    triples.try_reserve(elements.len())?;
    for element in elements {
        triples.push(element.corners)?;
    }
    Ok(triples)
}

fn labels_of(alloc: Global, elements: &[MacroElem]) -> Result<Vec<[i8; 3]>, AllocError>
    ensures { IfOk result (λ labels. labels.items ≡ map (λ e. e.labels) elements.now) }
{
    let mut labels = Vec::new(alloc);
    labels.try_reserve(elements.len())?;
    for element in elements {
        labels.push(element.labels)?;
    }
    Ok(labels)
}

fn values_of(alloc: Global, elements: &[MacroElem]) -> Result<Vec<i64>, AllocError>
    ensures { IfOk result (λ values. values.items ≡ map (λ e. e.value) elements.now) }
{
    elements.iter().map(|element| element.value).collect(alloc)
}

// 1 on the boundary, and 0 inside.
fn made_label(side: Option<Side>) -> i8
    ensures { result ≡ label_by side }
{
    match side {
        None => 1,
        Some(_) => 0,
    }
}

// The labels of an element.
fn made_row(sides: &[Option<Side>], element: usize) -> [i8; 3]
    requires { element * 3 + 2 < length sides.now }
    ensures { (k : ℕ) → k < 3 → slice_index_or result k (pos 0) ≡ label_by (slice_index_or sides.now (element * 3 + k) None) }
{
    let place = element * 3;
    [
        made_label(sides[place]),
        made_label(sides[place + 1]),
        made_label(sides[place + 2]),
    ]
}

fn made_labels(
    alloc: Global,
    sides: &[Option<Side>],
    count: u32,
) -> Result<Vec<[i8; 3]>, AllocError>
    requires { length sides.now ≡ count * 3 }
    ensures { IfOk result (λ labels. AreMadeLabels count sides.now labels.items) }
{
    let mut labels = Vec::new(alloc);
    labels.try_reserve(count as usize)?;
    for element in 0..count as usize {
        labels.push(made_row(sides, element))?;
    }
    Ok(labels)
}

// Each element by itself.
fn check_elements(vertices: &[MacroVertex], triples: &[[u32; 3]]) -> Result<(), CheckRefusal>
    requires vertices { length vertices.now ≤ 65535 }
    requires triples { length triples.now ≤ 65535 }
    ensures ok { OnOk result (AreSound vertices.now triples.now) }
    ensures refused { IfErr result (IsElementFault vertices.now triples.now) }
{
    if let Some(element) = first_outside(triples, vertices.len() as u32) {
        return Err(CheckRefusal::VertexRange {
            element: element as u32,
        });
    }
    if let Some(element) = first_repeated(triples) {
        return Err(CheckRefusal::RepeatedVertex {
            element: element as u32,
        });
    }
    if let Some(element) = first_flat(vertices, triples) {
        return Err(CheckRefusal::Flat {
            element: element as u32,
        });
    }
    Ok(())
}

fn check_twins(alloc: Global, triples: &[[u32; 3]]) -> Result<(), CheckRefusal>
    requires few { length triples.now ≤ 65535 }
    requires distinct { IsFirst (length triples.now) (λ r. IsRepeated (triple_in triples.now r)) None }
    ensures ok { OnOk result (TwinFree triples.now) }
    ensures refused { IfErr result (IsTwinFault triples.now) }
{
    let earlier = earlier_twins(alloc, triples)?;
    for (second, before) in earlier.iter().enumerate() {
        if let Some(first) = before {
            return Err(CheckRefusal::TwinElements {
                first: *first,
                second: second as u32,
            });
        }
    }
    Ok(())
}

// The table of sides, where no edge is in three elements.
fn check_edges(alloc: Global, triples: &[[u32; 3]]) -> Result<Vec<Option<Side>>, CheckRefusal>
    requires few { length triples.now ≤ 65535 }
    requires distinct { IsFirst (length triples.now) (λ r. IsRepeated (triple_in triples.now r)) None }
    ensures ok { IfOk result (λ sides. IsTable triples.now sides.items) }
    ensures refused { IfErr result (IsEdgeFault triples.now) }
{
    let earlier = earlier_edges(alloc, triples)?;
    if let Some(place) = first_third(earlier.as_slice()) {
        return Err(CheckRefusal::EdgeOfThree {
            element: (place / 3) as u32,
            edge: (place % 3) as u8,
        });
    }
    let sides = sides(alloc, triples, earlier.as_slice())?;
    Ok(sides)
}

fn check_grades(alloc: Global, sides: &[Option<Side>], count: u32) -> Result<Vec<u8>, CheckRefusal>
    requires few { count ≤ 65535 }
    requires sides { length sides.now ≡ count * 3 }
    requires fit { AreFit count sides.now }
    requires rules { InRange count (rules_before sides.now (length sides.now)) }
    ensures refused { IfErr result (IsGradeFault count sides.now) }
    ensures ok { IfOk result (λ grades. AreGrades count (rules_before sides.now (length sides.now)) grades.items × ((r : ℕ) → r < count → slice_index_or grades.items r 0 ≤ 24)) }
{
    let mut parts = Parts::new(alloc, count)?;
    if let Some(place) = ask_all(&mut parts, sides, count) {
        return Err(CheckRefusal::Incompatible {
            element: (place / 3) as u32,
            edge: (place % 3) as u8,
        });
    }
    let grades = grades(alloc, &parts)?;
    if let Some(element) = first_above(grades.as_slice()) {
        return Err(CheckRefusal::GradeTooHigh {
            element: element as u32,
            grade: grades[element],
        });
    }
    let low = narrowed(alloc, grades.as_slice())?;
    Ok(low)
}

fn narrowed(alloc: Global, grades: &[u32]) -> Result<Vec<u8>, AllocError>
    requires { (x : ℕ) → x < length grades.now → slice_index_or grades.now x 0 ≤ 24 }
    ensures { IfOk result (λ low. low.items ≡ grades.now) }
{
    let mut low = Vec::new(alloc);
    low.try_reserve(grades.len())?;
    for grade in grades {
        low.push(*grade as u8)?;
    }
    Ok(low)
}

fn differs(given: i32, side: Option<Side>) -> bool
    ensures { IsTrue result ↔ (given ≡ number_by side → ⊥) }
{
    match side {
        None => given != -1,
        Some(side) => i64::from(given) != i64::from(side.element),
    }
}

// The first edge whose given neighbour is not the element that has this edge.
fn first_differing(elements: &[MacroElem], sides: &[Option<Side>]) -> Option<usize>
    requires { length sides.now ≡ length elements.now * 3 }
    ensures { IsFirst (length sides.now) (Differs elements.now sides.now) result }
{
    for place in 0..sides.len() {
        if differs(elements[place / 3].neighbours[place % 3], sides[place]) {
            return Some(place);
        }
    }
    None
}

pub(crate) fn check_neighbours(
    given: bool,
    elements: &[MacroElem],
    sides: &[Option<Side>],
) -> Result<(), CheckRefusal>
    requires few { length elements.now ≤ 65535 }
    requires sides { length sides.now ≡ length elements.now * 3 }
    ensures refused { IfErr result (IsNeighbourFault given elements.now sides.now) }
    ensures ok { OnOk result (given ≡ true → IsFirst (length sides.now) (Differs elements.now sides.now) None) }
{
    if !given {
        return Ok(());
    }
    match first_differing(elements, sides) {
        None => Ok(()),
        Some(place) => Err(CheckRefusal::NeighboursDiffer {
            element: (place / 3) as u32,
            edge: (place % 3) as u8,
        }),
    }
}

// The labels that were given, or else those that the sides make.
pub(crate) fn labels(
    alloc: Global,
    given: bool,
    elements: &[MacroElem],
    sides: &[Option<Side>],
) -> Result<Vec<[i8; 3]>, AllocError>
    requires few { length elements.now ≤ 65535 }
    requires sides { length sides.now ≡ length elements.now * 3 }
    ensures given { IfOk result (λ labels. given ≡ true → labels.items ≡ map (λ e. e.labels) elements.now) }
    ensures made { IfOk result (λ labels. given ≡ false → AreMadeLabels (length elements.now) sides.now labels.items) }
{
    if given {
        return labels_of(alloc, elements);
    }
    made_labels(alloc, sides, elements.len() as u32)
}

// The table of sides, where there is none of the faults but those of given neighbours and of grades.
pub(crate) fn valid_sides(
    alloc: Global,
    vertices: &[MacroVertex],
    triples: &[[u32; 3]],
) -> Result<Vec<Option<Side>>, CheckRefusal>
    requires vertices { length vertices.now ≤ 65535 }
    requires triples { length triples.now ≤ 65535 }
    ensures refused { IfErr result (IsValidityFault vertices.now triples.now) }
    ensures ok { IfOk result (λ sides. Passes vertices.now triples.now sides.items) }
{
    check_elements(vertices, triples)?;
    check_twins(alloc, triples)?;
    check_edges(alloc, triples)
}

/// The mesh of a macro text, with its grades, where the text has none of the faults of
/// `CheckRefusal`. Takes n log n steps for n elements.
pub fn check(alloc: Global, text: MacroText) -> Result<MacroMesh, CheckRefusal>
    ensures ok { IfOk result (IsMeshOf text) }
    ensures refused { IfErr result (IsCheckRefusal text) }
    ensures faultless { OnOk result ((refusal : CheckRefusal) → IsCheckRefusal text refusal → refusal ≡ CheckRefusal.Memory) }
{
    let MacroText {
        vertices,
        elements,
        labels_given,
        neighbours_given,
    } = text;
    let triples = corners_of(alloc, &elements)?;
    let sides = valid_sides(alloc, &vertices, &triples)?;
    check_neighbours(neighbours_given, &elements, &sides)?;
    let grades = check_grades(alloc, &sides, triples.len() as u32)?;
    let labels = labels(alloc, labels_given, &elements, &sides)?;
    let values = values_of(alloc, &elements)?;
    laws::valid_tells();
    Ok(MacroMesh {
        vertices,
        triples,
        grades,
        labels,
        values,
        sides,
    })
}
