//! Macro texts made of the lists of a file.
ghost use Rattle.std.specs.Prelude.{◌≡◌, ◌+◌, ◌*◌, ◌<◌, ◌≤◌, ◌^◌, All, map, nat_abs, pos, neg_ℤ, IfOk, IfErr};
ghost use Rattle.std.specs.List.{range_with_len};
ghost use Rattle.macro_file.specs.declared.keyword.Keyword.{Keyword};
ghost use Rattle.macro_file.specs.Limits.{AtMost, Between, InRange};
ghost use Rattle.macro_file.specs.Meaning.{vertex, element, three, number_at as number_at_index, numbers_of as numbers_of_key, made};
ghost use Rattle.macro_file.specs.Places.{listed_of};
ghost use Rattle.macro_file.specs.Text.{vertex_of, element_of, macro_of};

use crate::counts::Counts;
use crate::keyword::Keyword;
use crate::lists::NumberList;
use crate::lookup::{is_given, number_at, numbers_of};
use crate::memory::push;
use crate::refusal::MacroRefusal;
use crate::text::{MacroElem, MacroText, MacroVertex};
use std::alloc::Global;

fn vertex_at(coordinates: &[i64], values: &[i64], i: usize) -> MacroVertex
    requires coordinates { All (AtMost 4096000000000000000) coordinates.now }
    requires values { All (AtMost (2 ^ 31)) values.now }
    requires index { i < 2 ^ 32 }
    ensures { vertex_of result ≡ vertex coordinates.now values.now i }
{
    MacroVertex {
        x: number_at(coordinates, 2 * i),
        y: number_at(coordinates, 2 * i + 1),
        value: number_at(values, i),
    }
}

fn corners_at(numbers: &[i64], e: usize) -> [u32; 3]
    requires numbers { All (Between (pos 0) (pos 65535)) numbers.now }
    requires index { e < 2 ^ 32 }
    ensures value { result ≡ map nat_abs (three numbers.now e) }
    ensures range { All (λ c. c ≤ 65535) result }
{
    [
        number_at(numbers, 3 * e) as u32,
        number_at(numbers, 3 * e + 1) as u32,
        number_at(numbers, 3 * e + 2) as u32,
    ]
}

fn label_at(numbers: &[i64], i: usize) -> i8
    requires { All (Between (neg_ℤ (pos 128)) (pos 127)) numbers.now }
    ensures value { result ≡ number_at_index numbers.now i }
    ensures range { Between (neg_ℤ (pos 128)) (pos 127) result }
{
    number_at(numbers, i) as i8
}

fn neighbour_at(numbers: &[i64], i: usize) -> i32
    requires { All (Between (neg_ℤ (pos 1)) (pos 65535)) numbers.now }
    ensures value { result ≡ number_at_index numbers.now i }
    ensures range { Between (neg_ℤ (pos 1)) (pos 65535) result }
{
    number_at(numbers, i) as i32
}

fn labels_at(numbers: &[i64], e: usize) -> [i8; 3]
    requires numbers { All (Between (neg_ℤ (pos 128)) (pos 127)) numbers.now }
    requires index { e < 2 ^ 32 }
    ensures value { result ≡ three numbers.now e }
    ensures range { All (Between (neg_ℤ (pos 128)) (pos 127)) result }
{
    [
        label_at(numbers, 3 * e),
        label_at(numbers, 3 * e + 1),
        label_at(numbers, 3 * e + 2),
    ]
}

fn neighbours_at(numbers: &[i64], e: usize) -> [i32; 3]
    requires numbers { All (Between (neg_ℤ (pos 1)) (pos 65535)) numbers.now }
    requires index { e < 2 ^ 32 }
    ensures value { result ≡ three numbers.now e }
    ensures range { All (Between (neg_ℤ (pos 1)) (pos 65535)) result }
{
    [
        neighbour_at(numbers, 3 * e),
        neighbour_at(numbers, 3 * e + 1),
        neighbour_at(numbers, 3 * e + 2),
    ]
}

fn element_at(
    corners: &[i64],
    labels: &[i64],
    neighbours: &[i64],
    values: &[i64],
    e: usize,
) -> MacroElem
    requires corners { All (Between (pos 0) (pos 65535)) corners.now }
    requires labels { All (Between (neg_ℤ (pos 128)) (pos 127)) labels.now }
    requires neighbours { All (Between (neg_ℤ (pos 1)) (pos 65535)) neighbours.now }
    requires values { All (AtMost (2 ^ 55)) values.now }
    requires index { e < 2 ^ 32 }
    ensures { element_of result ≡ element corners.now labels.now neighbours.now values.now e }
{
    MacroElem {
        corners: corners_at(corners, e),
        labels: labels_at(labels, e),
        neighbours: neighbours_at(neighbours, e),
        value: number_at(values, e),
    }
}

// The vertices of these lists.
fn vertices(
    alloc: Global,
    count: u32,
    lists: &[NumberList],
) -> Result<Vec<MacroVertex>, MacroRefusal>
    requires { (k : Keyword) → All (InRange k) (numbers_of_key k (map listed_of lists.now)) }
    ensures ok { IfOk result (λ v. map vertex_of v.items ≡ map (vertex (numbers_of_key Keyword.Coordinates (map listed_of lists.now)) (numbers_of_key Keyword.VertexValues (map listed_of lists.now))) (range_with_len 0 count)) }
    ensures err { IfErr result (λ r. r ≡ MacroRefusal.Memory) }
{
    let coordinates = numbers_of(lists, Keyword::Coordinates);
    let values = numbers_of(lists, Keyword::VertexValues);
    let mut vertices = Vec::new(alloc);
    for i in 0..count as usize {
        push(&mut vertices, vertex_at(coordinates, values, i))?;
    }
    Ok(vertices)
}

// The elements of these lists.
fn elements(alloc: Global, count: u32, lists: &[NumberList]) -> Result<Vec<MacroElem>, MacroRefusal>
    requires { (k : Keyword) → All (InRange k) (numbers_of_key k (map listed_of lists.now)) }
    ensures ok { IfOk result (λ v. map element_of v.items ≡ map (element (numbers_of_key Keyword.Triples (map listed_of lists.now)) (numbers_of_key Keyword.Labels (map listed_of lists.now)) (numbers_of_key Keyword.Neighbours (map listed_of lists.now)) (numbers_of_key Keyword.ElementValues (map listed_of lists.now))) (range_with_len 0 count)) }
    ensures err { IfErr result (λ r. r ≡ MacroRefusal.Memory) }
{
    let corners = numbers_of(lists, Keyword::Triples);
    let labels = numbers_of(lists, Keyword::Labels);
    let neighbours = numbers_of(lists, Keyword::Neighbours);
    let values = numbers_of(lists, Keyword::ElementValues);
    let mut elements = Vec::new(alloc);
    for e in 0..count as usize {
        let element = element_at(corners, labels, neighbours, values, e);
        push(&mut elements, element)?;
    }
    Ok(elements)
}

/// The macro text of these lists.
pub fn assemble(
    alloc: Global,
    counts: Counts,
    lists: &[NumberList],
) -> Result<MacroText, MacroRefusal>
    requires lists { (k : Keyword) → All (InRange k) (numbers_of_key k (map listed_of lists.now)) }
    requires vertices { (1 ≤ counts.vertices) × (counts.vertices ≤ 65535) }
    requires elements { (1 ≤ counts.elements) × (counts.elements ≤ 65535) }
    ensures ok { IfOk result (λ t. macro_of t ≡ made counts (map listed_of lists.now)) }
    ensures err { IfErr result (λ r. r ≡ MacroRefusal.Memory) }
{
    Ok(MacroText {
        vertices: vertices(alloc, counts.vertices, lists)?,
        elements: elements(alloc, counts.elements, lists)?,
        labels_given: is_given(lists, Keyword::Labels),
        neighbours_given: is_given(lists, Keyword::Neighbours),
    })
}
