//! Macro texts as data, with the ranges of their numbers.
ghost use Rattle.std.specs.Prelude.{◌≡◌, ◌≤◌, ◌^◌, All, length, pos, neg_ℤ, vec_len};
ghost use Rattle.macro_file.specs.Limits.{AtMost, Between, ZeroUnless};

/// A vertex of a macro text: its coordinates in fine units, of which 40,960,000,000,000 are 1, and its
/// value.
#[derive(Debug, Drop)]
pub struct MacroVertex {
    pub x: i64,
    pub y: i64,
    pub value: i64,
    ghost in_range: { AtMost 4096000000000000000 x × AtMost 4096000000000000000 y × AtMost (2 ^ 31) value },
}

/// An element of a macro text. Edge i and neighbour i lie opposite corner i; a neighbour is an element's
/// number, or -1 for none.
#[derive(Debug, Drop)]
pub struct MacroElem {
    pub corners: [u32; 3],
    pub labels: [i8; 3],
    pub neighbours: [i32; 3],
    pub value: i64,
    ghost three: { (length corners ≡ 3) × (length labels ≡ 3) × (length neighbours ≡ 3) },
    ghost corners_in_range: { All (λ c. c ≤ 65535) corners },
    ghost labels_in_range: { All (Between (neg_ℤ (pos 128)) (pos 127)) labels },
    ghost neighbours_in_range: { All (Between (neg_ℤ (pos 1)) (pos 65535)) neighbours },
    ghost value_in_range: { AtMost (2 ^ 55) value },
}

/// What a macro file says, before anything of it is checked but its numbers' ranges. Where labels or
/// neighbours were not given they are 0.
#[derive(Debug, Drop)]
pub struct MacroText {
    pub vertices: Vec<MacroVertex>,
    pub elements: Vec<MacroElem>,
    pub labels_given: bool,
    pub neighbours_given: bool,
    ghost some_vertices: { (1 ≤ vec_len vertices) × (vec_len vertices ≤ 65535) },
    ghost some_elements: { (1 ≤ vec_len elements) × (vec_len elements ≤ 65535) },
    ghost labels_zero: { ZeroUnless labels_given elements.items (λ e. e.labels) },
    ghost neighbours_zero: { ZeroUnless neighbours_given elements.items (λ e. e.neighbours) },
}
