//! The lines of a mesh's text.
ghost use Rattle.std.specs.Prelude.{◌≡◌, ◌++◌, ◌∷◌, ◌/◌, ℕ, [], List, OnOk, map, option_map, pos};
ghost use Rattle.std.specs.Fmt.{signed_decimal};
ghost use Rattle.mesh_io.specs.Decimals.{written_units};
ghost use Rattle.macro_file.specs.Written.{numbers_line};
ghost use Rattle.mesh_writer.specs.MeshText.{coordinates_line};
ghost use Rattle.mesh_writer.specs.Others.{leaf_at as leaf_at_place};

use mesh_io::{put_decimal, put_whole};
use std::alloc::AllocError;

/// What stands on a line of its own.
pub(crate) trait Line {
    // The line.
    ghost line: { Self → List ℕ };

    /// How many bytes are made ready for a line.
    const ROOM: usize;

    /// Appends the line.
    fn put(&self, to: &mut Vec<u8>) -> Result<(), AllocError>
        ensures { OnOk result (to.new.items ≡ to.old.items ++ (line self.now ++ 10 ∷ [])) };
}

/// The numbers of three corners.
impl Line for [u32; 3] {
    ghost line = { λ triple. numbers_line (map pos triple) };

    const ROOM: usize = 24;

    fn put(&self, to: &mut Vec<u8>) -> Result<(), AllocError> {
        let [first, second, third] = *self;
        put_three(to, i64::from(first), i64::from(second), i64::from(third))
    }
}

/// Three labels.
impl Line for [i8; 3] {
    ghost line = { numbers_line };

    const ROOM: usize = 6;

    fn put(&self, to: &mut Vec<u8>) -> Result<(), AllocError> {
        let [first, second, third] = *self;
        put_three(to, i64::from(first), i64::from(second), i64::from(third))
    }
}

/// The neighbours of a leaf, by the first other places of its three edges.
impl Line for [Option<u32>; 3] {
    ghost line = { λ places. numbers_line (map leaf_at_place places) };

    const ROOM: usize = 24;

    fn put(&self, to: &mut Vec<u8>) -> Result<(), AllocError> {
        let [first, second, third] = *self;
        put_three(to, leaf_at(first), leaf_at(second), leaf_at(third))
    }
}

/// A point, by its two decimals.
impl Line for (i64, i64) {
    ghost line = { coordinates_line };

    const ROOM: usize = 24;

    fn put(&self, to: &mut Vec<u8>) -> Result<(), AllocError> {
        let (x, y) = *self;
        put_pair(to, x, y)
    }
}

/// A whole number.
impl Line for i64 {
    ghost line = { signed_decimal };

    const ROOM: usize = 8;

    fn put(&self, to: &mut Vec<u8>) -> Result<(), AllocError> {
        put_number(to, *self)?;
        put_text(to, "\n")
    }
}

// The number of the leaf with the edge at this place, or -1.
fn leaf_at(place: Option<u32>) -> i64
    ensures { result ≡ leaf_at_place place }
{
    match place {
        None => -1,
        Some(place) => i64::from(place / 3),
    }
}

/// Appends the text.
pub(crate) fn put_text(to: &mut Vec<u8>, text: &str) -> Result<(), AllocError>
    ensures { OnOk result (to.new.items ≡ to.old.items ++ text.now) }
{
    if to.extend_from_slice(text.as_bytes()).is_err() {
        return Err(AllocError);
    }
    Ok(())
}

// Appends the number in decimal.
fn put_number(to: &mut Vec<u8>, number: i64) -> Result<(), AllocError>
    ensures { OnOk result (to.new.items ≡ to.old.items ++ signed_decimal number) }
{
    match put_whole(to, number) {
        Ok(()) => Ok(()),
        Err(_) => Err(AllocError),
    }
}

// Appends the decimal of fine units.
fn put_coordinate(to: &mut Vec<u8>, units: i64) -> Result<(), AllocError>
    ensures { OnOk result (to.new.items ≡ to.old.items ++ written_units units) }
{
    match put_decimal(to, units) {
        Ok(()) => Ok(()),
        Err(_) => Err(AllocError),
    }
}

// Appends a line of three whole numbers.
fn put_three(to: &mut Vec<u8>, first: i64, second: i64, third: i64) -> Result<(), AllocError>
    ensures { OnOk result (to.new.items ≡ to.old.items ++ (numbers_line (first ∷ second ∷ third ∷ []) ++ 10 ∷ [])) }
{
    put_number(to, first)?;
    put_text(to, " ")?;
    put_number(to, second)?;
    put_text(to, " ")?;
    put_number(to, third)?;
    put_text(to, "\n")
}

// Appends a line of two decimals.
fn put_pair(to: &mut Vec<u8>, x: i64, y: i64) -> Result<(), AllocError>
    ensures { OnOk result (to.new.items ≡ to.old.items ++ (coordinates_line (x, y) ++ 10 ∷ [])) }
{
    put_coordinate(to, x)?;
    put_text(to, " ")?;
    put_coordinate(to, y)?;
    put_text(to, "\n")
}
