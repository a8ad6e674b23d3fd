//! The points of a file.
ghost use Rattle.std.specs.Prelude.{◌≡◌, ◌≢◌, ◌≤◌, ◌<◌, ◌+◌, ◌^◌, All, IfOk, IfErr, OnOk, Ok, Err, length};
ghost use Rattle.mesh_io.specs.Decimals.{fine_units};
ghost use Rattle.macro_file.specs.Lines.{words};
ghost use Rattle.compat_check.specs.Within.{IsWithin};
ghost use Rattle.locate_point.specs.PointsFile.{line_point, point_by, points_in};
ghost use Rattle.locate_point.specs.Reading.{Continues};
ghost use Rattle.locate_point.specs.PointsFile.{refused as refused_by};

use crate::refusal::PointRefusal;
use crate::triangle::Point;
use crate::words::{next_line, next_word};
use mesh_io::{DecimalRefusal, read_decimal};
use std::alloc::Global;

// The refusal of a line by one of its words.
fn refused(refusal: DecimalRefusal, line: u32) -> PointRefusal
    ensures { result ≡ refused_by line refusal }
{
    match refusal {
        DecimalRefusal::NotANumber => PointRefusal::BadPoint { line },
        DecimalRefusal::CoordRange => PointRefusal::PointRange { line },
    }
}

// The point of two words.
fn read_point(first: &[u8], second: &[u8], line: u32) -> Result<Point, PointRefusal>
    ensures { result ≡ point_by line (fine_units first.now) (fine_units second.now) }
{
    match read_decimal(first) {
        Ok(x) => match read_decimal(second) {
            Ok(y) => Ok((x, y)),
            Err(refusal) => Err(refused(refusal, line)),
        },
        Err(DecimalRefusal::NotANumber) => Err(PointRefusal::BadPoint { line }),
        Err(DecimalRefusal::CoordRange) => match read_decimal(second) {
            Ok(_) => Err(PointRefusal::PointRange { line }),
            Err(refusal) => Err(refused(refusal, line)),
        },
    }
}

// What a line says: `None` where it has no words.
fn read_line(text: &[u8], line: u32) -> Result<Option<Point>, PointRefusal>
    ensures { result ≡ line_point line (words text.now) }
{
    let Some((first, rest)) = next_word(text) else {
        return Ok(None);
    };
    let Some((second, rest)) = next_word(rest) else {
        return Err(PointRefusal::BadPoint { line });
    };
    if next_word(rest).is_some() {
        return Err(PointRefusal::BadPoint { line });
    }
    match read_point(first, second, line) {
        Ok(point) => Ok(Some(point)),
        Err(refusal) => Err(refusal),
    }
}

// Appends what a line says.
fn take_line(points: &mut Vec<Point>, text: &[u8], line: u32) -> Result<(), PointRefusal>
    ensures ok { OnOk result (Continues points.old.items (line_point line (words text.now)) points.new.items) }
    ensures refused { IfErr result (λ refusal. refusal ≢ PointRefusal.Memory → line_point line (words text.now) ≡ Err refusal) }
    ensures within { All IsWithin points.old.items → OnOk result (All IsWithin points.new.items) }
{
    if let Some(point) = read_line(text, line)? {
        if points.push(point).is_err() {
            return Err(PointRefusal::Memory);
        }
    }
    Ok(())
}

/// The points of a file: x and y in fine units for each line that has words, in the order of the
/// lines. A line has no comment. Refused is the first line whose words are not two decimals, or
/// whose decimals are not in the range of the coordinates.
pub fn read_points(alloc: Global, bytes: &[u8]) -> Result<Vec<Point>, PointRefusal>
    requires { length bytes.now ≤ 16777216 }
    ensures ok { IfOk result (λ points. points_in bytes.now ≡ Ok points.items) }
    ensures refused { IfErr result (λ refusal. refusal ≢ PointRefusal.Memory → points_in bytes.now ≡ Err refusal) }
    ensures within { IfOk result (λ points. All IsWithin points.items) }
{
    let mut points = Vec::new(alloc);
    let mut line = 1;
    let mut left = Some(bytes);
    while let Some(text) = left {
        let (front, rest) = next_line(text);
        take_line(&mut points, front, line)?;
        left = rest;
        line += 1;
    }
    Ok(points)
}
