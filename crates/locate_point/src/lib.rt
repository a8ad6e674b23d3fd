#![tactic(auto)]
//! Point location: which leaf of a bisected mesh contains a point. All is exact, on whole numbers.

mod axis;
mod downward;
mod exact;
mod grid;
pub mod laws;
mod locating;
mod locator;
mod making;
#[cfg(test)]
mod place_tests;
mod plain;
mod points;
mod ranks;
mod refusal;
#[cfg(test)]
mod tests;
mod triangle;
mod words;
mod writing;

pub use downward::find;
pub use exact::is_exact;
pub use locator::Locator;
pub use plain::find_plain;
pub use points::read_points;
pub use refusal::PointRefusal;
pub use triangle::{Corners, Point, contains};
pub use writing::put_places;
