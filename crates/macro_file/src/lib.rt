//! The macro file: a macro triangulation as ALBERTA's users write it (Schmidt and Siebert 2005), read
//! and written exactly.
//!
//! A file is lines of keys and numbers. Ten keys are known; the lists after them may stand in any order,
//! over any number of lines, with comments and blanks. `read_macro` answers what the bytes mean, or the
//! first fault by line; `put_macro` writes a macro text as bytes that are read again as the same text.
#![tactic(auto)]

mod assembly;
mod counts;
mod keyword;
pub mod laws;
mod lines;
mod lists;
mod lookup;
mod memory;
mod numbers;
mod reader;
mod refusal;
mod section;
mod sections;
mod text;
mod tokens;
mod words;
mod writer;

pub use reader::read_macro;
pub use refusal::{Key, MacroRefusal};
pub use text::{MacroElem, MacroText, MacroVertex};
pub use writer::put_macro;

#[cfg(test)]
mod tests;
