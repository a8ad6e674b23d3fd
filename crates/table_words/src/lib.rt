#![tactic(auto)]
//! The words of the shared mesh table: where each lies, and how its content is spelled.
//!
//! A table has single words, the pins given back of each round, the links of the macro elements,
//! the free rows, and ten words for each block. A block holds one patch. What stands in the words
//! is read as functions of numbers, which a step changes at one number.

pub mod laws;
pub mod layout;
pub mod link;
pub mod name_word;
pub mod round_word;
