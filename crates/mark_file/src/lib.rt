#![tactic(auto)]
//! The marks file: rows that say, round by round, which elements are to be bisected, and which
//! values are to be set.
//!
//! The file is CSV. Its header is `round,what,where,number`; a row as `2,mark,0.01,3` asks in
//! round 2 for three bisections of the element `0.01`, one as `2,elem,0.01,7` gives it the value 7,
//! and one as `2,vert,0.01/2,7` gives its corner 2 the value 7. Blanks at the ends of a field are
//! dropped.

mod field;
pub mod laws;
pub mod read;
pub mod refusal;
mod rounds;
mod row;
mod source;
#[cfg(test)]
mod tests;
pub mod write;
