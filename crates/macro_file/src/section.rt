//! A section of a file: its key, and where its words stand.
ghost use Rattle.std.specs.Prelude.{◌+◌, ◌<◌, ◌^◌, length};

use crate::keyword::Keyword;

/// A key of a file, with the number of its line and the bytes from its colon up to the next key line.
#[derive(Clone, Copy)]
pub struct Section<'a> {
    pub keyword: Keyword,
    pub line: u32,
    pub body: &'a [u8],
    ghost short: { line + length body.now < 2 ^ 32 },
}
