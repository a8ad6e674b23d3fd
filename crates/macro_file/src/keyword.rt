//! The ten keys, how they are written, and which one a text is.
ghost use Rattle.std.specs.Prelude.{◌≡◌, ◌==◌, Some, None, IfSome};
ghost use Rattle.macro_file.specs.Keywords.{spelling, keywords, keyword_of, same_words};

use crate::words::same_words;

/// The ten keys of a macro file.
#[derive(Debug, Clone, Copy, PartialEq, Eq, Drop)]
pub enum Keyword {
    Dim,
    DimOfWorld,
    VertexCount,
    ElementCount,
    Coordinates,
    Triples,
    Labels,
    Neighbours,
    VertexValues,
    ElementValues,
}

const KEYWORDS: [Keyword; 10] = [
    Keyword::Dim,
    Keyword::DimOfWorld,
    Keyword::VertexCount,
    Keyword::ElementCount,
    Keyword::Coordinates,
    Keyword::Triples,
    Keyword::Labels,
    Keyword::Neighbours,
    Keyword::VertexValues,
    Keyword::ElementValues,
];

/// How the key is written.
pub fn spelling(keyword: Keyword) -> &'static str
    ensures { result.now ≡ spelling keyword }
{
    match keyword {
        Keyword::Dim => "DIM",
        Keyword::DimOfWorld => "DIM_OF_WORLD",
        Keyword::VertexCount => "number of vertices",
        Keyword::ElementCount => "number of elements",
        Keyword::Coordinates => "vertex coordinates",
        Keyword::Triples => "element vertices",
        Keyword::Labels => "element boundaries",
        Keyword::Neighbours => "element neighbours",
        Keyword::VertexValues => "vertex values",
        Keyword::ElementValues => "element values",
    }
}

/// The key that the text is.
#[tactic(auto, unfolding(crate::specs::Keywords::keyword_of))]
pub fn keyword_of(text: &[u8]) -> Option<Keyword>
    ensures { result ≡ keyword_of text.now }
{
    KEYWORDS
        .iter()
        .copied()
        .find(|k| same_words(text, spelling(*k).as_bytes()))
}
