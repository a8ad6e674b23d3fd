//! Laws over the definitions alone.
ghost use Rattle.macro_file.specs.Examples.{SmallMeans, Refusals};
ghost use Rattle.macro_file.specs.ReadBack.{WrittenIsRead, TextIsMacro};

/// A short file means what it should.
pub fn small_means()
    ensures { SmallMeans }
{}

/// Short files are refused as they should be.
pub fn refusals()
    ensures { Refusals }
{}

/// The bytes that a macro text is written as are read as the same text.
pub fn written_is_read()
    ensures { WrittenIsRead }
{}

/// Each value of the type is a macro text.
pub fn text_is_macro()
    ensures { TextIsMacro }
{}
