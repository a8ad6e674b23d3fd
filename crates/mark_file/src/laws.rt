//! Laws over the definitions alone. Each function takes nothing and answers nothing: its
//! contract is the law.
ghost use Rattle.mark_file.specs.Corners.{CornersTell};
ghost use Rattle.mark_file.specs.Written.{WrittenIsRead};

/// A field gives the corner whose spelling it is, and no other.
pub fn corners_tell()
    ensures { CornersTell }
{}

/// What is written of a row is read as a row of the same round, what, place and number.
pub fn written_is_read()
    ensures { WrittenIsRead }
{}
