//! Laws over the definitions alone. Each function takes nothing and answers nothing: its
//! contract is the law.
ghost use Rattle.forest_plain.specs.AnyForest.{DoneOrRefused, OneRefusal};

/// A round that can be done is refused for want of memory alone.
pub fn done_or_refused()
    ensures { DoneOrRefused }
{}

/// A round has one refusal at the most, but for want of memory.
pub fn one_refusal()
    ensures { OneRefusal }
{}
