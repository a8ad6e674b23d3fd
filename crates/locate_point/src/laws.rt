//! Laws over the definitions alone.
ghost use Rattle.locate_point.specs.Children.{ContainsByChildren};
ghost use Rattle.locate_point.specs.Locating.{PlacesAreOne};

use compat_check::laws::midpoints_exact;

/// With exact midpoints a triangle contains a point exactly where one of its children does.
pub fn contains_by_children()
    ensures { ContainsByChildren }
{
    midpoints_exact()
}

/// A point has one place: so `find`, `find_plain` and a locator answer alike.
pub fn places_are_one()
    ensures { PlacesAreOne }
{}
