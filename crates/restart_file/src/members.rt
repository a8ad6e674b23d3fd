//! A name is looked up among names in order, from a place near to where it may stand.
ghost use Rattle.std.specs.Prelude.{◌<◌, ◌≤◌, MatchBool, length};
ghost use Rattle.std.specs.List.Sorted.{IsStrictlySortedBy};
ghost use Rattle.mesh_names.specs.Names.{name_cmp};
ghost use Rattle.mesh_names.specs.Forests.{Has};
ghost use Rattle.restart_file.specs.Kept.{set_of};
ghost use Rattle.restart_file.specs.Windows.{AreGreaterFrom, AreLessBefore};

use mesh_names::name::ElemName;

// Whether the members before a place are all less than the name: the last of them is.
fn are_less(members: &[ElemName], name: ElemName, place: usize) -> bool
    requires in_order { IsStrictlySortedBy name_cmp members.now }
    requires inside { place ≤ length members.now }
    ensures { MatchBool result (AreLessBefore place members.now name) (0 < place) }
{
    place == 0 || members[place - 1].cmp(&name).is_lt()
}

// Whether the members from a place on are all greater than the name: the first of them is.
fn are_greater(members: &[ElemName], name: ElemName, place: usize) -> bool
    requires in_order { IsStrictlySortedBy name_cmp members.now }
    requires inside { place ≤ length members.now }
    ensures { MatchBool result (AreGreaterFrom place members.now name) (place < length members.now) }
{
    place == members.len() || members[place].cmp(&name).is_gt()
}

// A place before which all members are less, down from a place by steps that double.
fn gallop_down(members: &[ElemName], name: ElemName, near: usize) -> usize
    requires in_order { IsStrictlySortedBy name_cmp members.now }
    requires inside { near ≤ length members.now }
    ensures down { result ≤ near }
    ensures less { AreLessBefore result members.now name }
{
    let mut low = near;
    while !are_less(members, name, low) {
        low -= low.min(near - low + 1);
    }
    low
}

// A place from which on all members are greater, up from a place by steps that double.
fn gallop_up(members: &[ElemName], name: ElemName, near: usize) -> usize
    requires in_order { IsStrictlySortedBy name_cmp members.now }
    requires inside { near ≤ length members.now }
    ensures up { near ≤ result }
    ensures inside { result ≤ length members.now }
    ensures greater { AreGreaterFrom result members.now name }
{
    let mut high = near;
    while !are_greater(members, name, high) {
        high += (members.len() - high).min(high - near + 1);
    }
    high
}

// Whether the name is one of the members. The search begins near the place that is given, any
// place, and leaves the place where it ended: names that stand close to one another are found in
// few steps.
pub(crate) fn is_member(members: &[ElemName], name: ElemName, near: &mut usize) -> bool
    requires in_order { IsStrictlySortedBy name_cmp members.now }
    ensures { MatchBool result (Has (set_of members.now) name) (Has (set_of members.now) name → ⊥) }
{
    let start = members.len().min(*near);
    let low = gallop_down(members, name, start);
    let high = gallop_up(members, name, start);
    match members[low..high].binary_search(&name) {
        Ok(place) => {
            *near = low + place;
            true
        }
        Err(place) => {
            *near = low + place;
            false
        }
    }
}
