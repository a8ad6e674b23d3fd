//! Partners and corners of names, by short walks up.
ghost use Rattle.std.specs.Prelude.{◌≡◌, ◌<◌, ◌≤◌, IfSome, Some, [], ◌∷◌, option_map};
ghost use Rattle.mesh_names.specs.Names.{Name, depth};
ghost use Rattle.mesh_names.specs.Triangles.{size, level, triangle, midpoint};
ghost use Rattle.mesh_names.specs.Partners.{half_partner, partner, top_partner};
ghost use Rattle.mesh_names.specs.Patches.{patch_by, patch_of, vertex_of, IsKey};
ghost use Rattle.compat_check.specs.Meshes.{across_in, edge_of, shape_of, edge_name};
ghost use Rattle.compat_check.specs.Around.{IsAround};
ghost use Rattle.compat_check.specs.Partnership.{SharesEdge};
ghost use Rattle.compat_check.specs.Climbing.{IsEnd, vertex_at};
ghost use Rattle.compat_check.specs.Corners.{AreCorners, IsKeyOf, IsOfMesh};

use crate::climbing::{climbed, moved, place_above};
use crate::mesh::MacroMesh;
use mesh_names::laws;
use mesh_names::name::ElemName;
use mesh_names::patch::{PatchName, VertexKey};

/// The parent of a name on the walk, the side of it on which the name lies, and its partner.
#[derive(Clone, Copy)]
pub(crate) struct Above {
    pub(crate) name: ElemName,
    pub(crate) side: bool,
    pub(crate) partner: Option<(ElemName, bool)>,
}

/// A name on the walk, its partner, and its parent, which give the partners of its children.
#[derive(Clone, Copy)]
pub(crate) struct Around {
    pub(crate) name: ElemName,
    pub(crate) partner: Option<(ElemName, bool)>,
    pub(crate) above: Option<Above>,
}

// The name whose refinement edge is this edge of a macro element.
fn edge_name(element: u32, edge: u8) -> ElemName
    requires { element < 65535 }
    ensures { result ≡ edge_name element edge }
{
    let top = ElemName::top(element);
    match edge {
        0 => top.child_at(true),
        1 => top.child_at(false),
        _ => top,
    }
}

// Across a half of the refinement edge of a name with this partner.
fn half(partner: Option<(ElemName, bool)>, side: bool) -> Option<(ElemName, bool)>
    requires { IfSome partner (λ m. depth m.0 ≤ 22) }
    ensures { result ≡ half_partner side partner }
{
    match partner {
        None => None,
        Some((other, true)) => Some((other.child_at(side).child_at(!side), true)),
        Some((other, false)) => Some((other.child_at(!side).child_at(side), false)),
    }
}

/// The patch of a name with this partner, the lesser name first.
pub(crate) fn patch_with(name: ElemName, partner: Option<(ElemName, bool)>) -> PatchName
    ensures { result ≡ patch_by name partner }
{
    match partner {
        None => PatchName {
            first: name,
            second: None,
        },
        Some((other, _)) if name < other => PatchName {
            first: name,
            second: Some(other),
        },
        Some((other, _)) => PatchName {
            first: other,
            second: Some(name),
        },
    }
}

impl MacroMesh {
    // What lies across an edge of a macro element, as a name.
    fn top_partner(&self, root: u32, edge: u8) -> Option<(ElemName, bool)>
        requires root { root < size (shape_of self.now) }
        requires edge { edge < 3 }
        ensures { result ≡ top_partner (across_in self.now root (edge_of edge)) }
    {
        match self.sides[root as usize * 3 + edge as usize] {
            None => None,
            Some(side) => Some((edge_name(side.element, side.edge), side.turned)),
        }
    }

    // The partner of a name at which a climb ends.
    fn end_partner(&self, name: ElemName) -> Option<(ElemName, bool)>
        requires root { name.0 < size (shape_of self.now) }
        requires end { IsEnd name.1 }
        ensures { result ≡ partner (across_in self.now) name.0 name.1 }
    {
        let _few = name.depth();
        let Some((parent, last)) = name.split() else {
            return self.top_partner(name.root(), 2);
        };
        let Some((above, _)) = parent.split() else {
            return self.top_partner(name.root(), !last as u8);
        };
        Some((above.child_at(!last).child_at(!last), true))
    }

    /// The partner of a name, by a climb that ends where the refinement edge lies inside of an
    /// element above or is an edge of the macro element.
    pub(crate) fn turned_partner(&self, name: ElemName) -> Option<(ElemName, bool)>
        requires root { name.0 < size (shape_of self.now) }
        requires level { level (shape_of self.now) name ≤ 24 }
        ensures { result ≡ partner (across_in self.now) name.0 name.1 }
    {
        laws::partners_pair();
        let _ = &self.sides;
        let top = climbed(name);
        match self.end_partner(top) {
            None => None,
            Some((other, turned)) => Some((moved(other, turned, name, top), turned)),
        }
    }

    // The partner of a child of a name.
    fn child_partner(&self, parent: &Around, side: bool) -> Option<(ElemName, bool)>
        requires root { parent.now.name.0 < size (shape_of self.now) }
        requires level { level (shape_of self.now) parent.now.name < 24 }
        requires parent { IsAround self.now parent.now }
        ensures { result ≡ partner (across_in self.now) parent.now.name.0 (side ∷ parent.now.name.1) }
    {
        laws::partners_pair();
        let _ = &self.sides;
        let Some(above) = parent.above else {
            return self.top_partner(parent.name.root(), !side as u8);
        };
        if above.side == side {
            return Some((above.name.child_at(!side).child_at(!side), true));
        }
        half(above.partner, side)
    }

    /// The child of a name, with its partner.
    pub(crate) fn around_child(&self, parent: &Around, side: bool) -> Around
        requires root { parent.now.name.0 < size (shape_of self.now) }
        requires level { level (shape_of self.now) parent.now.name < 24 }
        requires parent { IsAround self.now parent.now }
        ensures name { result.name ≡ (parent.now.name.0, side ∷ parent.now.name.1) }
        ensures around { IsAround self.now result }
    {
        Around {
            name: parent.name.child_at(side),
            partner: self.child_partner(parent, side),
            above: Some(Above {
                name: parent.name,
                side,
                partner: parent.partner,
            }),
        }
    }

    /// A name with its partner, and its parent with its own.
    pub(crate) fn around(&self, name: ElemName) -> Around
        requires root { name.0 < size (shape_of self.now) }
        requires level { level (shape_of self.now) name ≤ 24 }
        ensures name { result.name ≡ name }
        ensures partner { result.partner ≡ partner (across_in self.now) name.0 name.1 }
        ensures around { IsAround self.now result }
    {
        let partner = self.turned_partner(name);
        let above = match name.split() {
            None => None,
            Some((parent, side)) => Some(Above {
                name: parent,
                side,
                partner: self.turned_partner(parent),
            }),
        };
        Around {
            name,
            partner,
            above,
        }
    }

    /// The one other name with the same refinement edge, which is of the same level; `None` exactly
    /// where no other name has it, on the boundary.
    pub fn partner(&self, name: ElemName) -> Option<ElemName>
        requires root { name.0 < size (shape_of self.now) }
        requires level { level (shape_of self.now) name ≤ 24 }
        ensures partner { result ≡ option_map (λ m. m.0) (partner (across_in self.now) name.0 name.1) }
        ensures shares { IfSome result (SharesEdge (shape_of self.now) name) }
        ensures only { (m : Name) → SharesEdge (shape_of self.now) name m → result ≡ Some m }
    {
        laws::partners_share();
        laws::partners_pair();
        laws::partner_is_only();
        let _ = &self.sides;
        match self.turned_partner(name) {
            None => None,
            Some((other, _)) => Some(other),
        }
    }

    /// The elements that are bisected together with this one.
    pub fn patch(&self, name: ElemName) -> PatchName
        requires root { name.0 < size (shape_of self.now) }
        requires level { level (shape_of self.now) name ≤ 24 }
        ensures { result ≡ patch_of (across_in self.now) name }
    {
        patch_with(name, self.turned_partner(name))
    }

    /// The key of the midpoint of a name's refinement edge.
    pub(crate) fn midpoint_key(&self, around: &Around) -> VertexKey
        requires root { around.now.name.0 < size (shape_of self.now) }
        requires around { IsAround self.now around.now }
        ensures stands { vertex_of (shape_of self.now) result ≡ midpoint (triangle (shape_of self.now) around.now.name) }
        ensures key { IsKey (across_in self.now) result }
        ensures mesh { IsOfMesh (shape_of self.now) result }
    {
        laws::partners_share();
        laws::partners_pair();
        let _ = &self.sides;
        VertexKey::Patch(patch_with(around.name, around.partner).first)
    }

    // The key of the midpoint of a name's refinement edge.
    fn owner_key(&self, name: ElemName) -> VertexKey
        requires root { name.0 < size (shape_of self.now) }
        requires level { level (shape_of self.now) name ≤ 24 }
        ensures { IsKeyOf self.now (midpoint (triangle (shape_of self.now) name)) result }
    {
        laws::partners_share();
        laws::partners_pair();
        let _ = &self.sides;
        VertexKey::Patch(patch_with(name, self.turned_partner(name)).first)
    }

    // The key of a corner of a macro element.
    fn top_corner(&self, name: ElemName, corner: u8) -> VertexKey
        requires root { name.0 < size (shape_of self.now) }
        requires top { name.1 ≡ [] }
        requires corner { corner < 3 }
        ensures { IsKeyOf self.now (vertex_at (triangle (shape_of self.now) name) corner) result }
    {
        VertexKey::Macro(self.triples[name.root() as usize][corner as usize])
    }

    /// The corner of a name with this number: it is one of the macro element, or the midpoint of the
    /// refinement edge of the lowest element above that does not have it.
    pub fn corner(&self, name: ElemName, corner: u8) -> VertexKey
        requires root { name.0 < size (shape_of self.now) }
        requires level { level (shape_of self.now) name ≤ 24 }
        requires corner { corner < 3 }
        ensures { IsKeyOf self.now (vertex_at (triangle (shape_of self.now) name) corner) result }
    {
        let mut at = name;
        let mut place = corner;
        while let Some((parent, side)) = at.split() {
            if place == 2 {
                return self.owner_key(parent);
            }
            place = place_above(place, side);
            at = parent;
        }
        self.top_corner(at, place)
    }

    /// The corners of a name: each key names the owner of its patch.
    pub fn corners(&self, name: ElemName) -> [VertexKey; 3]
        requires root { name.0 < size (shape_of self.now) }
        requires level { level (shape_of self.now) name ≤ 24 }
        ensures { AreCorners self.now name result }
    {
        [
            self.corner(name, 0),
            self.corner(name, 1),
            self.corner(name, 2),
        ]
    }
}
