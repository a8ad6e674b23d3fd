//! The search for an alternating path (Edmonds 1965).
//!
//! From an element that is in no pair, paths go over a shared edge and then on to the mate of the element
//! there, again and again. The elements at which such paths end are outer, those between are inner. Where
//! two outer elements meet, there is a circle of odd length: it is folded into one, so that its inner
//! elements are outer too. No loop needs more turns than there are elements, and each is bounded by that.
use crate::neighbours::Row;
use std::alloc::{AllocError, Global};

/// For each element the one that it is paired with.
pub(crate) type Mates = Vec<Option<u32>>;

#[derive(Clone, Copy, PartialEq, Eq)]
enum Role {
    Unseen,
    Outer,
    Inner,
}

/// What a search knows of the elements, and room for the next one.
#[derive(Drop)]
pub(crate) struct Search {
    roles: Vec<Role>,
    before: Mates,
    bases: Vec<u32>,
    stamps: Vec<u64>,
    stamp: u64,
    queue: Vec<u32>,
    seen: Vec<u32>,
}

/// The entry of an element.
pub(crate) fn at(list: &[Option<u32>], element: u32) -> Option<u32> {
    *list.get(element as usize)?
}

/// Writes the entry of an element.
pub(crate) fn put(list: &mut [Option<u32>], element: u32, entry: Option<u32>) {
    if let Some(place) = list.get_mut(element as usize) {
        *place = entry;
    }
}

/// The elements across the edges of an element.
pub(crate) fn row_of(rows: &[Row], element: u32) -> Row {
    match rows.get(element as usize) {
        Some(row) => *row,
        None => [None; 3],
    }
}

/// Whether an element has an edge on the boundary.
pub(crate) fn is_at_boundary(rows: &[Row], element: u32) -> bool {
    row_of(rows, element).contains(&None)
}

impl Search {
    /// A search over so many elements.
    pub(crate) fn new(alloc: Global, count: u32) -> Result<Search, AllocError> {
        let size = count as usize;
        let mut bases = Vec::with_capacity(alloc, size)?;
        for element in 0..count {
            bases.push(element)?;
        }
        Ok(Search {
            roles: vec![in alloc; Role::Unseen; size]?,
            before: vec![in alloc; None; size]?,
            bases,
            stamps: vec![in alloc; 0; size]?,
            stamp: 0,
            queue: Vec::new(alloc),
            seen: Vec::new(alloc),
        })
    }

    fn role(&self, element: u32) -> Role {
        match self.roles.get(element as usize) {
            Some(role) => *role,
            None => Role::Inner,
        }
    }

    fn set_role(&mut self, element: u32, role: Role) {
        if let Some(place) = self.roles.get_mut(element as usize) {
            *place = role;
        }
    }

    // The entry of an element in the forest of bases.
    fn up(&self, element: u32) -> u32 {
        match self.bases.get(element as usize) {
            Some(base) => *base,
            None => element,
        }
    }

    fn set_up(&mut self, element: u32, base: u32) {
        if let Some(place) = self.bases.get_mut(element as usize) {
            *place = base;
        }
    }

    // The base of the circle that an element was folded into, or the element itself. Halves the way there.
    fn base(&mut self, element: u32) -> u32 {
        let mut here = element;
        for _ in 0..self.bases.len() {
            let next = self.up(here);
            if next == here {
                break;
            }
            let over = self.up(next);
            self.set_up(here, over);
            here = over;
        }
        here
    }

    // The base of the outer element before the mate of a base.
    fn above(&mut self, mates: &[Option<u32>], base: u32) -> Option<u32> {
        let mate = at(mates, base)?;
        let before = at(&self.before, mate)?;
        Some(self.base(before))
    }

    // Notes that the search for a meeting was at a base; answers whether it was there before.
    fn was_at(&mut self, base: u32) -> bool {
        match self.stamps.get_mut(base as usize) {
            Some(stamp) if *stamp == self.stamp => true,
            Some(stamp) => {
                *stamp = self.stamp;
                false
            }
            None => true,
        }
    }

    // The first base that is above both of two outer elements.
    fn meeting(&mut self, mates: &[Option<u32>], first: u32, second: u32) -> u32 {
        self.stamp = self.stamp.wrapping_add(1);
        let mut here = Some(self.base(first));
        let mut there = Some(self.base(second));
        for _ in 0..self.bases.len() {
            for _ in 0..2 {
                if let Some(base) = here {
                    if self.was_at(base) {
                        return base;
                    }
                    here = self.above(mates, base);
                }
                (here, there) = (there, here);
            }
        }
        first
    }

    // Makes an element outer: the search goes on from it.
    fn make_outer(&mut self, element: u32) -> Result<(), AllocError> {
        self.set_role(element, Role::Outer);
        self.queue.push(element)?;
        Ok(())
    }

    // Folds the way from one outer element up to a base; another outer element lies across an edge.
    fn fold(
        &mut self,
        mates: &[Option<u32>],
        from: u32,
        across: u32,
        top: u32,
    ) -> Result<(), AllocError> {
        let mut outer = from;
        let mut other = across;
        for _ in 0..self.bases.len() {
            if self.base(outer) == top {
                break;
            }
            put(&mut self.before, outer, Some(other));
            let Some(mate) = at(mates, outer) else {
                break;
            };
            if self.role(mate) == Role::Inner {
                self.make_outer(mate)?;
            }
            if self.up(outer) == outer {
                self.set_up(outer, top);
            }
            if self.up(mate) == mate {
                self.set_up(mate, top);
            }
            let Some(next) = at(&self.before, mate) else {
                break;
            };
            outer = next;
            other = mate;
        }
        Ok(())
    }

    // Exchanges the pairs along the way from an element, which is in no pair, back to the root.
    fn exchange(&self, mates: &mut [Option<u32>], end: u32) {
        let mut alone = Some(end);
        for _ in 0..self.bases.len() {
            let Some(element) = alone else {
                break;
            };
            let Some(outer) = at(&self.before, element) else {
                break;
            };
            alone = at(mates, outer);
            put(mates, element, Some(outer));
            put(mates, outer, Some(element));
        }
    }

    // Leaves an outer element alone, and exchanges the pairs before it.
    fn leave_alone(&self, mates: &mut [Option<u32>], outer: u32) {
        if let Some(mate) = at(mates, outer) {
            put(mates, outer, None);
            self.exchange(mates, mate);
        }
    }

    // Looks over an edge from an outer element; answers whether a path has ended there.
    fn look(
        &mut self,
        mates: &mut [Option<u32>],
        outer: u32,
        other: u32,
    ) -> Result<bool, AllocError> {
        match self.role(other) {
            Role::Inner => return Ok(false),
            Role::Outer => {
                if self.base(outer) != self.base(other) {
                    let top = self.meeting(mates, outer, other);
                    self.fold(mates, outer, other, top)?;
                    self.fold(mates, other, outer, top)?;
                }
                return Ok(false);
            }
            Role::Unseen => {}
        }
        self.set_role(other, Role::Inner);
        put(&mut self.before, other, Some(outer));
        self.seen.push(other)?;
        let Some(mate) = at(mates, other) else {
            self.exchange(mates, other);
            return Ok(true);
        };
        self.seen.push(mate)?;
        self.make_outer(mate)?;
        Ok(false)
    }

    // Forgets what the last search found.
    fn forget(&mut self) {
        for _ in 0..self.seen.len() {
            let Some(element) = self.seen.pop() else {
                break;
            };
            self.set_role(element, Role::Unseen);
            put(&mut self.before, element, None);
            self.set_up(element, element);
        }
        self.queue.clear();
    }

    /// Pairs an element that is in no pair and has no edge on the boundary, by exchanging pairs along a
    /// path to another element in no pair, or to one that can stay alone.
    pub(crate) fn pair(
        &mut self,
        rows: &[Row],
        mates: &mut [Option<u32>],
        root: u32,
    ) -> Result<(), AllocError> {
        self.forget();
        self.seen.push(root)?;
        self.make_outer(root)?;
        for i in 0..rows.len() {
            if i >= self.queue.len() {
                break;
            }
            let outer = self.queue[i];
            if is_at_boundary(rows, outer) {
                self.leave_alone(mates, outer);
                break;
            }
            if self.look_round(rows, mates, outer)? {
                break;
            }
        }
        Ok(())
    }

    fn look_round(
        &mut self,
        rows: &[Row],
        mates: &mut [Option<u32>],
        outer: u32,
    ) -> Result<bool, AllocError> {
        for other in row_of(rows, outer) {
            if let Some(other) = other {
                if self.look(mates, outer, other)? {
                    return Ok(true);
                }
            }
        }
        Ok(false)
    }
}
