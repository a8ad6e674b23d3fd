//! Numbers for slots, in the order in which they first appear.
ghost use Rattle.std.specs.Prelude.{◌≡◌, ◌≤◌, ◌<◌, ◌∷◌, [], All, IfOk, OnOk, length, map};
ghost use Rattle.mesh_names.specs.Triangles.{Triple};
ghost use Rattle.mesh_names.specs.declared.patch.VertexKey.TheVariants.{Macro};
ghost use Rattle.mesh_writer.specs.Orders.{AreBelow, IsOrder, first_slots, number_in, numbered, slots_of, with_slots};
ghost use Rattle.mesh_writer.specs.Picks.{IsBelow, key_in, point_in};

use crate::slots::narrow;
use mesh_names::patch::VertexKey;
use std::alloc::{AllocError, Global};

/// The slots that have a number, in the order of their numbers, and the number of each slot.
#[derive(Drop)]
pub(crate) struct Order {
    pub(crate) slots: Vec<u32>,
    numbers: Vec<Option<u32>>,
}

impl Order {
    // No slot of so many has a number.
    fn new(alloc: Global, slot_count: usize) -> Result<Order, AllocError>
        ensures order { IfOk result IsOrder }
        ensures none { IfOk result (λ o. o.slots.items ≡ []) }
        ensures count { IfOk result (λ o. length o.numbers.items ≡ slot_count) }
    {
        let numbers = vec![in alloc; None; slot_count]?;
        Ok(Order {
            slots: Vec::new(alloc),
            numbers,
        })
    }

    // Gives the slot the next number, unless it has one.
    fn add(&mut self, slot: u32) -> Result<(), AllocError>
        requires order { IsOrder self.old }
        requires inside { slot < length self.old.numbers.items }
        ensures order { OnOk result (IsOrder self.new) }
        ensures slots { OnOk result (self.new.slots.items ≡ with_slots self.old.slots.items (slot ∷ [])) }
        ensures count { OnOk result (length self.new.numbers.items ≡ length self.old.numbers.items) }
    {
        if self.numbers[slot as usize].is_some() {
            return Ok(());
        }
        let number = narrow(self.slots.len())?;
        self.numbers[slot as usize] = Some(number);
        self.slots.push(slot)?;
        Ok(())
    }

    // Gives each of the three slots the next number, unless it has one.
    fn add_three(&mut self, slots: &[u32; 3]) -> Result<(), AllocError>
        requires order { IsOrder self.old }
        requires inside { AreBelow (length self.old.numbers.items) slots.now }
        ensures order { OnOk result (IsOrder self.new) }
        ensures slots { OnOk result (self.new.slots.items ≡ with_slots self.old.slots.items (slots_of (slots.now ∷ []))) }
        ensures count { OnOk result (length self.new.numbers.items ≡ length self.old.numbers.items) }
    {
        let [first, second, third] = *slots;
        self.add(first)?;
        self.add(second)?;
        self.add(third)
    }

    // The slots of the macro vertices alone.
    fn of_macro(alloc: Global, macro_count: u32, slot_count: usize) -> Result<Order, AllocError>
        requires { macro_count ≤ slot_count }
        ensures order { IfOk result IsOrder }
        ensures slots { IfOk result (λ o. o.slots.items ≡ first_slots macro_count) }
        ensures count { IfOk result (λ o. length o.numbers.items ≡ slot_count) }
    {
        let mut order = Order::new(alloc, slot_count)?;
        for slot in 0..macro_count {
            order.add(slot)?;
        }
        Ok(order)
    }

    /// The slots of the macro vertices, and then those of the corners.
    pub(crate) fn of_corners(
        alloc: Global,
        macro_count: u32,
        slot_count: usize,
        corners: &[[u32; 3]],
    ) -> Result<Order, AllocError>
        requires macros { macro_count ≤ slot_count }
        requires inside { All (AreBelow slot_count) corners.now }
        ensures order { IfOk result IsOrder }
        ensures slots { IfOk result (λ o. o.slots.items ≡ with_slots (first_slots macro_count) (slots_of corners.now)) }
        ensures count { IfOk result (λ o. length o.numbers.items ≡ slot_count) }
    {
        let mut order = Order::of_macro(alloc, macro_count, slot_count)?;
        for slots in corners {
            order.add_three(slots)?;
        }
        Ok(order)
    }

    // The number of a slot; each slot of a corner has one.
    fn number(&self, slot: u32) -> u32
        requires order { IsOrder self.now }
        requires inside { slot < length self.now.numbers.items }
        ensures { result ≡ number_in slot self.now.slots.items }
    {
        self.numbers[slot as usize].unwrap_or(0)
    }

    // The numbers of three slots.
    fn three(&self, slots: &[u32; 3]) -> [u32; 3]
        requires order { IsOrder self.now }
        requires inside { AreBelow (length self.now.numbers.items) slots.now }
        ensures { result ≡ numbered self.now.slots.items slots.now }
    {
        let [first, second, third] = *slots;
        [self.number(first), self.number(second), self.number(third)]
    }

    /// The numbers of the corners.
    pub(crate) fn triples(
        &self,
        alloc: Global,
        corners: &[[u32; 3]],
    ) -> Result<Vec<[u32; 3]>, AllocError>
        requires order { IsOrder self.now }
        requires inside { All (AreBelow (length self.now.numbers.items)) corners.now }
        ensures { IfOk result (λ t. t.items ≡ map (numbered self.now.slots.items) corners.now) }
    {
        let mut triples = Vec::new(alloc);
        triples.try_reserve(corners.len())?;
        for slots in corners {
            triples.push(self.three(slots))?;
        }
        Ok(triples)
    }
}

/// The keys of these slots.
pub(crate) fn keys_in(
    alloc: Global,
    slots: &[u32],
    keys: &[VertexKey],
) -> Result<Vec<VertexKey>, AllocError>
    requires { All (IsBelow (length keys.now)) slots.now }
    ensures { IfOk result (λ picked. picked.items ≡ map (key_in keys.now) slots.now) }
{
    let mut picked = Vec::new(alloc);
    picked.try_reserve(slots.len())?;
    for slot in slots {
        picked.push(keys[*slot as usize])?;
    }
    Ok(picked)
}

/// The points of these slots.
pub(crate) fn points_in(
    alloc: Global,
    slots: &[u32],
    points: &[(i64, i64)],
) -> Result<Vec<(i64, i64)>, AllocError>
    requires { All (IsBelow (length points.now)) slots.now }
    ensures { IfOk result (λ picked. picked.items ≡ map (point_in points.now) slots.now) }
{
    let mut picked = Vec::new(alloc);
    picked.try_reserve(slots.len())?;
    for slot in slots {
        picked.push(points[*slot as usize])?;
    }
    Ok(picked)
}
