ghost use Rattle.std.specs.Prelude.{◌≡◌, IfOk, replicate, slice_index_or, slice_set};
ghost use Rattle.px_interp.specs.Slots.{is_empty_slot, number_in, object_in};
ghost use Rattle.px_interp.specs.declared.registers.Slot.TheVariants.{Empty};

use px_base::{Fault, NoMemory};
use px_heap::Serial;
use px_regcode::Register;
use px_views::StridedView;
use std::alloc::Global;
use std::marker::Model;
use std::mem;

/// What a register holds.
#[derive(Drop)]
pub enum Slot {
    Empty,
    Whole(i128),
    /// A reference to an object.
    Object(Serial),
    View(StridedView),
    Fault(Fault),
}

/// The registers of a frame.
#[derive(Drop)]
pub struct Registers {
    slots: Vec<Slot>,
}

impl Model for Registers {
    ghost use Rattle.std.specs.Prelude.{List};
    ghost use Rattle.px_interp.specs.declared.registers.Slot.{Slot};

    ghost Value = { List Slot };

    ghost view = { λ r. r.slots.items };
}

impl Registers {
    /// So many registers that hold nothing.
    ///
    /// # Errors
    /// `NoMemory` where there is no memory for them.
    pub fn new(alloc: Global, count: u32) -> Result<Registers, NoMemory>
        ensures { IfOk result (λ made. made ≡ replicate count Empty) }
    {
        let mut slots = Vec::new(alloc);
        for _ in 0..count {
            slots.push(Slot::Empty)?;
        }
        Ok(Registers { slots })
    }

    /// The number that a register holds; none where it holds something else.
    pub fn number(&self, a: Register) -> Option<i128>
        ensures { result ≡ number_in (slice_index_or self.now a.number Empty) }
    {
        match self.slots.get(a.number as usize) {
            Some(Slot::Whole(n)) => Some(*n),
            _ => None,
        }
    }

    /// The object to which a register holds a reference; none where it holds something else.
    pub fn object(&self, a: Register) -> Option<Serial>
        ensures { result ≡ object_in (slice_index_or self.now a.number Empty) }
    {
        match self.slots.get(a.number as usize) {
            Some(Slot::Object(of)) => Some(*of),
            _ => None,
        }
    }

    /// Whether a register holds nothing.
    pub fn is_empty(&self, a: Register) -> bool
        ensures { result ≡ is_empty_slot (slice_index_or self.now a.number Empty) }
    {
        match self.slots.get(a.number as usize) {
            Some(Slot::Whole(_)) => false,
            Some(Slot::Object(_)) => false,
            Some(Slot::View(_)) => false,
            Some(Slot::Fault(_)) => false,
            _ => true,
        }
    }

    /// What a register holds; nothing where there is no such register.
    pub fn take(&mut self, a: Register) -> Slot
        ensures value { result ≡ slice_index_or self.old a.number Empty }
        ensures emptied { self.new ≡ slice_set self.old a.number Empty }
    {
        match self.slots.get_mut(a.number as usize) {
            Some(slot) => mem::replace(slot, Slot::Empty),
            None => Slot::Empty,
        }
    }

    /// Sets a register, if it is there.
    pub fn set(&mut self, d: Register, slot: Slot)
        ensures { self.new ≡ slice_set self.old d.number slot }
    {
        if let Some(place) = self.slots.get_mut(d.number as usize) {
            *place = slot;
        }
    }
}
