//! Slots in the order in which they are thought to be asked for.
ghost use Rattle.std.specs.Prelude.{◌≡◌, ◌≢◌, ◌+◌, ◌++◌, ◌∷◌, [], ◌⊎◌, Some, length, slice_get};

use std::alloc::Global;

/// The slots that the last reservation gave out, in their order, and the place of the one that is thought to be asked for next.
/// Each is a guess: who takes one looks whether it is right.
#[derive(Drop)]
pub struct Hints {
    slots: Vec<u32>,
    next: usize,
}

impl Hints {
    /// No hints. It takes no memory.
    pub fn new(alloc: Global) -> Hints
        ensures slots { result.slots.items ≡ [] }
        ensures next { result.next ≡ 0 }
    {
        Hints {
            slots: Vec::new(alloc),
            next: 0,
        }
    }

    /// The slot of the next hint, where there is one.
    pub fn next(&self) -> Option<u32>
        ensures { result ≡ slice_get self.now.slots.items self.now.next }
    {
        self.slots.get(self.next).copied()
    }

    /// Goes on behind the next hint, where it is this slot.
    pub fn pass(&mut self, slot: u32)
        ensures slots { self.new.slots ≡ self.old.slots }
        ensures next { slice_get self.old.slots.items self.old.next ≡ Some slot → self.new.next ≡ self.old.next + 1 }
        ensures other { slice_get self.old.slots.items self.old.next ≢ Some slot → self.new.next ≡ self.old.next }
    {
        if self.next() == Some(slot) {
            self.next += 1;
        }
    }

    /// Lets all hints go, and keeps their memory.
    pub fn clear(&mut self)
        ensures slots { self.new.slots.items ≡ [] }
        ensures next { self.new.next ≡ 0 }
    {
        self.slots.clear();
        self.next = 0;
    }

    /// Puts a slot behind the hints, and goes on behind it. Where there is no memory for it, it is left out.
    pub fn push(&mut self, slot: u32)
        ensures next { self.new.next ≡ length self.new.slots.items }
        ensures slots { (self.new.slots.items ≡ self.old.slots.items ++ slot ∷ []) ⊎ (self.new.slots.items ≡ self.old.slots.items) }
    {
        let _ = self.slots.push(slot);
        self.next = self.slots.len();
    }

    /// Puts slots behind the hints, and goes on behind them. Where there is no memory for them, they are left out.
    pub fn push_all(&mut self, slots: &[u32])
        ensures next { self.new.next ≡ length self.new.slots.items }
        ensures slots { (self.new.slots.items ≡ self.old.slots.items ++ slots.now) ⊎ (self.new.slots.items ≡ self.old.slots.items) }
    {
        let _ = self.slots.extend_from_slice(slots);
        self.next = self.slots.len();
    }

    /// Goes back to the first hint.
    pub fn rewind(&mut self)
        ensures slots { self.new.slots ≡ self.old.slots }
        ensures next { self.new.next ≡ 0 }
    {
        self.next = 0;
    }
}
