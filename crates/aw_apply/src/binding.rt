//! What the variables of a guard take.
ghost use Rattle.std.specs.Prelude.{◌≡◌, ◌<◌, ◌≤◌, ◌++◌, ◌∷◌, [], length};

use std::marker::Model;

/// At most 64 slots, one for each variable of a rule's patterns, in the order in which they enter.
#[derive(Debug, Drop)]
pub struct Binding {
    slots: [usize; 64],
    len: usize,
}

impl Model for Binding {
    ghost use Rattle.std.specs.Prelude.{ℕ, List, take, ◌≤◌};

    ghost Value = { List ℕ };

    ghost view = { λ b. take b.len b.slots };

    ghost invariant = { λ b. b.len ≤ 64 };
}

impl Binding {
    /// No slots.
    pub fn new() -> Binding
        ensures { result ≡ [] }
    {
        Binding {
            slots: [0; 64],
            len: 0,
        }
    }

    /// Lets go of all slots.
    pub fn clear(&mut self)
        ensures { self.new ≡ [] }
    {
        self.len = 0;
    }

    /// One more slot.
    pub fn push(&mut self, slot: usize)
        requires { length self.old < 64 }
        ensures { self.new ≡ self.old ++ slot ∷ [] }
    {
        self.slots[self.len] = slot;
        self.len += 1;
    }

    /// The slots.
    pub fn as_slice(&self) -> &[usize]
        ensures value { result.now ≡ self.now }
        ensures few { length self.now ≤ 64 }
    {
        &self.slots[..self.len]
    }
}
