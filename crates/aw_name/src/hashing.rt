//! What names write where they are hashed: a node its case, and then a number made of its steps and its start; a reference the
//! same with its slot in that number. The case comes first: as the last number it could be chosen for any hash that is wanted.
ghost use Rattle.std.specs.Prelude.{◌≡◌, ◌<◌};
ghost use Rattle.std.specs.Hash.{same_Alike};
ghost use Rattle.aw_name.specs.Writes.{slot_number, node_writes, ref_writes};
ghost use Rattle.aw_name.specs.SameNodes.{derived_node_Decides};
ghost use Rattle.aw_name.specs.SameRefs.{derived_ref_Decides};

use crate::digest::digest_and;
use crate::node::{Node, Ref, Slot};
use std::hash::{Hash, Hasher};

impl Hash for Node {
    ghost hash_input = { node_writes };

    ghost respects_eq = { (same_Alike node_writes derived_node_Decides).fed };

    fn hash<H: Hasher>(&self, state: &mut H) {
        self.case.hash(state);
        digest_and(self.steps.digest(), u64::from(self.start)).hash(state);
    }
}

/// How many numbers slots have: those of results and those of parts.
const SLOTS: u64 = 131_072;

impl Slot {
    /// A number that no other slot has.
    fn number(self) -> u64
        ensures value { result ≡ slot_number self }
        ensures small { result < 131072 }
    {
        match self {
            Slot::Result(at) => u64::from(at) * 2,
            Slot::Part(at) => u64::from(at) * 2 + 1,
        }
    }
}

impl Hash for Ref {
    ghost hash_input = { ref_writes };

    ghost respects_eq = { (same_Alike ref_writes derived_ref_Decides).fed };

    fn hash<H: Hasher>(&self, state: &mut H) {
        let number = u64::from(self.node.start) * SLOTS + self.slot.number();
        self.node.case.hash(state);
        digest_and(self.node.steps.digest(), number).hash(state);
    }
}
