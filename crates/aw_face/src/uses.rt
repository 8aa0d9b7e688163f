//! The pairs of `use` lines, each once.
ghost use Rattle.std.specs.Prelude.{◌≡◌, [], ◌∷◌, ◌++◌, false, OnOk, OnErr};
ghost use Rattle.std.specs.Cmp.{partial_equiv_from_equiv};
ghost use Rattle.std.specs.Cmp.Lexicographic.{pointwise, lists_equiv};
ghost use Rattle.std.specs.Cmp.Rules.{comparing};
ghost use Rattle.std.proofs.Common.{rules};
ghost use Rattle.aw_face.specs.Faces.{is_used, same_use};

use crate::faces::Using;
use indexmap::IndexSet;
use std::alloc::{AllocError, Global};
use std::marker::Model;

/// Which role uses which sort: each pair once, in the order of the specification. A pair is found by its hash, and no call
/// but a copy and a comparison walks the pairs. Contracts see the list of them.
#[derive(Debug, Drop)]
pub struct Uses {
    pairs: IndexSet<Using>,
}

impl Model for Uses {
    ghost use Rattle.std.specs.Prelude.{List};
    ghost use Rattle.aw_face.specs.declared.faces.Using.{Using};

    ghost Value = { List Using };

    ghost view = { λ u. u.pairs.keys };
}

impl Uses {
    /// No pairs. It takes no memory yet.
    pub fn new(alloc: Global) -> Uses
        ensures { result ≡ [] }
    {
        Uses {
            pairs: IndexSet::new(alloc),
        }
    }

    /// Whether a role uses a sort.
    pub fn has(&self, role: u16, sort: u16) -> bool
        ensures { result ≡ is_used role sort self.now }
    {
        self.pairs.contains(&Using { role, sort })
    }

    /// Adds a pair that does not stand yet, at the end. An error changes nothing.
    pub fn push(&mut self, usage: Using) -> Result<(), AllocError>
        requires { is_used usage.role usage.sort self.old ≡ false }
        ensures ok { OnOk result (self.new ≡ self.old ++ usage ∷ []) }
        ensures err { OnErr result (self.new ≡ self.old) }
    {
        self.pairs.insert(usage)?;
        Ok(())
    }

    /// The pairs, borrowed.
    pub fn as_slice(&self) -> &[Using]
        ensures { result.now ≡ self.now }
    {
        self.pairs.as_slice()
    }
}

impl Clone for Uses {
    ghost is_clone = { λ x y. y ≡ x };

    fn clone(&self) -> Result<Uses, AllocError> {
        Ok(Uses {
            pairs: self.pairs.clone()?,
        })
    }
}

impl PartialEq for Uses {
    ghost eq = { pointwise same_use };

    ghost laws = { partial_equiv_from_equiv (lists_equiv (Prim.search (comparing, rules))) };

    fn eq(&self, other: &Uses) -> bool {
        self.as_slice() == other.as_slice()
    }
}

impl Eq for Uses {
    ghost laws = { lists_equiv (Prim.search (comparing, rules)) };
}
