//! The dependences of `depends` lines, each once.
ghost use Rattle.std.specs.Prelude.{◌≡◌, [], ◌∷◌, ◌++◌, false, Some, OnOk, OnErr};
ghost use Rattle.aw_spec.specs.Named.{named_by};
ghost use Rattle.aw_spec.specs.TypeLines.{is_dependence};

use aw_base::{Declared, Triple};
use indexmap::IndexSet;
use std::alloc::{AllocError, Global};
use std::marker::Model;

/// A dependence as a line names it: its numbers need not be those of a sort's values.
#[derive(Clone, Copy, Debug, PartialEq, Eq, Hash)]
pub struct Dependence {
    pub sort: u16,
    pub i: u64,
    pub j: u64,
}

fn named_by(declared: Triple) -> Dependence
    ensures { result ≡ named_by declared }
{
    let Triple { sort, i, j } = declared;
    Dependence {
        sort,
        i: u64::from(i),
        j: u64::from(j),
    }
}

/// Dependences in the order of their lines, each once. One is found by its hash: no call walks them. Contracts see the list.
#[derive(Debug, Drop)]
pub struct Dependences {
    declared: Declared,
    named: IndexSet<Dependence>,
}

impl Model for Dependences {
    ghost use Rattle.std.specs.Prelude.{◌≡◌, List, map};
    ghost use Rattle.aw_base.specs.declared.declared.Triple.{Triple};
    ghost use Rattle.aw_spec.specs.Named.{named_by};

    ghost Value = { List Triple };

    ghost view = { λ d. d.declared };

    ghost invariant = { λ d. d.named.keys ≡ map named_by d.declared };
}

impl Dependences {
    /// No dependences. It takes no memory yet.
    pub fn new(alloc: Global) -> Dependences
        ensures { result ≡ [] }
    {
        Dependences {
            declared: Declared::new(alloc),
            named: IndexSet::new(alloc),
        }
    }

    /// Whether it is declared that result `j` of the sort may depend on its inherited value `i`.
    pub fn has(&self, sort: u16, i: u64, j: u64) -> bool
        ensures { result ≡ is_dependence self.now (Some sort) i j }
    {
        self.named.contains(&Dependence { sort, i, j })
    }

    /// Adds a dependence that does not stand yet, at the end. An error changes nothing.
    pub fn push(&mut self, found: Triple) -> Result<(), AllocError>
        requires { is_dependence self.old (Some found.sort) found.i found.j ≡ false }
        ensures ok { OnOk result (self.new ≡ self.old ++ found ∷ []) }
        ensures err { OnErr result (self.new ≡ self.old) }
    {
        self.named.reserve(1)?;
        self.declared.push(found)?;
        match self.named.insert(named_by(found)) {
            Ok(_) => Ok(()),
            Err(_) => unreachable!(),
        }
    }

    /// The dependences, in their order.
    pub fn into_declared(self) -> Declared
        ensures { result ≡ self }
    {
        let Dependences { declared, .. } = self;
        declared
    }
}
