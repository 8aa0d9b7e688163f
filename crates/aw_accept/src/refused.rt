//! Why a grammar was not accepted.
ghost use Rattle.std.specs.Prelude.{◌≡◌};
ghost use Rattle.aw_accept.specs.declared.refused.Refused.TheVariants.{NoMemory};

use aw_grammar::Grammar;
use aw_iograph::Occ;
use std::alloc::AllocError;

/// An occurrence of a rule, by the rule's number from 0, that reaches itself.
#[derive(Clone, Copy, Debug, PartialEq, Eq, Drop)]
pub struct Fault {
    pub rule: u16,
    pub occ: Occ,
}

/// A grammar that was not accepted.
#[derive(Debug, Drop)]
pub enum Refused {
    /// The least rule in which an occurrence depends on itself, and its least such occurrence. The grammar is handed back.
    Circular {
        grammar: Grammar,
        rule: u16,
        occ: Occ,
    },
    /// Want of memory. The grammar is dropped.
    NoMemory,
}

impl From<AllocError> for Refused {
    ghost from_gives = { λ _ e. e ≡ NoMemory };

    fn from(_fault: AllocError) -> Refused {
        Refused::NoMemory
    }
}
