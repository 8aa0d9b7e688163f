//! What the parts of a whole have in common.
ghost use Rattle.std.specs.Prelude.{◌≡◌};
ghost use Rattle.aw_modular.specs.declared.shared.JoinFault.TheVariants.{NoMemory};

use aw_base::Declared;
use aw_grammar::{Cons, Names, Numbers, Sorts};
use std::alloc::AllocError;

/// What the parts of a whole have in common: all that is declared but the rules.
#[derive(Debug, PartialEq, Eq, Drop)]
pub struct Shared {
    pub roles: Names,
    pub cons: Cons,
    pub sorts: Sorts,
    pub offers: Numbers,
    pub declared: Declared,
}

/// Why parts are not joined.
#[derive(Debug, Drop)]
pub enum JoinFault {
    /// What the first part has, and what the first part has that differs from it.
    Differs { kept: Shared, came: Shared },
    /// Want of memory.
    NoMemory,
}

impl From<AllocError> for JoinFault {
    ghost from_gives = { λ _ e. e ≡ NoMemory };

    fn from(_fault: AllocError) -> JoinFault {
        JoinFault::NoMemory
    }
}
