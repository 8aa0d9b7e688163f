//! Why a role does not say yes.
ghost use Rattle.std.specs.Prelude.{◌≡◌};
ghost use Rattle.aw_modular.specs.declared.refused.ModFault.TheVariants.{NoMemory};

use aw_iograph::Occ;
use std::alloc::AllocError;

/// Why a role does not say yes.
#[derive(Debug, Drop)]
pub enum ModFault {
    /// The least rule of the role in which an occurrence reaches itself, by its number among them, and its least such
    /// occurrence.
    Circular { rule: u16, occ: Occ },
    /// The least sort that the role offers, and its least pair that the role finds and that is not declared.
    Exceeds { sort: u16, i: u8, j: u8 },
    /// Want of memory.
    NoMemory,
}

impl From<AllocError> for ModFault {
    ghost from_gives = { λ _ e. e ≡ NoMemory };

    fn from(_fault: AllocError) -> ModFault {
        ModFault::NoMemory
    }
}
