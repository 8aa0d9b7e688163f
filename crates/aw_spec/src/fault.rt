//! What is wrong with a specification.
use std::alloc::AllocError;

/// Kinds of fault of a line. Of those that hold the first in this order is told.
#[derive(Clone, Copy, Debug, PartialEq, Eq)]
pub enum SpecKind {
    /// The line is no list of tokens.
    Token,
    /// The tokens are no line.
    Form,
    /// A line of a later kind stands before.
    Order,
    /// A count passes its limit.
    Limit,
    /// It is declared already.
    Double,
    /// A parameter or a child's result has the name of a constructor.
    Clash,
    /// A role, a sort, or a constructor with parentheses is not declared before.
    Unknown,
    /// A constructor, the rule's sort or a child's sort has another number of parts, inherited values or results.
    Arity,
    /// A variable enters twice.
    Twice,
    /// A variable is used that does not enter.
    Never,
    /// A start sort inherits a value.
    Inherits,
    /// A child is of another role, and the rule's role does not use its sort.
    NotUsed,
    /// A child is of another role, and its sort is not offered.
    NotOffered,
}

impl SpecKind {
    ghost use Rattle.std.specs.Prelude.{◌≡◌};
    ghost use Rattle.aw_spec.specs.KindNames.{kind_name};

    /// The word by which the kind is told.
    pub fn name(self) -> &'static [u8]
        ensures { result.now ≡ kind_name self }
    {
        match self {
            SpecKind::Token => b"token",
            SpecKind::Form => b"form",
            SpecKind::Order => b"order",
            SpecKind::Limit => b"limit",
            SpecKind::Double => b"double",
            SpecKind::Clash => b"clash",
            SpecKind::Unknown => b"unknown",
            SpecKind::Arity => b"arity",
            SpecKind::Twice => b"twice",
            SpecKind::Never => b"never",
            SpecKind::Inherits => b"inherits",
            SpecKind::NotUsed => b"notused",
            SpecKind::NotOffered => b"notoffered",
        }
    }
}

/// Why a text is no specification.
#[derive(Clone, Copy, Debug, PartialEq, Eq)]
pub enum SpecFault {
    /// The first line at fault, counted from 1.
    Bad { line: u64, kind: SpecKind },
    NoMemory,
}

impl From<AllocError> for SpecFault {
    ghost use Rattle.std.specs.Prelude.{◌≡◌};
    ghost use Rattle.aw_spec.specs.declared.fault.SpecFault.TheVariants.{NoMemory};

    ghost from_gives = { λ _ e. e ≡ NoMemory };

    fn from(_failed: AllocError) -> SpecFault {
        SpecFault::NoMemory
    }
}
