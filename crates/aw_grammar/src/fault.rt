//! What is wrong with a declaration.
ghost use Rattle.std.specs.Prelude.{◌≡◌};
ghost use Rattle.aw_grammar.specs.declared.fault.AddFault.TheVariants.{NoMemory};

use std::alloc::AllocError;

/// Kinds of fault, in the order in which they are told.
#[derive(Clone, Copy, Debug, PartialEq, Eq)]
pub enum DeclKind {
    /// A count is past its limit.
    Limit,
    /// The name is declared already, or the start stands already.
    Double,
    /// A parameter or a child's result has the name of a constructor.
    Clash,
    /// A role, a sort, or a constructor written with parentheses is not declared.
    Unknown,
    /// A constructor, the rule's sort or a child's sort has another number of parts, inherited values or results.
    Arity,
    /// A variable enters at two places of the rule.
    Twice,
    /// A variable of a child's argument or of a result does not enter.
    Never,
    /// A start sort takes an inherited value.
    Inherits,
}

/// Where a declaration stands: its class, and its place there, from 0.
#[derive(Clone, Copy, Debug, PartialEq, Eq)]
pub enum DeclPlace {
    Role(usize),
    Con(usize),
    Sort(usize),
    Start(usize),
    Rule(usize),
}

/// Why one declaration was not added.
#[derive(Clone, Copy, Debug, PartialEq, Eq)]
pub enum AddFault {
    Bad(DeclKind),
    NoMemory,
}

/// Why no grammar was built.
#[derive(Clone, Copy, Debug, PartialEq, Eq)]
pub enum GrammarFault {
    Bad { place: DeclPlace, kind: DeclKind },
    NoMemory,
}

impl From<AllocError> for AddFault {
    ghost from_gives = { λ _ e. e ≡ NoMemory };

    fn from(_fault: AllocError) -> AddFault {
        AddFault::NoMemory
    }
}
