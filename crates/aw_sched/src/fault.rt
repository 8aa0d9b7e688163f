//! What is wrong with a line of a schedule.
use std::alloc::{AllocError, AllocFailed};

/// The kinds of fault, in the order in which they are told.
#[derive(Clone, Copy, Debug, PartialEq, Eq)]
pub enum SchedKind {
    /// The line is no list of tokens.
    Token,
    /// The tokens are no event.
    Form,
    /// More than 8 arguments, more than 256 symbols in them, one deeper than 32, or a node of more than 250 steps.
    Limit,
    /// A sort, a role, a rule, or a name in an argument is not declared.
    Unknown,
    /// A constructor in an argument has another number of parts.
    Arity,
    /// The sort of `start` is no start sort.
    NotStart,
    /// The node name is not valid.
    Name,
    /// An argument is not of the type of its parameter.
    Misfit,
}

impl SchedKind {
    ghost use Rattle.std.specs.Prelude.{◌≡◌};
    ghost use Rattle.aw_sched.specs.KindNames.{kind_name};

    /// The word by which the kind is told.
    pub fn name(self) -> &'static [u8]
        ensures { result.now ≡ kind_name self }
    {
        match self {
            SchedKind::Token => b"token",
            SchedKind::Form => b"form",
            SchedKind::Limit => b"limit",
            SchedKind::Unknown => b"unknown",
            SchedKind::Arity => b"arity",
            SchedKind::NotStart => b"notstart",
            SchedKind::Name => b"name",
            SchedKind::Misfit => b"type",
        }
    }
}

/// Why a schedule is not read. Lines are counted from 1.
#[derive(Clone, Copy, Debug, PartialEq, Eq)]
pub enum SchedFault {
    Bad { line: u64, kind: SchedKind },
    NoMemory,
}

impl<T: Drop> From<AllocFailed<T>> for SchedFault {
    ghost use Rattle.std.specs.Prelude.{◌≡◌};
    ghost use Rattle.aw_sched.specs.declared.fault.SchedFault.TheVariants.{NoMemory};

    ghost from_gives = { λ _ e. e ≡ NoMemory };

    fn from(_failed: AllocFailed<T>) -> SchedFault {
        SchedFault::NoMemory
    }
}

/// Why a line gives no event.
#[derive(Clone, Copy, Debug, PartialEq, Eq)]
pub(crate) enum LineFault {
    Bad(SchedKind),
    NoMemory,
}

impl From<AllocError> for LineFault {
    ghost use Rattle.std.specs.Prelude.{◌≡◌};
    ghost use Rattle.aw_sched.specs.declared.fault.LineFault.TheVariants.{NoMemory};

    ghost from_gives = { λ _ e. e ≡ NoMemory };

    fn from(_failed: AllocError) -> LineFault {
        LineFault::NoMemory
    }
}

impl<T: Drop> From<AllocFailed<T>> for LineFault {
    ghost use Rattle.std.specs.Prelude.{◌≡◌};
    ghost use Rattle.aw_sched.specs.declared.fault.LineFault.TheVariants.{NoMemory};

    ghost from_gives = { λ _ e. e ≡ NoMemory };

    fn from(_failed: AllocFailed<T>) -> LineFault {
        LineFault::NoMemory
    }
}
