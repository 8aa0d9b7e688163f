//! Types of a grammar's constructors and sorts, and what is wrong with them.
use aw_grammar::{Names, Numbers};
use aw_iograph::Occ;
use aw_list::Items;
use std::alloc::AllocError;

/// The types of a constructor's parts, and its own.
#[derive(Debug, PartialEq, Eq, Drop)]
pub struct Shape {
    pub parts: Numbers,
    pub own: u16,
}

/// The types of a sort's inherited values, and of its results.
#[derive(Debug, PartialEq, Eq, Drop)]
pub struct Carry {
    pub takes: Numbers,
    pub gives: Numbers,
}

/// The shapes of a grammar's constructors, in their order; one that is not declared is left out.
pub type Shapes = Items<Option<Shape>>;

/// The carries of a grammar's sorts, in their order; one that is not declared is left out.
pub type Carries = Items<Option<Carry>>;

/// Type 0 is that of numbers, type 1 that of texts; then come the declared ones, which alone `names` lists.
#[derive(Debug, PartialEq, Eq, Drop)]
pub struct Types {
    pub typed: bool,
    pub names: Names,
    pub shapes: Shapes,
    pub carries: Carries,
}

/// Types of some variables, in order; one that stands nowhere has none.
pub type VariableTypes = Items<Option<u16>>;

/// Types without a fault, with those of each rule's parameters.
#[derive(Debug, Drop)]
pub struct Typed {
    pub types: Types,
    pub params: Items<VariableTypes>,
}

/// The first fault in the types of a grammar.
#[derive(Debug, Drop)]
pub enum TypeFault {
    /// The least constructor without a shape.
    NoShape { con: u16 },
    /// The least sort without a carry.
    NoCarry { sort: u16 },
    /// The least rule, and its least occurrence whose term does not fit.
    Rule { rule: u16, place: Occ },
    NoMemory,
}

ghost use Rattle.std.specs.Prelude.{◌≡◌};
ghost use Rattle.aw_typed.specs.declared.data.TypeFault.TheVariants.{NoMemory};

impl From<AllocError> for TypeFault {
    ghost from_gives = { λ _ e. e ≡ NoMemory };

    fn from(_fault: AllocError) -> TypeFault {
        TypeFault::NoMemory
    }
}
