//! One line of a specification.
use aw_base::{Names, RawCon, RawRule, RawSort};
use aw_list::Text;

/// The order of the kinds of line.
const ROLES_STAGE: u8 = 1;

const CONS_STAGE: u8 = 2;

const SORTS_STAGE: u8 = 3;

const STARTS_STAGE: u8 = 4;

const OFFERS_STAGE: u8 = 5;

const USES_STAGE: u8 = 6;

const TYPES_STAGE: u8 = 7;

const SHAPES_STAGE: u8 = 8;

const CARRIES_STAGE: u8 = 9;

const DEPENDS_STAGE: u8 = 10;

const FREE_STAGE: u8 = 11;

const RULES_STAGE: u8 = 12;

const END_STAGE: u8 = 13;

/// A line that holds something, with names as they are written.
#[derive(Debug, Drop)]
pub enum SpecLine {
    Role(Text),
    Con(RawCon),
    Sort(RawSort),
    Start(Text),
    Offer(Text),
    Use {
        role: Text,
        sort: Text,
    },
    /// A type of its own.
    NewType(Text),
    /// The types of a constructor's parts, and its own.
    Shape {
        con: Text,
        parts: Names,
        own: Text,
    },
    /// The types of a sort's inherited values, and of its results.
    Carry {
        sort: Text,
        takes: Names,
        gives: Names,
    },
    /// Result `j` of the sort may depend on its inherited value `i`, both counted from 1.
    Depends {
        sort: Text,
        i: u64,
        j: u64,
    },
    /// No tasks may wait for each other.
    Free,
    Rule(RawRule),
    /// The line behind which the schedule stands, and whether it asks for loads.
    Schedule {
        loads: bool,
    },
}

impl SpecLine {
    ghost use Rattle.std.specs.Prelude.{◌≡◌};
    ghost use Rattle.aw_spec.specs.Reading.{stage_of};
    ghost use Rattle.aw_spec.specs.Views.{line_seen};

    /// The place of its kind in the order of kinds.
    pub fn stage(&self) -> u8
        ensures { result ≡ stage_of (line_seen self.now) }
    {
        match self {
            SpecLine::Role(_) => ROLES_STAGE,
            SpecLine::Con(_) => CONS_STAGE,
            SpecLine::Sort(_) => SORTS_STAGE,
            SpecLine::Start(_) => STARTS_STAGE,
            SpecLine::Offer(_) => OFFERS_STAGE,
            SpecLine::Use { .. } => USES_STAGE,
            SpecLine::NewType(_) => TYPES_STAGE,
            SpecLine::Shape { .. } => SHAPES_STAGE,
            SpecLine::Carry { .. } => CARRIES_STAGE,
            SpecLine::Depends { .. } => DEPENDS_STAGE,
            SpecLine::Free => FREE_STAGE,
            SpecLine::Rule(_) => RULES_STAGE,
            SpecLine::Schedule { .. } => END_STAGE,
        }
    }
}
