//! The specification at the front of a text.
ghost use Rattle.std.specs.Prelude.{◌≡◌};

use aw_base::{Declared, Grammar};
use aw_face::Faces;
use aw_typed::Types;

/// A specification that was read, and where it ends.
#[derive(Debug, Drop)]
pub struct SpecText {
    pub grammar: Grammar,
    pub faces: Faces,
    /// How many lines it takes, with the line `schedule` where it stands.
    pub lines: u64,
    /// How many bytes these lines take.
    pub rest: usize,
    /// Whether the schedule is for sites whose messages carry loads: the line that ends the specification is `schedule 2`.
    pub loads: bool,
    /// The types of the constructors and the sorts, where it has any.
    pub types: Types,
    /// Which results may depend on which inherited values, for other roles to rely on.
    pub depends: Declared,
    /// Whether no tasks may wait for each other: the line `free` stands.
    pub free: bool,
}

impl SpecText {
    /// The grammar; all else is dropped.
    pub fn into_grammar(self) -> Grammar
        ensures { result ≡ self.grammar }
    {
        let SpecText { grammar, .. } = self;
        grammar
    }
}
