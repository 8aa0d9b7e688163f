//! The text of a specification. `specs/Lines.antt` says how each line is spelled, `specs/Reading.antt` what the lines of a text say.
#![tactic(auto)]

mod dependences;
pub mod draft;
pub mod fault;
pub mod law;
pub mod line;
pub mod parse;
pub mod read;
pub mod reader;
pub mod spec_text;
pub mod spelled;
pub mod type_draft;
pub mod type_lines;

pub use fault::{SpecFault, SpecKind};
pub use line::SpecLine;
pub use parse::parse_line;
pub use read::read_spec;
pub use spec_text::SpecText;
