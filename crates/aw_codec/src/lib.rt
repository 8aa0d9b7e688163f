//! How nodes, references, texts and choices are spelled in bytes: each has one spelling, and is read from the front of any bytes.
#![tactic(auto)]

mod choices;
pub mod fault;
mod ground_writing;
mod grounds;
pub mod items;
pub mod law;
pub mod names;
pub mod texts;
pub mod unread;
pub mod writing;

pub use choices::{choice_at, decode_choice};
pub use fault::MsgFault;
pub use ground_writing::{add_choice, encode_choice};
pub use law::choices_have_one_spelling;
pub use names::{node_at, ref_at, refs_at};
pub use texts::text_at;
pub use unread::Unread;
pub use writing::{add_node, add_ref, add_refs, add_text};
