//! Names, numbers, quoted texts and node names as bytes: `specs/Spelling.antt` says how each is spelled.
#![tactic(auto)]

mod cut;
mod lanes;
mod name;
mod node_name;
mod number;
mod quote;

pub use cut::cut_at;
pub use name::{content_ok, is_plain_name, name_len, name_ok};
pub use node_name::{
    NodeStart, StepPart, is_node_name, next_step, node_start, spelled_name_is_read,
};
pub use number::{is_number, number_value, printed_is_read, push_number};
pub use quote::{content_value, push_quoted, quoted_is_read, text_end, text_value};
