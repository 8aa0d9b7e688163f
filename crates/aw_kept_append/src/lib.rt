//! What a frame was is appended to the journal, before its reply is handed out.
#![tactic(auto)]

mod appending;

pub use appending::{is_news, keep};
