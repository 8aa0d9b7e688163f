//! The text of joined journals: their specification, and the moves of a world as a schedule behind it.
#![tactic(auto)]

pub mod text;

pub use text::joined_text;
