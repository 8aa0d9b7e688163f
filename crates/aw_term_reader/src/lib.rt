//! Readers of the tokens of a line: names, numbers, marks, and lists of written terms.
#![tactic(auto)]

pub mod law;
pub mod lists;
pub mod reader;
pub mod single;
pub mod unread;

pub use lists::{mark, names_between, names_in_braces, terms_between, terms_in_braces};
pub use reader::{some_terms_up_to, terms_up_to};
pub use single::{bytes_of, end, name, node, number};
pub use unread::Unread;
