//! Lists that contracts see as the lists of their elements, and values and lists that are shared by their copies.
#![tactic(auto)]

mod counted;
pub mod items;
pub mod shared;
mod text;

pub use counted::Counted;
pub use items::Items;
pub use shared::Shared;
pub use text::{Text, is_same_text};
