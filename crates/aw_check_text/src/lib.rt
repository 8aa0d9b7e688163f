//! What `check` tells: of a grammar that is accepted each dependence, and of one that is not the least circle; of roles that are checked
//! apart, and of waiting. `specs/Told.antt` and `specs/ApartTold.antt` say how it is written.
#![tactic(auto)]

pub mod circle;
pub mod finding;
pub mod law;
pub mod pairs;
mod roles;
mod wait;

pub use circle::push_circle;
pub use finding::Finding;
pub use law::tellings_are_one;
pub use pairs::accepted_text;
pub use roles::roles_text;
pub use wait::wait_text;
