//! Sessions of a workspace over a wire: its requests are taken one by one, and each reply is written before the next one is looked at.
#![tactic(auto)]

mod answering;
pub mod handles;
pub mod law;
pub mod log;
pub mod serving;
pub mod session;
mod writing;

pub use handles::Handles;
pub use law::endings_are_replies;
pub use log::{How, Log, SessionLog};
pub use serving::{Stopped, serve_sessions};
pub use session::{SESSION_LIMIT, serve_session};
