//! A node that survives a crash at any moment: each event is on the disk before its reply is written.
#![tactic(auto)]

mod answering;
pub mod fault;
pub mod law;
pub mod node;
pub mod redoing;
pub mod serving;
pub mod sites;

pub use fault::KeptFault;
pub use law::{kept_replies, kept_sites};
pub use redoing::redo;
pub use serving::{JOURNAL_LIMIT, serve_kept_workspace};
pub use sites::serve_kept;
