//! A node: the workspace of one role, served over a wire. Each frame gets one reply, and the workspace goes on from session to session.
#![tactic(auto)]

pub mod handling;
pub mod law;
pub mod listed;
pub mod node;
pub mod serving;
pub mod sites;
pub mod workspace;

pub use handling::handle;
pub use law::served_nodes;
pub use listed::ListedSite;
pub use node::Node;
pub use serving::{ServeFault, serve, serve_workspace};
pub use workspace::NodeWorkspace;
