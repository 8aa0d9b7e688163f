//! What nodes' journals say of tasks: the workspace that the events of a journal make, and its tasks as text.
#![tactic(auto)]

pub mod fault;
mod items;
pub mod law;
pub mod lines;
pub mod replica;
pub mod tasks;
pub mod view;

pub use fault::TasksFault;
pub use law::task_laws;
pub use lines::LINE_LIMIT;
pub use replica::Replica;
pub use tasks::write_tasks;
pub use view::{Case, View};
