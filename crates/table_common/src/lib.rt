//! What programs that are tables have in common: their input whole, what they tell, why one is not told, and how numbers and bytes
//! are written in their entries.
#![tactic(auto)]

mod edge;
mod fault;
mod spelled;

pub use edge::{input_of, tell};
pub use fault::TableFault;
pub use spelled::{bytes_of, failing_of, numbers_of, sessions_of};
