//! What the journals of all roles say together: in which orders their events can have come, how far they fit, and why one does not. There is no
//! code here but the functions whose contracts the laws are.
#![tactic(auto)]

pub mod laws;
pub mod worked;
