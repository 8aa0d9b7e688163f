//! What holds of worlds: sites that each know only their own choices and the messages that reached them agree, once all messages are delivered, with
//! one undivided configuration. The sites and worlds themselves are defined in `aw_law_sites`.
#![tactic(auto)]

pub mod laws;
pub mod worked;
