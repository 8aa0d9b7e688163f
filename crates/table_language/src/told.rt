//! What the parts of the table have in common.
use aw_accept::Fault;
use aw_check_text::push_circle;
use aw_grammar::Grammar;
use aw_list::Text;
use std::alloc::AllocError;

/// What stands in front of an entry's name.
pub const MARK: &[u8] = b"=== ";

/// Adds the line with an entry's name.
pub fn push_name(told: &mut Text, name: &[u8]) -> Result<(), AllocError> {
    told.push_bytes(MARK)?;
    told.push_bytes(name)?;
    told.push_bytes(b"\n")
}

/// Adds the line of a circle.
pub fn push_circular(told: &mut Text, g: &Grammar, fault: Fault) -> Result<(), AllocError> {
    told.push_bytes(b"circular ")?;
    push_circle(told, g, fault)?;
    told.push_bytes(b"\n")
}
