//! The limits on declarations, in the widths in which they are counted here.

/// The most roles.
pub(crate) const MOST_ROLES: usize = aw_term::limits::MOST_ROLES;

/// The most constructors.
pub(crate) const MOST_CONS: usize = aw_term::limits::MOST_CONS;

/// The most parts of a constructor.
pub(crate) const MOST_PARTS: u64 = aw_term::limits::MOST_PARTS as u64;

/// The most sorts.
pub(crate) const MOST_SORTS: usize = aw_term::limits::MOST_SORTS;

/// The most values that a sort inherits.
pub(crate) const MOST_INHERITED: u64 = aw_term::limits::MOST_INHERITED as u64;

/// The most results that a sort gives.
pub(crate) const MOST_GIVEN: u64 = aw_term::limits::MOST_RESULTS as u64;
