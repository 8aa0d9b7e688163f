//! How large a specification and a choice may be: each limit by its name. specs/Limits.antt has the same for the definitions.

/// The most roles.
pub const MOST_ROLES: usize = 64;

/// The most constructors.
pub const MOST_CONS: usize = 1024;

/// The most parts of a constructor.
pub const MOST_PARTS: usize = 8;

/// The most sorts.
pub const MOST_SORTS: usize = 256;

/// The most values that a sort inherits, and the most patterns of a rule.
pub const MOST_INHERITED: usize = 8;

/// The most results of a sort, and of a rule.
pub const MOST_RESULTS: usize = 8;

/// The most rules.
pub const MOST_RULES: usize = 1024;

/// The most parameters of a rule.
pub const MOST_PARAMS: usize = 8;

/// The most arguments of a choice.
pub const MOST_ARGUMENTS: usize = 8;

/// The most children of a rule.
pub const MOST_CHILDREN: usize = 8;

/// The most variables of a rule.
pub const MOST_VARIABLES: usize = 64;

/// The most levels of a term.
pub const MOST_LEVELS: u8 = 32;

/// The most symbols in all terms of a rule, or in all arguments of a choice.
pub const MOST_SYMBOLS: u16 = 256;

/// The most parts of a node, each with a reference of its own.
pub const MOST_NODE_PARTS: u16 = 512;

/// The most references behind one another in a message: the parts of a constructor, or what a node inherits.
pub const MOST_REFERENCES: usize = 8;

/// The most equations of one message.
pub const MOST_OF_LOAD: usize = 64;
