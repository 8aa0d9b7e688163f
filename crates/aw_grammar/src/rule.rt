//! Declarations, with what they name by position, counted from 0.
use aw_list::{Items, Text};
use aw_term::{Patterns, Terms};

/// Names of roles, or of the variables of a rule.
pub type Names = Items<Text>;

/// Positions, as those of offered sorts.
pub type Numbers = Items<u16>;

/// A constructor, and how many parts it has: at most 8.
#[derive(Debug, Clone, PartialEq, Eq, Drop)]
pub struct Con {
    pub name: Text,
    pub arity: u8,
}

/// Constructors, in the order of the specification.
pub type Cons = Items<Con>;

/// A kind of task: the role that works on it, how many values it inherits and gives, and whether a case may begin with it.
#[derive(Debug, Clone, PartialEq, Eq, Drop)]
pub struct Sort {
    pub name: Text,
    pub role: u16,
    pub takes: u8,
    pub gives: u8,
    pub start: bool,
}

/// Sorts, in the order of the specification.
pub type Sorts = Items<Sort>;

/// A subtask of a rule. Its results are as many as its sort gives.
#[derive(Debug, Clone, PartialEq, Eq, Drop)]
pub struct Child {
    pub sort: u16,
    pub args: Terms,
}

/// The subtasks of a rule, in order.
pub type Children = Items<Child>;

/// A way to develop a node of a sort.
///
/// The variables are numbered as they enter: in patterns depth first, then the parameters, then the results of the children.
#[derive(Debug, Clone, PartialEq, Eq, Drop)]
pub struct Rule {
    pub name: Text,
    pub sort: u16,
    pub params: u8,
    pub vars: Names,
    pub patterns: Patterns,
    pub results: Terms,
    pub children: Children,
}

/// Rules, in the order of the specification.
pub type Rules = Items<Rule>;
