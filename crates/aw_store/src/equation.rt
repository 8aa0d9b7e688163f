//! Equations: what a reference stands for.

use aw_list::{Items, Text};
use aw_name::{Ref, Refs};

/// What a reference stands for: another reference, or a constructor with its parts, a number, or a text.
#[derive(Debug, Clone, PartialEq, Eq, Drop)]
pub enum Body {
    Same(Ref),
    Con(u16, Refs),
    Num(u64),
    Text(Text),
}

/// A reference on the left, and what it stands for.
#[derive(Debug, Clone, PartialEq, Eq, Drop)]
pub struct Equation {
    pub left: Ref,
    pub body: Body,
}

/// The equations of one choice in their order, or those of a store.
pub type Equations = Items<Equation>;
