//! The written terms of a rule: patterns, and expressions for arguments and results.
ghost use Rattle.std.specs.Prelude.{◌≡◌};

use aw_list::{Items, Text};
use std::alloc::AllocError;

/// A number or a text as it is written. A text is its content, without quotes and escapes.
#[derive(Debug, Clone, PartialEq, Eq, Drop)]
pub enum Lit {
    Num(u64),
    Text(Text),
}

/// The parts of a pattern, or the patterns of a rule.
pub type Patterns = Items<Pattern>;

/// What a rule expects of an inherited value. A variable is its number among the variables of the rule.
#[derive(Debug, PartialEq, Eq, Drop)]
pub enum Pattern {
    Var(u8),
    Lit(Lit),
    Con(u16, Patterns),
}

/// The parts of an expression, or the arguments of a child, or the results of a rule.
pub type Terms = Items<Expr>;

/// A value that a rule makes from its variables, each by its number.
#[derive(Debug, PartialEq, Eq, Drop)]
pub enum Expr {
    Var(u8),
    Lit(Lit),
    Con(u16, Terms),
}

impl Clone for Pattern {
    ghost is_clone = { λ x y. y ≡ x };

    fn clone(&self) -> Result<Pattern, AllocError> {
        match self {
            Pattern::Var(x) => Ok(Pattern::Var(*x)),
            Pattern::Lit(lit) => Ok(Pattern::Lit(lit.clone()?)),
            Pattern::Con(c, parts) => {
                let mut copies = Vec::new(parts.allocator());
                for part in parts.as_slice() {
                    copies.push(part.clone()?)?;
                }
                Ok(Pattern::Con(*c, Items::from_vec(copies)))
            }
        }
    }
}

impl Clone for Expr {
    ghost is_clone = { λ x y. y ≡ x };

    fn clone(&self) -> Result<Expr, AllocError> {
        match self {
            Expr::Var(x) => Ok(Expr::Var(*x)),
            Expr::Lit(lit) => Ok(Expr::Lit(lit.clone()?)),
            Expr::Con(c, parts) => {
                let mut copies = Vec::new(parts.allocator());
                for part in parts.as_slice() {
                    copies.push(part.clone()?)?;
                }
                Ok(Expr::Con(*c, Items::from_vec(copies)))
            }
        }
    }
}
