//! The arguments of a choice.
ghost use Rattle.std.specs.Prelude.{◌≡◌};

use aw_list::{Items, Text};
use std::alloc::AllocError;

/// The parts of an argument, or the arguments of a choice.
pub type Grounds = Items<Ground>;

/// A value that a user enters: it has no variables.
#[derive(Debug, PartialEq, Eq, Drop)]
pub enum Ground {
    Num(u64),
    Text(Text),
    Con(u16, Grounds),
}

impl Clone for Ground {
    ghost is_clone = { λ x y. y ≡ x };

    fn clone(&self) -> Result<Ground, AllocError> {
        match self {
            Ground::Num(n) => Ok(Ground::Num(*n)),
            Ground::Text(t) => Ok(Ground::Text(t.clone()?)),
            Ground::Con(c, parts) => {
                let mut copies = Vec::new(parts.allocator());
                for part in parts.as_slice() {
                    copies.push(part.clone()?)?;
                }
                Ok(Ground::Con(*c, Items::from_vec(copies)))
            }
        }
    }
}
