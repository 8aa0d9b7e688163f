//! A value that is shared by its copies.
ghost use Rattle.std.specs.Prelude.{◌≡◌, IfOk};

use std::alloc::{AllocError, Global};
use std::marker::Model;
use std::rc::Rc;

/// A value whose copies share one memory: a copy is a count. Contracts see the value.
#[derive(Debug, Drop)]
pub struct Counted<T> {
    item: Rc<T>,
}

impl<T> Model for Counted<T> {
    ghost Value = { T };

    ghost coded = { T.code };

    ghost view = { λ c. c.item.value };
}

impl<T> Counted<T> {
    /// This value, taken over into memory that copies share.
    pub fn new(alloc: Global, item: T) -> Result<Counted<T>, AllocError>
    where
        T: Drop,
        ensures { IfOk result (λ c. c ≡ item) }
    {
        match Rc::new(alloc, item) {
            Ok(item) => Ok(Counted { item }),
            Err(_) => Err(AllocError),
        }
    }

    /// The value, borrowed.
    pub fn get(&self) -> &T
        ensures { result.now ≡ self.now }
    {
        self.item.as_ref()
    }
}

impl<T: Drop> Clone for Counted<T> {
    ghost is_clone = { λ x y. y ≡ x };

    fn clone(&self) -> Result<Counted<T>, AllocError> {
        Ok(Counted {
            item: self.item.clone()?,
        })
    }
}

impl<T: PartialEq> PartialEq for Counted<T> {
    ghost eq = { T.eq };

    ghost laws = { T.laws };

    fn eq(&self, other: &Counted<T>) -> bool {
        self.get() == other.get()
    }
}

impl<T: Eq> Eq for Counted<T> {
    ghost laws = { T.Eq.laws };
}
