//! Lists of what is declared, each with the index of its names.
ghost use Rattle.std.specs.Prelude.{◌≡◌, ◌++◌, ◌∷◌, [], ℕ, List, false, IfOk};
ghost use Rattle.aw_name_index.specs.Places.{stands};

use crate::rule::{Con, Rule, Sort};
use aw_list::{Items, Text};
use aw_name_index::NameIndex;
use std::alloc::AllocError;

/// What is declared under a name.
pub(crate) trait Named {
    ghost called: { Self → List ℕ };

    fn name(&self) -> &[u8]
        ensures { result.now ≡ called self.now };
}

/// A role is its name.
impl Named for Text {
    ghost called = { λ role. role };

    fn name(&self) -> &[u8] {
        self.as_slice()
    }
}

impl Named for Con {
    ghost called = { λ con. con.name };

    fn name(&self) -> &[u8] {
        self.name.as_slice()
    }
}

impl Named for Sort {
    ghost called = { λ sort. sort.name };

    fn name(&self) -> &[u8] {
        self.name.as_slice()
    }
}

impl Named for Rule {
    ghost called = { λ rule. rule.name };

    fn name(&self) -> &[u8] {
        self.name.as_slice()
    }
}

/// A list and its index with one more, the one fallible step of each declaration.
pub(crate) fn added<T: Named + Drop>(
    mut items: Items<T>,
    mut index: NameIndex,
    item: T,
) -> Result<(Items<T>, NameIndex), AllocError>
    requires { stands (T.called item) index ≡ false }
    ensures items { IfOk result (λ more. more.0 ≡ items ++ item ∷ []) }
    ensures index { IfOk result (λ more. more.1 ≡ index ++ T.called item ∷ []) }
{
    index.push(item.name())?;
    items.push(item)?;
    Ok((items, index))
}
