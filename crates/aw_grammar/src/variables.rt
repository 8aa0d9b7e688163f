//! The variables of a rule by name.
ghost use Rattle.std.specs.Prelude.{◌≡◌, ◌≤◌, length, true, false, IfOk, MatchOption};
ghost use Rattle.aw_name_index.specs.Places.{place_of, has_double};
ghost use Rattle.aw_term.specs.Limits.{most_variables};

use aw_list::Text;
use aw_name_index::NameIndex;
use std::alloc::{AllocError, Global};

/// The variables of a rule, few, in the order in which they enter.
#[derive(Debug, Drop)]
pub(crate) struct Variables {
    pub(crate) names: NameIndex,
    ghost few: { length names ≤ most_variables },
}

impl Variables {
    /// The number of the variable of a name, where one has it.
    pub(crate) fn find(&self, name: &[u8]) -> Option<u8>
        ensures { result ≡ place_of name.now self.now.names }
    {
        match self.names.find(name) {
            Some(place) => Some(place as u8),
            None => None,
        }
    }

    /// The variables of these names, or `None` where a name stands twice.
    pub(crate) fn of_names(alloc: Global, names: &[Text]) -> Result<Option<Variables>, AllocError>
        requires { length names.now ≤ most_variables }
        ensures { IfOk result (λ found. MatchOption found (has_double names.now ≡ true) (λ v. (has_double names.now ≡ false) × (v.names ≡ names.now))) }
    {
        let Some(names) = NameIndex::of_names(alloc, names)? else {
            return Ok(None);
        };
        Ok(Some(Variables { names }))
    }
}
