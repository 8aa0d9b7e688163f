//! What is wrong with a role, a constructor, a sort or a start.
ghost use Rattle.std.specs.Prelude.{◌≡◌};
ghost use Rattle.aw_name_index.specs.Places.{number_of};

use crate::fault::DeclKind;
use crate::grammar::Grammar;
use crate::limits::{MOST_CONS, MOST_GIVEN, MOST_INHERITED, MOST_PARTS, MOST_ROLES, MOST_SORTS};
use crate::raw::{RawCon, RawSort};
use crate::rule::{Con, Sort};
use aw_list::Text;

impl Grammar {
    ghost use Rattle.aw_grammar.specs.Kinds.{role_kind, con_kind, sort_kind, start_kind, sort_called, con_called};
    ghost use Rattle.aw_grammar.specs.GrammarOf.{declarations_of, words_of};
    ghost use Rattle.std.specs.Option.{option_copied};

    pub(crate) fn kind_of_role(&self, name: &Text) -> Option<DeclKind>
        ensures { result ≡ role_kind (declarations_of self.now) name.now }
    {
        if self.roles.len() >= MOST_ROLES {
            return Some(DeclKind::Limit);
        }
        if self.role_index.contains(name.as_slice()) {
            return Some(DeclKind::Double);
        }
        None
    }

    pub(crate) fn kind_of_con(&self, con: &RawCon) -> Option<DeclKind>
        ensures { result ≡ con_kind (declarations_of self.now) con.now }
    {
        if self.cons.len() >= MOST_CONS || con.arity > MOST_PARTS {
            return Some(DeclKind::Limit);
        }
        if self.con_index.contains(con.name.as_slice()) {
            return Some(DeclKind::Double);
        }
        None
    }

    pub(crate) fn kind_of_sort(&self, sort: &RawSort) -> Option<DeclKind>
        ensures { result ≡ sort_kind (declarations_of self.now) sort.now }
    {
        if self.sorts.len() >= MOST_SORTS
            || sort.takes > MOST_INHERITED
            || sort.gives > MOST_GIVEN
        {
            return Some(DeclKind::Limit);
        }
        if self.sort_index.contains(sort.name.as_slice()) {
            return Some(DeclKind::Double);
        }
        if !self.role_index.contains(sort.role.as_slice()) {
            return Some(DeclKind::Unknown);
        }
        None
    }

    /// The sort of a name, where one is declared.
    pub(crate) fn sort_called(&self, name: &[u8]) -> Option<&Sort>
        ensures { option_copied result ≡ sort_called name.now self.now.sorts }
    {
        let place = self.sort_index.find(name)?;
        self.sorts.get(place)
    }

    pub(crate) fn kind_of_start(&self, name: &Text) -> Option<DeclKind>
        ensures { result ≡ start_kind (declarations_of self.now) name.now }
    {
        let Some(sort) = self.sort_called(name.as_slice()) else {
            return Some(DeclKind::Unknown);
        };
        if sort.start {
            return Some(DeclKind::Double);
        }
        if sort.takes > 0 {
            return Some(DeclKind::Inherits);
        }
        None
    }

    /// The constructor of a name, where one is declared.
    pub(crate) fn con_called(&self, name: &[u8]) -> Option<&Con>
        ensures { option_copied result ≡ con_called name.now self.now.cons }
    {
        let place = self.con_index.find(name)?;
        self.cons.get(place)
    }

    /// The number of a sort, or past the last where none of that name is declared.
    pub(crate) fn sort_number(&self, name: &[u8]) -> u16
        ensures { result ≡ number_of name.now (words_of self.now).sorts }
    {
        self.sort_index.number(name) as u16
    }
}
