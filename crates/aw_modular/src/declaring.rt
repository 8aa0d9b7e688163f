//! What is declared, as relations.
ghost use Rattle.std.specs.Prelude.{◌↔◌, ℕ, IfOk, IsTrue};
ghost use Rattle.aw_term.specs.WellFormed.{Each};
ghost use Rattle.aw_grammar.specs.GrammarOf.{grammar_of};
ghost use Rattle.aw_iograph.specs.Pairs.{Has, IsFor};
ghost use Rattle.aw_modular.specs.Declaring.{AddsOne, IsAny, IsElsewhere};
ghost use Rattle.aw_modular.specs.Roles.{Declares, DeclaredElsewhere, IsOf};
ghost use Rattle.aw_modular.specs.Refusals.{IsPosition};

use aw_base::{Declared, Triple, role_of};
use aw_grammar::Grammar;
use aw_iograph::Io;
use std::alloc::{AllocError, Global};

/// Whether a sort is one of a role.
pub(crate) fn is_of(g: &Grammar, role: u16, sort: u16) -> bool
    ensures { IsTrue result ↔ IsOf (grammar_of g.now) role sort }
{
    role_of(g, sort) == role
}

/// Adds a declared pair.
fn add(g: &Grammar, triple: Triple, io: &mut Io)
    requires made { IsFor g.now io.old }
    requires within { IsPosition (grammar_of g.now).sorts triple }
    ensures made { IsFor g.now io.new }
    ensures pairs { AddsOne io.old io.new IsAny triple }
{
    io.add(triple.sort, triple.i, triple.j);
}

/// Adds a declared pair, where its sort is of another role.
fn add_elsewhere(g: &Grammar, role: u16, triple: Triple, io: &mut Io)
    requires made { IsFor g.now io.old }
    requires within { IsPosition (grammar_of g.now).sorts triple }
    ensures made { IsFor g.now io.new }
    ensures pairs { AddsOne io.old io.new (IsElsewhere (grammar_of g.now) role) triple }
{
    if !is_of(g, role, triple.sort) {
        add(g, triple, io);
    }
}

/// All that is declared.
pub(crate) fn all_declared(
    alloc: Global,
    g: &Grammar,
    declared: &Declared,
) -> Result<Io, AllocError>
    requires { Each (IsPosition (grammar_of g.now).sorts) declared.now }
    ensures { IfOk result (λ io. (s i j : ℕ) → Has io s i j ↔ Declares declared.now s i j) }
{
    let mut all = Io::new(alloc, g)?;
    for triple in declared.as_slice() {
        add(g, *triple, &mut all);
    }
    Ok(all)
}

/// What is declared of the sorts of other roles.
pub(crate) fn declared_elsewhere(
    alloc: Global,
    g: &Grammar,
    role: u16,
    declared: &Declared,
) -> Result<Io, AllocError>
    requires { Each (IsPosition (grammar_of g.now).sorts) declared.now }
    ensures made { IfOk result (λ io. IsFor g.now io) }
    ensures exact { IfOk result (λ io. (s i j : ℕ) → Has io s i j ↔ DeclaredElsewhere (grammar_of g.now) role (Declares declared.now) s i j) }
{
    let mut others = Io::new(alloc, g)?;
    for triple in declared.as_slice() {
        add_elsewhere(g, role, *triple, &mut others);
    }
    Ok(others)
}
