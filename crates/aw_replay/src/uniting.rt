//! The grammar with one role, made from a grammar.
ghost use Rattle.std.specs.Prelude.{◌≡◌, ◌∷◌, [], IfOk};
ghost use Rattle.aw_grammar.specs.GrammarOf.{grammar_of, words_of};
ghost use Rattle.aw_replay.specs.Seated.{all_seated};
ghost use Rattle.aw_replay.specs.United.{united, united_words, everyone};

use crate::copies::{all_seated, copy_cons, copy_rules, only_role};
use aw_accept::{Accepted, Refused, accept};
use aw_grammar::Grammar;
use std::alloc::{AllocError, Global};

/// The same grammar with one role alone, at which each sort is.
pub fn unite(alloc: Global, g: &Grammar) -> Result<Grammar, AllocError>
    ensures roles { IfOk result (λ one. one.roles ≡ everyone ∷ []) }
    ensures cons { IfOk result (λ one. one.cons ≡ g.now.cons) }
    ensures sorts { IfOk result (λ one. one.sorts ≡ all_seated g.now.sorts) }
    ensures rules { IfOk result (λ one. one.rules ≡ g.now.rules) }
    ensures words { IfOk result (λ one. words_of one ≡ united_words (words_of g.now)) }
    ensures grammar { IfOk result (λ one. grammar_of one ≡ united (grammar_of g.now)) }
{
    let roles = only_role(alloc)?;
    let cons = copy_cons(&g.cons)?;
    let sorts = all_seated(&g.sorts)?;
    let rules = copy_rules(&g.rules)?;
    let one = Grammar::of_declared(alloc, roles, cons, sorts, rules)?;
    Ok(one)
}

/// Accepts a grammar with one role alone. It has no circle where the grammar that it was made from has none.
fn accept_united(alloc: Global, accepted: &Accepted, one: Grammar) -> Result<Accepted, AllocError>
    requires words { words_of one ≡ united_words (words_of accepted.now.grammar) }
    requires grammar { grammar_of one ≡ united (grammar_of accepted.now.grammar) }
    ensures words { IfOk result (λ one. words_of one.grammar ≡ united_words (words_of accepted.now.grammar)) }
    ensures grammar { IfOk result (λ one. grammar_of one.grammar ≡ united (grammar_of accepted.now.grammar)) }
{
    match accept(alloc, one) {
        Ok(one) => Ok(one),
        Err(Refused::NoMemory) => Err(AllocError),
        Err(Refused::Circular { .. }) => unreachable!(),
    }
}

/// The same accepted grammar with one role alone. It has no circle either, so that out of memory is the only error.
pub fn unite_accepted(alloc: Global, accepted: &Accepted) -> Result<Accepted, AllocError>
    ensures words { IfOk result (λ one. words_of one.grammar ≡ united_words (words_of accepted.now.grammar)) }
    ensures grammar { IfOk result (λ one. grammar_of one.grammar ≡ united (grammar_of accepted.now.grammar)) }
{
    let one = unite(alloc, accepted.grammar())?;
    accept_united(alloc, accepted, one)
}
