//! The grammar of the trial.
ghost use Rattle.std.specs.Prelude.{◌≡◌, IfOk};
ghost use Rattle.aw_grammar.specs.GrammarOf.{grammar_of, words_of};
ghost use Rattle.aw_trial.specs.Specification.{trial_grammar, trial_words};

use crate::declaring::trial_parts;
use aw_accept::{Accepted, Refused, accept};
use aw_grammar::{Grammar, GrammarFault};
use std::alloc::{AllocError, Global};

/// The grammar of the trial. Nothing is wrong with its declarations, so it is missing only where memory is.
fn trial_grammar(alloc: Global) -> Result<Grammar, AllocError>
    ensures grammar { IfOk result (λ g. grammar_of g ≡ trial_grammar) }
    ensures words { IfOk result (λ g. words_of g ≡ trial_words) }
{
    let parts = trial_parts(alloc)?;
    match Grammar::build(alloc, parts) {
        Ok(g) => Ok(g),
        Err(GrammarFault::Bad { .. }) => unreachable!(),
        Err(GrammarFault::NoMemory) => Err(AllocError),
    }
}

/// Accepts the grammar of the trial, in which nothing can come to depend on itself.
fn accept_trial(alloc: Global, g: Grammar) -> Result<Accepted, AllocError>
    requires grammar { grammar_of g ≡ trial_grammar }
    requires words { words_of g ≡ trial_words }
    ensures grammar { IfOk result (λ a. grammar_of a.grammar ≡ trial_grammar) }
    ensures words { IfOk result (λ a. words_of a.grammar ≡ trial_words) }
{
    match accept(alloc, g) {
        Ok(accepted) => Ok(accepted),
        Err(Refused::Circular { .. }) => unreachable!(),
        Err(Refused::NoMemory) => Err(AllocError),
    }
}

/// The grammar of the trial, accepted: no value in it can come to depend on itself, so it is missing only where memory is.
pub fn trial_accepted(alloc: Global) -> Result<Accepted, AllocError>
    ensures grammar { IfOk result (λ a. grammar_of a.grammar ≡ trial_grammar) }
    ensures words { IfOk result (λ a. words_of a.grammar ≡ trial_words) }
{
    let g = trial_grammar(alloc)?;
    accept_trial(alloc, g)
}
