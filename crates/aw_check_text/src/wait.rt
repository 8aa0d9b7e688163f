//! What is told of waiting.
ghost use Rattle.std.specs.Prelude.{◌≡◌, Some, IfOk};
ghost use Rattle.aw_grammar.specs.GrammarOf.{grammar_of, words_of};
ghost use Rattle.aw_check_text.specs.ApartTold.{TellsWaiting, wait_line};

use crate::circle::push_circle;
use aw_accept::{Accepted, Fault};
use aw_grammar::Grammar;
use aw_list::Text;
use aw_wait::{WaitFault, accept_waits};
use std::alloc::{AllocError, Global};

/// `wait circle ring at 1.in1`.
fn circle_line(alloc: Global, g: &Grammar, fault: Fault) -> Result<Text, AllocError>
    ensures { IfOk result (λ text. text ≡ wait_line (words_of g.now) (Some fault)) }
{
    let mut text = Text::from_bytes(alloc, b"wait circle ")?;
    push_circle(&mut text, g, fault)?;
    text.push_bytes(b"\n")?;
    Ok(text)
}

/// What is told of waiting: `wait free`, or `wait circle ring at 1.in1`. Want of memory is the only error.
pub fn wait_text(alloc: Global, accepted: &Accepted) -> Result<Text, AllocError>
    ensures { IfOk result (λ text. TellsWaiting (words_of accepted.now.grammar) (grammar_of accepted.now.grammar) text) }
{
    match accept_waits(alloc, accepted) {
        Ok(free) => {
            drop(free);
            Text::from_bytes(alloc, b"wait free\n")
        }
        Err(WaitFault::Circle { rule, occ }) => {
            circle_line(alloc, accepted.grammar(), Fault { rule, occ })
        }
        Err(WaitFault::NoMemory) => Err(AllocError),
    }
}
