//! Looking for a circle of waiting in every rule.
ghost use Rattle.std.specs.Prelude.{◌↔◌, ℕ, IfOk, IfErr};
ghost use Rattle.aw_grammar.specs.GrammarOf.{grammar_of};
ghost use Rattle.aw_iograph.specs.Pairs.{Has, IsFor};
ghost use Rattle.aw_wait.specs.Waiting.{WaitingRelation, IsFreeOfWaiting, NoneWaitsForItself, SomeWaitsForNone};
ghost use Rattle.aw_wait.specs.Refusals.{TellsWait};

use crate::refused::{WaitFault, WaitFree};
use crate::seed::held_up;
use aw_accept::{Accepted, Fault, least_fault};
use aw_grammar::Grammar;
use aw_iograph::{Io, io_from};
use std::alloc::{AllocError, Global};

/// The waiting relations of a grammar's sorts: the least that hold what is held up and are closed under its rules.
fn waiting_of(alloc: Global, g: &Grammar) -> Result<Io, AllocError>
    ensures made { IfOk result (λ io. IsFor g.now io) }
    ensures exact { IfOk result (λ io. (s i j : ℕ) → Has io s i j ↔ WaitingRelation (grammar_of g.now) s i j) }
{
    let seed = held_up(alloc, g)?;
    io_from(alloc, g, &seed)
}

/// The waiting relations of a grammar's sorts, where there is no circle over them.
fn free_of_waiting(alloc: Global, g: &Grammar) -> Result<WaitFree, WaitFault>
    ensures made { IfOk result (λ w. IsFor g.now w.waiting) }
    ensures relation { IfOk result (λ w. (s i j : ℕ) → Has w.waiting s i j ↔ WaitingRelation (grammar_of g.now) s i j) }
    ensures free { IfOk result (λ w. IsFreeOfWaiting (grammar_of g.now)) }
    ensures circle { IfErr result (λ e. TellsWait (grammar_of g.now) e) }
{
    let waiting = waiting_of(alloc, g)?;
    match least_fault(alloc, g, &waiting)? {
        Some(Fault { rule, occ }) => Err(WaitFault::Circle { rule, occ }),
        None => Ok(WaitFree { waiting }),
    }
}

/// The waiting relations of the sorts of an accepted grammar, where no occurrence of a rule reaches itself over the text of
/// the rule and the waiting relations of the sorts of its children. Then no node ever waits for itself, and where nodes are
/// pending one of them waits for none.
///
/// Fails with `Circle` exactly where an occurrence does: the least rule, and its least such occurrence. Want of memory is the
/// only other error.
pub fn accept_waits(alloc: Global, g: &Accepted) -> Result<WaitFree, WaitFault>
    ensures made { IfOk result (λ w. IsFor g.now.grammar w.waiting) }
    ensures relation { IfOk result (λ w. (s i j : ℕ) → Has w.waiting s i j ↔ WaitingRelation (grammar_of g.now.grammar) s i j) }
    ensures free { IfOk result (λ w. IsFreeOfWaiting (grammar_of g.now.grammar)) }
    ensures none_waits { IfOk result (λ w. NoneWaitsForItself (grammar_of g.now.grammar)) }
    ensures some_free { IfOk result (λ w. SomeWaitsForNone (grammar_of g.now.grammar)) }
    ensures circle { IfErr result (λ e. TellsWait (grammar_of g.now.grammar) e) }
{
    free_of_waiting(alloc, g.grammar())
}
