//! A choice in a world.
ghost use Rattle.std.specs.Prelude.{◌≡◌, ◌++◌, ◌∷◌, ◌<◌, ◌≤◌, if◌then◌else◌, [], true, IfOk, OnErr, length, map as list_map, vec_len, vec_capacity};
ghost use Rattle.aw_grammar.specs.GrammarOf.{grammar_of};
ghost use Rattle.aw_base.specs.ChoiceFits.{choice_ok};
ghost use Rattle.aw_choice.specs.ChoiceView.{choice_of, answer_of};
ghost use Rattle.aw_law_sites.specs.Homes.{home};
ghost use Rattle.aw_law_sites.specs.Worlds as V;
ghost use Rattle.aw_term.specs.Choices.{is_taken};
ghost use Rattle.aw_world.specs.Marked.{StaysSeenForAllDelivered};
ghost use Rattle.aw_world.specs.Seen.{ArePlaced, Answers, AnswersAt, Chooses};

use crate::workspace::Workspace;
use aw_accept::Accepted;
use aw_base::{home_of, home_of_valid};
use aw_choice::{Answer, Choice};
use aw_grammar::Grammar;
use aw_list::Counted;
use aw_msg::Messages;
use aw_name::{Node, Trail};
use std::alloc::{AllocError, Global};

/// The role of a node, and 0 where its name is not valid.
fn role_at(g: &Grammar, node: &Node) -> u16
    ensures { result ≡ home (grammar_of g.now) node.now }
{
    match home_of(g, node) {
        Some(role) => role,
        None => 0,
    }
}

/// The role at which a choice that fits the grammar is made. The name of a node that is developed is valid, so its last step tells.
fn role_of(alloc: Global, g: &Grammar, choice: &Choice) -> u16
    requires { choice_ok (grammar_of g.now) (choice_of choice.now) ≡ true }
    ensures { result ≡ home (grammar_of g.now) (V.node_of (choice_of choice.now)) }
{
    match choice {
        Choice::Start { sort, case } => role_at(
            g,
            &Node {
                start: *sort,
                case: *case,
                steps: Trail::new(alloc),
            },
        ),
        Choice::Develop { node, .. } => home_of_valid(g, node),
    }
}

/// Makes a choice at a workspace.
fn choose_here<W: Workspace>(
    site: &mut W,
    choice: &Choice,
    messages: &mut Messages,
) -> Result<Answer, AllocError>
    requires ok { choice_ok (W.its_grammar site.old) (choice_of choice.now) ≡ true }
    requires here { home (W.its_grammar site.old) (V.node_of (choice_of choice.now)) ≡ W.its_role site.old }
    ensures grammar { W.its_grammar site.new ≡ W.its_grammar site.old }
    ensures role { W.its_role site.new ≡ W.its_role site.old }
    ensures grows { length messages.old ≤ length messages.new }
    ensures chose { IfOk result (λ a. Answers ⟦<W as Workspace>⟧ (W.its_grammar site.old) site.old site.new messages.old messages.new choice.now a) }
    ensures err { OnErr result (W.seen site.new ≡ W.seen site.old) }
    ensures err_messages { OnErr result (messages.new ≡ messages.old) }
{
    let (answer, _) = site.choose_into(choice, messages)?;
    Ok(answer)
}

/// Makes a choice at the workspace of a role.
fn choose_at<W: Workspace>(
    _accepted: &Accepted,
    sites: &mut Vec<W>,
    at: usize,
    choice: &Choice,
    messages: &mut Messages,
) -> Result<Answer, AllocError>
    requires placed { ArePlaced ⟦<W as Workspace>⟧ _accepted.now.grammar sites.old.items }
    requires at { at < length sites.old.items }
    requires ok { choice_ok (grammar_of _accepted.now.grammar) (choice_of choice.now) ≡ true }
    requires here { home (grammar_of _accepted.now.grammar) (V.node_of (choice_of choice.now)) ≡ at }
    ensures placed { ArePlaced ⟦<W as Workspace>⟧ _accepted.now.grammar sites.new.items }
    ensures grows { length messages.old ≤ length messages.new }
    ensures chose { IfOk result (λ a. AnswersAt ⟦<W as Workspace>⟧ _accepted.now.grammar sites.old.items sites.new.items at messages.old messages.new choice.now a) }
    ensures err { OnErr result (list_map (λ w. W.seen w) sites.new.items ≡ list_map (λ w. W.seen w) sites.old.items) }
    ensures err_messages { OnErr result (messages.new ≡ messages.old) }
{
    let site = &mut sites[at];
    choose_here(site, choice, messages)
}

/// Whether a choice was taken.
fn is_taken(answer: &Answer) -> bool
    ensures { result ≡ is_taken (answer_of answer.now) }
{
    matches!(answer, Answer::Taken)
}

/// Adds a choice where it was taken; there is room for it.
fn note(taken: &mut Vec<Counted<Choice>>, choice: Counted<Choice>, is_taken: bool)
    requires { vec_len taken.old < vec_capacity taken.old }
    ensures { taken.new.items ≡ (if is_taken then taken.old.items ++ choice ∷ [] else taken.old.items) }
{
    if is_taken {
        match taken.push(choice) {
            Ok(()) => {}
            Err(_) => unreachable!(),
        }
    }
}

/// Makes a choice at its home. An error changes nothing.
pub fn choose<W: Workspace>(
    accepted: &Accepted,
    sites: &mut Vec<W>,
    messages: &mut Messages,
    taken: &mut Vec<Counted<Choice>>,
    choice: Counted<Choice>,
) -> Result<Answer, AllocError>
    requires placed { ArePlaced ⟦<W as Workspace>⟧ accepted.now.grammar sites.old.items }
    requires ok { choice_ok (grammar_of accepted.now.grammar) (choice_of choice) ≡ true }
    ensures placed { ArePlaced ⟦<W as Workspace>⟧ accepted.now.grammar sites.new.items }
    ensures grows { length messages.old ≤ length messages.new }
    ensures steps { IfOk result (λ a. Chooses ⟦<W as Workspace>⟧ accepted.now.grammar sites.old.items messages.old taken.old.items sites.new.items messages.new taken.new.items choice a) }
    ensures err { OnErr result (StaysSeenForAllDelivered ⟦<W as Workspace>⟧ accepted.now.grammar sites.old.items messages.old taken.old.items sites.new.items messages.new taken.new.items) }
{
    taken.reserve(1)?;
    let made = choice.get();
    let at = role_of(*sites.allocator(), accepted.grammar(), made);
    let answer = choose_at(accepted, sites, usize::from(at), made, messages)?;
    let is_taken = is_taken(&answer);
    note(taken, choice, is_taken);
    Ok(answer)
}
