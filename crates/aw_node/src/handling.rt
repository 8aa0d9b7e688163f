//! One frame asked of a workspace.
ghost use Rattle.std.specs.Prelude.{◌≡◌, ℕ, true, slice_get, IfOk, OnErr};
ghost use Rattle.aw_base.specs.ChoiceFits.{choice_ok};
ghost use Rattle.aw_base.specs.NodeNames.{is_start};
ghost use Rattle.aw_term.specs.Names.{root};
ghost use Rattle.aw_grammar.specs.GrammarOf.{grammar_of};
ghost use Rattle.aw_msg.specs.Frames as plain;
ghost use Rattle.aw_msg.specs.Frames.{FrameInRange};
ghost use Rattle.aw_msg.specs.FrameView.{frame_of};
ghost use Rattle.aw_msg.specs.ReplyRanges.{ReplyInRange};
ghost use Rattle.aw_msg.specs.ResponseView.{response_of};
ghost use Rattle.aw_choice.specs.ChoiceView.{choice_of};
ghost use Rattle.aw_node.specs.TypedNodes.{rules_of, HandlesAs};
ghost use Rattle.aw_law_sites.specs.Homes.{home};
ghost use Rattle.aw_law_sites.specs.Sites.{Site};
ghost use Rattle.aw_law_sites.specs.Worlds.{node_of};
ghost use Rattle.aw_typed.specs.Typing.{IsMadeFor};

use crate::workspace::NodeWorkspace;
use aw_accept::Accepted;
use aw_base::{choice_ok, home_of_valid};
use aw_choice::Choice;
use aw_grammar::Grammar;
use aw_msg::{Answered, Frame};
use aw_typed::{Typed, arg_ok};
use std::alloc::AllocError;

/// The role of a start sort.
fn role_of_start(g: &Grammar, sort: u16) -> u16
    requires { is_start (slice_get (grammar_of g.now).sorts sort) ≡ true }
    ensures { (case : ℕ) → home (grammar_of g.now) (root sort case) ≡ result }
{
    match g.sort(sort) {
        Some(declared) => declared.role,
        None => 0,
    }
}

/// The role at which a choice that fits the grammar is made.
fn role_of_choice(g: &Grammar, c: &Choice) -> u16
    requires { choice_ok (grammar_of g.now) (choice_of c.now) ≡ true }
    ensures { home (grammar_of g.now) (node_of (choice_of c.now)) ≡ result }
{
    match c {
        Choice::Start { sort, .. } => role_of_start(g, *sort),
        Choice::Develop { node, .. } => home_of_valid(g, node),
    }
}

/// Asks a choice: one that does not fit is not valid, and one of another role is refused.
fn choose<P: NodeWorkspace>(
    g: &Accepted,
    t: &Typed,
    site: &mut P,
    c: &Choice,
) -> Result<Answered, AllocError>
    requires grammar { g.now.grammar ≡ P.grammar site.old }
    requires types { IsMadeFor (grammar_of g.now.grammar) t.now }
    ensures grammar { P.grammar site.new ≡ P.grammar site.old }
    ensures range { IfOk result ReplyInRange }
    ensures answer { IfOk result (λ a. HandlesAs (rules_of g.now.grammar t.now) (plain.Choose (choice_of c.now)) (P.shows site.old) (P.shows site.new) (response_of (grammar_of g.now.grammar) a)) }
    ensures err { (s : Site) → P.shows site.old s → OnErr result (P.shows site.new s) }
{
    if !choice_ok(g.grammar(), c) || !arg_ok(t, c) {
        return Ok(Answered::BadName);
    }
    if role_of_choice(g.grammar(), c) != site.role() {
        return Ok(Answered::NotMine);
    }
    Ok(Answered::Answer(site.choose(g, c)?))
}

/// Asks one frame of a workspace, which was made with this grammar. A choice that does not fit the grammar or its types changes nothing, and
/// no refusal does.
///
/// # Errors
/// Where memory runs out; the workspace is then as before.
pub fn handle<P: NodeWorkspace>(
    g: &Accepted,
    t: &Typed,
    site: &mut P,
    f: &Frame,
) -> Result<Answered, AllocError>
    requires grammar { g.now.grammar ≡ P.grammar site.old }
    requires types { IsMadeFor (grammar_of g.now.grammar) t.now }
    requires range { FrameInRange (frame_of f.now) }
    ensures grammar { P.grammar site.new ≡ P.grammar site.old }
    ensures range { IfOk result ReplyInRange }
    ensures answer { IfOk result (λ a. HandlesAs (rules_of g.now.grammar t.now) (frame_of f.now) (P.shows site.old) (P.shows site.new) (response_of (grammar_of g.now.grammar) a)) }
    ensures err { (s : Site) → P.shows site.old s → OnErr result (P.shows site.new s) }
{
    match f {
        Frame::Push(m) => site.receive(g, m),
        Frame::Choose(c) => choose(g, t, site, c),
        Frame::Pull(place) => site.pull(g, *place),
        Frame::List(place) => site.list(g, *place),
    }
}
