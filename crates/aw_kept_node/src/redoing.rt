//! Doing the events of a journal again.
ghost use Rattle.std.specs.Prelude.{◌≡◌, IfOk, IfErr, OnOk, OnErr};
ghost use Rattle.aw_kept_node.specs.KeptEvents as kept;
ghost use Rattle.aw_kept_node.specs.Redone.{HandlesEvent, Redoes, RedoesAll, StopsAt, StopsRedoing};
ghost use Rattle.aw_grammar.specs.GrammarOf.{grammar_of};
ghost use Rattle.aw_journal.specs.Events.{AllEvents, EventInRange};
ghost use Rattle.aw_journal.specs.EventView.{event_of, events_seen};
ghost use Rattle.aw_msg.specs.Frames.{FrameInRange};
ghost use Rattle.aw_msg.specs.FrameView.{frame_of};
ghost use Rattle.aw_msg.specs.ResponseView.{response_of};
ghost use Rattle.aw_node.specs.TypedNodes.{rules_of};
ghost use Rattle.aw_law_sites.specs.Sites.{Site};
ghost use Rattle.aw_typed.specs.Typing.{IsMadeFor};

use crate::fault::KeptFault;
use aw_accept::Accepted;
use aw_choice::copy_choice;
use aw_journal::NodeEvent;
use aw_kept_append::is_news;
use aw_msg::{Answered, Frame, copy_message};
use aw_node::{NodeWorkspace, handle};
use aw_typed::Typed;
use std::alloc::AllocError;

/// The frame that asks for an event.
fn frame_for(event: &NodeEvent) -> Result<Frame, AllocError>
    requires { EventInRange (event_of event.now) }
    ensures frame { IfOk result (λ f. frame_of f ≡ kept.frame_for (event_of event.now)) }
    ensures range { IfOk result (λ f. FrameInRange (frame_of f)) }
{
    match event {
        NodeEvent::Took(choice) => Ok(Frame::Choose(copy_choice(choice)?)),
        NodeEvent::Got(message) => Ok(Frame::Push(copy_message(message)?)),
    }
}

/// Asks for an event again. An error changes nothing.
fn ask<P: NodeWorkspace>(
    g: &Accepted,
    t: &Typed,
    site: &mut P,
    event: &NodeEvent,
) -> Result<Answered, AllocError>
    requires grammar { g.now.grammar ≡ P.grammar site.old }
    requires types { IsMadeFor (grammar_of g.now.grammar) t.now }
    requires range { EventInRange (event_of event.now) }
    ensures grammar { P.grammar site.new ≡ P.grammar site.old }
    ensures answer { IfOk result (λ a. HandlesEvent (rules_of g.now.grammar t.now) (event_of event.now) (P.shows site.old) (P.shows site.new) (response_of (grammar_of g.now.grammar) a)) }
    ensures err { (s : Site) → P.shows site.old s → OnErr result (P.shows site.new s) }
{
    let frame = frame_for(event)?;
    handle(g, t, site, &frame)
}

/// Does an event again, and tells whether it was one: its choice was taken, or its message was new. What was none changes nothing, and
/// an error does not.
///
/// # Errors
/// Where memory runs out.
pub fn redo<P: NodeWorkspace>(
    g: &Accepted,
    t: &Typed,
    site: &mut P,
    event: &NodeEvent,
) -> Result<bool, AllocError>
    requires grammar { g.now.grammar ≡ P.grammar site.old }
    requires types { IsMadeFor (grammar_of g.now.grammar) t.now }
    requires range { EventInRange (event_of event.now) }
    ensures grammar { P.grammar site.new ≡ P.grammar site.old }
    ensures news { (s : Site) → P.shows site.old s → IfOk result (λ news. news ≡ kept.is_kept (rules_of g.now.grammar t.now) s (event_of event.now)) }
    ensures site { (s : Site) → P.shows site.old s → OnOk result (P.shows site.new (kept.after_event (rules_of g.now.grammar t.now) s (event_of event.now))) }
    ensures err { (s : Site) → P.shows site.old s → OnErr result (P.shows site.new s) }
{
    let answered = ask(g, t, site, event)?;
    let news = is_news(&answered);
    drop(answered);
    Ok(news)
}

/// Does the next event again.
fn redo_next<P: NodeWorkspace>(
    g: &Accepted,
    t: &Typed,
    site: &mut P,
    number: u64,
    event: &NodeEvent,
) -> Result<(), KeptFault>
    requires grammar { g.now.grammar ≡ P.grammar site.old }
    requires types { IsMadeFor (grammar_of g.now.grammar) t.now }
    requires range { EventInRange (event_of event.now) }
    ensures grammar { P.grammar site.new ≡ P.grammar site.old }
    ensures ok { (s : Site) → P.shows site.old s → OnOk result (Redoes (rules_of g.now.grammar t.now) s (event_of event.now) (P.shows site.new)) }
    ensures err { (s : Site) → P.shows site.old s → IfErr result (StopsAt (rules_of g.now.grammar t.now) s number (event_of event.now)) }
{
    if !redo(g, t, site, event)? {
        return Err(KeptFault::BadEvent { number });
    }
    Ok(())
}

/// Does all events again, in order.
///
/// # Errors
/// `BadEvent` at the first that is none; `NoMemory`.
pub(crate) fn redo_all<P: NodeWorkspace>(
    g: &Accepted,
    t: &Typed,
    site: &mut P,
    events: &[NodeEvent],
) -> Result<(), KeptFault>
    requires grammar { g.now.grammar ≡ P.grammar site.old }
    requires types { IsMadeFor (grammar_of g.now.grammar) t.now }
    requires range { AllEvents (events_seen events.now) }
    ensures grammar { P.grammar site.new ≡ P.grammar site.old }
    ensures ok { (s : Site) → P.shows site.old s → OnOk result (RedoesAll (rules_of g.now.grammar t.now) s (events_seen events.now) (P.shows site.new)) }
    ensures err { (s : Site) → P.shows site.old s → IfErr result (StopsRedoing (rules_of g.now.grammar t.now) s (events_seen events.now)) }
{
    for (number, event) in events.iter().enumerate() {
        redo_next(g, t, site, number as u64, event)?;
    }
    Ok(())
}
