//! The lines that say why an input is refused.
ghost use Rattle.std.specs.Prelude.{◌≡◌, ◌++◌, [], codes, OnOk, IfOk};
ghost use Rattle.aw_spec.specs.KindNames.{kind_name};
ghost use Rattle.aw_grammar.specs.GrammarOf.{words_of};
ghost use Rattle.aw_term.specs.Rules.{get};
ghost use Rattle.aw_check_text.specs.Told.{circle_text};
ghost use Rattle.aw_front.specs.Output.{BadSpecification, BadTypes, IsCircular, BadSchedule, NoReplyOf};
ghost use Rattle.aw_sched.specs.KindNames.{kind_name as schedule_kind};
ghost use Rattle.aw_front.specs.Refusals.{at_line};
ghost use Rattle.aw_front.specs.Replies.{reply_with, RefusesGrammar, RefusesTypes};

use crate::reply::{Reply, Status};
use aw_accept::{Fault, Refused};
use aw_base::{Grammar, con_name, role_name, sort_name};
use aw_check_text::push_circle;
use aw_list::Text;
use aw_sched::SchedKind;
use aw_spec::SpecKind;
use aw_spelling::push_number;
use aw_typed::TypeFault;
use std::alloc::{AllocError, Global};

/// Adds `line 3 form`.
fn push_place(text: &mut Text, line: u64, kind: &[u8]) -> Result<(), AllocError>
    ensures { OnOk result (text.new ≡ text.old ++ at_line line kind.now) }
{
    text.push_bytes(b"line ")?;
    push_number(text, line)?;
    text.push_bytes(b" ")?;
    text.push_bytes(kind)
}

/// The refusal of a specification with a faulty line, counted from 1.
pub fn bad_specification(alloc: Global, line: u64, kind: SpecKind) -> Result<Reply, AllocError>
    ensures { IfOk result (λ reply. reply ≡ reply_with (BadSpecification (at_line line (kind_name kind)))) }
{
    let mut text = Text::from_bytes(alloc, b"bad specification ")?;
    push_place(&mut text, line, kind.name())?;
    text.push_bytes(b"\n")?;
    Ok(Reply {
        status: Status::BadSpec,
        text,
    })
}

/// The refusal of types, with what is named after a word.
fn types_line(alloc: Global, word: &[u8], name: &[u8]) -> Result<Reply, AllocError>
    ensures { IfOk result (λ reply. reply ≡ reply_with (BadTypes (word.now ++ name.now))) }
{
    let mut text = Text::from_bytes(alloc, b"bad types ")?;
    text.push_bytes(word)?;
    text.push_bytes(name)?;
    text.push_bytes(b"\n")?;
    Ok(Reply {
        status: Status::BadTypes,
        text,
    })
}

/// The refusal of types where a term of a rule does not fit.
fn types_rule(alloc: Global, g: &Grammar, fault: Fault) -> Result<Reply, AllocError>
    ensures { IfOk result (λ reply. reply ≡ reply_with (BadTypes (codes "rule " ++ circle_text (words_of g.now) fault))) }
{
    let mut text = Text::from_bytes(alloc, b"bad types rule ")?;
    push_circle(&mut text, g, fault)?;
    text.push_bytes(b"\n")?;
    Ok(Reply {
        status: Status::BadTypes,
        text,
    })
}

/// The refusal of types with a fault.
pub fn bad_types(alloc: Global, g: &Grammar, fault: TypeFault) -> Result<Reply, AllocError>
    ensures { IfOk result (λ reply. RefusesTypes (words_of g.now) fault reply) }
{
    match fault {
        TypeFault::NoShape { con } => types_line(alloc, b"con ", con_name(g, con)),
        TypeFault::NoCarry { sort } => types_line(alloc, b"sort ", sort_name(g, sort)),
        TypeFault::Rule { rule, place } => types_rule(alloc, g, Fault { rule, occ: place }),
        TypeFault::NoMemory => Err(AllocError),
    }
}

/// The refusal of a specification in which a value depends on itself.
fn circular(alloc: Global, g: &Grammar, fault: Fault) -> Result<Reply, AllocError>
    ensures { IfOk result (λ reply. reply ≡ reply_with (IsCircular (circle_text (words_of g.now) fault))) }
{
    let mut text = Text::from_bytes(alloc, b"circular ")?;
    push_circle(&mut text, g, fault)?;
    text.push_bytes(b"\n")?;
    Ok(Reply {
        status: Status::Circular,
        text,
    })
}

/// The refusal of a grammar that was not accepted.
pub fn not_accepted(alloc: Global, refused: Refused) -> Result<Reply, AllocError>
    ensures { IfOk result (λ reply. RefusesGrammar refused reply) }
{
    match refused {
        Refused::Circular { grammar, rule, occ } => circular(alloc, &grammar, Fault { rule, occ }),
        Refused::NoMemory => Err(AllocError),
    }
}

/// The refusal of a schedule with a faulty line, counted in the whole input.
pub fn bad_schedule(alloc: Global, line: u64, kind: SchedKind) -> Result<Reply, AllocError>
    ensures { IfOk result (λ reply. reply ≡ reply_with (BadSchedule (at_line line (schedule_kind kind)))) }
{
    let mut text = Text::from_bytes(alloc, b"bad schedule ")?;
    push_place(&mut text, line, kind.name())?;
    text.push_bytes(b"\n")?;
    Ok(Reply {
        status: Status::BadSchedule,
        text,
    })
}

/// The line of a courier that names the role whose reply is none.
pub fn bad_reply(alloc: Global, g: &Grammar, role: u16) -> Result<Reply, AllocError>
    ensures { IfOk result (λ reply. reply ≡ reply_with (NoReplyOf (get [] (words_of g.now).roles role))) }
{
    let mut text = Text::from_bytes(alloc, b"bad reply ")?;
    text.push_bytes(role_name(g, role))?;
    text.push_bytes(b"\n")?;
    Ok(Reply {
        status: Status::BadReply,
        text,
    })
}
