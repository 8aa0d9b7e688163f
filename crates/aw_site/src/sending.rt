//! What a site sends is made, and copied, before anything of the site changes, and memory is taken for it; then it is noted, and nothing can
//! be refused.
ghost use Rattle.std.specs.Prelude.{◌≡◌, ℕ, ◌+◌, ◌++◌, ◌∷◌, [], ◌≤◌, ◌<◌, Bool, true, All, OnOk, OnErr, length, take, vec_len, vec_capacity};
ghost use Rattle.aw_term.specs.Names.{Ref as RefName};
ghost use Rattle.aw_law_sites.specs.Asking.{asked_too};
ghost use Rattle.aw_subs.specs.Entries.{is_ready};
ghost use Rattle.aw_site_repeat.specs.Holders.{ShowsAsked, ShowsWatchers};
ghost use Rattle.aw_site.specs.Sendable.{all_short};

use crate::plan::Plan;
use crate::short::messages_are_short;
use aw_msg::{Message, copy_message};
use aw_name::Ref;
use aw_subs::Subs;
use std::alloc::AllocError;

/// Adds a message, for which there is room.
fn push_sent(outbox: &mut Vec<Message>, message: Message)
    requires { vec_len outbox.old < vec_capacity outbox.old }
    ensures items { outbox.new.items ≡ outbox.old.items ++ message ∷ [] }
    ensures len { vec_len outbox.new ≡ vec_len outbox.old + 1 }
    ensures room { vec_capacity outbox.old ≤ vec_capacity outbox.new }
{
    match outbox.push(message) {
        Ok(()) => {}
        Err(_) => unreachable!(),
    }
}

/// Adds messages, for which there is room.
fn push_all_sent(outbox: &mut Vec<Message>, sent: Vec<Message>)
    requires { vec_len outbox.old + vec_len sent ≤ vec_capacity outbox.old }
    ensures { outbox.new.items ≡ outbox.old.items ++ sent.items }
{
    for message in sent {
        push_sent(outbox, message);
    }
}

/// Notes that a reference was asked for, which is ready.
fn ask_ready(subs: &mut Subs, r: &Ref)
    requires { is_ready subs.old.subs r.now ≡ true }
    ensures asked { (asked : RefName → Bool) → ShowsAsked subs.old asked → ShowsAsked subs.new (asked_too asked (r.now ∷ [])) }
    ensures watchers { (ws : RefName → ℕ → Bool) → ShowsWatchers subs.old ws → ShowsWatchers subs.new ws }
    ensures ready { (x : RefName) → is_ready subs.old.subs x ≡ true → is_ready subs.new.subs x ≡ true }
{
    match subs.ask(r) {
        Ok(_) => {}
        Err(_) => unreachable!(),
    }
}

/// Notes that references were asked for, which are ready.
fn ask_all(subs: &mut Subs, wanted: &[Ref])
    requires { All (λ x. is_ready subs.old.subs x ≡ true) wanted.now }
    ensures asked { (asked : RefName → Bool) → ShowsAsked subs.old asked → ShowsAsked subs.new (asked_too asked wanted.now) }
    ensures watchers { (ws : RefName → ℕ → Bool) → ShowsWatchers subs.old ws → ShowsWatchers subs.new ws }
{
    for r in wanted {
        ask_ready(subs, r);
    }
}

/// Adds copies of messages. An error may leave some of them at the end.
fn push_copies(copy: &mut Vec<Message>, messages: &[Message]) -> Result<(), AllocError>
    ensures ok { OnOk result (copy.new.items ≡ copy.old.items ++ messages.now) }
    ensures kept { take (length copy.old.items) copy.new.items ≡ copy.old.items }
{
    copy.reserve(messages.len())?;
    for m in messages {
        copy.push(copy_message(m)?)?;
    }
    Ok(())
}

/// Adds copies of messages. An error changes nothing.
fn add_copies(copy: &mut Vec<Message>, messages: &[Message]) -> Result<(), AllocError>
    ensures ok { OnOk result (copy.new.items ≡ copy.old.items ++ messages.now) }
    ensures err { OnErr result (copy.new.items ≡ copy.old.items) }
{
    let before = copy.len();
    match push_copies(copy, messages) {
        Ok(()) => Ok(()),
        Err(refused) => {
            copy.truncate(before);
            Err(refused)
        }
    }
}

/// Takes the memory for a plan, and adds copies of its messages to the copy. Nothing changes of what was asked for, who watches, or what
/// was sent; and an error leaves the copy as it was, too.
pub fn make_room(
    plan: &Plan,
    subs: &mut Subs,
    outbox: &mut Vec<Message>,
    copy: &mut Vec<Message>,
) -> Result<(), AllocError>
    ensures outbox { outbox.new.items ≡ outbox.old.items }
    ensures copy { OnOk result (copy.new.items ≡ copy.old.items ++ plan.now.sent.items) }
    ensures err_copy { OnErr result (copy.new.items ≡ copy.old.items) }
    ensures asked { (asked : RefName → Bool) → ShowsAsked subs.old asked → ShowsAsked subs.new asked }
    ensures watchers { (ws : RefName → ℕ → Bool) → ShowsWatchers subs.old ws → ShowsWatchers subs.new ws }
    ensures room { OnOk result (vec_len outbox.new + vec_len plan.now.sent ≤ vec_capacity outbox.new) }
    ensures ready { OnOk result (All (λ x. is_ready subs.new.subs x ≡ true) plan.now.wanted.items) }
    ensures short { OnOk result (all_short plan.now.sent.items ≡ true) }
{
    messages_are_short(plan.sent.as_slice());
    outbox.reserve(plan.sent.len())?;
    subs.reserve(plan.wanted.as_slice())?;
    add_copies(copy, plan.sent.as_slice())
}

/// Notes what a plan sends and asks for. The memory for it was taken.
pub fn carry_out(plan: Plan, subs: &mut Subs, outbox: &mut Vec<Message>)
    requires room { vec_len outbox.old + vec_len plan.sent ≤ vec_capacity outbox.old }
    requires ready { All (λ x. is_ready subs.old.subs x ≡ true) plan.wanted.items }
    ensures outbox { outbox.new.items ≡ outbox.old.items ++ plan.sent.items }
    ensures asked { (asked : RefName → Bool) → ShowsAsked subs.old asked → ShowsAsked subs.new (asked_too asked plan.wanted.items) }
    ensures watchers { (ws : RefName → ℕ → Bool) → ShowsWatchers subs.old ws → ShowsWatchers subs.new ws }
{
    let Plan { sent, wanted } = plan;
    push_all_sent(outbox, sent);
    ask_all(subs, wanted.as_slice());
}
