//! A turn at one role: what waits for it is pushed, and then its messages are pulled.
ghost use Rattle.std.specs.Prelude.{◌≡◌, ◌<◌, ◌^◌, [], ◌∷◌, length, true, IfOk, IfErr, IfSome, OnOk};
ghost use Rattle.aw_courier.specs.Asking.{IsBrokenOff as IsAskBroken};
ghost use Rattle.aw_courier.specs.Frames.{spelled_frame};
ghost use Rattle.aw_courier.specs.Mails.{Shows, Holds, SameSize};
ghost use Rattle.aw_courier.specs.Pulls.{IsPulled};
ghost use Rattle.aw_courier.specs.Turns.{IsUnderway, IsTurn, IsStopped, BreaksOff, pulling, ending};
ghost use Rattle.aw_law_nodes.specs.Couriers.{Courier, behind, turn_messages};
ghost use Rattle.aw_law_nodes.specs.Nodes.{Pull};
ghost use Rattle.aw_session.specs.Talking.{Talks};
ghost use Rattle.aw_term.specs.Rules.{Grammar as PlainGrammar};

use crate::asking::ask;
use crate::broken::Broken;
use crate::mails::Mails;
use crate::queue::NextUp;
use crate::replies::{Brought, Request, what_came};
use aw_list::Text;
use aw_msg::frame_reading::{PULL_KIND, PUSH_KIND};
use aw_out::{Dialed, Wire};
use aw_session::SESSION_LIMIT;
use std::alloc::Global;

/// The bytes of a pull.
const PULL: usize = 13;

/// The most messages that are pulled in one turn.
const MOST_OF_MESSAGES: u32 = 1_000_000;

/// Whether something was pushed, and how many bytes may still be written in the turn.
#[derive(Clone, Copy)]
struct Pushes {
    moved: bool,
    room: usize,
}

/// A message that was pulled: whom it is for, and how it is pushed.
#[derive(Drop)]
pub struct Letter {
    pub to: u16,
    pub frame: Text,
}

/// The bytes of a pull of this place.
fn pull_frame(place: u64) -> [u8; PULL]
    ensures { result ≡ spelled_frame (Pull place) }
{
    let p = place.to_be_bytes();
    [
        PULL_KIND, 0, 0, 0, 8, p[0], p[1], p[2], p[3], p[4], p[5], p[6], p[7],
    ]
}

/// How the message of a reply is pushed: only the kind is another one.
fn as_push(reply: Text) -> Text
    requires { 0 < length reply }
    ensures { result ≡ 1 ∷ behind reply }
{
    let mut push = reply;
    push.set(0, PUSH_KIND);
    push
}

/// Pulls the message at a place, if there is one.
fn pull<W: Wire>(
    alloc: Global,
    wire: &mut W,
    place: u64,
    roles: usize,
) -> Result<Option<Letter>, Broken>
    requires { W.is_open wire.old ≡ true }
    ensures fits { place < 2 ^ 64 }
    ensures within { IfOk result (λ letter. IfSome letter (λ l. l.to < roles)) }
    ensures stays { OnOk result (W.is_open wire.new ≡ true) }
    ensures ok { (g : PlainGrammar) → g.roles ≡ roles → IfOk result (IsPulled g place (Talks W.content W.is_open W.faults W.failed_openings wire.old wire.new)) }
    ensures err { (g : PlainGrammar) → g.roles ≡ roles →
        IfErr result (IsAskBroken g Request.Pull (spelled_frame (Pull place)) (Talks W.content W.is_open W.faults W.failed_openings wire.old wire.new) (W.content wire.new)) }
{
    let bytes = ask(alloc, wire, Request::Pull, &pull_frame(place))?;
    match what_came(alloc, bytes.as_slice(), roles)? {
        Brought::Message(to) => Ok(Some(Letter {
            to,
            frame: as_push(bytes),
        })),
        Brought::Nothing => Ok(None),
        Brought::Unknown => Err(Broken::Reply),
    }
}

/// Pushes what waits for the role, in order, as long as there is room; the pulls of the turn may write what is left of it.
fn push_all<W: Wire>(
    alloc: Global,
    mails: &mut Mails,
    role: usize,
    wire: &mut W,
) -> Result<Pushes, Broken>
    requires role { Holds role mails.old }
    requires open { W.is_open wire.old ≡ true }
    ensures stays { OnOk result (W.is_open wire.new ≡ true) }
    ensures size { OnOk result (SameSize mails.old mails.new) }
    ensures ok { (g : PlainGrammar) (c : Courier) → Shows g mails.old c →
        IfOk result (λ p. IsUnderway g (Talks W.content W.is_open W.faults W.failed_openings) c role wire.old wire.new mails.new (pulling role p.room turn_messages) p.moved) }
    ensures err { (g : PlainGrammar) (c : Courier) → Shows g mails.old c →
        IfErr result (BreaksOff g c role (Talks W.content W.is_open W.faults W.failed_openings wire.old wire.new) (W.content wire.new)) }
{
    let mut pushes = Pushes {
        moved: false,
        room: SESSION_LIMIT,
    };
    'pushing: loop {
        match mails.next_for(role, pushes.room) {
            NextUp::Frame(frame) => {
                ask(alloc, wire, Request::Push, frame.as_slice())?;
                pushes.room -= frame.len();
                pushes.moved = true;
                drop(frame);
            }
            NextUp::TooLong => {
                pushes.room = 0;
                return Ok(pushes);
            }
            NextUp::Nothing => return Ok(pushes),
        }
    }
}

/// Pulls from the first place on that was not yet pulled, as long as there are messages and room; tells whether one came.
fn pull_all<W: Wire>(
    alloc: Global,
    mails: &mut Mails,
    role: usize,
    wire: &mut W,
    pushes: Pushes,
) -> Result<bool, Broken>
    requires role { Holds role mails.old }
    requires open { W.is_open wire.old ≡ true }
    ensures size { OnOk result (SameSize mails.old mails.new) }
    ensures ok { (g : PlainGrammar) (c : Courier) (u : _) →
        IsUnderway g (Talks W.content W.is_open W.faults W.failed_openings) c role u wire.old mails.old (pulling role pushes.room turn_messages) pushes.moved →
        IfOk result (IsUnderway g (Talks W.content W.is_open W.faults W.failed_openings) c role u wire.new mails.new ending) }
    ensures err { (g : PlainGrammar) (c : Courier) (u : _) →
        IsUnderway g (Talks W.content W.is_open W.faults W.failed_openings) c role u wire.old mails.old (pulling role pushes.room turn_messages) pushes.moved →
        IfErr result (BreaksOff g c role (Talks W.content W.is_open W.faults W.failed_openings u wire.new) (W.content wire.new)) }
{
    let mut moved = pushes.moved;
    let mut room = pushes.room;
    let mut left = MOST_OF_MESSAGES;
    'pulling: while left > 0 && PULL <= room {
        let place = mails.place(role);
        let Some(letter) = pull(alloc, wire, place, mails.roles())? else {
            return Ok(moved);
        };
        mails.put(role, usize::from(letter.to), letter.frame)?;
        room -= PULL;
        left -= 1;
        moved = true;
    }
    Ok(moved)
}

/// One turn at a role. Tells whether a message was pushed or pulled.
pub(crate) fn turn<W: Wire>(
    alloc: Global,
    mails: &mut Mails,
    role: u16,
    wire: &mut W,
) -> Result<bool, Broken>
    requires role { Holds role mails.old }
    requires few { role < 64 }
    ensures size { OnOk result (SameSize mails.old mails.new) }
    ensures ok { (g : PlainGrammar) (c : Courier) → Shows g mails.old c →
        IfOk result (IsTurn g W.content W.faults W.failed_openings c role wire.old wire.new mails.new) }
    ensures err { (g : PlainGrammar) (c : Courier) → Shows g mails.old c →
        IfErr result (IsStopped g W.content W.faults c role wire.old wire.new) }
{
    match wire.dial(role) {
        Dialed::Opened => {}
        Dialed::Failed => return Err(Broken::Net),
    }
    let at = usize::from(role);
    let pushes = push_all(alloc, mails, at, wire)?;
    pull_all(alloc, mails, at, wire, pushes)
}
