//! Rounds through all roles, until nothing moves any more.
ghost use Rattle.std.specs.Prelude.{◌≡◌, ◌||◌, ◌≤◌, IfOk, IfErr, OnOk};
ghost use Rattle.aw_courier.specs.Carrying as spec;
ghost use Rattle.aw_courier.specs.Carrying.{Carries, IsBrokenOff, IsRoundMade, IsRoundBroken};
ghost use Rattle.aw_courier.specs.Mails.{Shows, SameSize, HasRoles};
ghost use Rattle.aw_courier.specs.Honest.{MeansOverHonest};
ghost use Rattle.aw_grammar.specs.GrammarOf.{grammar_of, words_of};
ghost use Rattle.aw_law_nodes.specs.Couriers.{Courier};
ghost use Rattle.aw_term.specs.Rules.{Grammar as PlainGrammar};

use crate::broken::Broken;
use crate::mails::Mails;
use crate::sizes::see_rules;
use crate::turns::turn;
use aw_accept::Accepted;
use aw_law_nodes::laws::courier_laws;
use aw_out::Wire;
use std::alloc::{AllocError, Global};

/// How a courier came to its end.
#[derive(Clone, Copy, Debug, PartialEq, Eq)]
pub enum Carried {
    /// In the last round nothing moved.
    Quiet,
    /// All rounds were made, and in each of them something moved.
    RoundsSpent,
}

/// Why a courier broke off. A role is told by its number.
#[derive(Clone, Copy, Debug, PartialEq, Eq)]
pub enum CarryFault {
    /// The role could not be dialed, or a read or a write failed while it was served.
    NetFault { role: u16 },
    /// What the role sent in a reply's place is none.
    BadReply { role: u16 },
    NoMemory,
}

impl From<AllocError> for CarryFault {
    ghost use Rattle.std.specs.Prelude.{◌≡◌};
    ghost use Rattle.aw_courier.specs.declared.carrying.CarryFault.TheVariants.{NoMemory};

    ghost from_gives = { λ _ e. e ≡ NoMemory };

    fn from(_failed: AllocError) -> CarryFault {
        CarryFault::NoMemory
    }
}

/// How a fault is told that came at this role.
fn fault_at(role: u16, broken: Broken) -> CarryFault
    ensures { result ≡ spec.fault_at role broken }
{
    match broken {
        Broken::Net => CarryFault::NetFault { role },
        Broken::Reply => CarryFault::BadReply { role },
        Broken::NoMemory => CarryFault::NoMemory,
    }
}

/// Whether one of them is so.
fn either(one: bool, other: bool) -> bool
    ensures { result ≡ (one || other) }
{
    one || other
}

/// One turn at each role in order. Tells whether something moved.
fn round<W: Wire>(
    alloc: Global,
    mails: &mut Mails,
    roles: u16,
    wire: &mut W,
) -> Result<bool, CarryFault>
    requires roles { HasRoles roles mails.old }
    requires few { roles ≤ 64 }
    ensures size { OnOk result (SameSize mails.old mails.new) }
    ensures ok { (g : PlainGrammar) (c : Courier) → g.roles ≡ roles → Shows g mails.old c →
        IfOk result (IsRoundMade g W.content W.faults W.failed_openings c roles wire.old wire.new mails.new) }
    ensures err { (g : PlainGrammar) (c : Courier) → g.roles ≡ roles → Shows g mails.old c →
        IfErr result (IsRoundBroken g W.content W.faults c wire.old wire.new) }
{
    let mut moved = false;
    'turns: for role in 0..roles {
        match turn(alloc, mails, role, wire) {
            Ok(some) => moved = either(moved, some),
            Err(broken) => return Err(fault_at(role, broken)),
        }
    }
    Ok(moved)
}

/// Carries messages between the nodes of all roles, for so many rounds, or until nothing moves any more.
fn carry_rounds<W: Wire>(
    alloc: Global,
    g: &Accepted,
    wire: &mut W,
    rounds: u64,
) -> Result<Carried, CarryFault>
    ensures ok { IfOk result (Carries (grammar_of g.now.grammar) W.content W.faults W.failed_openings rounds wire.old wire.new) }
    ensures err { IfErr result (IsBrokenOff (grammar_of g.now.grammar) W.content W.faults rounds wire.old wire.new) }
{
    let roles = g.grammar().roles.len();
    let mut mails = Mails::new(alloc, roles)?;
    'rounds: for made in 0..rounds {
        if !round(alloc, &mut mails, roles as u16, wire)? {
            return Ok(Carried::Quiet);
        }
    }
    Ok(Carried::RoundsSpent)
}

/// Carries messages between the nodes of all roles, for so many rounds, or until nothing moves any more. A round goes through the roles in
/// order: it dials the role, pushes what was pulled for it and not yet pushed, and pulls from the first place that was not yet pulled. It
/// writes at most 67,108,864 bytes in one turn and pulls at most 1,000,000 messages; what has no room waits for the next round.
///
/// # Errors
/// `NetFault` where the role could not be dialed, or a read or a write failed in its turn; `BadReply` where the bytes that it sent in a
/// reply's place are none; `NoMemory` where memory ran out. What was carried before is as told.
pub fn carry<W: Wire>(
    alloc: Global,
    g: &Accepted,
    wire: &mut W,
    rounds: u64,
) -> Result<Carried, CarryFault>
    ensures ok { IfOk result (Carries (grammar_of g.now.grammar) W.content W.faults W.failed_openings rounds wire.old wire.new) }
    ensures err { IfErr result (IsBrokenOff (grammar_of g.now.grammar) W.content W.faults rounds wire.old wire.new) }
    // Over a wire that was honest for a world and some choices, Quiet means that the world is quiet. Where no choice came meanwhile, the rounds
    // are spent only where they are at most twice as many as the bound on the messages of that world.
    ensures world { ∥ IfOk result (MeansOverHonest (words_of g.now.grammar) (grammar_of g.now.grammar) W.content W.faults W.failed_openings rounds wire.old wire.new) ∥₁ }
{
    courier_laws();
    see_rules(g.grammar());
    carry_rounds(alloc, g, wire, rounds)
}
