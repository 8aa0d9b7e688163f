//! A courier over the sites of this process.
ghost use Rattle.std.specs.Prelude.{◌≡◌, IfOk, IfErr};
ghost use Rattle.aw_courier.specs.Carrying.{Carries, IsBrokenOff};
ghost use Rattle.aw_courier.specs.Honest.{MeansOverHonest};
ghost use Rattle.aw_desk_wire.specs.Calls.{passed_in};
ghost use Rattle.aw_desk_wire.specs.OverSites.{MeansAtSites};
ghost use Rattle.aw_desk_wire.specs.Shown.{OfficeAnswers};
ghost use Rattle.aw_desk_wire.specs.Since.{HonestSince};
ghost use Rattle.aw_grammar.specs.GrammarOf.{grammar_of, words_of};

use crate::office::{Office, SiteWire};
use crate::traced::{Moment, Traced};
use crate::wire::DeskWire;
use aw_accept::Accepted;
use aw_courier::sizes::see_rules;
use aw_courier::{Carried, CarryFault, carry};
use aw_law_nodes::laws::courier_laws;
use aw_law_worlds::laws::world_laws;
use aw_out::Wire;
use std::alloc::Global;
use std::marker::Brand;
use std::mem;

/// Carries over a wire that is at this moment.
fn carry_since<'g, K: Moment>(
    alloc: Global,
    g: &Accepted,
    wire: SiteWire<'g>,
    rounds: u64,
) -> (Result<Carried, CarryFault>, SiteWire<'g>)
    requires offices { wire.desks.items ≡ K.offices }
    requires passed { passed_in wire.calls ≡ K.passed }
    ensures ok { IfOk result.0 (Carries (grammar_of g.now.grammar) ⟦<SiteWire<'g> as Wire>⟧.content ⟦<SiteWire<'g> as Wire>⟧.faults ⟦<SiteWire<'g> as Wire>⟧.failed_openings rounds wire.entry result.1) }
    ensures err { IfErr result.0 (IsBrokenOff (grammar_of g.now.grammar) ⟦<SiteWire<'g> as Wire>⟧.content ⟦<SiteWire<'g> as Wire>⟧.faults rounds wire.entry result.1) }
    ensures world { ∥ IfOk result.0 (MeansOverHonest (words_of g.now.grammar) (grammar_of g.now.grammar)
        ⟦<SiteWire<'g> as Wire>⟧.content ⟦<SiteWire<'g> as Wire>⟧.faults ⟦<SiteWire<'g> as Wire>⟧.failed_openings rounds wire.entry result.1) ∥₁ }
    ensures honest { ∥ HonestSince OfficeAnswers K.offices K.passed result.1.desks.items result.1.reader result.1.calls ∥₁ }
{
    let mut idle = wire;
    idle.close();
    let mut traced = Traced::<K>::new(idle);
    let answer = carry(alloc, g, &mut traced, rounds);
    (answer, traced.into_wire())
}

/// Carries messages between the sites of this process, as `aw_courier::carry` does over any wire.
///
/// # Errors
/// As `carry`; a call on the wire fails only where memory runs out.
pub fn carry_between_sites<'g>(
    alloc: Global,
    g: &Accepted,
    wire: &mut SiteWire<'g>,
    rounds: u64,
) -> Result<Carried, CarryFault>
    ensures ok { IfOk result (Carries (grammar_of g.now.grammar) ⟦<SiteWire<'g> as Wire>⟧.content ⟦<SiteWire<'g> as Wire>⟧.faults ⟦<SiteWire<'g> as Wire>⟧.failed_openings rounds wire.old wire.new) }
    ensures err { IfErr result (IsBrokenOff (grammar_of g.now.grammar) ⟦<SiteWire<'g> as Wire>⟧.content ⟦<SiteWire<'g> as Wire>⟧.faults rounds wire.old wire.new) }
    // Where the offices showed the sites of a world, Quiet means that they show those of a quiet one: all that was sent is delivered.
    ensures sites { ∥ IfOk result (MeansAtSites g.now.grammar ⟦<SiteWire<'g> as Wire>⟧.content ⟦<SiteWire<'g> as Wire>⟧.faults ⟦<SiteWire<'g> as Wire>⟧.failed_openings rounds
        wire.old wire.new wire.old.desks.items wire.new.desks.items) ∥₁ }
{
    world_laws();
    courier_laws();
    see_rules(g.grammar());
    let begun = mem::replace(wire, DeskWire::new(alloc, Vec::new(alloc)));
    let (answer, ended) = carry_since::<Brand>(alloc, g, begun, rounds);
    *wire = ended;
    answer
}
