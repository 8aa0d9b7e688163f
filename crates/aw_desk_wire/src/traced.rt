//! A wire over offices that does not forget how it was at a moment.
ghost use Rattle.std.specs.Prelude.{◌≡◌, Some};
ghost use Rattle.aw_desk_wire.specs.Calls.{content_of};
ghost use Rattle.aw_desk_wire.specs.Shown.{OfficeAnswers};
ghost use Rattle.aw_desk_wire.specs.Since.{HonestSince};

use crate::office::SiteWire;
use aw_out::{Arrival, Dialed, Got, Put, Wire};
use std::marker::{Brand, PhantomData};

/// How a wire over offices was at a moment: the offices, and the sessions that had passed. What is proved for each type that tells it
/// holds of every moment.
pub trait Moment {
    ghost use Rattle.std.specs.Prelude.{List};
    ghost use Rattle.aw_desk_wire.specs.declared.office.Office.{Office};
    ghost use Rattle.aw_out.specs.Wires.{Session};

    ghost offices: { List Office };

    ghost passed: { List Session };
}

impl Moment for Brand {
    ghost use Rattle.std.specs.Prelude.{[]};

    ghost offices = { [] };

    ghost passed = { [] };
}

/// A wire over offices, and what all its sessions since that moment were. A caller that knows it as a wire alone keeps that too.
#[derive(Drop)]
pub(crate) struct Traced<'g, K: Moment> {
    wire: SiteWire<'g>,
    of: PhantomData<K>,
    ghost honest: { ∥ HonestSince OfficeAnswers K.offices K.passed wire.desks.items wire.reader wire.calls ∥₁ },
}

impl<'g, K: Moment> Traced<'g, K> {
    /// The wire as it is at that moment, where no session is open.
    pub(crate) fn new(wire: SiteWire<'g>) -> Traced<'g, K>
        requires { ∥ HonestSince OfficeAnswers K.offices K.passed wire.desks.items wire.reader wire.calls ∥₁ }
        ensures { result.wire ≡ wire.entry }
    {
        Traced {
            wire,
            of: PhantomData,
        }
    }

    /// The wire as it is now.
    pub(crate) fn into_wire(self) -> SiteWire<'g>
        ensures wire { result ≡ self.entry.wire }
        ensures honest { ∥ HonestSince OfficeAnswers K.offices K.passed result.desks.items result.reader result.calls ∥₁ }
    {
        self.wire
    }
}

impl<K: Moment> Wire for Traced<'_, K> {
    ghost content = { λ w. Some (content_of w.wire.calls) };

    ghost is_open = { λ w. w.wire.calls.is_open };

    ghost faults = { λ w. w.wire.starved };

    ghost failed_openings = { λ w. w.wire.unopened };

    fn next_session(&mut self, role: u16) -> Arrival {
        self.wire.next_session(role)
    }

    fn dial(&mut self, role: u16) -> Dialed {
        self.wire.dial(role)
    }

    fn read(&mut self, buf: &mut [u8]) -> Got {
        self.wire.read(buf)
    }

    fn write(&mut self, b: &[u8]) -> Put {
        self.wire.write(b)
    }
}
