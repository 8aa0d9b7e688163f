//! One request over the wire, and its reply.
ghost use Rattle.std.specs.Prelude.{◌≡◌, ◌<◌, [], true, false, IfOk, IfErr, OnOk, OnErr};
ghost use Rattle.aw_courier.specs.Asking.{IsAsked, IsBrokenOff, IsUnread, ReadsMore, ReadsNoMore};
ghost use Rattle.aw_session.specs.Talking.{Talks, TalksInPart};
ghost use Rattle.aw_term.specs.Rules.{Grammar as PlainGrammar};

use crate::broken::Broken;
use crate::replies::{Request, size_of};
use aw_list::Text;
use aw_out::{Got, Put, Wire};
use std::alloc::Global;

/// Room for one read, in bytes.
const PIECE: usize = 4096;

/// Writes all the bytes, or a prefix of them and then tells the fault.
fn write_all<W: Wire>(wire: &mut W, bytes: &[u8]) -> Result<(), Broken>
    requires { W.is_open wire.old ≡ true }
    ensures all { OnOk result (Talks W.content W.is_open W.faults W.failed_openings wire.old wire.new [] bytes.now false) }
    ensures part { OnErr result (TalksInPart W.content W.is_open W.faults W.failed_openings wire.old wire.new bytes.now) }
    ensures fault { IfErr result (λ fault. fault ≡ Broken.Net) }
{
    let mut done = 0;
    while done < bytes.len() {
        let (_, rest) = bytes.split_at(done);
        match wire.write(rest) {
            Put::Took(n) => done += n,
            Put::Failed => return Err(Broken::Net),
        }
    }
    Ok(())
}

/// Reads at most so many bytes, at least one, to the end of those that were read before.
fn read_more<W: Wire>(wire: &mut W, bytes: &mut Text, most: usize) -> Result<(), Broken>
    requires some { 0 < most }
    requires open { W.is_open wire.old ≡ true }
    ensures ok { OnOk result (ReadsMore (Talks W.content W.is_open W.faults W.failed_openings wire.old wire.new) most bytes.old bytes.new) }
    ensures err { IfErr result (ReadsNoMore (Talks W.content W.is_open W.faults W.failed_openings wire.old wire.new) (W.content wire.new)) }
{
    let mut piece = [0u8; PIECE];
    let (front, _) = piece.split_at_mut(most.min(PIECE));
    match wire.read(front) {
        Got::Read(n) => {
            let (came, _) = front.split_at(n);
            bytes.push_bytes(came)?;
            Ok(())
        }
        Got::End => Err(Broken::Reply),
        Got::Failed => Err(Broken::Net),
    }
}

/// Reads the bytes of the reply to a request, and none behind them.
fn read_reply<W: Wire>(alloc: Global, wire: &mut W, request: Request) -> Result<Text, Broken>
    requires { W.is_open wire.old ≡ true }
    ensures ok { IfOk result (IsAsked request [] (Talks W.content W.is_open W.faults W.failed_openings wire.old wire.new)) }
    ensures err { (g : PlainGrammar) → IfErr result (IsUnread g request (Talks W.content W.is_open W.faults W.failed_openings wire.old wire.new) (W.content wire.new)) }
{
    let mut bytes = Text::new(alloc);
    'reading: loop {
        let Some(size) = size_of(request, bytes.as_slice()) else {
            return Err(Broken::Reply);
        };
        if size <= bytes.len() {
            return Ok(bytes);
        }
        let missing = size - bytes.len();
        read_more(wire, &mut bytes, missing)?;
    }
}

/// Writes a request and reads all bytes of its reply, as far as its length tells.
pub(crate) fn ask<W: Wire>(
    alloc: Global,
    wire: &mut W,
    request: Request,
    frame: &[u8],
) -> Result<Text, Broken>
    requires { W.is_open wire.old ≡ true }
    ensures ok { IfOk result (IsAsked request frame.now (Talks W.content W.is_open W.faults W.failed_openings wire.old wire.new)) }
    ensures err { (g : PlainGrammar) → IfErr result (IsBrokenOff g request frame.now (Talks W.content W.is_open W.faults W.failed_openings wire.old wire.new) (W.content wire.new)) }
{
    write_all(wire, frame)?;
    read_reply(alloc, wire, request)
}
