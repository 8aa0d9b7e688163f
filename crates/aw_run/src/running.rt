//! The top call.
ghost use Rattle.std.specs.Prelude.{◌≡◌, ◌≢◌, ◌≤◌, ◌⊎◌, [], IfOk, IfErr, false, true, length};
ghost use Rattle.aw_out.specs.Causes.{Rose};
ghost use Rattle.aw_out.specs.Edge.{IsUsedUp, GivesSome, Gets, GetsPrefix};
ghost use Rattle.aw_run.specs.Words.{command_of, role_word};
ghost use Rattle.aw_run.specs.Statuses.{IsReply, IsPastReading, IsSilent, IsJournalStop, IsRefusal, status_of_stop};
ghost use Rattle.aw_run.specs.Promises.{ArrivalsAnswer, KnowledgeStays, MessagesStayFew, NothingCircles, PlainIsTyped, ReplayIsTyped};
ghost use Rattle.aw_run.specs.Promises.{RulesStayEnabled, Settled, SitesAnswerAsOne, SitesMerge, StartsStayEnabled, StaysAcyclic, WritesAnyOrder};
ghost use Rattle.aw_run.specs.Replies.{NetFailed, NetKept, around, reads, uses_disk, uses_wire, wired};
ghost use Rattle.aw_run.specs.Runs.{Answered, CarriedAll, CarryingStopped, Completed, CutOff, EndedAsAsked, KeepingStopped, Replayed, Served, ServedKept};
ghost use Rattle.aw_run.specs.Runs.{CourierFails, KeepsPromises, KeptNodeFails, MaySay, NodeFails, ServingStopped, Tried, Wrote, WroteWith, ran};

use crate::carrying::carry_source;
use crate::keeping::keep_source;
use crate::reading::reply_to_source;
use crate::reply::Stop;
use crate::serving::serve_source;
use crate::trials::tell_trial;
use crate::words::{Command, Job, Telling, Word, role_word};
use aw_disk::Disk;
use aw_front::{INPUT_LIMIT, Reply, Status};
use aw_out::{Sink, Source, Wire, write_all};
use std::alloc::Global;

/// Runs the words, and makes what is to be written.
fn prepare<S: Source, W: Wire, D: Disk>(
    alloc: Global,
    words: &[Word],
    src: &mut S,
    wire: &mut W,
    disk: &mut D,
) -> Result<Reply, Stop>
    ensures reply { IfOk result (MaySay words.now (S.left src.old) (around ⟦<W as Wire>⟧ ⟦<D as Disk>⟧ wire.old wire.new disk.old disk.new)) }
    ensures promises { IfOk result (KeepsPromises words.now (S.left src.old)) }
    ensures is_reply { IfOk result (λ reply. IsReply reply.status) }
    ensures silent { IfOk result (λ reply. IsSilent reply.status → reply.text ≡ []) }
    ensures end { IfOk result (λ reply. IsPastReading reply.status → reads (command_of words.now) ≡ true → IsUsedUp (S.left src.new)) }
    ensures untouched { reads (command_of words.now) ≡ false → src.new ≡ src.old }
    ensures no_wire { uses_wire (command_of words.now) ≡ false → wire.new ≡ wire.old }
    ensures cause { result ≡ Err Stop.ReadFault → Rose (S.faults src.old) (S.faults src.new) }
    ensures kept { result ≢ Err Stop.ReadFault → S.faults src.new ≡ S.faults src.old }
    ensures read_before { result ≡ Err Stop.ReadFault → GivesSome (S.left src.old) (S.left src.new) (λ bytes. length bytes ≤ INPUT_LIMIT) }
    ensures read_command { result ≡ Err Stop.ReadFault → reads (command_of words.now) ≡ true }
    ensures net_cause { result ≡ Err Stop.NetFault → NetFailed (command_of words.now) (wired ⟦<W as Wire>⟧ wire.old wire.new) }
    ensures net_kept { result ≢ Err Stop.NetFault → NetKept (command_of words.now) (wired ⟦<W as Wire>⟧ wire.old wire.new) }
    ensures net_command { result ≡ Err Stop.NetFault → uses_wire (command_of words.now) ≡ true }
    ensures no_disk { uses_disk (command_of words.now) ≡ false → disk.new ≡ disk.old }
    ensures disk_cause { result ≡ Err Stop.DiskFault → Rose (D.faults disk.old) (D.faults disk.new) }
    ensures disk_kept { result ≢ Err Stop.DiskFault → D.faults disk.new ≡ D.faults disk.old }
    ensures disk_command { IfErr result (λ stop. IsJournalStop (status_of_stop stop) → uses_disk (command_of words.now) ≡ true) }
    ensures refused { IfOk result (λ reply. IsRefusal reply.status → (wire.new ≡ wire.old) × (disk.new ≡ disk.old)) }
    ensures unread { result ≡ Err Stop.ReadFault → (wire.new ≡ wire.old) × (disk.new ≡ disk.old) }
    ensures unserved { NodeFails words.now (S.left src.old) (wired ⟦<W as Wire>⟧ wire.old wire.new) result }
    ensures stopped { KeptNodeFails words.now (S.left src.old) (around ⟦<W as Wire>⟧ ⟦<D as Disk>⟧ wire.old wire.new disk.old disk.new) result }
    ensures broken { CourierFails words.now (S.left src.old) (wired ⟦<W as Wire>⟧ wire.old wire.new) result }
    ensures stop_end { IfErr result (λ stop. IsPastReading (status_of_stop stop) → IsUsedUp (S.left src.new)) }
    ensures never_falls { S.faults src.old ≤ S.faults src.new }
{
    let Some(command) = Command::from_words(words) else {
        return Ok(Reply::line(alloc, Status::Usage, b"usage\n")?);
    };
    match command {
        Command::Reads(job) => reply_to_source(alloc, job, src),
        Command::Tries { number } => tell_trial(alloc, number),
        Command::Serves { sessions } => {
            serve_source(alloc, role_word(words), sessions, src, wire)
        }
        Command::Keeps { sessions } => {
            keep_source(alloc, role_word(words), sessions, src, wire, disk)
        }
        Command::Carries { rounds } => carry_source(alloc, rounds, src, wire),
    }
}

/// Writes the reply, and returns its status once it was written whole.
fn deliver<K: Sink>(out: &mut K, reply: &Reply) -> Status
    requires { IsReply reply.now.status }
    ensures status { result ≡ reply.now.status ⊎ result ≡ Status.WriteFault }
    ensures untouched { reply.now.text ≡ [] → (out.new ≡ out.old) × (result ≡ reply.now.status) }
    ensures whole { IsReply result → Gets (K.written out.old) (K.written out.new) reply.now.text }
    ensures some { result ≡ Status.WriteFault → reply.now.text ≢ [] }
    ensures prefix { result ≡ Status.WriteFault → GetsPrefix (K.written out.old) (K.written out.new) reply.now.text }
    ensures cause { result ≡ Status.WriteFault → Rose (K.faults out.old) (K.faults out.new) }
    ensures kept { result ≢ Status.WriteFault → K.faults out.new ≡ K.faults out.old }
    ensures never_falls { K.faults out.old ≤ K.faults out.new }
{
    match write_all(out, reply.text.as_slice()) {
        Ok(()) => reply.status,
        Err(_) => Status::WriteFault,
    }
}

/// Runs the program once.
pub fn run<S: Source, K: Sink, W: Wire, D: Disk>(
    alloc: Global,
    words: &[Word],
    src: &mut S,
    out: &mut K,
    wire: &mut W,
    disk: &mut D,
) -> Status
    // The status, and what was written, are those of a reply to what was left to read.
    ensures reply { Answered (ran words.now (S.left src.old) result (K.written out.old) (K.written out.new))
        (around ⟦<W as Wire>⟧ ⟦<D as Disk>⟧ wire.old wire.new disk.old disk.new) }

    // A status that speaks of the words or of the bytes is just the one that they call for.
    ensures cause { EndedAsAsked (ran words.now (S.left src.old) result (K.written out.old) (K.written out.new))
        (around ⟦<W as Wire>⟧ ⟦<D as Disk>⟧ wire.old wire.new disk.old disk.new) }

    // A command that is done has written the whole text that it makes of its input.
    ensures check { Wrote Job.Check (ran words.now (S.left src.old) result (K.written out.old) (K.written out.new)) }
    ensures plain { Wrote (Job.Tells Telling.Undivided) (ran words.now (S.left src.old) result (K.written out.old) (K.written out.new)) }
    ensures replay { Wrote (Job.Tells Telling.Replayed) (ran words.now (S.left src.old) result (K.written out.old) (K.written out.new)) }

    // The events of a replay may be any choices and deliveries, late, repeated and out of order. At each moment the choices taken have an
    // acyclic undivided configuration, and what is enabled stays so. Settling leaves no message, and where all were delivered the
    // artifacts written are those of one undivided configuration of the same choices, in any order that it allows.
    ensures acyclic { Replayed StaysAcyclic (ran words.now (S.left src.old) result (K.written out.old) (K.written out.new)) }
    ensures enabled { Replayed RulesStayEnabled (ran words.now (S.left src.old) result (K.written out.old) (K.written out.new)) }
    ensures started { Replayed StartsStayEnabled (ran words.now (S.left src.old) result (K.written out.old) (K.written out.new)) }
    ensures any_order { Replayed WritesAnyOrder (ran words.now (S.left src.old) result (K.written out.old) (K.written out.new)) }

    // At each moment a choice is answered by what has arrived at its role, and what a site knows stays. Wherever every message was delivered the
    // sites hold just that undivided configuration, and answer each choice as it does. Messages are bounded, and nothing waits for itself.
    ensures arrived { Replayed ArrivalsAnswer (ran words.now (S.left src.old) result (K.written out.old) (K.written out.new)) }
    ensures stays { Replayed KnowledgeStays (ran words.now (S.left src.old) result (K.written out.old) (K.written out.new)) }
    ensures merged { Replayed SitesMerge (ran words.now (S.left src.old) result (K.written out.old) (K.written out.new)) }
    ensures answers { Replayed SitesAnswerAsOne (ran words.now (S.left src.old) result (K.written out.old) (K.written out.new)) }
    ensures bounded { Replayed MessagesStayFew (ran words.now (S.left src.old) result (K.written out.old) (K.written out.new)) }
    ensures no_circle { Replayed NothingCircles (ran words.now (S.left src.old) result (K.written out.old) (K.written out.new)) }
    ensures settles { Replayed Settled (ran words.now (S.left src.old) result (K.written out.old) (K.written out.new)) }

    // Where there are types, each configuration that the choices taken lead to is well typed, a hole having the type of its result.
    ensures typed_plain { WroteWith (Job.Tells Telling.Undivided) PlainIsTyped (ran words.now (S.left src.old) result (K.written out.old) (K.written out.new)) }
    ensures typed_replay { Replayed ReplayIsTyped (ran words.now (S.left src.old) result (K.written out.old) (K.written out.new)) }

    ensures trial { Tried (ran words.now (S.left src.old) result (K.written out.old) (K.written out.new)) }

    // What a node writes of its sessions, and why it stops.
    ensures node { Served (ran words.now (S.left src.old) result (K.written out.old) (K.written out.new)) (wired ⟦<W as Wire>⟧ wire.old wire.new) }
    ensures unserved { ServingStopped (ran words.now (S.left src.old) result (K.written out.old) (K.written out.new)) (wired ⟦<W as Wire>⟧ wire.old wire.new) }

    // What a kept node writes of its sessions, and why it stops; both say what a crash leaves of its journal, at any moment of the run.
    ensures kept { ServedKept (ran words.now (S.left src.old) result (K.written out.old) (K.written out.new))
        (around ⟦<W as Wire>⟧ ⟦<D as Disk>⟧ wire.old wire.new disk.old disk.new) }
    ensures stopped { KeepingStopped (ran words.now (S.left src.old) result (K.written out.old) (K.written out.new))
        (around ⟦<W as Wire>⟧ ⟦<D as Disk>⟧ wire.old wire.new disk.old disk.new) }

    // What a courier carried, and why it came to no end. Over a wire that was honest for a world and some choices, `quiet` means that the world is quiet.
    ensures courier { CarriedAll (ran words.now (S.left src.old) result (K.written out.old) (K.written out.new)) (wired ⟦<W as Wire>⟧ wire.old wire.new) }
    ensures broken { CarryingStopped (ran words.now (S.left src.old) result (K.written out.old) (K.written out.new)) (wired ⟦<W as Wire>⟧ wire.old wire.new) }

    // A command with a good input is done, unless memory runs out, the source fails or the sink does, or the wire or the disk of a command that uses it,
    // or what a courier hears is no reply.
    ensures complete { Completed (ran words.now (S.left src.old) result (K.written out.old) (K.written out.new))
        (around ⟦<W as Wire>⟧ ⟦<D as Disk>⟧ wire.old wire.new disk.old disk.new) }

    // The source failed before it gave too much, and only a command that reads reports it.
    ensures read_fault { result ≡ Status.ReadFault → Rose (S.faults src.old) (S.faults src.new) }
    ensures read_before { result ≡ Status.ReadFault → GivesSome (S.left src.old) (S.left src.new) (λ bytes. length bytes ≤ INPUT_LIMIT) }
    ensures read_command { result ≡ Status.ReadFault → reads (command_of words.now) ≡ true }

    // A sink that fails has got a prefix of the reply, which has a text.
    ensures write_fault { result ≡ Status.WriteFault → Rose (K.faults out.old) (K.faults out.new) }
    ensures prefix { CutOff (ran words.now (S.left src.old) result (K.written out.old) (K.written out.new))
        (around ⟦<W as Wire>⟧ ⟦<D as Disk>⟧ wire.old wire.new disk.old disk.new) }
    ensures silent { IsSilent result → out.new ≡ out.old }

    // Only a command that reads touches the source, and it goes on only from the end.
    ensures end { IsPastReading result → reads (command_of words.now) ≡ true → IsUsedUp (S.left src.new) }
    ensures untouched { reads (command_of words.now) ≡ false → src.new ≡ src.old }

    // Only a command that uses the wire touches it.
    ensures no_wire { uses_wire (command_of words.now) ≡ false → wire.new ≡ wire.old }
    ensures net_fault { result ≡ Status.NetFault → NetFailed (command_of words.now) (wired ⟦<W as Wire>⟧ wire.old wire.new) }
    ensures net_command { result ≡ Status.NetFault → uses_wire (command_of words.now) ≡ true }

    // Only a command that uses the disk touches it, and what is refused leaves the wire and the disk as they were.
    ensures no_disk { uses_disk (command_of words.now) ≡ false → disk.new ≡ disk.old }
    ensures disk_fault { result ≡ Status.DiskFault → Rose (D.faults disk.old) (D.faults disk.new) }
    ensures disk_command { IsJournalStop result → uses_disk (command_of words.now) ≡ true }
    ensures refused { IsRefusal result → (wire.new ≡ wire.old) × (disk.new ≡ disk.old) }

    // Each read that fails is reported, and so is each write and each call of the disk; a node reports each session that could not be opened, and a courier
    // each call of the wire that fails. After any other answer none has failed.
    ensures source_kept { result ≢ Status.ReadFault → S.faults src.new ≡ S.faults src.old }
    ensures sink_kept { result ≢ Status.WriteFault → K.faults out.new ≡ K.faults out.old }
    ensures disk_kept { result ≢ Status.DiskFault → D.faults disk.new ≡ D.faults disk.old }
    ensures net_kept { result ≢ Status.NetFault → NetKept (command_of words.now) (wired ⟦<W as Wire>⟧ wire.old wire.new) }
    ensures source_count { S.faults src.old ≤ S.faults src.new }
    ensures sink_count { K.faults out.old ≤ K.faults out.new }
{
    match prepare(alloc, words, src, wire, disk) {
        Ok(reply) => deliver(out, &reply),
        Err(stop) => stop.status(),
    }
}
