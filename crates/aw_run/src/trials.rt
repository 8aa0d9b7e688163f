//! The command that makes a trial.
ghost use Rattle.std.specs.Prelude.{◌≡◌, ◌≢◌, [], IfOk, IfErr};
ghost use Rattle.aw_front.specs.Replies.{reply_with};
ghost use Rattle.aw_run.specs.Statuses.{IsReply, IsSilent, IsJournalStop, status_of_stop};
ghost use Rattle.aw_run.specs.Trials.{trial_output};

use crate::reply::Stop;
use aw_front::{Reply, Status};
use aw_out::PrintFault;
use aw_trial::{summary_text, trial};
use std::alloc::{AllocError, Global};

/// The summary of the trial that is drawn from a number, unless it is too large.
fn summary_reply(alloc: Global, number: u64) -> Result<Reply, AllocError>
    ensures reply { IfOk result (λ reply. reply ≡ reply_with (trial_output number)) }
    ensures is_reply { IfOk result (λ reply. IsReply reply.status) }
    ensures silent { IfOk result (λ reply. IsSilent reply.status → reply.text ≡ []) }
{
    match trial(alloc, number) {
        Ok(summary) => Ok(Reply {
            status: Status::Done,
            text: summary_text(alloc, number, &summary)?,
        }),
        Err(PrintFault::TooLarge) => Ok(Reply::silent(alloc, Status::TooLarge)),
        Err(PrintFault::NoMemory) => Err(AllocError),
    }
}

/// Makes the trial that is drawn from a number.
pub fn tell_trial(alloc: Global, number: u64) -> Result<Reply, Stop>
    ensures reply { IfOk result (λ reply. reply ≡ reply_with (trial_output number)) }
    ensures is_reply { IfOk result (λ reply. IsReply reply.status) }
    ensures silent { IfOk result (λ reply. IsSilent reply.status → reply.text ≡ []) }
    ensures no_read_fault { result ≢ Err Stop.ReadFault }
    ensures no_net_fault { result ≢ Err Stop.NetFault }
    ensures no_journal { IfErr result (λ stop. IsJournalStop (status_of_stop stop) → ⊥) }
{
    Ok(summary_reply(alloc, number)?)
}
