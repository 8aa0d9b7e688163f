//! What is said of a source that was not read to its end.
ghost use Rattle.std.specs.Prelude.{◌≡◌};
ghost use Rattle.aw_run.specs.Unread.{unread_gives};

use crate::reply::Stop;
use aw_front::{Reply, Status};
use aw_out::ReadError;
use std::alloc::Global;

/// What is said of a source that was not read to its end.
pub fn unread(alloc: Global, error: ReadError) -> Result<Reply, Stop>
    ensures { result ≡ unread_gives error }
{
    match error {
        ReadError::TooLong => Ok(Reply::silent(alloc, Status::TooLong)),
        ReadError::ReadFault => Err(Stop::ReadFault),
        ReadError::NoMemory => Err(Stop::NoMemory),
    }
}
