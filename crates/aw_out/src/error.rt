//! Why something was not read, written or printed whole.
ghost use Rattle.std.specs.Prelude.{◌≡◌};
ghost use Rattle.aw_out.specs.declared.error.ReadError.TheVariants.{NoMemory as ReadNoMemory};
ghost use Rattle.aw_out.specs.declared.error.PrintFault.TheVariants.{NoMemory as PrintNoMemory};

use std::alloc::AllocError;
use thiserror::Error;

/// Why a source was not read to its end.
#[derive(Clone, Copy, Debug, PartialEq, Eq, Error)]
pub enum ReadError {
    #[error("the source failed")]
    ReadFault,
    #[error("the input is too long")]
    TooLong,
    #[error("out of memory")]
    NoMemory,
}

impl From<AllocError> for ReadError {
    ghost from_gives = { λ _ e. e ≡ ReadNoMemory };

    fn from(_error: AllocError) -> ReadError {
        ReadError::NoMemory
    }
}

/// Why some bytes were not written whole.
#[derive(Clone, Copy, Debug, PartialEq, Eq, Error)]
pub enum WriteError {
    #[error("the sink failed")]
    WriteFault,
}

/// Why a text was not added to a report.
#[derive(Clone, Copy, Debug, PartialEq, Eq, Error)]
pub enum PrintFault {
    #[error("the text is too large")]
    TooLarge,
    #[error("out of memory")]
    NoMemory,
}

impl From<AllocError> for PrintFault {
    ghost from_gives = { λ _ e. e ≡ PrintNoMemory };

    fn from(_error: AllocError) -> PrintFault {
        PrintFault::NoMemory
    }
}
