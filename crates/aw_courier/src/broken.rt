//! Why a turn broke off.
use std::alloc::AllocError;

/// Why a turn broke off.
#[derive(Clone, Copy)]
pub enum Broken {
    /// A call on the wire failed.
    Net,
    /// What came in a reply's place is none.
    Reply,
    NoMemory,
}

impl From<AllocError> for Broken {
    ghost use Rattle.std.specs.Prelude.{◌≡◌};
    ghost use Rattle.aw_courier.specs.declared.broken.Broken.TheVariants.{NoMemory};

    ghost from_gives = { λ _ e. e ≡ NoMemory };

    fn from(_failed: AllocError) -> Broken {
        Broken::NoMemory
    }
}
