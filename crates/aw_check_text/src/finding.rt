//! What checking a role finds.
ghost use Rattle.std.specs.Prelude.{◌≡◌};

use aw_accept::Fault;
use aw_base::Triple;

/// What checking a role finds.
#[derive(Clone, Copy, Debug, PartialEq, Eq)]
pub enum Finding {
    /// The role says yes.
    Yes,
    /// The least rule of the role, by its number among them, in which an occurrence reaches itself, and the least such
    /// occurrence.
    Circle(Fault),
    /// The least pair of what the role offers that it finds, and that is not declared.
    Excess(Triple),
}

ghost use Rattle.aw_check_text.specs.ApartTold.{is_yes};

impl Finding {
    /// Whether the role says yes.
    pub(crate) fn is_yes(self) -> bool
        ensures { result ≡ is_yes self }
    {
        match self {
            Finding::Yes => true,
            Finding::Circle(_) | Finding::Excess(_) => false,
        }
    }
}
