//! What holds of what is told, apart from any code.
ghost use Rattle.aw_check_text.specs.ApartLaws.{RolesAreToldOnce, WaitingIsToldOnce};

/// There is one thing to tell of the roles of a grammar, with what is offered and declared (`roles`), and one of waiting
/// (`waiting`).
pub fn tellings_are_one()
    ensures roles { RolesAreToldOnce }
    ensures waiting { WaitingIsToldOnce }
{}
