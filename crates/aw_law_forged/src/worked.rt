//! Small cases that were worked by hand, on the clinic and its laboratory.
ghost use Rattle.aw_law_forged.specs.Worked.{ClinicAgrees, ClinicIsDeceived, DeceivedRefuses, LoadsCount, OwnIsSent, OwnStands};

/// A clinic admits a visit, is told by forged messages what the laboratory found and what its own visit came to, and is asked for what it knows. It believes
/// the first and refuses the second (`deceived`); of its own references it holds what it made (`own`), and it tells that (`sent`).
pub fn worked_forgery()
    ensures deceived { ClinicIsDeceived }
    ensures own { OwnStands }
    ensures sent { OwnIsSent }
{}

/// A clinic admits a visit and a laboratory analyses it. Told by the laboratory, the clinic knows what that found (`agrees`). Told something else before, it
/// refuses what the laboratory sends (`refuses`). And a message that was sent with another load is a forged one (`loads`): the clinic would believe a
/// value that the laboratory does not have.
pub fn worked_truth()
    ensures agrees { ClinicAgrees }
    ensures refuses { DeceivedRefuses }
    ensures loads { LoadsCount }
{}
