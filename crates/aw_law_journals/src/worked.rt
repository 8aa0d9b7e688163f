//! Small sets of journals that were worked by hand.
ghost use Rattle.aw_law_journals.specs.Worked.{ChangedIsRefused, CircleComesRound, CircleHasCauses, CircleIsRefused, CircleIsSound, ClinicJoins, NoCircleJoins, ReceiverFits, SetBackIsRefused, StrippedIsRefused, TwiceIsRefused};

/// The journals of the clinic and its laboratory fit whole (`joins`), also where the laboratory's is an earlier one behind all that it
/// sent (`receiver`). They end before a message whose sender's journal was set back (`set_back`), that came without its load
/// (`stripped`), that came twice (`twice`), or that says something else than was sent (`changed`).
pub fn worked_clinic()
    ensures joins { ClinicJoins }
    ensures receiver { ReceiverFits }
    ensures set_back { SetBackIsRefused }
    ensures stripped { StrippedIsRefused }
    ensures twice { TwiceIsRefused }
    ensures changed { ChangedIsRefused }
{}

/// Two journals that each make sense alone (`sound`) and have no order (`refused`), since each waits for the other and nobody forged
/// a message (`causes`): it is a circle (`round`). With the choice before the question they have one (`joins`).
pub fn worked_circle()
    ensures sound { CircleIsSound }
    ensures refused { CircleIsRefused }
    ensures causes { CircleHasCauses }
    ensures round { CircleComesRound }
    ensures joins { NoCircleJoins }
{}
