//! Cases of which the laws speak.
ghost use Rattle.aw_law_worlds.specs.Worked.{ClinicIsAccepted, ClinicMerges, ClinicMeetsPremises, OneRoleSpeaks};

use aw_law_sites::worked::worked_choices;

/// The clinic and its laboratory are an accepted grammar, so the laws hold of them (`clinic_accepted`, `clinic_merges`), and their
/// premises are met by two visits whose choices may stand in another order (`clinic_meets`). A grammar of one role is accepted too,
/// and so it writes what the undivided run writes (`one_role`).
pub fn worked_grammar()
    ensures clinic_accepted { ClinicIsAccepted }
    ensures clinic_merges { ClinicMerges }
    ensures clinic_meets { ClinicMeetsPremises }
    ensures one_role { OneRoleSpeaks }
{
    worked_choices();
}
