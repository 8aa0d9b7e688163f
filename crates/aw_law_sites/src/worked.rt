//! Cases that were worked by hand: the definitions over references, and those of sites and worlds, compute just what stands in them.
ghost use Rattle.aw_law_sites.specs.WorkedChoices.{Clinic, ClinicValues, Waiting, WaitingNoMore, OwnResult, OwnResultValues, OwnResultAccepted};
ghost use Rattle.aw_law_sites.specs.Worked.{ClinicSettles, ClinicLoads, AskBeforeCall, AllAgain, RefusedChoices, ValueLate, WaitsAtLab, ForgedAtLab, LoadComesAgain, AskedAtClinic};

/// The nodes, the equations, the unfolded values and the answers of three small cases, by the definitions alone.
pub fn worked_choices()
    ensures clinic { Clinic }
    ensures clinic_values { ClinicValues }
    ensures waiting { Waiting }
    ensures waiting_no_more { WaitingNoMore }
    ensures own_result { OwnResult }
    ensures own_result_values { OwnResultValues }
    ensures own_result_accepted { OwnResultAccepted }
{}

/// The output of small cases, and what a site answers to messages that are forged, by the definitions alone.
pub fn worked_worlds()
    ensures clinic { ClinicSettles }
    ensures clinic_loads { ClinicLoads }
    ensures ask_before_call { AskBeforeCall }
    ensures all_again { AllAgain }
    ensures refused_choices { RefusedChoices }
    ensures value_late { ValueLate }
    ensures waits_at_lab { WaitsAtLab }
    ensures forged_at_lab { ForgedAtLab }
    ensures load_comes_again { LoadComesAgain }
    ensures asked_at_clinic { AskedAtClinic }
{}
