//! Small cases that were worked by hand, on the clinic and its laboratory.
ghost use Rattle.aw_law_learning.specs.Worked.{ForgedIsLearnt, LabIsCalled, LabIsLed};

/// The laboratory that was called is led to the sample and to the patient's name in it (`led`); one that was told the name by a forged
/// message holds it without any task (`forged`). The laboratory's task was called by the clinic, whose own one nobody called (`called`).
pub fn worked_lab()
    ensures led { LabIsLed }
    ensures forged { ForgedIsLearnt }
    ensures called { LabIsCalled }
{}
