//! Cases of nodes, crashes and couriers that were worked by hand, on the clinic and its laboratory: the premises of the laws are met.
ghost use Rattle.aw_law_nodes.specs.Worked.{NodesReply, NodesAreHonest, NodesAreOneWorld, LabIsBack, LabGoesOn, CrashIsAllowed, ClinicMayNotGoBack, CourierIsQuiet, CourierIsSpent, CourierBreaksOff, LateChoicesWait, RoundsReachTheBound};

/// Ten frames over two nodes: the replies, that they are honest, and which events of one world they are.
pub fn worked_nodes()
    ensures replies { NodesReply }
    ensures honest { NodesAreHonest }
    ensures one_world { NodesAreOneWorld }
{}

/// The laboratory goes back to its first event, and goes on in another way; the clinic may not, since what it sent was delivered.
pub fn worked_crashes()
    ensures is_back { LabIsBack }
    ensures goes_on { LabGoesOn }
    ensures allowed { CrashIsAllowed }
    ensures may_not { ClinicMayNotGoBack }
{}

/// Two rounds of a courier that end quiet, one that is spent, and one that breaks off; and why no choice may be made once its last
/// round began. Where one message is sent, two rounds may move it, so twice the bound on messages is no more than is needed.
pub fn worked_couriers()
    ensures quiet { CourierIsQuiet }
    ensures spent { CourierIsSpent }
    ensures breaks_off { CourierBreaksOff }
    ensures late { LateChoicesWait }
    ensures bound { RoundsReachTheBound }
{}
