//! Small cases of lateness that were worked by hand.
ghost use Rattle.aw_law_lateness.specs.Worked.{BothAreQuiet, BothCall, BothWait, LoadsAskLess, LoadsSendLess, OrdersDiffer, SameTasks};

/// Two worlds of the clinic with the same choices, with loads and without, that are both quiet (`quiet`): they hold the same tasks (`tasks`), and
/// the clinic called the test in both (`calls`); but the one sent three messages and the other nine (`less`).
pub fn worked_loads()
    ensures quiet { BothAreQuiet }
    ensures tasks { SameTasks }
    ensures calls { BothCall }
    ensures less { LoadsSendLess }
{}

/// Two quiet worlds in which the clinic waits for the result of a test, with loads and without: the same question is open in both (`open`), and the
/// laboratory asked for its sample in the second alone (`fewer`).
pub fn worked_questions()
    ensures open { BothWait }
    ensures fewer { LoadsAskLess }
{}

/// Two quiet worlds without loads in which the laboratory sent the same messages in different orders (`orders`).
pub fn worked_orders()
    ensures orders { OrdersDiffer }
{}
