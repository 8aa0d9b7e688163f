//! What holds of every world of an accepted grammar, whatever choices are made and whenever messages come, apart from any code.
ghost use Rattle.aw_term.specs.Artifacts.{Words};
ghost use Rattle.aw_term.specs.Rules as P;
ghost use Rattle.aw_law_sites.specs.Laws.{IsAccepted};
ghost use Rattle.aw_law_worlds.specs.Laws.{InvariantHolds, Knowledge, Repeats, NoCircle, HomesAreRoles, Stays, RuleStaysEnabled, StartStaysEnabled, SiteStays, SiteIsFold, RefusalsAreNotTaken};
ghost use Rattle.aw_law_worlds.specs.Laws.{QuietHolds, QuietAnswers, QuietWorklists, OneRole, Headline, Artifacts, ValuesAreFinite, PrintsOne, MessagesAreBounded, SettlingIsDelivering};
ghost use Rattle.aw_law_worlds.specs.Headline.{OutputsHold, OneRoleIsPlain, EventsAreMoves};

/// After every list of choices and deliveries, with loads and without: what each site holds, asked for and was told fits together
/// (`invariant`); a message that was sent is never refused (`knowledge`), and is known where it was delivered before (`repeats`);
/// and nothing ever waits for itself (`circle`). Each choice is at home at a role that is declared (`homes`). Over all further events equations, nodes and decided guards stay (`stays`); a rule
/// that is enabled stays so until its node is developed (`rule_stays`), and a start until it is made (`start_stays`).
pub fn world_laws()
    ensures invariant { (w : Words) (g : P.Grammar) → IsAccepted w g → InvariantHolds g }
    ensures knowledge { (w : Words) (g : P.Grammar) → IsAccepted w g → Knowledge g }
    ensures repeats { (w : Words) (g : P.Grammar) → IsAccepted w g → Repeats g }
    ensures circle { (w : Words) (g : P.Grammar) → IsAccepted w g → NoCircle g }
    ensures homes { (w : Words) (g : P.Grammar) → IsAccepted w g → HomesAreRoles g }
    ensures stays { (w : Words) (g : P.Grammar) → IsAccepted w g → Stays g }
    ensures rule_stays { (w : Words) (g : P.Grammar) → IsAccepted w g → RuleStaysEnabled g }
    ensures start_stays { (w : Words) (g : P.Grammar) → IsAccepted w g → StartStaysEnabled g }
{}

/// What is taken always has an undivided configuration, and once every message was delivered the sites hold just that (`quiet`),
/// answer each choice as it does (`answers`), and have its worklist (`worklists`); one role alone is always quiet (`one_role`). It
/// is acyclic, and it is that of the same choices in any order that is allowed (`headline`). What is then printed from each site's
/// own equations is its artifact text, byte for byte (`artifacts`). At any moment each reference has a value at each site (`values`),
/// so that there is always one such text (`printed`). There are at most so many messages, and settling leaves none undelivered
/// (`bound`); settling is nothing but delivering (`settles`).
pub fn merge_laws()
    ensures quiet { (w : Words) (g : P.Grammar) → IsAccepted w g → QuietHolds g }
    ensures answers { (w : Words) (g : P.Grammar) → IsAccepted w g → QuietAnswers g }
    ensures worklists { (w : Words) (g : P.Grammar) → IsAccepted w g → QuietWorklists g }
    ensures one_role { (w : Words) (g : P.Grammar) → IsAccepted w g → OneRole g }
    ensures headline { (w : Words) (g : P.Grammar) → IsAccepted w g → Headline g }
    ensures artifacts { (w : Words) (g : P.Grammar) → IsAccepted w g → Artifacts w g }
    ensures values { (w : Words) (g : P.Grammar) → IsAccepted w g → ValuesAreFinite g }
    ensures printed { (w : Words) (g : P.Grammar) → IsAccepted w g → PrintsOne w g }
    ensures bound { (w : Words) (g : P.Grammar) → IsAccepted w g → MessagesAreBounded g }
    ensures settles { (g : P.Grammar) → SettlingIsDelivering g }
{}

/// Of what is written for the events of a schedule: at each moment the choices taken have a configuration, which is acyclic, what is
/// enabled stays so, and once every message was delivered the artifacts are those of the same choices in any order that is allowed
/// (`headline`). One role alone writes of its choices what the undivided run writes of them (`plain`). Events are nothing but the
/// choices and deliveries that they are (`moves`).
pub fn output_laws()
    ensures headline { (w : Words) (g : P.Grammar) → IsAccepted w g → OutputsHold w g }
    ensures plain { (w : Words) (g : P.Grammar) → IsAccepted w g → OneRoleIsPlain w g }
    ensures moves { (g : P.Grammar) → EventsAreMoves g }
{}

/// Of a single site: whatever comes, forged messages too, it keeps its equations and nodes, and a guard that is decided stays so
/// (`stays`). A site of a world is what its own events make of an empty site (`fold`). No refusal of a choice says that it was
/// taken (`refusals`).
pub fn site_laws()
    ensures stays { (g : P.Grammar) → SiteStays g }
    ensures fold { (g : P.Grammar) → SiteIsFold g }
    ensures refusals { (g : P.Grammar) → RefusalsAreNotTaken g }
{}
