//! The laws of cases, of every grammar.
ghost use Rattle.aw_law_cases.specs.CaseWorlds.{CasesDoNotMeet, RepliesAreKept};
ghost use Rattle.aw_law_cases.specs.Cases.{SiteKeepsCases};
ghost use Rattle.aw_law_cases.specs.Ties.{OnlyForgedOnesTie, OnlyNewOnesTie};
ghost use Rattle.aw_term.specs.Rules.{Grammar};

/// Take any set of cases. What a world holds of them, sites, messages, what was delivered and what was taken, in their order, is the
/// world of their own events (`worlds`), with loads and without, and each of these events is replied the same there (`replies`). Of a
/// single site, whatever messages come, honest or forged: where none of them names cases of both sides, what the site holds of the one
/// side is what the events of that side make of it (`sites`).
pub fn case_laws()
    ensures worlds { (g : Grammar) → CasesDoNotMeet g }
    ensures replies { (g : Grammar) → RepliesAreKept g }
    ensures sites { (g : Grammar) → SiteKeepsCases g }
{}

/// What ties cases together where anything is forged. At a single site a message that was refused or known does nothing, whatever it names: where none
/// that was new names cases of both sides, what the site holds of the one side is what the events of that side make of it, and what it sends names no
/// cases of both sides either (`new`). So in a system in which anything is forged at any roles, messages that workspaces sent tie no cases: where no
/// forged message that was new names cases of both sides, each site holds of either side what the events of that side make of it there (`forged`).
pub fn tie_laws()
    ensures new { (g : Grammar) → OnlyNewOnesTie g }
    ensures forged { (g : Grammar) → OnlyForgedOnesTie g }
{}
