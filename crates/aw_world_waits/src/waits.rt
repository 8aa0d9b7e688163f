//! What a wait at a workspace says of the undivided configuration, apart from any code.
ghost use Rattle.aw_term.specs.Artifacts.{Words};
ghost use Rattle.aw_term.specs.Rules as P;
ghost use Rattle.aw_store.specs.Equations.{Map};
ghost use Rattle.aw_law_sites.specs.Laws.{IsAccepted, IsSubmap, WaitsStays};
ghost use Rattle.aw_world_waits.specs.SiteWaits.{WaitsThereToo};

/// A guard that waits over the equations of a workspace for a result of a node on which no choice was taken waits for it
/// over all equations (`stays`), and so the one node waits for the other in the undivided configuration (`there_too`).
pub fn site_laws()
    ensures stays { (k l : Map) → IsSubmap k l → WaitsStays k l }
    ensures there_too { (w : Words) (g : P.Grammar) → IsAccepted w g → WaitsThereToo g }
{}
