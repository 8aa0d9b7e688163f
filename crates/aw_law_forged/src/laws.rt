//! The laws of forged letters, of every grammar; those that say which names are valid, of every well-formed one.
ghost use Rattle.aw_law_forged.specs.Forged.{OwnEquationsAreMade, SaysOnce, SentIsOwnWord};
ghost use Rattle.aw_law_forged.specs.Told.{ChildrenAreCalled, EquationsAreBrought, SentIsValid, TruthAgrees, TruthIsTakenIn};
ghost use Rattle.aw_term.specs.Artifacts.{Words};
ghost use Rattle.aw_term.specs.Rules.{Grammar};
ghost use Rattle.aw_term.specs.WellFormed.{IsWellFormed};

/// Take a site at which choices of its own role are made and to which any messages come, in any order, honest or forged. The equations of
/// its own references are just those that its own taken choices made, in their order (`own`). Whatever it sends is its own word (`sent`): a child
/// that such a choice called, a question of its own, or an equation that such a choice made, and each load is of such equations alone. And it
/// says nothing twice (`once`): it calls each child once, asks for each reference once, and tells each reference to each role once.
pub fn forged_laws()
    ensures own { (g : Grammar) → OwnEquationsAreMade g }
    ensures sent { (g : Grammar) → SentIsOwnWord g }
    ensures once { (g : Grammar) → SaysOnce g }
{}

/// Take the sites of all roles, to each of which any messages come. What a site knows of another role's reference came with a message that was
/// new, and is so at the reference's home if a workspace sent that message (`brought`); and so of each child that it works on (`called`). A site to
/// which nothing forged was new agrees with all homes, whatever these were told (`agrees`).
pub fn told_laws()
    ensures brought { (g : Grammar) → EquationsAreBrought g }
    ensures called { (g : Grammar) → ChildrenAreCalled g }
    ensures agrees { (g : Grammar) → TruthAgrees g }
{}

/// A message that a workspace sent is refused at no site for its names, or as not for its role (`valid`): where it is not taken in, it contradicts
/// what is held there. A site to which nothing forged was new takes in each of them, whatever the others were told (`taken`).
pub fn heard_laws()
    ensures valid { (words : Words) (g : Grammar) → IsWellFormed words g → SentIsValid g }
    ensures taken { (words : Words) (g : Grammar) → IsWellFormed words g → TruthIsTakenIn g }
{}
