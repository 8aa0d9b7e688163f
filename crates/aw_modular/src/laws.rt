//! What holds of a grammar whose roles were checked apart, apart from any code.
ghost use Rattle.std.specs.Prelude.{ℕ, List};
ghost use Rattle.aw_base.specs.declared.declared.Triple.{Triple};
ghost use Rattle.aw_term.specs.Rules as P;
ghost use Rattle.aw_modular.specs.Roles.{IsClosedFor, HasOwnRules, Declares, Mixed, RoleRelation, DeclaredElsewhere, Part, IsJoined, AllSayYes, LiesWithin};
ghost use Rattle.aw_grammar.specs.declared.grammar.Grammar.{Grammar};
ghost use Rattle.aw_modular.specs.declared.yes.RoleYes.{RoleYes};
ghost use Rattle.aw_modular.specs.Wholes.{ArePartsOf, HaveRoles, WouldFit};
ghost use Rattle.aw_iograph.specs.Dependence.{IO, Follows, HasNoCircle, IsHeldBy};

use aw_iograph::Related;

/// Where every role says yes with the same offers and declarations, the dependence relation of the whole lies within the
/// relations of the roles (`within`), and no value of the whole depends on itself (`no_circle`).
pub fn joining_laws()
    ensures within { (offers : List ℕ) (declared : List Triple) (parts : List Part) (g : P.Grammar) → IsJoined parts g → AllSayYes offers declared 0 parts → LiesWithin declared parts g }
    ensures no_circle { (offers : List ℕ) (declared : List Triple) (parts : List Part) (g : P.Grammar) → IsJoined parts g → AllSayYes offers declared 0 parts → HasNoCircle g (IO g) }
{}

/// The relation of a role is closed under its rules (`closed`). With what is declared it is what follows under them from what is declared of the sorts of others (`follows`,
/// `only`).
pub fn role_laws()
    ensures closed { (g : P.Grammar) (role : ℕ) (declared : List Triple) → IsClosedFor g role (Declares declared) (RoleRelation g role (Declares declared)) }
    ensures follows { (g : P.Grammar) (role : ℕ) (declared : List Triple) → HasOwnRules role g → (s i j : ℕ) →
        Mixed g role (RoleRelation g role (Declares declared)) (Declares declared) s i j → Follows g (DeclaredElsewhere g role (Declares declared)) s i j }
    ensures only { (g : P.Grammar) (role : ℕ) (declared : List Triple) → HasOwnRules role g → (s i j : ℕ) →
        Follows g (DeclaredElsewhere g role (Declares declared)) s i j → Mixed g role (RoleRelation g role (Declares declared)) (Declares declared) s i j }
{}

/// The relation of a role lies within each that is closed under its rules.
pub fn least_role_relation<R: Related>()
    ensures { (g : P.Grammar) (role : ℕ) (declared : List Triple) →
        IsClosedFor g role (Declares declared) R.relates → IsHeldBy (RoleRelation g role (Declares declared)) R.relates }
{}

/// The parts of one grammar, one for each role in order, are each of the role of its place (`order`), and would be well
/// formed together (`fit`).
pub fn parting_laws()
    ensures order { (g : Grammar) (role : ℕ) (ys : List RoleYes) → ArePartsOf g role ys → HaveRoles role ys }
    ensures fit { (g : Grammar) (ys : List RoleYes) → ArePartsOf g 0 ys → WouldFit ys }
{}
