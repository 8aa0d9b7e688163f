//! What holds of what is kept, apart from any code.
ghost use Rattle.std.specs.Prelude.{◌≡◌, ℕ, List, Some, slice_get};
ghost use Rattle.aw_term.specs.Names.{Ref};
ghost use Rattle.aw_term.specs.Rules.{Grammar};
ghost use Rattle.aw_store.specs.Equations.{Map};
ghost use Rattle.aw_store.specs.NamedRefs.{Grows, IsNamedOnce};
ghost use Rattle.aw_law_sites.specs.Laws.{IsSubmap};
ghost use Rattle.aw_node_list.specs.Row.{Row};
ghost use Rattle.aw_node_list.specs.HeldView.{all_of};
ghost use Rattle.aw_law_sites.specs.Worklists.{site_worklist};
ghost use Rattle.aw_work.specs.Triples.{waiting_at};
ghost use Rattle.aw_standing.specs.declared.kept.Kept.{Kept};
ghost use Rattle.aw_standing.specs.Items.{waiting_on};
ghost use Rattle.aw_standing.specs.KeptStates.{AreLate, IsKept, IsKeptBut, StaysKept};

/// What is kept stays so where references are named (`named`), and where equations come, but for the rules that wait for
/// their left sides (`grown`). And as many pairs wait for the slot of a reference as items of the worklist wait for the
/// reference (`waiting`).
pub fn kept_laws()
    ensures named { (g : Grammar) (row : Row) (k : Map) (names more late : List Ref) (kept : Kept) → Grows names more →
        IsKeptBut g row k names late kept → IsKeptBut g row k more late kept }
    ensures grown { (g : Grammar) (row : Row) (k l : Map) (names late later : List Ref) (kept : Kept) → IsSubmap k l → AreLate k l late later →
        StaysKept g row k l names late later kept }
    ensures waiting { (g : Grammar) (row : Row) (k : Map) (names : List Ref) (kept : Kept) (slot : ℕ) (r : Ref) → IsNamedOnce names →
        slice_get names slot ≡ Some r → IsKept g row k names kept →
        waiting_at slot kept.work.waiting ≡ waiting_on r (site_worklist g k (all_of g row.items)) }
{}
