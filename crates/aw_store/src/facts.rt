//! Stores of equations, by what a contract can see of them.
ghost use Rattle.std.specs.Prelude.{◌≡◌, ◌<◌, ◌++◌, ◌∷◌, [], None, List, Some, true, false, IfOk, OnOk, OnErr, IsOk, IsSome, MatchOption, Contains, length, map as list_map, slice_get};
ghost use Rattle.aw_term.specs.Names.{Ref as RefName};
ghost use Rattle.aw_store.specs.Equations.{Equation as PlainEquation, Map, find, mentions};
ghost use Rattle.aw_store.specs.EquationView.{body_of, equation_of};
ghost use Rattle.aw_store.specs.NamedRefs.{is_named, has_names, has_names_of, AreNamed, with_name, refs_in, all_refs_in, IsNamedOnce, Grows, NamesOnly, body_at, parts_at, text_at};
ghost use Rattle.aw_store.specs.StoreView.{IsKindOf, Adds, IsAddable, has_few, all_few};

use crate::equation::{Body, Equation, Equations};
use aw_list::Text;
use aw_name::{Ref, Refs};
use std::alloc::AllocError;

/// What stands at a slot.
#[derive(Clone, Copy, Debug, PartialEq, Eq)]
pub enum Kind {
    /// The reference has no equation.
    Missing,
    /// It is the reference of another slot.
    Same(usize),
    /// A constructor, and how many parts it has.
    Con(u16, u8),
    Num(u64),
    /// A text, which `text` gives.
    Text,
}

/// What adding an equation comes to.
#[derive(Debug, PartialEq, Eq, Drop)]
pub enum Added {
    /// The left side had no equation.
    New,
    /// It had this one.
    Same,
    /// It had another one, which stays.
    Conflict { kept: Body, came: Body },
}

/// Where a chase ends.
#[derive(Clone, Copy, Debug, PartialEq, Eq)]
pub enum Chase {
    /// At a slot with a constructor, a number or a text.
    Found(usize),
    /// At a slot whose reference has no equation.
    Missing(usize),
    /// Nowhere: it goes round. This is the slot where it started.
    Circle(usize),
}

/// What is held under a name: the inherited references of a node, or the body of a reference.
#[derive(Debug, PartialEq, Eq, Drop)]
pub enum Content {
    Inherited(Refs),
    Body(Body),
}

/// A finite map from references to bodies, and a list of named references, which has each left side and each reference
/// in a body. A slot is a place in that list; it never changes its name.
pub trait Facts {
    /// The equations, in the order in which they came.
    ghost map: { Self → Map };

    /// The named references, by slot.
    ghost names: { Self → List RefName };

    /// Whether memory was taken for adding an equation. A call whose clauses say nothing of it may let it go.
    ghost is_ready: { Self → PlainEquation → Type 0 };

    /// The slot of a reference, or none where it is not named.
    fn slot_of(&self, r: &Ref) -> Option<usize>
        ensures { MatchOption result (is_named (names self.now) r.now ≡ false) (λ slot. slice_get (names self.now) slot ≡ Some r.now) };

    /// What stands at a slot.
    fn kind(&self, slot: usize) -> Kind
        requires { slot < length (names self.now) }
        ensures { IsKindOf (names self.now) (body_at (map self.now) (names self.now) slot) result };

    /// The slot of part k, from 0, of the constructor at a slot.
    fn child(&self, slot: usize, k: u8) -> usize
        requires { k < length (parts_at (map self.now) (names self.now) slot) }
        ensures { slice_get (names self.now) result ≡ slice_get (parts_at (map self.now) (names self.now) slot) k };

    /// The reference of a slot.
    fn name(&self, slot: usize) -> &Ref
        requires { slot < length (names self.now) }
        ensures { slice_get (names self.now) slot ≡ Some result.now };

    /// The text at a slot where a text stands.
    fn text(&self, slot: usize) -> &Text
        requires { IsSome (text_at (map self.now) (names self.now) slot) }
        ensures { text_at (map self.now) (names self.now) slot ≡ Some result.now };

    /// How many equations there are.
    fn count(&self) -> usize
        ensures { result ≡ length (map self.now) };

    /// The slot of a reference, which is named, at the end, where it was not. One that is named gets no error. An error
    /// changes neither the equations nor the names.
    fn intern(&mut self, r: &Ref) -> Result<usize, AllocError>
        ensures map { map self.new ≡ map self.old }
        ensures names { Grows (names self.old) (names self.new) }
        ensures ok { OnOk result (names self.new ≡ with_name (names self.old) r.now) }
        ensures slot { IfOk result (λ slot. slice_get (names self.new) slot ≡ Some r.now) }
        ensures err { OnErr result (names self.new ≡ names self.old) }
        ensures named { is_named (names self.old) r.now ≡ true → IsOk result };

    /// Takes the memory for adding these equations, and names their references, no others. A constructor has few
    /// references. An error leaves the equations as they were, may have named some of these references, and leaves any
    /// equations ready, or none.
    fn reserve(&mut self, es: &Equations) -> Result<(), AllocError>
        requires { all_few (list_map equation_of es.now) ≡ true }
        ensures map { map self.new ≡ map self.old }
        ensures names { Grows (names self.old) (names self.new) }
        ensures only { NamesOnly (names self.old) (names self.new) (all_refs_in (list_map equation_of es.now)) }
        ensures named { OnOk result (has_names (names self.new) (list_map equation_of es.now) ≡ true) }
        ensures ready { OnOk result ((e : PlainEquation) → Contains (list_map equation_of es.now) e → is_ready self.new e) };

    /// Adds an equation where its left side has none; its references are named, no others. A constructor has few
    /// references. Where the left side has an equation, nothing changes, neither names nor what is ready, also on an error.
    /// Else an error leaves the equations as they were, and may have named some of these references. There is no error for
    /// an equation that is ready, but where the left side has another one.
    fn add(&mut self, e: Equation) -> Result<Added, AllocError>
        requires { has_few (equation_of e) ≡ true }
        ensures added { IfOk result (λ added. Adds (map self.old) e added (map self.new)) }
        ensures err { OnErr result (map self.new ≡ map self.old) }
        ensures names { Grows (names self.old) (names self.new) }
        ensures only { NamesOnly (names self.old) (names self.new) (refs_in (equation_of e)) }
        ensures kept_names { IsSome (find (map self.old) e.left) → names self.new ≡ names self.old }
        ensures kept_ready { IsSome (find (map self.old) e.left) → (x : PlainEquation) → is_ready self.old x → is_ready self.new x }
        ensures ready { is_ready self.old (equation_of e) → (x : PlainEquation) → is_ready self.old x → is_ready self.new x }
        ensures sure { is_ready self.old (equation_of e) → IsAddable (map self.old) (equation_of e) → IsOk result };

    /// The same of equations whose references are named already. It names nothing.
    fn reserve_named(&mut self, es: &Equations) -> Result<(), AllocError>
        requires few { all_few (list_map equation_of es.now) ≡ true }
        requires named { has_names (names self.old) (list_map equation_of es.now) ≡ true }
        ensures map { map self.new ≡ map self.old }
        ensures names { names self.new ≡ names self.old }
        ensures ready { OnOk result ((e : PlainEquation) → Contains (list_map equation_of es.now) e → is_ready self.new e) }
    {
        self.reserve(es)
    }

    /// Adds an equation that is ready, whose left side has this slot and no equation, and the references of whose body have these slots.
    /// It takes no memory, and names nothing.
    fn add_at(&mut self, left: usize, _parts: &[usize], e: Equation)
        requires few { has_few (equation_of e) ≡ true }
        requires at { slice_get (names self.old) left ≡ Some e.left }
        requires parts { AreNamed (names self.old) _parts.now (mentions (body_of e.body)) }
        requires named { has_names_of (names self.old) (equation_of e) ≡ true }
        requires ready { is_ready self.old (equation_of e) }
        requires lacks { find (map self.old) e.left ≡ None }
        ensures map { map self.new ≡ map self.old ++ equation_of e ∷ [] }
        ensures names { names self.new ≡ names self.old }
        ensures ready { (x : PlainEquation) → is_ready self.old x → is_ready self.new x }
    {
        match self.add(e) {
            Ok(Added::New) => {}
            _ => unreachable!(),
        }
    }

    /// No reference is named twice.
    ghost once: { (x : Self) → IsNamedOnce (names x) };

    /// Each left side is named, and each reference in a body.
    ghost all_named: { (x : Self) → has_names (names x) (map x) ≡ true };

    /// Each constructor has few references.
    ghost few: { (x : Self) → all_few (map x) ≡ true };
}
