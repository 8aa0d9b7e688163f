//! What a role sends by, and the loads of its messages.
ghost use Rattle.std.specs.Prelude.{◌≡◌, ◌++◌, List, Option, None, true, IfOk, IfSome, OnOk, nat_eq, reverse, option_map, map as list_map};
ghost use Rattle.std.specs.Option.{option_copied};
ghost use Rattle.aw_base.specs.ChoiceFits.{ref_ok};
ghost use Rattle.aw_grammar.specs.GrammarOf.{grammar_of};
ghost use Rattle.aw_name.specs.declared.node.Ref.{Ref as RefName};
ghost use Rattle.aw_store.specs.Equations.{find, mentions};
ghost use Rattle.aw_store.specs.EquationView.{body_of, equation_of};
ghost use Rattle.aw_law_sites.specs.Homes.{home};
ghost use Rattle.aw_law_sites.specs.InOrder.{has_ref};
ghost use Rattle.aw_law_sites.specs.Loads.{Given, may_give, given_on, next_given, walk, load_of};
ghost use Rattle.aw_law_sites.specs.Sites as P;
ghost use Rattle.aw_law_sites.specs.ValidNames.{body_ok, refs_ok, equations_ok};
ghost use Rattle.aw_site.specs.Walks.{Gives, GivesFirst, listed, seen_with};

use crate::finding::{body_in_both, is_behind};
use crate::validity::valid_home;
use aw_base::Grammar;
use aw_name::{Ref, copy_ref};
use aw_store::{Body, Equation, Equations, Facts};
use aw_term::limits::MOST_OF_LOAD;
use aw_term::order::is_ref;
use std::alloc::{AllocError, Global};

/// What a role sends by: its grammar, its number, whether its messages carry loads, its store, and equations that are to come behind those of
/// the store. All of these equations are valid.
#[derive(Drop)]
pub struct Sender<'a, F: Facts> {
    pub alloc: Global,
    pub grammar: &'a Grammar,
    pub role: u16,
    pub loads: bool,
    pub facts: &'a F,
    pub more: &'a [Equation],
    pub ghost valid: { equations_ok (grammar_of grammar.now) (F.map facts.now ++ list_map equation_of more.now) ≡ true },
}

/// Adds copies of references so that the first is the last.
fn push_reversed(stack: &mut Vec<Ref>, refs: &[Ref]) -> Result<(), AllocError>
    ensures { OnOk result (reverse stack.new.items ≡ refs.now ++ reverse stack.old.items) }
{
    for i in 0..refs.len() {
        stack.push(copy_ref(&refs[refs.len() - 1 - i])?)?;
    }
    Ok(())
}

/// Adds copies of the references of a body so that the first is the last.
fn push_mentions(stack: &mut Vec<Ref>, body: &Body) -> Result<(), AllocError>
    ensures { OnOk result (reverse stack.new.items ≡ mentions (body_of body.now) ++ reverse stack.old.items) }
{
    match body {
        Body::Same(r) => {
            stack.push(copy_ref(r)?)?;
            Ok(())
        }
        Body::Con(_, parts) => push_reversed(stack, parts.as_slice()),
        Body::Num(_) | Body::Text(_) => Ok(()),
    }
}

/// Whether a reference is the given one.
fn is_first(first: Option<&Ref>, r: &Ref) -> bool
    ensures { result ≡ has_ref r.now (listed (option_copied first.entry)) }
{
    match first {
        Some(left) => is_ref(r, left),
        None => false,
    }
}

/// Whether a reference is a left side in a message: the given one, or one of its load.
fn is_seen(first: Option<&Ref>, load: &[Equation], r: &Ref) -> bool
    ensures { result ≡ has_ref r.now (seen_with load.now (listed (option_copied first.entry))) }
{
    is_first(first, r) || is_behind(load, r)
}

impl<'a, F: Facts> Sender<'a, F> {
    ghost use Rattle.aw_site.specs.Senders.{SendsAs};

    /// Whether a valid reference is this role's. Only the last step of its name is looked at.
    pub fn is_own(&self, r: &Ref) -> bool
        requires { ref_ok (grammar_of self.now.grammar.now) r.now ≡ true }
        ensures { result ≡ nat_eq (home (grammar_of self.now.grammar.now) r.now.node) self.now.role }
    {
        valid_home(self.grammar, &r.node) == self.role
    }

    /// Whether a valid reference may give its equation to a load: it is this role's, and no left side in the message yet.
    fn may_give(&self, first: Option<&Ref>, load: &[Equation], r: &Ref) -> bool
        requires { ref_ok (grammar_of self.now.grammar.now) r.now ≡ true }
        ensures { (s : P.Site) → SendsAs ⟦<F as Facts>⟧ self.now s →
            result ≡ may_give (grammar_of self.now.grammar.now) s (seen_with load.now (listed (option_copied first.entry))) r.now }
    {
        self.is_own(r) && !is_seen(first, load, r)
    }

    /// A copy of the body that a valid reference gives to a load, where it may give one and has an equation here. It is valid.
    fn given(
        &self,
        first: Option<&Ref>,
        load: &[Equation],
        r: &Ref,
    ) -> Result<Option<Body>, AllocError>
        requires { ref_ok (grammar_of self.now.grammar.now) r.now ≡ true }
        ensures valid { IfOk result (λ body. IfSome body (λ b. body_ok (grammar_of self.now.grammar.now) (body_of b) ≡ true)) }
        ensures gives { IfOk result (λ body. (s : P.Site) → SendsAs ⟦<F as Facts>⟧ self.now s → (rs : List RefName) (later : Option Given) →
            given_on (may_give (grammar_of self.now.grammar.now) s (seen_with load.now (listed (option_copied first.entry))) r.now) r.now (find s.equations r.now) rs later
            ≡ given_on true r.now (option_map body_of body) rs later) }
    {
        if self.may_give(first, load, r) {
            body_in_both(self.alloc, self.facts, self.more, r)
        } else {
            Ok(None)
        }
    }

    /// The equation of a valid reference, where it gives one to a load; the references of its body are then looked at before those that
    /// stand there, and are valid too.
    fn give(
        &self,
        first: Option<&Ref>,
        load: &[Equation],
        stack: &mut Vec<Ref>,
        r: Ref,
    ) -> Result<Option<Equation>, AllocError>
        requires { ref_ok (grammar_of self.now.grammar.now) r ≡ true }
        ensures valid { OnOk result (refs_ok (grammar_of self.now.grammar.now) (reverse stack.old.items) ≡ true → refs_ok (grammar_of self.now.grammar.now) (reverse stack.new.items) ≡ true) }
        ensures gives { IfOk result (λ e. (s : P.Site) → SendsAs ⟦<F as Facts>⟧ self.now s → (later : Option Given) →
            GivesFirst (given_on (may_give (grammar_of self.now.grammar.now) s (seen_with load.now (listed (option_copied first.entry))) r) r (find s.equations r) (reverse stack.old.items) later)
            later e (reverse stack.new.items)) }
        ensures none { IfOk result (λ e. e ≡ None → stack.new.items ≡ stack.old.items) }
    {
        match self.given(first, load, &r)? {
            Some(body) => {
                push_mentions(stack, &body)?;
                Ok(Some(Equation { left: r, body }))
            }
            None => Ok(None),
        }
    }

    /// The next equation of a load. The valid references that are to be looked at stand with the next one last; those that give nothing
    /// are taken away, and where one gives its equation, the references of its body are put in its place.
    fn next_given(
        &self,
        first: Option<&Ref>,
        load: &[Equation],
        stack: &mut Vec<Ref>,
    ) -> Result<Option<Equation>, AllocError>
        requires { refs_ok (grammar_of self.now.grammar.now) (reverse stack.old.items) ≡ true }
        ensures valid { IfOk result (λ e. IfSome e (λ x. refs_ok (grammar_of self.now.grammar.now) (reverse stack.new.items) ≡ true)) }
        ensures gives { IfOk result (λ e. (s : P.Site) → SendsAs ⟦<F as Facts>⟧ self.now s →
            Gives (next_given (grammar_of self.now.grammar.now) s (seen_with load.now (listed (option_copied first.entry))) (reverse stack.old.items)) e (reverse stack.new.items)) }
    {
        while let Some(r) = stack.pop() {
            if let Some(e) = self.give(first, load, stack, r)? {
                return Ok(Some(e));
            }
        }
        Ok(None)
    }

    /// The equations that valid references lead to, depth first, a number of them at most.
    fn walk(
        &self,
        first: Option<&Ref>,
        refs: &[Ref],
        most: usize,
    ) -> Result<Vec<Equation>, AllocError>
        requires { refs_ok (grammar_of self.now.grammar.now) refs.now ≡ true }
        ensures load { IfOk result (λ load. (s : P.Site) → SendsAs ⟦<F as Facts>⟧ self.now s →
            list_map equation_of load.items ≡ walk most (grammar_of self.now.grammar.now) s (listed (option_copied first.entry)) refs.now) }
    {
        let mut stack = Vec::new(self.alloc);
        push_reversed(&mut stack, refs)?;
        let mut load = Vec::new(self.alloc);
        for i in 0..most {
            match self.next_given(first, load.as_slice(), &mut stack)? {
                Some(e) => load.push(e)?,
                None => return Ok(load),
            }
        }
        Ok(load)
    }

    /// The load of a message with these valid references: the equations that they lead to, depth first, where this role sends loads. The
    /// given reference is a left side in the message already. It takes no more memory than they need, as messages stay.
    pub fn load(&self, first: Option<&Ref>, refs: &[Ref]) -> Result<Equations, AllocError>
        requires { refs_ok (grammar_of self.now.grammar.now) refs.now ≡ true }
        ensures { IfOk result (λ load. (s : P.Site) → SendsAs ⟦<F as Facts>⟧ self.now s →
            list_map equation_of load ≡ load_of (grammar_of self.now.grammar.now) s (listed (option_copied first.entry)) refs.now) }
    {
        if self.loads {
            let mut load = self.walk(first, refs, MOST_OF_LOAD)?;
            load.shrink_to_fit();
            Ok(Equations::from_vec(load))
        } else {
            Ok(Equations::new(self.alloc))
        }
    }
}
