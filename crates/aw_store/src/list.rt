//! A store that scans a list.
ghost use Rattle.std.specs.Prelude.{◌≡◌, ◌≤◌, ◌+◌, ◌<◌, [], Contains, map, vec_len, vec_capacity};
ghost use Rattle.aw_store.specs.Equations.{Equation as PlainEquation};
ghost use Rattle.aw_store.specs.EquationView.{equation_of};
ghost use Rattle.aw_store.specs.ListStore.{IsSound, lacking};

use crate::adding::{add_to, reserve_in};
use crate::bodies::{child_of, find_body, kind_of, text_of};
use crate::equation::{Equation, Equations};
use crate::facts::{Added, Facts, Kind};
use crate::names::{name_one, slot_in};
use aw_list::Text;
use aw_name::Ref;
use std::alloc::{AllocError, Global};

/// Equations in a list, which is scanned.
#[derive(Debug, Drop)]
pub struct ListFacts {
    equations: Vec<Equation>,
    names: Vec<Ref>,
    ready: Vec<Equation>,
    ghost sound: { IsSound names.items (map equation_of equations.items) (map equation_of ready.items) },
    ghost room: { vec_len equations + lacking (map equation_of equations.items) (map equation_of ready.items) ≤ vec_capacity equations },
}

impl ListFacts {
    /// No equations, no names, and nothing ready. It takes no memory.
    pub fn new(alloc: Global) -> ListFacts
        ensures map { ⟦<ListFacts as Facts>⟧.map result ≡ [] }
        ensures names { ⟦<ListFacts as Facts>⟧.names result ≡ [] }
        ensures ready { (e : PlainEquation) → ¬ (⟦<ListFacts as Facts>⟧.is_ready result e) }
    {
        ListFacts {
            equations: Vec::new(alloc),
            names: Vec::new(alloc),
            ready: Vec::new(alloc),
        }
    }
}

impl Facts for ListFacts {
    ghost map = { λ f. map equation_of f.equations.items };

    ghost names = { λ f. f.names.items };

    ghost is_ready = { λ f e. Contains (map equation_of f.ready.items) e };

    ghost once = { λ f. f.sound.once };

    ghost all_named = { λ f. f.sound.named };

    ghost few = { λ f. f.sound.few };

    fn slot_of(&self, r: &Ref) -> Option<usize> {
        slot_in(self.names.as_slice(), r)
    }

    fn kind(&self, slot: usize) -> Kind {
        match find_body(self.equations.as_slice(), &self.names[slot]) {
            Some(body) => kind_of(self.names.as_slice(), body),
            None => Kind::Missing,
        }
    }

    fn child(&self, slot: usize, k: u8) -> usize {
        match find_body(self.equations.as_slice(), &self.names[slot]) {
            Some(body) => child_of(self.names.as_slice(), body, k),
            None => unreachable!(),
        }
    }

    fn name(&self, slot: usize) -> &Ref {
        &self.names[slot]
    }

    fn text(&self, slot: usize) -> &Text {
        match find_body(self.equations.as_slice(), &self.names[slot]) {
            Some(body) => text_of(body),
            None => unreachable!(),
        }
    }

    fn count(&self) -> usize {
        self.equations.len()
    }

    fn intern(&mut self, r: &Ref) -> Result<usize, AllocError> {
        name_one(&mut self.names, r)
    }

    fn reserve(&mut self, es: &Equations) -> Result<(), AllocError> {
        reserve_in(&mut self.equations, &mut self.names, &mut self.ready, es)
    }

    fn add(&mut self, e: Equation) -> Result<Added, AllocError> {
        add_to(&mut self.equations, &mut self.names, &mut self.ready, e)
    }
}
