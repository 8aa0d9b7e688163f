//! A store that finds references by hashes.
ghost use Rattle.std.specs.Prelude.{◌≡◌, [], true};
ghost use Rattle.aw_store.specs.Equations.{Equation as PlainEquation};
ghost use Rattle.aw_store.specs.NamedRefs.{has_names_of};
ghost use Rattle.aw_cells.specs.TableView.{names_of, map_of, IsTable};

use crate::adding::{add_to, name_equations};
use crate::hints::Hints;
use crate::naming::{name_one, slot_in};
use crate::reading::{child_of, kind_of, text_of};
use crate::table::Table;
use aw_list::Text;
use aw_name::Ref;
use aw_store::{Added, Equation, Equations, Facts, Kind};
use indexmap::IndexSet;
use slab::Slab;
use std::alloc::{AllocError, Global};

/// Equations by slots: each reference has the next slot, and each slot a body, which is written once. A name is found by its
/// hash, and what stands at a slot by its place: no call walks the store.
#[derive(Drop)]
pub struct CellFacts {
    table: Table,
    ghost sound: { IsTable table },
}

impl CellFacts {
    /// No equations, no names, and nothing ready. It takes no memory.
    pub fn new(alloc: Global) -> CellFacts
        ensures map { ⟦<CellFacts as Facts>⟧.map result ≡ [] }
        ensures names { ⟦<CellFacts as Facts>⟧.names result ≡ [] }
        ensures ready { (e : PlainEquation) → ¬ (⟦<CellFacts as Facts>⟧.is_ready result e) }
    {
        CellFacts {
            table: Table {
                names: IndexSet::new(alloc),
                cells: Slab::new(alloc),
                order: Vec::new(alloc),
                hints: Hints::new(alloc),
            },
        }
    }
}

impl Facts for CellFacts {
    ghost map = { λ f. map_of f.table };

    ghost names = { λ f. names_of f.table };

    // Room for a body is made when its reference is named, so adding takes no memory where each reference is named.
    ghost is_ready = { λ f e. has_names_of (names_of f.table) e ≡ true };

    ghost once = { λ f. f.sound.sound.once };

    ghost all_named = { λ f. f.sound.sound.named };

    ghost few = { λ f. f.sound.sound.few };

    fn slot_of(&self, r: &Ref) -> Option<usize> {
        slot_in(&self.table, r)
    }

    fn kind(&self, slot: usize) -> Kind {
        kind_of(&self.table.cells[slot])
    }

    fn child(&self, slot: usize, k: u8) -> usize {
        child_of(&self.table.cells[slot], k)
    }

    fn name(&self, slot: usize) -> &Ref {
        &self.table.names.as_slice()[slot]
    }

    fn text(&self, slot: usize) -> &Text {
        text_of(&self.table.cells[slot])
    }

    fn count(&self) -> usize {
        self.table.order.len()
    }

    fn intern(&mut self, r: &Ref) -> Result<usize, AllocError> {
        name_one(&mut self.table, r)
    }

    fn reserve(&mut self, es: &Equations) -> Result<(), AllocError> {
        name_equations(&mut self.table, es.as_slice())
    }

    fn add(&mut self, e: Equation) -> Result<Added, AllocError> {
        add_to(&mut self.table, e)
    }
}
