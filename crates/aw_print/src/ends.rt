//! Where chases end. That is kept while the lines of one store are printed, so that no chain of references is followed
//! once for each line.
ghost use Rattle.std.specs.Prelude.{◌≡◌, ◌<◌, ◌⊎◌, ℕ, IfOk, IfSome, OnOk, length};
ghost use Rattle.aw_store.specs.declared.facts.Chase.{Chase as ChaseOf};
ghost use Rattle.aw_print.specs.Ends.{AreEnds, Keeps, KeepsNone, EndsAt, IsStep, NamesNext, end_at};

use aw_store::{Chase, Facts, Kind, chase};
use std::alloc::{AllocError, Global};

/// One step of a chase: it ends, or it goes on to another slot.
#[derive(Clone, Copy, Debug, PartialEq, Eq)]
enum Step {
    End(Chase),
    On(usize),
}

/// Where the chases from slots of one store end, as far as that is kept.
#[derive(Drop)]
pub struct Ends {
    kept: Vec<Option<Chase>>,
}

/// The end of a chase, told of a slot on its way: a chase that goes round names the slot where it started.
fn told_at(slot: usize, end: Chase) -> Chase
    ensures { result ≡ end_at slot end }
{
    match end {
        Chase::Found(at) => Chase::Found(at),
        Chase::Missing(at) => Chase::Missing(at),
        Chase::Circle(_) => Chase::Circle(slot),
    }
}

impl Ends {
    /// Nothing is kept. It takes no memory.
    pub fn new(alloc: Global) -> Ends
        ensures { KeepsNone result }
    {
        Ends {
            kept: Vec::new(alloc),
        }
    }

    /// Makes room for a slot.
    fn make_room(&mut self, at: usize) -> Result<(), AllocError>
        ensures { OnOk result ((i : ℕ) (x : ChaseOf) → Keeps self.new i x → Keeps self.old i x) }
    {
        if at < self.kept.len() {
            return Ok(());
        }
        self.kept.resize(at.saturating_add(1), None)
    }

    /// Keeps where the chase from a slot ends.
    fn keep(&mut self, at: usize, end: Chase) -> Result<(), AllocError>
        ensures { OnOk result ((i : ℕ) (x : ChaseOf) → Keeps self.new i x → ((i ≡ at) × (x ≡ end)) ⊎ Keeps self.old i x) }
    {
        self.make_room(at)?;
        if at < self.kept.len() {
            self.kept[at] = Some(end);
        }
        Ok(())
    }

    /// One step of a chase, which ends where an end is kept.
    fn look<F: Facts>(&self, f: &F, at: usize) -> Step
        requires live { at < length (F.names f.now) }
        requires ends { AreEnds (F.map f.now) (F.names f.now) self.now }
        ensures { IsStep (F.map f.now) (F.names f.now) at result }
    {
        if let Some(Some(end)) = self.kept.get(at) {
            return Step::End(*end);
        }
        match f.kind(at) {
            Kind::Missing => Step::End(Chase::Missing(at)),
            Kind::Same(next) => Step::On(next),
            Kind::Con(_, _) | Kind::Num(_) | Kind::Text => Step::End(Chase::Found(at)),
        }
    }

    /// Where the chase from a slot ends. It follows equations up to a slot whose end is kept.
    fn end_from<F: Facts>(&self, f: &F, slot: usize) -> Chase
        requires live { slot < length (F.names f.now) }
        requires ends { AreEnds (F.map f.now) (F.names f.now) self.now }
        ensures { EndsAt (F.map f.now) (F.names f.now) slot result }
    {
        let mut at = slot;
        for i in 0..f.count() {
            match self.look(f, at) {
                Step::On(next) => at = next,
                Step::End(end) => return told_at(slot, end),
            }
        }
        chase(f, slot)
    }

    /// Keeps the end of a slot, and gives the slot to which its chase goes on, unless an end was kept here.
    fn keep_step<F: Facts>(
        &mut self,
        f: &F,
        at: usize,
        end: Chase,
    ) -> Result<Option<usize>, AllocError>
        requires live { at < length (F.names f.now) }
        requires ends { AreEnds (F.map f.now) (F.names f.now) self.old }
        requires end { EndsAt (F.map f.now) (F.names f.now) at (end_at at end) }
        ensures ends { OnOk result (AreEnds (F.map f.now) (F.names f.now) self.new) }
        ensures next { IfOk result (λ o. IfSome o (λ next. NamesNext (F.map f.now) (F.names f.now) at next)) }
    {
        let step = self.look(f, at);
        self.keep(at, told_at(at, end))?;
        match step {
            Step::On(next) => Ok(Some(next)),
            Step::End(_) => Ok(None),
        }
    }

    /// Keeps the end of each slot on the way of a chase, up to one whose end was kept.
    fn keep_way<F: Facts>(&mut self, f: &F, slot: usize, end: Chase) -> Result<(), AllocError>
        requires live { slot < length (F.names f.now) }
        requires ends { AreEnds (F.map f.now) (F.names f.now) self.old }
        requires end { EndsAt (F.map f.now) (F.names f.now) slot end }
        ensures { OnOk result (AreEnds (F.map f.now) (F.names f.now) self.new) }
    {
        let mut at = slot;
        for i in 0..f.count() {
            match self.keep_step(f, at, end)? {
                Some(next) => at = next,
                None => return Ok(()),
            }
        }
        Ok(())
    }

    /// Where the chase from a slot ends that names another one. It is kept for each slot on the way.
    fn follow<F: Facts>(&mut self, f: &F, slot: usize) -> Result<Chase, AllocError>
        requires live { slot < length (F.names f.now) }
        requires ends { AreEnds (F.map f.now) (F.names f.now) self.old }
        ensures ends { OnOk result (AreEnds (F.map f.now) (F.names f.now) self.new) }
        ensures end { IfOk result (λ end. EndsAt (F.map f.now) (F.names f.now) slot end) }
    {
        let end = self.end_from(f, slot);
        self.keep_way(f, slot, end)?;
        Ok(end)
    }

    /// Where the chase from a slot ends. Where it follows equations, its end is kept for each slot on the way.
    pub(crate) fn chase<F: Facts>(&mut self, f: &F, slot: usize) -> Result<Chase, AllocError>
        requires live { slot < length (F.names f.now) }
        requires ends { AreEnds (F.map f.now) (F.names f.now) self.old }
        ensures ends { OnOk result (AreEnds (F.map f.now) (F.names f.now) self.new) }
        ensures end { IfOk result (λ end. EndsAt (F.map f.now) (F.names f.now) slot end) }
    {
        match self.look(f, slot) {
            Step::End(end) => Ok(end),
            Step::On(_) => self.follow(f, slot),
        }
    }
}
