//! Calls that are drawn: the same ones for the same seed.
ghost use Rattle.std.specs.Prelude.{◌<◌};

use crate::call::Call;
use aw_list::Text;
use aw_name::{Node, Ref, Refs, Slot, Step, Trail};
use aw_store::{Body, Equation, Equations};
use std::alloc::{AllocError, Global};

/// Numbers that follow one another from a seed.
#[derive(Drop)]
pub struct Draws {
    state: u64,
}

impl Draws {
    /// The numbers of a seed.
    pub fn new(seed: u64) -> Draws {
        Draws { state: seed }
    }

    /// The next number, below `most`.
    fn draw(&mut self, most: u64) -> u64
        requires { 0 < most }
        ensures { result < most }
    {
        self.state = self
            .state
            .wrapping_mul(6_364_136_223_846_793_005)
            .wrapping_add(1_442_695_040_888_963_407);
        (self.state >> 33) % most
    }

    fn steps(&mut self, alloc: Global) -> Result<Trail, AllocError> {
        if self.draw(2) == 0 {
            return Ok(Trail::new(alloc));
        }
        let mut steps = Vec::new(alloc);
        steps.push(Step {
            rule: self.draw(2) as u16,
            child: 1,
        })?;
        Trail::from_vec(steps)
    }

    fn slot(&mut self) -> Slot {
        match self.draw(4) {
            0 => Slot::Result(1),
            1 => Slot::Result(2),
            2 => Slot::Part(1),
            _ => Slot::Part(2),
        }
    }

    fn reference(&mut self, alloc: Global) -> Result<Ref, AllocError> {
        let start = self.draw(2) as u16;
        let case = self.draw(20);
        let steps = self.steps(alloc)?;
        let slot = self.slot();
        Ok(Ref {
            node: Node { start, case, steps },
            slot,
        })
    }

    fn parts(&mut self, alloc: Global) -> Result<Refs, AllocError> {
        let mut refs = Vec::new(alloc);
        for _ in 0..self.draw(4) {
            refs.push(self.reference(alloc)?)?;
        }
        Refs::from_vec(refs)
    }

    fn body(&mut self, alloc: Global) -> Result<Body, AllocError> {
        match self.draw(8) {
            0..=4 => Ok(Body::Same(self.reference(alloc)?)),
            5 => {
                let con = self.draw(3) as u16;
                Ok(Body::Con(con, self.parts(alloc)?))
            }
            6 => Ok(Body::Num(self.draw(3))),
            _ => {
                let letter = b'a' + self.draw(3) as u8;
                Ok(Body::Text(Text::from_bytes(alloc, &[letter])?))
            }
        }
    }

    fn equation(&mut self, alloc: Global) -> Result<Equation, AllocError> {
        let left = self.reference(alloc)?;
        let body = self.body(alloc)?;
        Ok(Equation { left, body })
    }

    fn equations(&mut self, alloc: Global) -> Result<Equations, AllocError> {
        let mut es = Vec::new(alloc);
        for _ in 0..self.draw(4) {
            es.push(self.equation(alloc)?)?;
        }
        Ok(Equations::from_vec(es))
    }

    /// The next call.
    pub fn call(&mut self, alloc: Global) -> Result<Call, AllocError> {
        match self.draw(8) {
            0 => Ok(Call::Name(self.reference(alloc)?)),
            1 => Ok(Call::Slot(self.reference(alloc)?)),
            2 => Ok(Call::Reserve(self.equations(alloc)?)),
            3..=5 => Ok(Call::Add(self.equation(alloc)?)),
            6 => Ok(Call::Read(self.reference(alloc)?)),
            _ => Ok(Call::Chase(self.reference(alloc)?)),
        }
    }
}
