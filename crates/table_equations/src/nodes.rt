//! The nodes of a size, and what each of them names.
ghost use Rattle.std.specs.Prelude.{◌≡◌, ◌≤◌, true, IfOk, length, map};
ghost use Rattle.aw_store.specs.Equations.{mentions};
ghost use Rattle.aw_store.specs.EquationView.{body_of, equation_of};
ghost use Rattle.aw_store.specs.StoreView.{has_few, all_few};

use aw_list::Text;
use aw_name::{Node, Ref, Refs, Slot, Step, Trail, copy_node};
use aw_store::{Body, Equation, Equations};
use std::alloc::{AllocError, Global};

/// How many nodes there are, and how deep they are.
#[derive(Clone, Copy)]
pub enum Size {
    /// 2,500 nodes of 1 to 3 steps.
    Small,
    /// 250,000 nodes of 1 to 3 steps.
    Wide,
    /// 10,000 nodes of 100 steps.
    Deep,
}

impl Size {
    /// How many nodes there are.
    pub fn count(self) -> u64 {
        match self {
            Size::Small => 2_500,
            Size::Wide => 250_000,
            Size::Deep => 10_000,
        }
    }

    fn depth(self, i: u64) -> u64 {
        match self {
            Size::Small | Size::Wide => 1 + i % 3,
            Size::Deep => 100,
        }
    }

    /// Node number i.
    pub fn node(self, alloc: Global, i: u64) -> Result<Node, AllocError> {
        let mut steps = Vec::new(alloc);
        for k in 0..self.depth(i) {
            steps.push(Step {
                rule: ((i % 1000 + k % 1000) % 50) as u16,
                child: (k % 8) as u8 + 1,
            })?;
        }
        let steps = if steps.len() <= Trail::MOST {
            Trail::from_vec(steps)?
        } else {
            Trail::new(alloc)
        };
        Ok(Node {
            start: (i % 16) as u16,
            case: i,
            steps,
        })
    }
}

fn slot(which: u8) -> Slot {
    match which {
        0 => Slot::Result(1),
        1 => Slot::Result(2),
        2 => Slot::Part(1),
        _ => Slot::Part(2),
    }
}

/// One of the four references of a node.
pub fn reference(node: &Node, which: u8) -> Result<Ref, AllocError> {
    Ok(Ref {
        node: copy_node(node)?,
        slot: slot(which),
    })
}

fn pair(alloc: Global, node: &Node) -> Result<Refs, AllocError>
    ensures { IfOk result (λ refs. length refs ≤ 8) }
{
    let mut refs = Vec::new(alloc);
    refs.push(reference(node, 2)?)?;
    refs.push(reference(node, 3)?)?;
    Refs::from_vec(refs)
}

fn body(alloc: Global, node: &Node, which: u8) -> Result<Body, AllocError>
    ensures { IfOk result (λ b. length (mentions (body_of b)) ≤ 8) }
{
    match which {
        0 => Ok(Body::Con(7, pair(alloc, node)?)),
        1 => Ok(Body::Same(reference(node, 0)?)),
        2 => Ok(Body::Num(node.case)),
        _ => Ok(Body::Text(Text::from_bytes(alloc, b"abcdefgh")?)),
    }
}

/// The equation of one of the four references of a node.
pub fn equation(alloc: Global, node: &Node, which: u8) -> Result<Equation, AllocError>
    ensures { IfOk result (λ e. has_few (equation_of e) ≡ true) }
{
    let left = reference(node, which)?;
    let body = body(alloc, node, which)?;
    Ok(Equation { left, body })
}

/// That equation, as a list of one.
pub fn equations(alloc: Global, node: &Node, which: u8) -> Result<Equations, AllocError>
    ensures { IfOk result (λ es. all_few (map equation_of es) ≡ true) }
{
    let mut es = Vec::new(alloc);
    es.push(equation(alloc, node, which)?)?;
    Ok(Equations::from_vec(es))
}
