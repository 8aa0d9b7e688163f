ghost use Rattle.std.specs.Prelude.{◌≡◌, ◌≤◌, ◌<◌, ◌++◌, ◌∷◌, [], IfOk, OnOk, OnErr, List, length, true, false};
ghost use Rattle.std.specs.Hash as fed;
ghost use Rattle.std.specs.Hash.{same_Alike};
ghost use Rattle.std.specs.Cmp.{partial_equiv_from_equiv, partial_order_from_agreeing_total};
ghost use Rattle.std.specs.Cmp.Rules.{comparing};
ghost use Rattle.std.specs.Cmp.Lexicographic.{pointwise, slice_cmp, lists_equiv, lists_total, lists_ties};
ghost use Rattle.std.specs.Ordering.{as_partial_cmp};
ghost use Rattle.std.proofs.Common.{rules, refl};
ghost use Rattle.aw_name.specs.Digest.{step_number, digest_of};
ghost use Rattle.aw_name.specs.Front.{front_of, flat, flat_rest, number_at, IsSmall, IsSmallAt, IsSmallLead};
ghost use Rattle.aw_name.specs.Limits.{most_steps};
ghost use Rattle.aw_name.specs.Steps.{step_cmp, step_total, step_ties};
ghost use Rattle.aw_name.specs.Same.{step_eq, steps_Decide};

use crate::digest::digest_of;
use aw_list::{Counted, Items, Shared};
use std::alloc::{AllocError, Global};
use std::cmp::Ordering;
use std::hash::{Hash, Hasher};
use std::marker::Model;

/// From a node to one of its children: the rule that developed the node, counted from 0 in the order of the specification, and
/// which of the rule's children it is, counted from 1.
#[derive(Clone, Copy, Debug, PartialEq, Eq, PartialOrd, Ord, Hash)]
pub struct Step {
    pub rule: u16,
    pub child: u8,
}

/// Steps, and beside them what is made of them: the rules and children of the steps behind the first five, in a row that is
/// compared many at a time, and a digest, by which a trail is hashed at once.
#[derive(Debug, Drop)]
struct Rows {
    steps: Items<Step>,
    rest: Items<u16>,
    digest: u64,
}

impl Model for Rows {
    ghost use Rattle.std.specs.Prelude.{List, ◌≡◌};
    ghost use Rattle.std.proofs.Common.{sym};
    ghost use Rattle.aw_name.specs.declared.node.Step.{Step};
    ghost use Rattle.aw_name.specs.Digest.{step_number, digest_of};
    ghost use Rattle.aw_name.specs.Front.{flat_rest};

    ghost Value = { List Step };

    ghost view = { λ r. r.steps };

    ghost invariant = { λ r. (r.rest ≡ flat_rest r.steps) × (r.digest ≡ digest_of r.steps) };

    ghost inverse = { λ xs. record { steps = xs; rest = flat_rest xs; digest = digest_of xs } };

    ghost inverse_ok = { λ a h. λ i. record { steps = a.steps; rest = sym h.0 i; digest = sym h.1 i } };
}

impl Rows {
    /// The steps, borrowed.
    fn steps(&self) -> &[Step]
        ensures { result.now ≡ self.now }
    {
        self.steps.as_slice()
    }

    /// The rules and children of the steps behind the first five.
    fn rest(&self) -> &[u16]
        ensures { result.now ≡ flat_rest self.now }
    {
        self.rest.as_slice()
    }

    /// The number that is made of the steps.
    fn digest(&self) -> u64
        ensures { result ≡ digest_of self.now }
    {
        self.digest
    }
}

/// The steps from a start node down to a node, at most 250; none for the start node itself. Beside them stand the first five
/// steps and how many there are, in two words, by which most names are told apart and put in order.
#[derive(Debug, Drop)]
pub struct Trail {
    alloc: Global,
    rows: Option<Counted<Rows>>,
    high: u64,
    low: u64,
}

impl Model for Trail {
    ghost use Rattle.std.specs.Prelude.{List};
    ghost use Rattle.aw_name.specs.declared.node.Step.{Step};
    ghost use Rattle.aw_name.specs.Front.{steps_in, IsTrail};

    ghost Value = { List Step };

    ghost view = { λ t. steps_in t.rows };

    ghost invariant = { λ t. IsTrail (steps_in t.rows) t.high t.low };
}

impl Clone for Trail {
    ghost is_clone = { λ x y. y ≡ x };

    fn clone(&self) -> Result<Trail, AllocError> {
        let rows = match &self.rows {
            Some(rows) => Some(rows.clone()?),
            None => None,
        };
        Ok(Trail {
            alloc: self.alloc,
            rows,
            high: self.high,
            low: self.low,
        })
    }
}

impl PartialEq for Trail {
    ghost eq = { pointwise step_eq };

    ghost laws = { partial_equiv_from_equiv (lists_equiv (Prim.search (comparing, rules))) };

    fn eq(&self, other: &Trail) -> bool {
        self.front() == other.front()
            && (self.is_short() || self.digest() == other.digest() && self.rest() == other.rest())
    }
}

impl Eq for Trail {
    ghost laws = { lists_equiv (Prim.search (comparing, rules)) };
}

impl PartialOrd for Trail {
    ghost partial_cmp = { as_partial_cmp (slice_cmp step_cmp) };

    ghost laws = { partial_order_from_agreeing_total (slice_cmp step_cmp) (lists_total step_total) (λ _ _. refl) (lists_ties step_cmp step_ties) };

    fn partial_cmp(&self, other: &Trail) -> Option<Ordering> {
        Some(self.cmp(other))
    }
}

impl Ord for Trail {
    ghost cmp = { slice_cmp step_cmp };

    ghost total = { lists_total step_total };

    ghost matches_partial_cmp = { λ _ _. refl };

    ghost matches_eq = { lists_ties step_cmp step_ties };

    fn cmp(&self, other: &Trail) -> Ordering {
        let (mine, theirs) = (self.front(), other.front());
        if self.is_short() || other.is_short() || mine / 256 != theirs / 256 {
            return mine.cmp(&theirs);
        }
        self.rest().cmp(other.rest())
    }
}

impl Hash for Trail {
    ghost hash_input = { λ steps. fed.u64 (digest_of steps) };

    ghost respects_eq = { (same_Alike (λ steps. fed.u64 (digest_of steps)) steps_Decide).fed };

    fn hash<H: Hasher>(&self, state: &mut H) {
        self.digest().hash(state);
    }
}

/// How many steps stand in the front.
const FRONT: usize = 5;

/// A step as one number.
fn number_of(step: Step) -> u128
    ensures value { result ≡ step_number step }
    ensures small { IsSmall step }
    ensures within { result < 16777216 }
{
    u128::from(step.rule) * 256 + u128::from(step.child)
}

/// The number of the step at a place; 0 past the last.
fn number_at(steps: &[Step], at: usize) -> u128
    ensures value { result ≡ number_at steps.now at }
    ensures small { IsSmallAt steps.now at }
    ensures within { result < 16777216 }
{
    if at < steps.len() {
        return number_of(steps[at]);
    }
    0
}

/// The first five steps as one number, the first one highest, and how many there are.
fn front_of(steps: &[Step]) -> u128
    requires { length steps.now ≤ most_steps }
    ensures value { result ≡ front_of steps.now }
    ensures small { IsSmallLead steps.now }
{
    let lead = number_at(steps, 0) * 79_228_162_514_264_337_593_543_950_336
        + number_at(steps, 1) * 4_722_366_482_869_645_213_696
        + number_at(steps, 2) * 281_474_976_710_656
        + number_at(steps, 3) * 16_777_216
        + number_at(steps, 4);
    lead * 256 + steps.len() as u128
}

/// The rules and children of steps in turn.
fn flat(alloc: Global, steps: &[Step]) -> Result<Vec<u16>, AllocError>
    requires { length steps.now ≤ most_steps }
    ensures { IfOk result (λ row. row.items ≡ flat steps.now) }
{
    let mut row = Vec::with_capacity(alloc, steps.len() * 2)?;
    for step in steps {
        row.push(step.rule)?;
        row.push(u16::from(step.child))?;
    }
    Ok(row)
}

/// Those of the steps behind the front. None take no memory.
fn rest_of(alloc: Global, steps: &[Step]) -> Result<Items<u16>, AllocError>
    requires { length steps.now ≤ most_steps }
    ensures { IfOk result (λ rest. rest ≡ flat_rest steps.now) }
{
    if steps.len() <= FRONT {
        return Ok(Items::new(alloc));
    }
    Ok(Items::from_vec(flat(alloc, &steps[FRONT..])?))
}

/// How many numbers a word of 64 bits has.
const WORD: u128 = 18_446_744_073_709_551_616;

impl Trail {
    /// How many steps a trail has at most.
    pub const MOST: usize = 250;

    /// No steps. It takes no memory yet.
    pub fn new(alloc: Global) -> Trail
        ensures { result ≡ [] }
    {
        Trail {
            alloc,
            rows: None,
            high: 0,
            low: 0,
        }
    }

    /// These steps, of which there have to be at most 250.
    pub fn from_vec(steps: Vec<Step>) -> Result<Trail, AllocError>
        requires { length steps.items ≤ most_steps }
        ensures { IfOk result (λ t. t ≡ steps.items) }
    {
        let alloc = *steps.allocator();
        if steps.is_empty() {
            return Ok(Trail::new(alloc));
        }
        let front = front_of(&steps);
        let digest = digest_of(&steps);
        let rest = rest_of(alloc, &steps)?;
        let rows = Rows {
            steps: Items::from_vec(steps),
            rest,
            digest,
        };
        Ok(Trail {
            alloc,
            rows: Some(Counted::new(alloc, rows)?),
            high: (front / WORD) as u64,
            low: (front % WORD) as u64,
        })
    }

    /// The steps, from the start node on.
    pub fn as_slice(&self) -> &[Step]
        ensures value { result.now ≡ self.now }
        ensures short { length self.now ≤ most_steps }
    {
        match &self.rows {
            Some(rows) => rows.get().steps(),
            None => &[],
        }
    }

    /// The rules and children of the steps behind the first five.
    fn rest(&self) -> &[u16]
        ensures { result.now ≡ flat_rest self.now }
    {
        match &self.rows {
            Some(rows) => rows.get().rest(),
            None => &[],
        }
    }

    /// The number that is made of the steps.
    pub(crate) fn digest(&self) -> u64
        ensures { result ≡ digest_of self.now }
    {
        match &self.rows {
            Some(rows) => rows.get().digest(),
            None => 0,
        }
    }

    /// How many steps there are.
    pub fn len(&self) -> usize
        ensures value { result ≡ length self.now }
        ensures short { length self.now ≤ most_steps }
    {
        (self.low % 256) as usize
    }

    /// The first five steps as one number, and how many there are.
    fn front(&self) -> u128
        ensures value { result ≡ front_of self.now }
        ensures short { length self.now ≤ most_steps }
        ensures small { IsSmallLead self.now }
    {
        u128::from(self.high) * WORD + u128::from(self.low)
    }

    /// Whether all steps stand in the front.
    fn is_short(&self) -> bool
        ensures short { result ≡ true → length self.now ≤ 5 }
        ensures long { result ≡ false → 5 < length self.now }
    {
        self.len() <= FRONT
    }

    /// One step further down, where there are fewer than 250. An error changes nothing: there is no memory for it.
    pub fn push(&mut self, step: Step) -> Result<(), AllocError>
        requires { length self.old < most_steps }
        ensures ok { OnOk result (self.new ≡ self.old ++ step ∷ []) }
        ensures err { OnErr result (self.new ≡ self.old) }
    {
        let old = self.as_slice();
        let mut steps = Vec::with_capacity(self.alloc, old.len() + 1)?;
        steps.extend_from_slice(old)?;
        steps.push(step)?;
        *self = Trail::from_vec(steps)?;
        Ok(())
    }
}

const _: () = prove!(Trail::MOST == 250);

/// The name of a node: the sort of its start node, counted from 0 in the order of the specification, the number of its case,
/// and the steps from the start node to it.
#[derive(Debug, Clone, PartialEq, Eq, PartialOrd, Ord, Drop)]
pub struct Node {
    pub start: u16,
    pub case: u64,
    pub steps: Trail,
}

/// A value that stands at a node.
#[derive(Clone, Copy, Debug, PartialEq, Eq, PartialOrd, Ord)]
pub enum Slot {
    /// A result, counted from 1.
    Result(u16),
    /// A value that the node's choice made, counted from 1.
    Part(u16),
}

/// The name of a value: the node at which it stands, and which of the node's values it is.
#[derive(Debug, Clone, PartialEq, Eq, PartialOrd, Ord, Drop)]
pub struct Ref {
    pub node: Node,
    pub slot: Slot,
}

/// References, in order. A copy of them is a count.
pub type Refs = Shared<Ref>;
