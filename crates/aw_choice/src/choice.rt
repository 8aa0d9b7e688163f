//! Choices of users, and the answers to them.
use aw_list::Items;
use aw_name::{Node, Ref};
use aw_term::Grounds;
use std::alloc::AllocError;

/// What a user asks for: a new case, or a rule for an open node, with its arguments.
#[derive(Debug, Clone, PartialEq, Eq, Drop)]
pub enum Choice {
    Start {
        sort: u16,
        case: u64,
    },
    Develop {
        node: Node,
        rule: u16,
        args: Grounds,
    },
}

/// A copy of a choice.
pub fn copy_choice(choice: &Choice) -> Result<Choice, AllocError>
    ensures { IfOk result (λ c. c ≡ choice.now) }
{
    choice.clone()
}

/// Numbers of parts on the way into a value, at most 32, each counted from 1.
#[derive(Clone, Copy, Debug, PartialEq, Eq)]
pub struct Path {
    pub steps: [u8; 32],
    pub len: usize,
    ghost within: { len ≤ 32 },
    ghost rest: { (k : ℕ) → len ≤ k → k < 32 → slice_index steps k ≡ 0 },
}

impl Path {
    ghost use Rattle.std.specs.Prelude.{◌+◌, ◌++◌, ◌∷◌, []};
    ghost use Rattle.aw_choice.specs.ChoiceView.{path_of};

    /// The way to a value itself.
    pub fn new() -> Path
        ensures steps { path_of result ≡ [] }
        ensures length { result.len ≡ 0 }
    {
        Path {
            steps: [0; 32],
            len: 0,
        }
    }

    /// Goes on into a part.
    pub fn push(&mut self, step: u8)
        requires { self.old.len < 32 }
        ensures steps { path_of self.new ≡ path_of self.old ++ step ∷ [] }
        ensures length { self.new.len ≡ self.old.len + 1 }
    {
        self.steps[self.len] = step;
        self.len += 1;
    }
}

/// A place in the inherited values of a node: the number of the attribute, from 1, and the path into its value.
#[derive(Clone, Copy, Debug, PartialEq, Eq)]
pub struct Place {
    pub attribute: u8,
    pub path: Path,
}

/// The answer to a choice; the first that holds is told.
#[derive(Debug, Clone, PartialEq, Eq, Drop)]
pub enum Answer {
    /// A start whose node is held.
    Known,
    /// The node is not held.
    NotHere,
    /// A choice was taken on the node before.
    Developed,
    /// The rule is for another sort.
    NotItsRule,
    /// The rule has another number of parameters.
    Arguments,
    /// The guard needs a value that has not come.
    Waits(Ref),
    /// The guard does not match at this place.
    Differs(Place),
    /// The guard meets equations that lead back to themselves. It never comes where messages are those of nodes.
    Circle(Ref),
    /// A child's name would have more than 250 steps.
    TooDeep,
    /// The choice is taken.
    Taken,
}

/// How a rule stands at an open node, its arguments aside.
#[derive(Debug, Clone, PartialEq, Eq, Drop)]
pub enum Standing {
    /// A choice of it would be taken.
    Ready,
    /// The guard needs a value that has not come.
    Waits(Ref),
    /// The guard does not match at this place.
    Differs(Place),
    /// The guard meets equations that lead back to themselves.
    Circle(Ref),
    /// A child's name would have more than 250 steps.
    TooDeep,
}

/// A rule at an open node.
#[derive(Debug, Clone, PartialEq, Eq, Drop)]
pub struct Item {
    pub node: Node,
    pub rule: u16,
    pub state: Standing,
}

/// Each open node of a role with each rule of its sort, in order.
pub type Worklist = Items<Item>;

ghost use Rattle.std.specs.Prelude.{◌≡◌, ◌≤◌, ◌<◌, ℕ, IfOk, slice_index};
