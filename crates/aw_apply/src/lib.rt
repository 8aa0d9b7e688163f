//! Guards over equations, and what a taken rule makes: its flat equations, and its children with their inherited
//! references.
#![tactic(auto)]

pub mod binding;
pub mod children;
pub mod guard;
pub mod guarding;
pub mod laid;
pub mod make;
pub mod making;
pub mod steps;
pub mod telling;

pub use binding::Binding;
pub use guard::{Guard, Met, guard_uncounted, test_guard, test_into};
pub use make::made;
pub use making::{Made, MadeChild, MadeChildren};
pub use steps::Steps;
pub use telling::{Tested, Weighed, tell_guard, test_rule, weigh_guard};
