//! Whether the arguments of a choice fit.
ghost use Rattle.std.specs.Prelude.{◌≡◌, length, map, true, nat_eq, if◌then◌else◌};
ghost use Rattle.aw_term.specs.Rules as P;
ghost use Rattle.aw_term.specs.Views.{ground_of};
ghost use Rattle.aw_choice.specs.ChoiceView.{choice_of};
ghost use Rattle.aw_typed.specs.TypeFaults as typing;
ghost use Rattle.aw_typed.specs.Typing.{types_of, IsMadeFor};

use crate::data::{Typed, Types, VariableTypes};
use crate::fitting::ground_fits;
use aw_choice::Choice;
use aw_term::Ground;

/// Whether an argument fits the type of its parameter; any fits one that stands nowhere.
fn arg_fits(t: &Types, own: Option<u16>, x: &Ground) -> bool
    ensures { result ≡ typing.arg_fits (types_of t.now) own (ground_of x.now) }
{
    match own {
        Some(own) => ground_fits(t, own, x),
        None => true,
    }
}

/// Whether arguments fit the types of parameters, which are as many.
fn args_fit(t: &Types, owns: &VariableTypes, xs: &[Ground]) -> bool
    requires { length owns.now ≡ length xs.now }
    ensures { result ≡ typing.args_fit (types_of t.now) owns.now (map ground_of xs.now) }
{
    for (i, x) in xs.iter().enumerate() {
        if !arg_fits(t, *owns.at(i), x) {
            return false;
        }
    }
    true
}

/// Whether arguments fit the types of parameters, where they are as many.
fn rule_args_fit(t: &Types, owns: &VariableTypes, xs: &[Ground]) -> bool
    ensures { result ≡ (if nat_eq (length xs.now) (length owns.now) then typing.args_fit (types_of t.now) owns.now (map ground_of xs.now) else true) }
{
    owns.len() != xs.len() || args_fit(t, owns, xs)
}

/// Whether the arguments of a choice fit, on the grammar that the types were checked for. It takes no memory.
pub fn arg_ok(t: &Typed, c: &Choice) -> bool
    ensures { (g : P.Grammar) → IsMadeFor g t.now → result ≡ typing.arg_ok (types_of t.now.types) g (choice_of c.now) }
{
    if !t.types.typed {
        return true;
    }
    match c {
        Choice::Start { .. } => true,
        Choice::Develop { rule, args, .. } => match t.params.get(usize::from(*rule)) {
            Some(owns) => rule_args_fit(&t.types, owns, args.as_slice()),
            None => true,
        },
    }
}
