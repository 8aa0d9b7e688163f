//! The numbers and texts that the rules of a grammar write have the sizes of their types. A look at each of them tells it: nothing is
//! changed, and it takes no memory.
ghost use Rattle.std.specs.Prelude.{map, ◌≡◌, ◌<◌, ◌≤◌, ◌^◌, slice_get, IfSome};
ghost use Rattle.std.specs.Option.{option_copied};
ghost use Rattle.aw_codec.specs.Ranges.{HeadSized, TextSized};
ghost use Rattle.aw_grammar.specs.GrammarOf.{grammar_of};
ghost use Rattle.aw_grammar.specs.GrammarView.{child_of, rule_of};
ghost use Rattle.aw_law_nodes.specs.Sizes.{TreeSized, RuleSized, GrammarSized};
ghost use Rattle.aw_term.specs.Rules as P;
ghost use Rattle.aw_term.specs.Views.{head_of, term_of};
ghost use Rattle.aw_term.specs.WellFormed.{Each};

use aw_grammar::{Child, Expr, Grammar, Lit, Rule, Terms};

/// The bytes of a text.
fn see_bytes(bytes: &[u8])
    ensures { TextSized bytes.now }
{
    let _many = bytes.len();
}

/// The number of a constructor.
fn see_con(con: u16)
    ensures { con < 2 ^ 16 }
{
    let _con = con;
}

/// A number or a text.
fn see_literal(lit: &Lit)
    ensures { HeadSized (head_of lit.now) }
{
    match lit {
        Lit::Num(n) => {
            let _number = *n;
        }
        Lit::Text(content) => see_bytes(content.as_slice()),
    }
}

/// An argument or a result.
#[cycle(terms)]
fn see_term(term: &Expr)
    ensures { TreeSized (term_of term.now) }
{
    match term {
        Expr::Var(_) => {}
        Expr::Lit(lit) => see_literal(lit),
        Expr::Con(con, parts) => {
            see_con(*con);
            see_terms(parts);
        }
    }
}

/// Arguments or results.
#[cycle(terms)]
fn see_terms(terms: &Terms)
    ensures { Each TreeSized (map term_of terms.now) }
{
    for term in terms.as_slice() {
        see_term(term);
    }
}

/// The children of a rule.
fn see_children(g: &Grammar, children: &[Child])
    ensures { Each (λ (c : P.Child). Each TreeSized c.args) (map (child_of g.now.sorts) children.now) }
{
    for child in children {
        see_terms(&child.args);
    }
}

/// A rule.
fn see_rule(g: &Grammar, rule: &Rule)
    ensures { RuleSized (rule_of g.now.sorts rule.now) }
{
    see_terms(&rule.results);
    see_children(g, rule.children.as_slice());
}

/// A rule by its number, from 0.
fn declared_rule(g: &Grammar, number: u16) -> Option<&Rule>
    ensures value { option_copied result ≡ slice_get g.now.rules number }
    ensures below { IfSome result (λ r. number ≤ 1023) }
{
    g.rule(number)
}

/// All rules.
pub fn see_rules(g: &Grammar)
    ensures { GrammarSized (grammar_of g.now) }
{
    let mut number = 0;
    while let Some(rule) = declared_rule(g, number) {
        see_rule(g, rule);
        number += 1;
    }
}
