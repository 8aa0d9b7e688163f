//! Names, grammars and choices: what everything else speaks of. Here a name is read and written, a node has its sort and
//! its home, and a choice is tried against its grammar; the rest stands in the crates below and is handed on.
#![tactic(auto)]

mod choice_fits;
mod common;
pub mod declared;
mod homes;
mod lines;
mod name_writer;
mod names;
mod node_reader;
mod read_node;
mod texts;

pub use aw_choice::{Answer, Choice, Item, Path, Place, Standing, Worklist};
pub use aw_grammar::{
    AddFault, Child, Children, Con, Cons, DeclKind, DeclPlace, Grammar, GrammarFault, Names,
    Numbers, Parts, RawChild, RawChildren, RawCon, RawCons, RawRule, RawRules, RawSort, RawSorts,
    RawTerm, RawTerms, Rule, Rules, Sort, Sorts, room_after_all,
};
pub use aw_list::{Items, Text};
pub use aw_name::{
    Node, Ref, Refs, Slot, Step, Trail, compare_nodes, compare_refs, is_same_node, is_same_ref,
};
pub use aw_spelling::{content_ok, name_ok};
pub use aw_term::limits::{MOST_ARGUMENTS, MOST_LEVELS, MOST_SYMBOLS};
pub use aw_term::{Expr, Ground, Grounds, Lit, Pattern, Patterns, Terms};
pub use choice_fits::{args_ok, choice_ok, is_start};
pub use declared::{Declared, Triple};
pub use homes::{home_at, home_of_valid, role_of, sort_at};
pub use lines::{push_artifacts_line, push_choice, push_choice_line, push_item_lines};
pub use name_writer::NameWriter;
pub use names::{child_node, home_of, ref_ok, sort_of};
pub use node_reader::NodeReader;
pub use read_node::{NameFault, parse_node};
pub use texts::{
    con_name, node_text, path_steps, push_answer, push_item, push_lone_ref, push_node, push_ref,
    push_refs, role_name, rule_name, sort_name,
};
