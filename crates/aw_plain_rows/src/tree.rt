//! Values, which may be as deep as a run makes them. Their parts are shared, so that a copy costs the same whatever its
//! size.
ghost use Rattle.std.specs.Prelude.{◌≡◌, ◌≤◌, ◌+◌, ◌++◌, ◌∷◌, [], MatchOption, MatchResult};
ghost use Rattle.aw_plain_rows.specs.Places.{places_of_all};

use aw_list::{Items, Text};
use aw_name::Node;
use std::rc::Rc;

/// The values of a row.
pub type Trees = Items<Tree>;

/// A value. Parts and texts are shared. A hole stands for a result, counted from 1, of a node on which no choice was
/// taken yet. Below a constructor that is marked whole nothing is looked for: what would be a hole there counts as 0.
#[derive(Debug)]
pub enum Tree {
    Con {
        con: u16,
        whole: bool,
        parts: Rc<Vec<Tree>>,
    },
    Num(u64),
    Text(Rc<Text>),
    Hole(Node, u16),
}

/// Takes the last part, where nothing else holds these parts.
fn take_last(parts: &mut Rc<Vec<Tree>>) -> Option<Tree>
    ensures { MatchOption result (parts.new.value.items ≡ parts.old.value.items) (λ last. parts.old.value.items ≡ parts.new.value.items ++ last ∷ []) }
{
    match Rc::get_mut(parts) {
        Some(list) => list.pop(),
        None => None,
    }
}

/// Hangs a value in front of parts, where nothing else holds them. Else it comes back.
fn hang(parts: &mut Rc<Vec<Tree>>, rest: Tree) -> Result<(), Tree>
    ensures { MatchResult result (λ _. parts.new.value.items ≡ rest ∷ parts.old.value.items) (λ left. (left ≡ rest) × (parts.new.value.items ≡ parts.old.value.items)) }
{
    match Rc::get_mut(parts) {
        Some(list) => match list.insert(0, rest) {
            Ok(()) => Ok(()),
            Err(failed) => Err(failed.value),
        },
        None => Err(rest),
    }
}

/// Gives up parts that are none or have other holders. No contract says that they stay where there are other holders, so
/// what would come out here is dropped.
#[cycle(emptying)]
fn let_go(parts: Rc<Vec<Tree>>) {
    if let Some(mut list) = Rc::into_inner(parts) {
        loop {
            match list.pop() {
                None => {
                    list.destroy_empty();
                    return;
                }
                Some(part) => drop(part),
            }
        }
    }
}

/// The list to be emptied next: these parts, with the rest of the list that was open hung in front of them as a tree, in
/// the room of the part that was taken. What is empty never hangs, so each list is turned once.
#[cycle(emptying)]
fn hang_rest(mut parts: Rc<Vec<Tree>>, rest: Rc<Vec<Tree>>) -> Rc<Vec<Tree>>
    ensures { places_of_all result.value.items ≤ places_of_all parts.value.items + places_of_all rest.value.items + 1 }
{
    if rest.is_empty() {
        let_go(rest);
        return parts;
    }
    if parts.is_empty() {
        let_go(parts);
        return rest;
    }
    let hung = Tree::Con {
        con: 0,
        whole: false,
        parts: rest,
    };
    if let Err(left) = hang(&mut parts, hung) {
        drop(left);
    }
    parts
}

/// It takes no memory and no stack: what is left of a list that is being emptied hangs in front of the one below it. Parts
/// that have other holders stay.
impl Drop for Tree {
    #[cycle(emptying)]
    fn drop(mut self) {
        let mut open: Option<Rc<Vec<Tree>>> = None;
        loop {
            match self {
                Tree::Num(_) => {}
                Tree::Text(text) => drop(text),
                Tree::Hole(node, _) => drop(node),
                Tree::Con {
                    con: _,
                    whole: _,
                    mut parts,
                } => match take_last(&mut parts) {
                    None => let_go(parts),
                    Some(last) => {
                        if let Some(rest) = open {
                            parts = hang_rest(parts, rest);
                        }
                        open = Some(parts);
                        self = last;
                        continue;
                    }
                },
            }
            match open {
                None => return,
                Some(mut parts) => match take_last(&mut parts) {
                    None => {
                        let_go(parts);
                        return;
                    }
                    Some(last) => {
                        open = Some(parts);
                        self = last;
                    }
                },
            }
        }
    }
}
