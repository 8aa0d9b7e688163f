//! What is kept of one node.
ghost use Rattle.std.specs.Prelude.{◌≡◌, ◌≢◌, ◌<◌, ◌≤◌, ◌+◌, ℕ, Bool, Some, true, false, IfSome, IfNone, length, count_by, map, slice_get, vec_len};
ghost use Rattle.aw_work.specs.declared.block.Triple.{Triple as TripleValue};
ghost use Rattle.aw_standing.specs.declared.record.Mark.{Mark as MarkValue};
ghost use Rattle.aw_standing.specs.Records.{AreRising, mark_rule};
ghost use Rattle.aw_standing.specs.Due.{due_of, waiting_mark};

use aw_base::Place;
use aw_work::{Pair, Work};

/// How a rule stands at an open node, its arguments aside. References are told by slots.
#[derive(Clone, Copy, Debug)]
pub enum Stands {
    Ready,
    Waits(usize),
    Differs(Place),
    Circle(usize),
    TooDeep,
}

/// A rule of the node's sort, by its number, and how it stands.
#[derive(Clone, Copy, Debug)]
pub struct Mark {
    pub rule: u16,
    pub stands: Stands,
}

/// What is kept of a held node: its inherited references by slots, its sort, whether its name is as long as one may be, and
/// a mark for each rule of its sort, which is gone when the node was developed.
#[derive(Drop)]
pub struct Record {
    pub(crate) slots: Vec<usize>,
    pub(crate) sort: u16,
    pub(crate) deep: bool,
    pub(crate) marks: Vec<Mark>,
}

impl Record {
    /// How many rules are tested where the node is opened, and may have to wait.
    pub fn rule_count(&self) -> usize
        ensures { result ≡ vec_len self.now.marks }
    {
        self.marks.len()
    }
}

/// Lets a rule wait where it stands so, at the node with this number. There is room.
pub(crate) fn wait_for(work: &mut Work, number: usize, rule: u16, stands: Stands)
    requires { 0 < work.old.spare }
    ensures waiting { (p : TripleValue → Bool) → count_by p work.new.waiting ≡ count_by p (due_of number rule stands) + count_by p work.old.waiting }
    ensures spare { work.old.spare ≤ work.new.spare + 1 }
{
    if let Stands::Waits(slot) = stands {
        let pair = Pair { node: number, rule };
        match work.wait(slot, pair) {
            Ok(()) => {}
            Err(_) => unreachable!(),
        }
    }
}

/// Whether a mark is of this rule, which waits for the slot.
fn waits_so(mark: &Mark, rule: u16, slot: usize) -> bool
    ensures yes { result ≡ true → mark.now ≡ waiting_mark rule slot }
    ensures no { result ≡ false → mark.now ≢ waiting_mark rule slot }
{
    match mark.stands {
        Stands::Waits(at) => at == slot && mark.rule == rule,
        _ => false,
    }
}

/// The place of the mark of this rule, found by halving, where the marks are in the order of their rules.
fn sought_place(marks: &[Mark], rule: u16) -> Option<usize>
    ensures found { IfSome result (λ at. (m : MarkValue) × (slice_get marks.now at ≡ Some m) × (m.rule ≡ rule)) }
    ensures within { IfSome result (λ at. at < length marks.now) }
    ensures none { IfNone result (AreRising (map mark_rule marks.now) → (j : ℕ) (m : MarkValue) → slice_get marks.now j ≡ Some m → m.rule ≢ rule) }
{
    let at = marks.partition_point(|mark| mark.rule < rule);
    if marks.get(at)?.rule == rule {
        Some(at)
    } else {
        None
    }
}

/// Where the mark of this rule stands if the rules of the sort were declared one right behind the other.
fn guessed_place(marks: &[Mark], rule: u16) -> usize {
    match marks.first() {
        Some(mark) => usize::from(rule.wrapping_sub(mark.rule)),
        None => 0,
    }
}

/// Whether the mark at a place, if there is one, is of this rule.
fn is_of_rule(marks: &[Mark], at: usize, rule: u16) -> bool
    ensures found { result ≡ true → (m : MarkValue) × (slice_get marks.now at ≡ Some m) × (m.rule ≡ rule) }
    ensures within { result ≡ true → at < length marks.now }
{
    match marks.get(at) {
        Some(mark) => mark.rule == rule,
        None => false,
    }
}

/// The place of the mark of this rule, where the marks are in the order of their rules. It is looked for first where a guess says that
/// it stands.
pub(crate) fn rule_place(marks: &[Mark], rule: u16) -> Option<usize>
    ensures found { IfSome result (λ at. (m : MarkValue) × (slice_get marks.now at ≡ Some m) × (m.rule ≡ rule)) }
    ensures within { IfSome result (λ at. at < length marks.now) }
    ensures none { IfNone result (AreRising (map mark_rule marks.now) → (j : ℕ) (m : MarkValue) → slice_get marks.now j ≡ Some m → m.rule ≢ rule) }
{
    let guess = guessed_place(marks, rule);
    if is_of_rule(marks, guess, rule) {
        Some(guess)
    } else {
        sought_place(marks, rule)
    }
}

/// The place of the mark of this rule, where it waits for the slot and the marks are in the order of their rules.
pub(crate) fn place_of(marks: &[Mark], rule: u16, slot: usize) -> Option<usize>
    ensures within { IfSome result (λ at. at < length marks.now) }
    ensures found { IfSome result (λ at. slice_get marks.now at ≡ Some (waiting_mark rule slot)) }
    ensures none { IfNone result (AreRising (map mark_rule marks.now) → (j : ℕ) → slice_get marks.now j ≢ Some (waiting_mark rule slot)) }
{
    let at = rule_place(marks, rule)?;
    if waits_so(&marks[at], rule, slot) {
        Some(at)
    } else {
        None
    }
}
