//! A specification as far as it has been read.
ghost use Rattle.std.specs.Prelude.{◌≡◌, ◌≤◌, ◌++◌, ◌<◌, ◌-◌, [], true, length, slice_get, IfErr, OnOk, Ok, Err, Some, option_map};
ghost use Rattle.aw_spelling.specs.Spelling.{is_name};
ghost use Rattle.aw_grammar.specs.Terms.{all_have_contents, are_names, results_of, terms_of};
ghost use Rattle.aw_grammar.specs.Written.{rule_of_raw};
ghost use Rattle.aw_spec.specs.LastFault.{IsLastFault};
ghost use Rattle.aw_spec.specs.Lines as lines;
ghost use Rattle.aw_spec.specs.Reading.{says, stage_of, decl_kind, face_kind};
ghost use Rattle.aw_spec.specs.Stages.{sorts_stage, rules_stage};
ghost use Rattle.aw_spec.specs.Placed.{offering, using_by};
ghost use Rattle.aw_grammar.specs.Declarations.{sort_names};
ghost use Rattle.aw_grammar.specs.Named.{number_named};
ghost use Rattle.aw_spec.specs.Views.{line_seen};
ghost use Rattle.aw_spec.specs.LineAnswers.{Adds, Says, spec_so_far};
ghost use Rattle.aw_spec.specs.declared.draft.AfterLine.TheVariants.{Next};
ghost use Rattle.aw_spec.specs.Declares.{IsDeclared};

use crate::dependences::Dependences;
use crate::fault::SpecKind;
use crate::line::SpecLine;
use aw_base::{AddFault, DeclKind, Grammar, RawCon, RawRule, RawSort, Rule};
use aw_face::{FaceKind, Faces, Using, is_offered, rule_fault};
use aw_lex::LexFault;
use aw_list::Text;
use aw_term_reader::Unread;
use aw_typed::Types;
use std::alloc::{AllocError, AllocFailed};
use std::mem;

/// Why a line is at fault.
#[derive(Clone, Copy, Debug, PartialEq, Eq)]
pub enum LineFault {
    Bad(SpecKind),
    NoMemory,
}

impl From<AddFault> for LineFault {
    ghost use Rattle.std.specs.Prelude.{◌≡◌};
    ghost use Rattle.aw_spec.specs.LineAnswers.{of_add};

    ghost from_gives = { λ fault e. e ≡ of_add fault };

    fn from(fault: AddFault) -> LineFault {
        match fault {
            AddFault::Bad(kind) => LineFault::Bad(decl_kind(kind)),
            AddFault::NoMemory => LineFault::NoMemory,
        }
    }
}

impl From<LexFault> for LineFault {
    ghost use Rattle.std.specs.Prelude.{◌≡◌};
    ghost use Rattle.aw_spec.specs.LineAnswers.{of_lex};

    ghost from_gives = { λ fault e. e ≡ of_lex fault };

    fn from(fault: LexFault) -> LineFault {
        match fault {
            LexFault::Bad { .. } => LineFault::Bad(SpecKind::Token),
            LexFault::NoMemory => LineFault::NoMemory,
        }
    }
}

impl From<Unread> for LineFault {
    ghost use Rattle.std.specs.Prelude.{◌≡◌};
    ghost use Rattle.aw_spec.specs.LineAnswers.{of_unread};

    ghost from_gives = { λ fault e. e ≡ of_unread fault };

    fn from(fault: Unread) -> LineFault {
        match fault {
            Unread::Form => LineFault::Bad(SpecKind::Form),
            Unread::NoMemory => LineFault::NoMemory,
        }
    }
}

impl From<AllocError> for LineFault {
    ghost use Rattle.std.specs.Prelude.{◌≡◌};
    ghost use Rattle.aw_spec.specs.declared.draft.LineFault.TheVariants.{NoMemory};

    ghost from_gives = { λ _ e. e ≡ NoMemory };

    fn from(_failed: AllocError) -> LineFault {
        LineFault::NoMemory
    }
}

impl<T: Drop> From<AllocFailed<T>> for LineFault {
    ghost use Rattle.std.specs.Prelude.{◌≡◌};
    ghost use Rattle.aw_spec.specs.declared.draft.LineFault.TheVariants.{NoMemory};

    ghost from_gives = { λ _ e. e ≡ NoMemory };

    fn from(_failed: AllocFailed<T>) -> LineFault {
        LineFault::NoMemory
    }
}

fn decl_kind(kind: DeclKind) -> SpecKind
    ensures { result ≡ decl_kind kind }
{
    match kind {
        DeclKind::Limit => SpecKind::Limit,
        DeclKind::Double => SpecKind::Double,
        DeclKind::Clash => SpecKind::Clash,
        DeclKind::Unknown => SpecKind::Unknown,
        DeclKind::Arity => SpecKind::Arity,
        DeclKind::Twice => SpecKind::Twice,
        DeclKind::Never => SpecKind::Never,
        DeclKind::Inherits => SpecKind::Inherits,
    }
}

fn face_kind(kind: FaceKind) -> SpecKind
    ensures { result ≡ face_kind kind }
{
    match kind {
        FaceKind::NotUsed => SpecKind::NotUsed,
        FaceKind::NotOffered => SpecKind::NotOffered,
    }
}

/// What the lines so far say.
#[derive(Debug, Drop)]
pub struct Draft {
    pub grammar: Grammar,
    pub faces: Faces,
    pub types: Types,
    pub depends: Dependences,
    pub free: bool,
}

/// What comes of a line: reading goes on, or it ends at the line `schedule`, which may ask for loads.
#[derive(Clone, Copy, Debug)]
pub enum AfterLine {
    Next,
    End { loads: bool },
}

/// Takes a grammar out, for one with more to be put in its place.
fn taken(grammar: &mut Grammar) -> Grammar
    ensures { result ≡ grammar.old }
{
    let alloc = grammar.roles.allocator();
    mem::replace(grammar, Grammar::new(alloc))
}

/// Puts a grammar in the place of one that was taken out.
fn put(grammar: &mut Grammar, by: Grammar)
    ensures { grammar.new ≡ by }
{
    drop(mem::replace(grammar, by));
}

/// The rule that was declared last.
fn last_rule(grammar: &Grammar) -> &Rule
    requires { 0 < length grammar.now.rules }
    ensures value { slice_get grammar.now.rules (length grammar.now.rules - 1) ≡ Some result.now }
    ensures few { length result.now.children ≤ 8 }
{
    grammar.rules.at(grammar.rules.len() - 1)
}

/// The first child at fault of the rule that was declared last.
fn last_fault(grammar: &Grammar, faces: &Faces) -> Option<(u8, FaceKind)>
    requires { 0 < length grammar.now.rules }
    ensures { IsLastFault grammar.now faces.now (option_map (λ x. (x.0, x.1)) result) }
{
    rule_fault(grammar.sorts.as_slice(), faces, last_rule(grammar))
}

/// A draft is of no use after a fault: what a line added before it is not taken back.
impl Draft {
    fn add_role(&mut self, name: Text) -> Result<(), LineFault>
        requires named { is_name name ≡ true }
        requires no_sorts { self.old.grammar.sorts ≡ [] }
        requires no_rules { self.old.grammar.rules ≡ [] }
        ensures { Adds self.new result (says (spec_so_far self.old) (lines.RoleLine name)) }
    {
        let grammar = taken(&mut self.grammar).add_role(name)?;
        put(&mut self.grammar, grammar);
        Ok(())
    }

    fn add_con(&mut self, con: RawCon) -> Result<(), LineFault>
        requires named { is_name con.name ≡ true }
        requires no_rules { self.old.grammar.rules ≡ [] }
        ensures { Adds self.new result (says (spec_so_far self.old) (lines.ConLine con.name con.arity)) }
    {
        let grammar = taken(&mut self.grammar).add_con(con)?;
        put(&mut self.grammar, grammar);
        self.types.shapes.push(None)?;
        Ok(())
    }

    fn add_sort(&mut self, sort: RawSort) -> Result<(), LineFault>
        requires named { is_name sort.name ≡ true }
        requires no_rules { self.old.grammar.rules ≡ [] }
        ensures { Adds self.new result (says (spec_so_far self.old) (lines.SortLine sort.name sort.role sort.takes sort.gives)) }
    {
        let grammar = taken(&mut self.grammar).add_sort(sort)?;
        put(&mut self.grammar, grammar);
        self.types.carries.push(None)?;
        Ok(())
    }

    fn add_start(&mut self, sort: Text) -> Result<(), LineFault>
        requires no_rules { self.old.grammar.rules ≡ [] }
        ensures { Adds self.new result (says (spec_so_far self.old) (lines.StartLine sort)) }
    {
        let grammar = taken(&mut self.grammar).add_start(&sort)?;
        put(&mut self.grammar, grammar);
        Ok(())
    }

    fn push_offer(&mut self, sort: &Text) -> Result<(), LineFault>
        ensures { Adds self.new result (offering (spec_so_far self.old) (number_named (sort_names (spec_so_far self.old).declared) sort.now)) }
    {
        let Some(sort) = self.grammar.sort_named(sort.as_slice()) else {
            return Err(LineFault::Bad(SpecKind::Unknown));
        };
        if is_offered(sort, self.faces.offers.as_slice()) {
            return Err(LineFault::Bad(SpecKind::Double));
        }
        self.faces.offers.push(sort)?;
        Ok(())
    }

    fn add_offer(&mut self, sort: Text) -> Result<(), LineFault>
        ensures { Adds self.new result (says (spec_so_far self.old) (lines.OfferLine sort)) }
    {
        self.push_offer(&sort)
    }

    fn push_use(&mut self, role: &Text, sort: &Text) -> Result<(), LineFault>
        ensures { Adds self.new result (using_by (spec_so_far self.old)
            (number_named (spec_so_far self.old).declared.roles role.now) (number_named (sort_names (spec_so_far self.old).declared) sort.now)) }
    {
        let Some(role) = self.grammar.role_named(role.as_slice()) else {
            return Err(LineFault::Bad(SpecKind::Unknown));
        };
        let Some(sort) = self.grammar.sort_named(sort.as_slice()) else {
            return Err(LineFault::Bad(SpecKind::Unknown));
        };
        if self.faces.uses.has(role, sort) {
            return Err(LineFault::Bad(SpecKind::Double));
        }
        self.faces.uses.push(Using { role, sort })?;
        Ok(())
    }

    fn add_use(&mut self, role: Text, sort: Text) -> Result<(), LineFault>
        ensures { Adds self.new result (says (spec_so_far self.old) (lines.UseLine role sort)) }
    {
        self.push_use(&role, &sort)
    }

    fn add_free(&mut self) -> Result<(), LineFault>
        ensures { Adds self.new result (says (spec_so_far self.old) lines.FreeLine) }
    {
        if self.free {
            return Err(LineFault::Bad(SpecKind::Double));
        }
        self.free = true;
        Ok(())
    }

    fn add_rule(&mut self, rule: RawRule) -> Result<(), LineFault>
        requires named { is_name rule.name ≡ true }
        requires contents { all_have_contents (terms_of (rule_of_raw rule)) ≡ true }
        requires variables { are_names ((rule_of_raw rule).params ++ results_of (rule_of_raw rule).children) ≡ true }
        ensures { Adds self.new result (says (spec_so_far self.old) (lines.RuleLine (rule_of_raw rule))) }
    {
        let grammar = taken(&mut self.grammar).add_rule(rule)?;
        put(&mut self.grammar, grammar);
        match last_fault(&self.grammar, &self.faces) {
            None => Ok(()),
            Some((_, kind)) => Err(LineFault::Bad(face_kind(kind))),
        }
    }

    /// What a line says behind these.
    pub fn says(&mut self, line: SpecLine) -> Result<AfterLine, LineFault>
        requires declared { IsDeclared (line_seen line) }
        requires no_sorts { stage_of (line_seen line) < sorts_stage → self.old.grammar.sorts ≡ [] }
        requires no_rules { stage_of (line_seen line) < rules_stage → self.old.grammar.rules ≡ [] }
        requires few_types { length self.old.types.names ≤ 256 }
        ensures { Says (spec_so_far self.old) self.new result (says (spec_so_far self.old) (line_seen line)) }
    {
        match line {
            SpecLine::Role(name) => next(self.add_role(name)),
            SpecLine::Con(con) => next(self.add_con(con)),
            SpecLine::Sort(sort) => next(self.add_sort(sort)),
            SpecLine::Start(sort) => next(self.add_start(sort)),
            SpecLine::Offer(sort) => next(self.add_offer(sort)),
            SpecLine::Use { role, sort } => next(self.add_use(role, sort)),
            SpecLine::NewType(name) => next(self.add_type(name)),
            SpecLine::Shape { con, parts, own } => next(self.add_shape(con, parts, own)),
            SpecLine::Carry { sort, takes, gives } => next(self.add_carry(sort, takes, gives)),
            SpecLine::Depends { sort, i, j } => next(self.add_depends(sort, i, j)),
            SpecLine::Free => next(self.add_free()),
            SpecLine::Rule(rule) => next(self.add_rule(rule)),
            SpecLine::Schedule { loads } => Ok(AfterLine::End { loads }),
        }
    }
}

/// Reading goes on, where what a line adds was added.
fn next(added: Result<(), LineFault>) -> Result<AfterLine, LineFault>
    ensures ok { OnOk added (result ≡ Ok Next) }
    ensures err { IfErr added (λ fault. result ≡ Err fault) }
{
    added?;
    Ok(AfterLine::Next)
}
