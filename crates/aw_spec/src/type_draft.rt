//! What lines of types add to what the lines so far say.
ghost use Rattle.std.specs.Prelude.{◌≡◌, ◌≤◌, ◌∷◌, ◌++◌, [], false, Some, length, IfOk, IfErr};
ghost use Rattle.std.specs.Option.{option_copied};
ghost use Rattle.aw_name_index.specs.Places.{first_told};
ghost use Rattle.aw_spec.specs.Lines as lines;
ghost use Rattle.aw_spec.specs.LineAnswers.{Adds, spec_so_far};
ghost use Rattle.aw_spec.specs.Reading as reading;
ghost use Rattle.aw_spec.specs.TypeLines.{item_at, is_dependence};

use crate::draft::{Draft, LineFault};
use crate::fault::SpecKind;
use crate::type_lines::{
    are_other_counts, carry_named, is_declared_at, is_dependence, is_other_arity, is_type,
    positions, put_at, shape_named,
};
use aw_base::{Con, Names, Sort, Triple};
use aw_list::Text;
use aw_typed::{Carry, Shape};

impl Draft {
    fn con_at(&self, at: Option<u16>) -> Option<&Con>
        ensures { option_copied result ≡ item_at self.now.grammar.cons at }
    {
        match at {
            Some(con) => self.grammar.con(con),
            None => None,
        }
    }

    fn sort_at(&self, at: Option<u16>) -> Option<&Sort>
        ensures { option_copied result ≡ item_at self.now.grammar.sorts at }
    {
        match at {
            Some(sort) => self.grammar.sort(sort),
            None => None,
        }
    }

    /// What is wrong with a type of this name.
    fn type_fault(&self, name: &Text) -> Option<SpecKind>
        requires { length self.now.types.names ≤ 256 }
        ensures { result ≡ first_told (reading.type_tests (spec_so_far self.now) name.now) }
    {
        if self.types.names.len() >= 256 {
            return Some(SpecKind::Limit);
        }
        if is_type(&self.types, name.as_slice()) {
            return Some(SpecKind::Double);
        }
        None
    }

    pub(crate) fn add_type(&mut self, name: Text) -> Result<(), LineFault>
        requires { length self.old.types.names ≤ 256 }
        ensures { Adds self.new result (reading.says (spec_so_far self.old) (lines.TypeLine name)) }
    {
        if let Some(kind) = self.type_fault(&name) {
            return Err(LineFault::Bad(kind));
        }
        self.types.typed = true;
        self.types.names.push(name)?;
        Ok(())
    }

    /// What is wrong with a shape of the constructor at a place.
    fn shape_fault(&self, at: Option<u16>, shape: &Option<Shape>) -> Option<SpecKind>
        ensures { result ≡ first_told (reading.shape_tests (spec_so_far self.now) at shape.now) }
    {
        if is_declared_at(&self.types.shapes, at) {
            return Some(SpecKind::Double);
        }
        if at.is_none() || shape.is_none() {
            return Some(SpecKind::Unknown);
        }
        if is_other_arity(self.con_at(at), shape) {
            return Some(SpecKind::Arity);
        }
        None
    }

    pub(crate) fn add_shape(&mut self, con: Text, parts: Names, own: Text) -> Result<(), LineFault>
        requires { length self.old.types.names ≤ 256 }
        ensures { Adds self.new result (reading.says (spec_so_far self.old) (lines.ShapeLine con parts own)) }
    {
        let at = self.grammar.con_named(con.as_slice());
        let shape = shape_named(&self.types, &parts, &own)?;
        if let Some(kind) = self.shape_fault(at, &shape) {
            return Err(LineFault::Bad(kind));
        }
        self.types.typed = true;
        put_at(&mut self.types.shapes, at, shape);
        Ok(())
    }

    /// What is wrong with a carry of the sort at a place.
    fn carry_fault(&self, at: Option<u16>, carry: &Option<Carry>) -> Option<SpecKind>
        ensures { result ≡ first_told (reading.carry_tests (spec_so_far self.now) at carry.now) }
    {
        if is_declared_at(&self.types.carries, at) {
            return Some(SpecKind::Double);
        }
        if at.is_none() || carry.is_none() {
            return Some(SpecKind::Unknown);
        }
        if are_other_counts(self.sort_at(at), carry) {
            return Some(SpecKind::Arity);
        }
        None
    }

    pub(crate) fn add_carry(
        &mut self,
        sort: Text,
        takes: Names,
        gives: Names,
    ) -> Result<(), LineFault>
        requires { length self.old.types.names ≤ 256 }
        ensures { Adds self.new result (reading.says (spec_so_far self.old) (lines.CarryLine sort takes gives)) }
    {
        let at = self.grammar.sort_named(sort.as_slice());
        let carry = carry_named(&self.types, &takes, &gives)?;
        if let Some(kind) = self.carry_fault(at, &carry) {
            return Err(LineFault::Bad(kind));
        }
        self.types.typed = true;
        put_at(&mut self.types.carries, at, carry);
        Ok(())
    }

    /// The dependence of the sort at a place, or what is wrong with it.
    fn dependence(&self, at: Option<u16>, i: u64, j: u64) -> Result<Triple, SpecKind>
        ensures ok { IfOk result (λ x. reading.depending (spec_so_far self.now) at i j ≡ reading.On (record (spec_so_far self.now) { depends = self.now.depends ++ x ∷ [] })) }
        ensures fresh { IfOk result (λ x. is_dependence self.now.depends (Some x.sort) x.i x.j ≡ false) }
        ensures err { IfErr result (λ kind. reading.depending (spec_so_far self.now) at i j ≡ reading.Wrong kind) }
    {
        if is_dependence(&self.depends, at, i, j) {
            return Err(SpecKind::Double);
        }
        let Some(sort) = at else {
            return Err(SpecKind::Unknown);
        };
        match positions(self.sort_at(at), i, j) {
            Some((i, j)) => Ok(Triple { sort, i, j }),
            None => Err(SpecKind::Arity),
        }
    }

    pub(crate) fn add_depends(&mut self, sort: Text, i: u64, j: u64) -> Result<(), LineFault>
        ensures { Adds self.new result (reading.says (spec_so_far self.old) (lines.DependsLine sort i j)) }
    {
        let at = self.grammar.sort_named(sort.as_slice());
        match self.dependence(at, i, j) {
            Ok(found) => Ok(self.depends.push(found)?),
            Err(kind) => Err(LineFault::Bad(kind)),
        }
    }
}
