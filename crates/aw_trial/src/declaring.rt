//! The declarations of the trial's specification.
ghost use Rattle.std.specs.Prelude.{◌≡◌, [], ◌∷◌, ◌++◌, map, IfOk, OnOk};
ghost use Rattle.aw_grammar.specs.Written.{Word, written_of, child_of_raw, rule_of_raw};
ghost use Rattle.aw_trial.specs.Specification.{apply_2, trial_roles, trial_cons, trial_sorts, begin_rule, measure_rule, refer_rule, write_rule, file_rule, hold_rule, split_rule, trial_rules, AreDeclared};

use aw_grammar::{
    Names, Parts, RawChild, RawChildren, RawCon, RawCons, RawRule, RawRules, RawSort, RawSorts,
    RawTerm, RawTerms,
};
use aw_list::Text;
use std::alloc::{AllocError, Global};

/// No name.
fn no_names(alloc: Global) -> Names
    ensures { result ≡ [] }
{
    Names::new(alloc)
}

/// A list of one name.
fn one_name(alloc: Global, name: &[u8]) -> Result<Names, AllocError>
    ensures { IfOk result (λ names. names ≡ name.now ∷ []) }
{
    let mut names = Names::new(alloc);
    names.push(Text::from_bytes(alloc, name)?)?;
    Ok(names)
}

/// The four roles.
fn roles(alloc: Global) -> Result<Names, AllocError>
    ensures { IfOk result (λ names. names ≡ trial_roles) }
{
    let mut names = Names::new(alloc);
    names.push(Text::from_bytes(alloc, b"front")?)?;
    names.push(Text::from_bytes(alloc, b"lab")?)?;
    names.push(Text::from_bytes(alloc, b"desk")?)?;
    names.push(Text::from_bytes(alloc, b"store")?)?;
    Ok(names)
}

/// Adds a constructor.
fn push_con(cons: &mut RawCons, name: &[u8], arity: u64) -> Result<(), AllocError>
    ensures { OnOk result (cons.new ≡ cons.old ++ record { name = name.now; arity = arity } ∷ []) }
{
    let name = Text::from_bytes(cons.allocator(), name)?;
    cons.push(RawCon { name, arity })?;
    Ok(())
}

/// The three constructors.
fn cons(alloc: Global) -> Result<RawCons, AllocError>
    ensures { IfOk result (λ cons. cons ≡ trial_cons) }
{
    let mut cons = RawCons::new(alloc);
    push_con(&mut cons, b"ok", 0)?;
    push_con(&mut cons, b"pair", 2)?;
    push_con(&mut cons, b"item", 2)?;
    Ok(cons)
}

/// Adds a sort that gives one value.
fn push_sort(sorts: &mut RawSorts, name: &[u8], role: &[u8], takes: u64) -> Result<(), AllocError>
    ensures { OnOk result (sorts.new ≡ sorts.old ++ record { name = name.now; role = role.now; takes = takes; gives = 1 } ∷ []) }
{
    let name = Text::from_bytes(sorts.allocator(), name)?;
    let role = Text::from_bytes(sorts.allocator(), role)?;
    sorts.push(RawSort {
        name,
        role,
        takes,
        gives: 1,
    })?;
    Ok(())
}

/// The four sorts.
fn sorts(alloc: Global) -> Result<RawSorts, AllocError>
    ensures { IfOk result (λ sorts. sorts ≡ trial_sorts) }
{
    let mut sorts = RawSorts::new(alloc);
    push_sort(&mut sorts, b"case", b"front", 0)?;
    push_sort(&mut sorts, b"test", b"lab", 1)?;
    push_sort(&mut sorts, b"note", b"desk", 2)?;
    push_sort(&mut sorts, b"keep", b"store", 1)?;
    Ok(sorts)
}

/// A bare word.
fn word(alloc: Global, name: &[u8]) -> Result<RawTerm, AllocError>
    ensures { IfOk result (λ term. written_of term ≡ Word name.now) }
{
    Ok(RawTerm::Word(Text::from_bytes(alloc, name)?))
}

/// A list of one term.
fn one_term(alloc: Global, term: RawTerm) -> Result<RawTerms, AllocError>
    ensures { IfOk result (λ terms. terms ≡ term ∷ []) }
{
    let mut terms = RawTerms::new(alloc);
    terms.push(term)?;
    Ok(terms)
}

/// A list of one word.
fn one_word(alloc: Global, name: &[u8]) -> Result<RawTerms, AllocError>
    ensures { IfOk result (λ terms. map written_of terms ≡ Word name.now ∷ []) }
{
    one_term(alloc, word(alloc, name)?)
}

/// A list of two words.
fn two_words(alloc: Global, first: &[u8], second: &[u8]) -> Result<RawTerms, AllocError>
    ensures { IfOk result (λ terms. map written_of terms ≡ Word first.now ∷ Word second.now ∷ []) }
{
    let mut terms = RawTerms::new(alloc);
    terms.push(word(alloc, first)?)?;
    terms.push(word(alloc, second)?)?;
    Ok(terms)
}

/// A list of one term: a constructor with two words.
fn one_pair(alloc: Global, name: &[u8], first: &[u8], second: &[u8]) -> Result<RawTerms, AllocError>
    ensures { IfOk result (λ terms. map written_of terms ≡ apply_2 name.now (Word first.now) (Word second.now) ∷ []) }
{
    let name = Text::from_bytes(alloc, name)?;
    let parts = two_words(alloc, first, second)?;
    one_term(alloc, RawTerm::Apply(name, parts))
}

/// A subtask with one result.
fn child(
    alloc: Global,
    sort: &[u8],
    args: RawTerms,
    result_name: &[u8],
) -> Result<RawChild, AllocError>
    ensures { IfOk result (λ c. child_of_raw c ≡ record { sort = sort.now; args = map written_of args; results = result_name.now ∷ [] }) }
{
    Ok(RawChild {
        sort: Text::from_bytes(alloc, sort)?,
        args,
        results: one_name(alloc, result_name)?,
    })
}

/// A list of one subtask.
fn one_child(alloc: Global, child: RawChild) -> Result<RawChildren, AllocError>
    ensures { IfOk result (λ children. children ≡ child ∷ []) }
{
    let mut children = RawChildren::new(alloc);
    children.push(child)?;
    Ok(children)
}

/// A list of two subtasks.
fn two_children(alloc: Global, first: RawChild, second: RawChild) -> Result<RawChildren, AllocError>
    ensures { IfOk result (λ children. children ≡ first ∷ second ∷ []) }
{
    let mut children = RawChildren::new(alloc);
    children.push(first)?;
    children.push(second)?;
    Ok(children)
}

/// Two texts.
fn two_texts(alloc: Global, first: &[u8], second: &[u8]) -> Result<(Text, Text), AllocError>
    ensures first { IfOk result (λ texts. texts.0 ≡ first.now) }
    ensures second { IfOk result (λ texts. texts.1 ≡ second.now) }
{
    let first = Text::from_bytes(alloc, first)?;
    let second = Text::from_bytes(alloc, second)?;
    Ok((first, second))
}

/// A rule of these parts. Its name and its sort are copied.
fn rule(
    alloc: Global,
    name: &[u8],
    sort: &[u8],
    params: Names,
    patterns: RawTerms,
    results: RawTerms,
    children: RawChildren,
) -> Result<RawRule, AllocError>
    ensures { IfOk result (λ r. rule_of_raw r ≡ record { name = name.now; params = params; sort = sort.now; patterns = map written_of patterns; results = map written_of results; children = map child_of_raw children }) }
{
    let (name, sort) = two_texts(alloc, name, sort)?;
    Ok(RawRule {
        name,
        params,
        sort,
        patterns,
        results,
        children,
    })
}

/// The subtasks `test(item(n, ok))<a> ; note(a, n)<b>`.
fn begin_children(alloc: Global) -> Result<RawChildren, AllocError>
    ensures { IfOk result (λ children. map child_of_raw children ≡ begin_rule.children) }
{
    let test = child(alloc, b"test", one_pair(alloc, b"item", b"n", b"ok")?, b"a")?;
    let note = child(alloc, b"note", two_words(alloc, b"a", b"n")?, b"b")?;
    two_children(alloc, test, note)
}

/// `begin {n} : case()<pair(a, b)> = test(item(n, ok))<a> ; note(a, n)<b>`
fn begin_rule(alloc: Global) -> Result<RawRule, AllocError>
    ensures { IfOk result (λ r. rule_of_raw r ≡ begin_rule) }
{
    rule(
        alloc,
        b"begin",
        b"case",
        one_name(alloc, b"n")?,
        RawTerms::new(alloc),
        one_pair(alloc, b"pair", b"a", b"b")?,
        begin_children(alloc)?,
    )
}

/// `measure {v} : test(item(x, y))<pair(x, v)>`
fn measure_rule(alloc: Global) -> Result<RawRule, AllocError>
    ensures { IfOk result (λ r. rule_of_raw r ≡ measure_rule) }
{
    rule(
        alloc,
        b"measure",
        b"test",
        one_name(alloc, b"v")?,
        one_pair(alloc, b"item", b"x", b"y")?,
        one_pair(alloc, b"pair", b"x", b"v")?,
        RawChildren::new(alloc),
    )
}

/// The subtask `note(x, x)<b>`.
fn refer_children(alloc: Global) -> Result<RawChildren, AllocError>
    ensures { IfOk result (λ children. map child_of_raw children ≡ refer_rule.children) }
{
    let note = child(alloc, b"note", two_words(alloc, b"x", b"x")?, b"b")?;
    one_child(alloc, note)
}

/// `refer : test(item(x, ok))<b> = note(x, x)<b>`
fn refer_rule(alloc: Global) -> Result<RawRule, AllocError>
    ensures { IfOk result (λ r. rule_of_raw r ≡ refer_rule) }
{
    rule(
        alloc,
        b"refer",
        b"test",
        no_names(alloc),
        one_pair(alloc, b"item", b"x", b"ok")?,
        one_word(alloc, b"b")?,
        refer_children(alloc)?,
    )
}

/// The patterns `pair(x, y), z`.
fn write_patterns(alloc: Global) -> Result<RawTerms, AllocError>
    ensures { IfOk result (λ terms. map written_of terms ≡ write_rule.patterns) }
{
    let mut patterns = one_pair(alloc, b"pair", b"x", b"y")?;
    patterns.push(word(alloc, b"z")?)?;
    Ok(patterns)
}

/// `write {t} : note(pair(x, y), z)<item(x, t)>`
fn write_rule(alloc: Global) -> Result<RawRule, AllocError>
    ensures { IfOk result (λ r. rule_of_raw r ≡ write_rule) }
{
    rule(
        alloc,
        b"write",
        b"note",
        one_name(alloc, b"t")?,
        write_patterns(alloc)?,
        one_pair(alloc, b"item", b"x", b"t")?,
        RawChildren::new(alloc),
    )
}

/// The subtask `keep(pair(x, y))<k>`.
fn file_children(alloc: Global) -> Result<RawChildren, AllocError>
    ensures { IfOk result (λ children. map child_of_raw children ≡ file_rule.children) }
{
    let keep = child(alloc, b"keep", one_pair(alloc, b"pair", b"x", b"y")?, b"k")?;
    one_child(alloc, keep)
}

/// `file : note(x, y)<k> = keep(pair(x, y))<k>`
fn file_rule(alloc: Global) -> Result<RawRule, AllocError>
    ensures { IfOk result (λ r. rule_of_raw r ≡ file_rule) }
{
    rule(
        alloc,
        b"file",
        b"note",
        no_names(alloc),
        two_words(alloc, b"x", b"y")?,
        one_word(alloc, b"k")?,
        file_children(alloc)?,
    )
}

/// `hold : keep(x)<x>`
fn hold_rule(alloc: Global) -> Result<RawRule, AllocError>
    ensures { IfOk result (λ r. rule_of_raw r ≡ hold_rule) }
{
    rule(
        alloc,
        b"hold",
        b"keep",
        no_names(alloc),
        one_word(alloc, b"x")?,
        one_word(alloc, b"x")?,
        RawChildren::new(alloc),
    )
}

/// The subtasks `keep(x)<a> ; keep(y)<b>`.
fn split_children(alloc: Global) -> Result<RawChildren, AllocError>
    ensures { IfOk result (λ children. map child_of_raw children ≡ split_rule.children) }
{
    let first = child(alloc, b"keep", one_word(alloc, b"x")?, b"a")?;
    let second = child(alloc, b"keep", one_word(alloc, b"y")?, b"b")?;
    two_children(alloc, first, second)
}

/// `split : keep(pair(x, y))<pair(a, b)> = keep(x)<a> ; keep(y)<b>`
fn split_rule(alloc: Global) -> Result<RawRule, AllocError>
    ensures { IfOk result (λ r. rule_of_raw r ≡ split_rule) }
{
    rule(
        alloc,
        b"split",
        b"keep",
        no_names(alloc),
        one_pair(alloc, b"pair", b"x", b"y")?,
        one_pair(alloc, b"pair", b"a", b"b")?,
        split_children(alloc)?,
    )
}

/// Adds the rules of cases and of tests.
fn push_test_rules(alloc: Global, rules: &mut RawRules) -> Result<(), AllocError>
    ensures { OnOk result (map rule_of_raw rules.new ≡ map rule_of_raw rules.old ++ (begin_rule ∷ measure_rule ∷ refer_rule ∷ [])) }
{
    rules.push(begin_rule(alloc)?)?;
    rules.push(measure_rule(alloc)?)?;
    rules.push(refer_rule(alloc)?)?;
    Ok(())
}

/// Adds the rules of notes.
fn push_note_rules(alloc: Global, rules: &mut RawRules) -> Result<(), AllocError>
    ensures { OnOk result (map rule_of_raw rules.new ≡ map rule_of_raw rules.old ++ (write_rule ∷ file_rule ∷ [])) }
{
    rules.push(write_rule(alloc)?)?;
    rules.push(file_rule(alloc)?)?;
    Ok(())
}

/// Adds the rules of what is kept.
fn push_keep_rules(alloc: Global, rules: &mut RawRules) -> Result<(), AllocError>
    ensures { OnOk result (map rule_of_raw rules.new ≡ map rule_of_raw rules.old ++ (hold_rule ∷ split_rule ∷ [])) }
{
    rules.push(hold_rule(alloc)?)?;
    rules.push(split_rule(alloc)?)?;
    Ok(())
}

/// The seven rules.
fn rules(alloc: Global) -> Result<RawRules, AllocError>
    ensures { IfOk result (λ rules. map rule_of_raw rules ≡ trial_rules) }
{
    let mut rules = RawRules::new(alloc);
    push_test_rules(alloc, &mut rules)?;
    push_note_rules(alloc, &mut rules)?;
    push_keep_rules(alloc, &mut rules)?;
    Ok(rules)
}

/// All declarations.
pub(crate) fn trial_parts(alloc: Global) -> Result<Parts, AllocError>
    ensures { IfOk result (λ parts. AreDeclared parts) }
{
    Ok(Parts {
        roles: roles(alloc)?,
        cons: cons(alloc)?,
        sorts: sorts(alloc)?,
        starts: one_name(alloc, b"case")?,
        rules: rules(alloc)?,
    })
}
