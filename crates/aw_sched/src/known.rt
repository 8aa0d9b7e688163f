//! A choice without a fault, made at once from the bytes of its line, without tokens and written terms between.
ghost use Rattle.std.specs.Prelude.{◌≡◌, ◌<◌, ◌+◌, ◌∷◌, [], List, IfOk, OnOk, Some, length, true, false};
ghost use Rattle.aw_grammar.specs.GrammarOf.{words_of};
ghost use Rattle.aw_grammar.specs.Named.{number_named};
ghost use Rattle.aw_grammar.specs.declared.rule.Con.{Con};
ghost use Rattle.aw_term_reader.specs.Lexemes.{Mark};
ghost use Rattle.aw_sched.specs.Arguments.{IsCon};
ghost use Rattle.aw_sched.specs.ArgumentFronts.{AreInBraces, IsFront};
ghost use Rattle.aw_sched.specs.ByteArguments.{IsMarkByte, SaysBefore, TakesAll, TakesArgument, TakesArguments};
ghost use Rattle.aw_sched.specs.KnownChoices.{IsKnownChoice};

use crate::event::Event;
use crate::front::{behind_blanks, name_front, number_front, text_front};
use aw_base::{Choice, Grammar, Ground, Grounds, MOST_ARGUMENTS, MOST_LEVELS, MOST_SYMBOLS, Node};
use aw_term_reader::Unread;
use std::alloc::Global;

/// The constructor of a name, and how many parts it has.
fn con_named(g: &Grammar, name: &[u8]) -> Result<(u16, usize), Unread>
    ensures { IfOk result (λ x. IsCon g.now.cons name.now x.0 x.1) }
{
    let number = match g.con_named(name) {
        Some(number) => number,
        None => return Err(Unread::Form),
    };
    match g.con(number) {
        Some(con) => Ok((number, usize::from(con.arity))),
        None => Err(Unread::Form),
    }
}

/// The rule of a name, and how many arguments it takes.
fn rule_named(g: &Grammar, name: &[u8]) -> Result<(u16, usize), Unread>
    ensures { IfOk result (λ x. Some x.0 ≡ number_named (words_of g.now).rules name.now) }
{
    let number = match g.rule_named(name) {
        Some(number) => number,
        None => return Err(Unread::Form),
    };
    match g.rule(number) {
        Some(rule) => Ok((number, usize::from(rule.params))),
        None => Err(Unread::Form),
    }
}

/// What the front of an argument tells: the whole argument, or a constructor whose parts come behind it, and room for them.
#[derive(Drop)]
enum ArgumentFront {
    Whole(Ground),
    Parts {
        con: u16,
        arity: usize,
        parts: Grounds,
    },
}

/// The argument that is the text behind this opening quote, and what is left behind it.
fn text_argument(alloc: Global, inside: &[u8]) -> Result<(ArgumentFront, &[u8]), Unread>
    ensures { IfOk result (λ x. (cons : List Con) → IsFront cons (34 ∷ inside.entry.now) x.0 x.1.now) }
{
    let (text, rest) = text_front(alloc, inside)?;
    Ok((ArgumentFront::Whole(Ground::Text(text)), rest))
}

/// The argument that is the number at the front, and what is left behind it.
fn number_argument(bytes: &[u8]) -> Result<(ArgumentFront, &[u8]), Unread>
    ensures { IfOk result (λ x. (cons : List Con) → IsFront cons bytes.entry.now x.0 x.1.now) }
{
    match number_front(bytes) {
        Some((number, rest)) => Ok((ArgumentFront::Whole(Ground::Num(number)), rest)),
        None => Err(Unread::Form),
    }
}

/// The constructor whose name stands at the front, with the parenthesis that opens its parts, and what is left behind that.
fn constructor_front<'a>(
    alloc: Global,
    g: &Grammar,
    bytes: &'a [u8],
) -> Result<(ArgumentFront, &'a [u8]), Unread>
    ensures { IfOk result (λ x. IsFront g.now.cons bytes.entry.now x.0 x.1.now) }
{
    let Some((name, rest)) = name_front(bytes) else {
        return Err(Unread::Form);
    };
    let (con, arity) = con_named(g, name)?;
    match behind_blanks(rest) {
        [b'(', inside @ ..] => {
            let parts = Grounds::from_vec(Vec::with_capacity(alloc, arity)?);
            Ok((ArgumentFront::Parts { con, arity, parts }, inside))
        }
        _ if arity == 0 => {
            let argument = Ground::Con(con, Grounds::new(alloc));
            Ok((ArgumentFront::Whole(argument), rest))
        }
        _ => Err(Unread::Form),
    }
}

/// What stands at the front of an argument, behind blanks, and what is left behind it.
fn front_of_argument<'a>(
    alloc: Global,
    g: &Grammar,
    line: &'a [u8],
) -> Result<(ArgumentFront, &'a [u8]), Unread>
    ensures { IfOk result (λ x. IsFront g.now.cons line.entry.now x.0 x.1.now) }
{
    let bytes = behind_blanks(line);
    match bytes {
        [b'"', inside @ ..] => text_argument(alloc, inside),
        [b'0'..=b'9', ..] => number_argument(bytes),
        _ => constructor_front(alloc, g, bytes),
    }
}

/// The argument of this constructor and these parts, where they are as many as it has.
fn with_parts(con: u16, arity: usize, parts: Grounds) -> Result<Ground, Unread>
    ensures { IfOk result (λ x. (x ≡ Ground.Con con parts) × (length parts ≡ arity)) }
{
    if parts.len() == arity {
        Ok(Ground::Con(con, parts))
    } else {
        Err(Unread::Form)
    }
}

/// Whether this closing mark stands next, and else a comma; and what is left behind it.
fn closing_or_comma(close: u8, line: &[u8]) -> Result<(bool, &[u8]), Unread>
    requires { IsMarkByte close }
    ensures closed { IfOk result (λ x. x.0 ≡ true → SaysBefore line.entry.now (Mark close ∷ []) x.1.now) }
    ensures goes_on { IfOk result (λ x. x.0 ≡ false → SaysBefore line.entry.now (Mark 44 ∷ []) x.1.now) }
{
    match behind_blanks(line) {
        [b',', more @ ..] => Ok((false, more)),
        [mark, more @ ..] if *mark == close => Ok((true, more)),
        _ => Err(Unread::Form),
    }
}

/// What is left of a line, while the arguments of a choice are read from it, and of the room for symbols in them.
#[derive(Drop)]
struct ArgumentReader<'a> {
    alloc: Global,
    grammar: &'a Grammar,
    rest: &'a [u8],
    room: u16,
}

impl<'a> ArgumentReader<'a> {
    /// The front of the next argument, of at most this depth. It takes the room of one symbol.
    fn front(&mut self, depth: u8) -> Result<ArgumentFront, Unread>
        ensures grammar { self.new.grammar.now ≡ self.old.grammar.now }
        ensures depth { OnOk result (0 < depth) }
        ensures room { OnOk result (self.new.room + 1 ≡ self.old.room) }
        ensures front { IfOk result (λ x. IsFront self.old.grammar.now.cons self.old.rest.now x self.new.rest.now) }
    {
        if depth == 0 || self.room == 0 {
            return Err(Unread::Form);
        }
        let (front, rest) = front_of_argument(self.alloc, self.grammar, self.rest)?;
        self.room -= 1;
        self.rest = rest;
        Ok(front)
    }

    /// The next argument, of at most this depth.
    #[cycle(argument)]
    fn argument(&mut self, depth: u8) -> Result<Ground, Unread>
        ensures grammar { self.new.grammar.now ≡ self.old.grammar.now }
        ensures reads { IfOk result (λ x. TakesArgument self.old.grammar.now.cons depth self.old.room self.old.rest.now x self.new.room self.new.rest.now) }
    {
        match self.front(depth)? {
            ArgumentFront::Whole(argument) => Ok(argument),
            ArgumentFront::Parts {
                con,
                arity,
                mut parts,
            } => {
                self.arguments(b')', depth - 1, &mut parts)?;
                with_parts(con, arity, parts)
            }
        }
    }

    /// Adds one argument or more to none, with a comma between each two, up to a closing mark.
    #[cycle(argument)]
    fn arguments(&mut self, close: u8, depth: u8, found: &mut Grounds) -> Result<(), Unread>
        requires close { IsMarkByte close }
        requires none { found.old ≡ [] }
        ensures grammar { self.new.grammar.now ≡ self.old.grammar.now }
        ensures reads { OnOk result (TakesArguments self.old.grammar.now.cons close depth self.old.room self.old.rest.now found.new self.new.room self.new.rest.now) }
    {
        'reading: loop {
            let argument = self.argument(depth)?;
            found.push(argument)?;
            let (is_closed, rest) = closing_or_comma(close, self.rest)?;
            self.rest = rest;
            if is_closed {
                return Ok(());
            }
        }
    }
}

/// The arguments of a choice behind their opening brace, behind which nothing stands. There is memory for so many from the start.
fn read_in_braces(
    alloc: Global,
    g: &Grammar,
    count: usize,
    inside: &[u8],
) -> Result<Grounds, Unread>
    ensures { IfOk result (AreInBraces g.now.cons inside.now) }
{
    let mut args = Grounds::from_vec(Vec::with_capacity(alloc, count)?);
    let mut reader = ArgumentReader {
        alloc,
        grammar: g,
        rest: inside,
        room: MOST_SYMBOLS,
    };
    reader.arguments(b'}', MOST_LEVELS, &mut args)?;
    if args.len() <= MOST_ARGUMENTS && behind_blanks(reader.rest).is_empty() {
        Ok(args)
    } else {
        Err(Unread::Form)
    }
}

/// All arguments of a choice, behind which nothing stands: none, or some between braces.
fn read_all(alloc: Global, g: &Grammar, count: usize, line: &[u8]) -> Result<Grounds, Unread>
    ensures { IfOk result (TakesAll g.now.cons line.now) }
{
    match behind_blanks(line) {
        [] => Ok(Grounds::new(alloc)),
        [b'{', inside @ ..] => read_in_braces(alloc, g, count, inside),
        _ => Err(Unread::Form),
    }
}

/// The choice at this node of which what stands behind the node's name spells the rule and the arguments, where there is no fault but of
/// types. Any other, also one with a fault, is of no such form, and is left to be read in full.
pub(crate) fn known_choice(
    alloc: Global,
    g: &Grammar,
    node: Node,
    line: &[u8],
) -> Result<Event, Unread>
    ensures { IfOk result (IsKnownChoice g.now node line.now) }
{
    let Some((rule, rest)) = name_front(behind_blanks(line)) else {
        return Err(Unread::Form);
    };
    let (rule, params) = rule_named(g, rule)?;
    let args = read_all(alloc, g, params, rest)?;
    let choice = Choice::Develop { node, rule, args };
    Ok(Event::of_choice(alloc, choice)?)
}
