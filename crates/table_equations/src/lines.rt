//! The lines of nodes over both stores: with values that are missing or go round, with one
//! that has no end, and with one that is shared at each of its levels; and lines of one report, with long values that come
//! again. What it has to write was worked out by hand.
ghost use Rattle.aw_print.specs.Stacks.{IsReady};

use crate::filling::{BOX, NONE, fill, node, parts};
use aw_base::{Choice, Grammar, Ground, Items, NameWriter};
use aw_cells::CellFacts;
use aw_list::Text;
use aw_out::{PrintFault, Report};
use aw_print::{Printer, artifact_row};
use aw_spec::read_spec;
use aw_store::{Facts, ListFacts};
use std::alloc::{AllocError, Global};
use table_common::TableFault;

/// What is declared.
const SPEC: &[u8] = b"role clinic
con pair 2
con box 1
con none 0
sort visit clinic 0 2
start visit
rule admit {who, care} : visit()<who, care>
";

/// A line that is asked for: the case of a visit, and the numbers of the parts of the first visit that it inherits.
#[derive(Clone, Copy)]
struct Asked<'a> {
    case: u64,
    inherited: &'a [u16],
}

/// Prints the line of a visit.
fn print_asked<F: Facts>(
    alloc: Global,
    g: &Grammar,
    f: &F,
    asked: Asked,
    done: &Option<Choice>,
    printer: &mut Printer,
    report: &mut Report,
) -> Result<(), PrintFault>
    requires { IsReady g.now (F.map f.now) (F.names f.now) report.old printer.old }
    ensures { IsReady g.now (F.map f.now) (F.names f.now) report.new printer.new }
{
    let node = node(alloc, asked.case);
    let inherited = parts(alloc, asked.inherited)?;
    let mut names = NameWriter::new(alloc, g);
    artifact_row(
        alloc, g, &mut names, &node, &inherited, done, f, printer, report,
    )
}

/// Adds what was printed, or that it passes the limit.
fn push_printed(
    told: &mut Text,
    report: &Report,
    printed: Result<(), PrintFault>,
) -> Result<(), AllocError> {
    match printed {
        Ok(()) => told.push_bytes(report.bytes()),
        Err(PrintFault::TooLarge) => told.push_bytes(b"too large\n"),
        Err(PrintFault::NoMemory) => Err(AllocError),
    }
}

/// Adds the line of a visit, or that it has more bytes than this.
fn push_line<F: Facts>(
    told: &mut Text,
    g: &Grammar,
    f: &F,
    asked: Asked,
    done: &Option<Choice>,
    limit: usize,
) -> Result<(), AllocError> {
    let alloc = told.allocator();
    let mut report = Report::new(alloc, limit);
    let mut printer = Printer::new(alloc);
    let printed = print_asked(alloc, g, f, asked, done, &mut printer, &mut report);
    push_printed(told, &report, printed)
}

/// The choice `admit {"Ada", box(none)}` of the first visit.
fn admitted(alloc: Global) -> Result<Choice, AllocError> {
    let mut inner = Items::new(alloc);
    inner.push(Ground::Con(NONE, Items::new(alloc)))?;
    let mut args = Items::new(alloc);
    args.push(Ground::Text(Text::from_bytes(alloc, b"Ada")?))?;
    args.push(Ground::Con(BOX, inner))?;
    Ok(Choice::Develop {
        node: node(alloc, 1),
        rule: 0,
        args,
    })
}

/// Adds the lines of a visit that was admitted: what is missing and what goes round prints with a mark, and a line of 96 bytes has room
/// in 96.
fn push_done<F: Facts>(
    told: &mut Text,
    g: &Grammar,
    f: &F,
    done: &Option<Choice>,
) -> Result<(), AllocError> {
    let asked = Asked {
        case: 1,
        inherited: &[8, 6, 9],
    };
    push_line(told, g, f, asked, done, 96)?;
    push_line(told, g, f, asked, done, 95)
}

/// Adds lines whose values end.
fn push_ending<F: Facts>(told: &mut Text, g: &Grammar, f: &F) -> Result<(), AllocError> {
    let done = Some(admitted(told.allocator())?);
    let pushed = push_done(told, g, f, &done);
    drop(done);
    pushed?;
    let mut asked = Asked {
        case: 1,
        inherited: &[],
    };
    push_line(told, g, f, asked, &None, 95)?;
    asked.case = 2;
    push_line(told, g, f, asked, &None, 95)
}

/// Adds lines that pass their limits: of a value without an end, at a small limit and at one a quarter of a million levels
/// deep; and of a value that is shared at each of 40 levels.
fn push_passing<F: Facts>(told: &mut Text, g: &Grammar, f: &F) -> Result<(), AllocError> {
    let mut asked = Asked {
        case: 1,
        inherited: &[1],
    };
    push_line(told, g, f, asked, &None, 1_000)?;
    push_line(told, g, f, asked, &None, 1_000_100)?;
    asked.inherited = &[10];
    push_line(told, g, f, asked, &None, 100_000)
}

/// Prints lines into one report: of a long value, of the same again, of one that has it twice, and of what goes round.
fn print_together<F: Facts>(
    alloc: Global,
    g: &Grammar,
    f: &F,
    report: &mut Report,
) -> Result<(), PrintFault> {
    let mut printer = Printer::new(alloc);
    let mut asked = Asked {
        case: 3,
        inherited: &[46],
    };
    print_asked(alloc, g, f, asked, &None, &mut printer, report)?;
    asked.case = 4;
    print_asked(alloc, g, f, asked, &None, &mut printer, report)?;
    asked.inherited = &[45, 6, 46];
    print_asked(alloc, g, f, asked, &None, &mut printer, report)?;
    asked.inherited = &[7, 45];
    print_asked(alloc, g, f, asked, &None, &mut printer, report)
}

/// Adds lines of one report, or that they pass its limit.
fn push_together<F: Facts>(told: &mut Text, g: &Grammar, f: &F) -> Result<(), AllocError> {
    let alloc = told.allocator();
    let mut report = Report::new(alloc, 10_000);
    let printed = print_together(alloc, g, f, &mut report);
    push_printed(told, &report, printed)
}

/// Adds all lines over a store that was empty.
fn push_over<F: Facts>(told: &mut Text, g: &Grammar, f: &mut F) -> Result<(), AllocError> {
    fill(told.allocator(), f)?;
    push_ending(told, g, f)?;
    push_passing(told, g, f)?;
    push_together(told, g, f)
}

/// Adds all lines over a list.
fn push_over_list(told: &mut Text, g: &Grammar) -> Result<(), AllocError> {
    told.push_bytes(b"a list\n")?;
    let mut facts = ListFacts::new(told.allocator());
    let pushed = push_over(told, g, &mut facts);
    drop(facts);
    pushed
}

/// Adds all lines over a table of hashes.
fn push_over_cells(told: &mut Text, g: &Grammar) -> Result<(), AllocError> {
    told.push_bytes(b"a table of hashes\n")?;
    let mut facts = CellFacts::new(told.allocator());
    let pushed = push_over(told, g, &mut facts);
    drop(facts);
    pushed
}

/// Adds all lines over both stores.
fn push_over_both(told: &mut Text, g: &Grammar) -> Result<(), AllocError> {
    push_over_list(told, g)?;
    push_over_cells(told, g)
}

/// Adds what is told of both stores.
pub fn push_lines(alloc: Global, told: &mut Text) -> Result<(), TableFault> {
    match read_spec(alloc, SPEC) {
        Ok(spec) => {
            let pushed = push_over_both(told, &spec.grammar);
            drop(spec);
            Ok(pushed?)
        }
        Err(_) => Err(TableFault::Unreadable),
    }
}
