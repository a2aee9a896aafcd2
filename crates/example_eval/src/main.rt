//! Reads a query once, and evaluates it over one text after another.
#![tactic(auto)]

ghost use Rattle.std.specs.Prelude.{IfOk};
ghost use Rattle.jp_nodes.specs.Tapes.{IsTapeOf};

use jp_eval::Program;
use jp_masks::line_marks;
use jp_model::{Framing, is_blank};
use jp_query::{ParseFault, parse};
use jp_tape::{BuildFault, Cursor, Tape, build};
use jp_types::{Checked, check};
use std::alloc::{AllocError, Global};
use std::process::ExitCode;

/// The titles of the items that cost more than 20.
const QUERY: &[u8] = b"$.items[?@.price > 20].title";

/// The texts over which the query is evaluated. The second breaks off.
const TEXTS: [&[u8]; 3] = [
    b"{\"items\":[{\"title\":\"Mug\",\"price\":9.95},{\"title\":\"Lamp\",\"price\":45.60}]}",
    b"{\"items\":[{\"title\":\"Desk\",\"price\":2.5e2}",
    b"{\"items\":[{\"title\":\"\\u00c9tag\\u00e8re\",\"price\":120}]}",
];

/// Why a text is not evaluated.
#[derive(Debug, Drop)]
enum Fault {
    /// The query is not well formed, or not well typed.
    Query,
    /// The text is blank or not valid JSON.
    Text,
    Memory,
}

impl From<AllocError> for Fault {
    fn from(_error: AllocError) -> Fault {
        Fault::Memory
    }
}

/// The query, well formed and well typed.
fn read_query(alloc: Global, text: &[u8]) -> Result<Checked, Fault> {
    match parse(alloc, text) {
        Ok(query) => check(query).map_err(|_| Fault::Query),
        Err(ParseFault::Memory) => Err(Fault::Memory),
        Err(ParseFault::Refused(_)) => Err(Fault::Query),
    }
}

/// The tape of a text, which is its tree in words of eight bytes.
fn read_text(alloc: Global, text: &[u8]) -> Result<Tape, Fault>
    ensures { IfOk result (λ tape. IsTapeOf tape text.now) }
{
    if is_blank(text) || text.len() > 0xFFFF_FFFF {
        return Err(Fault::Text);
    }
    let is_utf8 = str::from_utf8(text).is_ok();
    let marks = line_marks(alloc, text)?;
    match build(alloc, text, &marks, is_utf8, Framing::Lines) {
        Ok(tape) => Ok(tape),
        Err(BuildFault::Memory) => Err(Fault::Memory),
        Err(BuildFault::Line(_)) => Err(Fault::Text),
    }
}

/// Prints the bytes of each node that the program selects in a text.
fn print_nodes(rt: &HostRuntime, program: &Program, text: &[u8]) -> Result<(), Fault> {
    let tape = read_text(rt.alloc(), text)?;
    let root = Cursor::root(&tape, text);
    let mut nodes = Vec::new(rt.alloc());
    program.run(rt.alloc(), root, root, &mut nodes)?;
    for node in &nodes {
        if let Ok(source) = str::from_utf8(node.source()) {
            let _ = println!(rt; "{source}");
        }
    }
    Ok(())
}

/// Evaluates the query over the texts, and tells those that are not valid.
fn print_all(rt: &HostRuntime) -> Result<(), Fault> {
    let query = read_query(rt.alloc(), QUERY)?;
    let program = Program::compile(rt.alloc(), query.segments())?;
    for text in TEXTS {
        match print_nodes(rt, &program, text) {
            Err(Fault::Text) => {
                let _ = println!(rt; "(a text that is not valid JSON)");
            }
            other => other?,
        }
    }
    Ok(())
}

/// Exits with 1 if the query is refused, or memory.
fn main(rt: HostRuntime) -> ExitCode {
    match print_all(&rt) {
        Ok(()) => ExitCode::from(0),
        Err(_) => ExitCode::from(1),
    }
}
