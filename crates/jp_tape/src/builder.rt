//! The builder of a tape: it reads a line once, and reports its first fault.

ghost use Rattle.std.specs.Prelude.{◌≡◌, ◌+◌, ◌*◌, ◌/◌, ◌<◌, ◌≤◌, ◌↔◌, ◌^◌, ◌++◌, ℕ, List, false, length, IfOk, IfErr, OnOk, OnErr, IsTrue, IsUtf8};
ghost use Rattle.jp_model.specs.Lines.{is_blank};
ghost use Rattle.jp_model.specs.Json.Faults.{depth};
ghost use Rattle.jp_model.specs.Json.Marks.{marks as marks_of};
ghost use Rattle.jp_model.specs.Json.Tree.{Tree};
ghost use Rattle.jp_model.specs.Json.Spelling.{Text};
ghost use Rattle.jp_model.specs.Json.Status.{HasStatus, parsed, fault_of_tree};
ghost use Rattle.jp_nodes.specs.Tapes.{spelled, IsTapeOf};
ghost use Rattle.jp_nodes.specs.Words.{tape_words};
ghost use Rattle.jp_nodes.specs.Forms.{IsAmong};
ghost use Rattle.jp_tape.specs.Nodes.{HoldsAll};
ghost use Rattle.jp_tape.specs.Fresh.{IsFresh};
ghost use Rattle.jp_tape.specs.Reading.{IsReadable};
ghost use Rattle.jp_tape.specs.Refusals.{IsFaultOf, IsRefused};

mod body;
mod escapes;
mod front;
mod kept;
mod keys;
mod leaves;
mod listener;
mod names;
mod nodes;
mod numbers;
mod reader;
mod scan;
mod tokens;

use escapes::first_escape;
use jp_model::{Framing, LineFault};
use jp_nodes::{Tape, append_tape, is_truncated, tapes_are_of_lines};
use listener::Deaf;
use nodes::Nodes;
use reader::{Reader, read_text};
use std::alloc::Global;

/// Why a line has no tape.
#[derive(Clone, Copy, Debug, PartialEq, Eq)]
pub enum BuildFault {
    /// The line's first fault.
    Line(LineFault),
    /// Out of memory.
    Memory,
}

/// Arrays and objects nest no deeper (profile).
const MOST_DEPTH: usize = 512;

/// Memory that is lent from line to line. It borrows nothing of any line.
#[derive(Drop)]
pub struct Builder {
    /// Where memory comes from.
    alloc: Global,
    /// What closes the arrays and objects that are open.
    stack: Vec<u8>,
    /// The nodes of the line that is read.
    nodes: Nodes,
}

/// The fault of a line in which an array or an object nests too deep: that it does, if the line is JSON.
#[inline(never)]
fn fault_of_deep(alloc: Global, line: &[u8], escape: usize, marks: &[u32]) -> BuildFault
    requires line { IsReadable line.now escape }
    requires marks { marks.now ≡ marks_of line.now }
    requires deep { (t : Tree) → Text line.now t → 512 < depth t }
    ensures { IsFaultOf line.now result }
{
    let mut stack = Vec::new(alloc);
    if stack.reserve(marks.len()).is_err() {
        return BuildFault::Memory;
    }
    let mut reader = Reader::new(marks, &mut stack, marks.len());
    match read_text(line, escape, &mut reader, &mut Deaf) {
        Ok(()) => BuildFault::Line(LineFault::Depth),
        Err(fault) => fault,
    }
}

/// No more nodes than these are told of: each but those of the containers that are open has a comma or a closing bracket behind
/// it, or ends the line.
fn most_nodes(marks: &[u32]) -> usize
    requires { length marks.now < 2 ^ 32 }
    ensures enough { length marks.now + 513 ≤ 2 * result }
    ensures few { result < 3 * 2 ^ 30 }
{
    marks.len() / 2 + MOST_DEPTH / 2 + 1
}

/// The first fault of a line that was read.
fn fault_of(nodes: &Nodes, line: &[u8], framing: Framing) -> Option<LineFault>
    requires room { length line.now < 2 ^ 32 }
    requires text { (t : Tree) × Text line.now t × HoldsAll line.now nodes.now t }
    ensures { (t : Tree) → Text line.now t → depth t ≤ 512 → HoldsAll line.now nodes.now t → result ≡ fault_of_tree framing line.now t }
{
    if is_truncated(&nodes.words, line, framing) {
        Some(LineFault::Truncated)
    } else {
        nodes.later
    }
}

impl Builder {
    /// A builder that has read nothing. Its lists get memory as they grow, and keep it from line to line.
    pub fn new(alloc: Global) -> Builder
        ensures { IsFresh result }
    {
        Builder {
            alloc,
            stack: Vec::new(alloc),
            nodes: Nodes::new(alloc),
        }
    }

    /// Reads the whole line, and forgets the line before.
    #[inline(always)]
    fn read_nodes(&mut self, line: &[u8], marks: &[u32]) -> Result<(), BuildFault>
        requires room { length line.now < 2 ^ 32 }
        requires utf8 { IsUtf8 line.now }
        requires marks { marks.now ≡ marks_of line.now }
        ensures found { IfOk result (λ _. (t : Tree) × Text line.now t × (depth t ≤ 512) × HoldsAll line.now self.new.nodes t) }
        ensures refused { IfErr result (λ fault. IsFaultOf line.now fault) }
    {
        self.stack.clear();
        if self.stack.capacity() < MOST_DEPTH && self.stack.reserve(MOST_DEPTH).is_err() {
            return Err(BuildFault::Memory);
        }
        let Ok(_) = self.nodes.start(most_nodes(marks)) else {
            return Err(BuildFault::Memory);
        };
        let escape = first_escape(line);
        let mut reader = Reader::new(marks, &mut self.stack, MOST_DEPTH);
        let read = read_text(line, escape, &mut reader, &mut self.nodes);
        match read {
            Ok(()) => Ok(()),
            Err(BuildFault::Line(LineFault::Depth)) => {
                Err(fault_of_deep(self.alloc, line, escape, marks))
            }
            Err(fault) => Err(fault),
        }
    }

    /// Reads a line, or finds its first fault. The words are then those of the line's tape.
    #[inline(never)]
    fn read(
        &mut self,
        line: &[u8],
        marks: &[u32],
        is_utf8: bool,
        framing: Framing,
    ) -> Result<(), BuildFault>
        requires not_blank { is_blank line.now ≡ false }
        requires room { length line.now < 2 ^ 32 }
        requires marks { marks.now ≡ marks_of line.now }
        requires verdict { IsTrue is_utf8 ↔ IsUtf8 line.now }
        ensures status { OnOk result (HasStatus framing line.now (parsed (spelled line.now))) }
        ensures made { OnOk result (IsTapeOf self.new.nodes.words.items line.now) }
        ensures fault { IfErr result (λ fault. IsRefused framing line.now fault) }
    {
        if !is_utf8 {
            return Err(BuildFault::Line(LineFault::Utf8));
        }
        self.read_nodes(line, marks)?;
        tapes_are_of_lines();
        match fault_of(&self.nodes, line, framing) {
            Some(fault) => Err(BuildFault::Line(fault)),
            None => Ok(()),
        }
    }

    /// Appends the tape of a line to those of other lines, and answers how many nodes it has. The reader of the line has the
    /// memory of the lines before, which it forgets.
    ///
    /// # Errors
    ///
    /// The line's first fault, as the function `build` gives it, or out of memory. Then nothing is appended.
    pub fn append(
        &mut self,
        line: &[u8],
        marks: &[u32],
        is_utf8: bool,
        framing: Framing,
        tapes: &mut Vec<u64>,
    ) -> Result<u32, BuildFault>
        requires not_blank { is_blank line.now ≡ false }
        requires room { length line.now < 2 ^ 32 }
        requires marks { marks.now ≡ marks_of line.now }
        requires verdict { IsTrue is_utf8 ↔ IsUtf8 line.now }
        ensures status { OnOk result (HasStatus framing line.now (parsed (spelled line.now))) }
        ensures tape { IfOk result (λ nodes. IsAmong tapes.new.items (length tapes.old.items) nodes line.now) }
        ensures more { OnOk result ((words : List ℕ) × (tapes.new.items ≡ tapes.old.items ++ words)) }
        ensures fault { IfErr result (λ fault. IsRefused framing line.now fault) }
        ensures same { OnErr result (tapes.new.items ≡ tapes.old.items) }
    {
        self.read(line, marks, is_utf8, framing)?;
        match append_tape(&mut self.nodes.words, line, tapes) {
            Ok(nodes) => Ok(nodes),
            Err(_) => Err(BuildFault::Memory),
        }
    }
}

/// The tape of a line (RFC 8259, sections 2 to 8), or the line's first fault.
///
/// `marks` are the places of the line's marks, as `jp_masks` finds them, and `is_utf8` is whether the line is UTF-8. The
/// faults are reported in this order: `Utf8`; `Grammar` if the line is not valid JSON; `Truncated` if a text of a
/// sequence may have lost its end (RFC 7464, section 2.4); `Depth`, where arrays and objects nest deeper than 512;
/// `Surrogate`, where half of a pair stands alone; `Number` if an exponent has more than 15 digits after its leading
/// zeros; and `Duplicate` if an object has two equal names (profile). The line is read once, or twice where it
/// nests too deep, after one look for escapes, and equal names are found by a sort of each object's names.
pub fn build(
    alloc: Global,
    line: &[u8],
    marks: &[u32],
    is_utf8: bool,
    framing: Framing,
) -> Result<Tape, BuildFault>
    requires not_blank { is_blank line.now ≡ false }
    requires room { length line.now < 2 ^ 32 }
    requires marks { marks.now ≡ marks_of line.now }
    requires verdict { IsTrue is_utf8 ↔ IsUtf8 line.now }
    ensures tree { IfOk result (λ tape. (t : Tree) × HasStatus framing line.now (parsed t) × (tape ≡ tape_words t)) }
    ensures only { IfOk result (λ tape. (t : Tree) → Text line.now t → tape ≡ tape_words t) }
    ensures made { IfOk result (λ tape. IsTapeOf tape line.now) }
    ensures fault { IfErr result (λ fault. IsRefused framing line.now fault) }
{
    let mut builder = Builder::new(alloc);
    builder.read(line, marks, is_utf8, framing)?;
    tapes_are_of_lines();
    match Tape::of_words(alloc, &mut builder.nodes.words, line) {
        Ok(tape) => Ok(tape),
        Err(_) => Err(BuildFault::Memory),
    }
}
