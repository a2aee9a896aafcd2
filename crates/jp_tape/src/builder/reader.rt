//! The reader of a text (RFC 8259, sections 2 to 8): it knows the grammar alone, walks along the marks of a line with a stack of
//! closing brackets, and tells a listener what it reads.

ghost use Rattle.std.specs.Prelude.{◌≡◌, ◌+◌, ◌-◌, ◌*◌, ◌^◌, ◌<◌, ◌≤◌, ℕ, suc, drop, List, [], None, length, true, vec_capacity, IfOk, IfErr};
ghost use Rattle.jp_model.specs.Characters.{is_structural};
ghost use Rattle.jp_model.specs.Json.Places.{Has, Reads, White, byte_at};
ghost use Rattle.jp_model.specs.Json.Marks.{marks as marks_of};
ghost use Rattle.jp_model.specs.Json.Spelling.{closing, opening};
ghost use Rattle.jp_nodes.specs.Kinds.{container_if};
ghost use Rattle.jp_tape.specs.Places.{Stops};
ghost use Rattle.jp_tape.specs.Ahead.{IsAhead, IsClosed, IsNext, first_or};
ghost use Rattle.jp_tape.specs.Reading.{IsReadable, NoLabel, OnFault};
ghost use Rattle.jp_tape.specs.Machine.{Frame};
ghost use Rattle.jp_tape.specs.Reader.{Up_to, IsBegun, IsNamed, IsValueNext, IsValueBehind, IsReached, IsReadOn, IsTold, next_left, left_behind};
ghost use Rattle.jp_tape.specs.Refusals.{IsStopOf};

use super::BuildFault;
use super::front::first_value;
use super::listener::Listener;
use super::scan::{is_byte, marks_behind, next_mark, next_token};
use super::tokens::name_at;
use jp_model::LineFault;

/// What is read next.
#[derive(Clone, Copy)]
pub(super) enum Next {
    /// The value at this place.
    Value(usize),
    /// What follows a value: the token at this place.
    After(usize),
}

/// The fault of a line that is not a JSON text (RFC 8259, section 2).
pub(super) const GRAMMAR: BuildFault = BuildFault::Line(LineFault::Grammar);

/// That of a line in which arrays and objects nest deeper than they may.
const DEEP: BuildFault = BuildFault::Line(LineFault::Depth);

/// How far a line was read.
#[derive(Drop)]
pub(super) struct Reader<'a> {
    /// The marks that are to come.
    pub(super) marks: &'a [u32],
    /// What closes the arrays and objects that are open, the innermost last.
    stack: &'a mut Vec<u8>,
    /// No more of them may be open.
    most_depth: usize,
}

/// The closing bracket.
fn closing_of(is_object: bool) -> u8
    ensures { result ≡ closing (container_if is_object) }
{
    if is_object { b'}' } else { b']' }
}

impl<'a> Reader<'a> {
    /// Before the first token.
    #[inline(always)]
    pub(super) fn new(marks: &'a [u32], stack: &'a mut Vec<u8>, most_depth: usize) -> Reader<'a>
        requires empty { stack.old.items ≡ [] }
        requires room { most_depth ≤ vec_capacity stack.old }
        ensures begun { (line : List ℕ) → marks.now ≡ marks_of line → IsBegun line result }
        ensures limit { result.most_depth ≡ most_depth }
        ensures lender { result.stack.ghost_name ≡ stack.entry.ghost_name }
    {
        Reader {
            marks,
            stack,
            most_depth,
        }
    }

    /// Passes an opening bracket or a comma, and tells where the next token begins.
    #[inline(always)]
    fn pass_on(&mut self) -> usize
        requires more { 1 < length self.old.marks.now }
        ensures marks { self.new.marks.now ≡ drop 1 self.old.marks.now }
        ensures value { (end : ℕ) → result ≡ first_or self.new.marks.now end }
        ensures same { self.new.stack.now ≡ self.old.stack.now }
        ensures limit { self.new.most_depth ≡ self.old.most_depth }
        ensures lender { self.new.stack.ghost_name ≡ self.old.stack.ghost_name }
    {
        self.marks = marks_behind(self.marks, 1);
        next_mark(self.marks)
    }

    /// Passes the closing bracket at `at`, and tells where the next token begins, or the line ends.
    #[inline(always)]
    fn pass_closing(&mut self, line: &[u8], at: usize) -> usize
        requires inside { at < length line.now }
        requires structural { is_structural (byte_at line.now at) ≡ true }
        requires ahead { IsAhead line.now at self.old.marks.now }
        ensures white { White line.now (at + 1) result }
        ensures stops { Stops line.now result }
        ensures next { IsNext line.now result self.new.marks.now }
        ensures marks { self.new.marks.now ≡ drop 1 self.old.marks.now }
        ensures fewer { length self.new.marks.now < length self.old.marks.now }
        ensures same { self.new.stack.now ≡ self.old.stack.now }
        ensures limit { self.new.most_depth ≡ self.old.most_depth }
        ensures lender { self.new.stack.ghost_name ≡ self.old.stack.ghost_name }
    {
        self.marks = marks_behind(self.marks, 1);
        next_token(line, self.marks, at + 1)
    }

    /// Reads the name of a child of an object, and tells where the child's value begins.
    #[inline(always)]
    fn child<L: Listener>(
        &mut self,
        line: &[u8],
        escape: usize,
        is_object: bool,
        from: usize,
        listener: &mut L,
    ) -> Result<usize, BuildFault>
        requires line { IsReadable line.now escape }
        requires inside { from < length line.now }
        requires ahead { IsNext line.now from self.old.marks.now }
        requires stops { Stops line.now from }
        requires some { 0 < length self.old.marks.now }
        requires closed { IsClosed line.now self.old.marks.now }
        requires told { (frames : List Frame) × (room : ℕ) × (0 < room) × L.stands listener.old line.now (Up_to frames None room) }
        ensures named { IfOk result (λ at. IsNamed (L.stands listener.old) (L.stands listener.new) line.now (container_if is_object) from at self.old self.new) }
        ensures order { IfOk result (λ at. (from ≤ at) × (at < length line.now)) }
        ensures ahead { IfOk result (λ at. IsNext line.now at self.new.marks.now) }
        ensures some { IfOk result (λ _. 0 < length self.new.marks.now) }
        ensures closed { IfOk result (λ _. IsClosed line.now self.new.marks.now) }
        ensures stuck { IfErr result (λ fault. OnFault fault (NoLabel line.now (container_if is_object) from)) }
        ensures same { self.new.stack.now ≡ self.old.stack.now }
        ensures limit { self.new.most_depth ≡ self.old.most_depth }
        ensures lender { self.new.stack.ghost_name ≡ self.old.stack.ghost_name }
    {
        if !is_object {
            return Ok(from);
        }
        let Some(label) = name_at(line, escape, self.marks, from) else {
            return Err(GRAMMAR);
        };
        self.marks = marks_behind(self.marks, 3);
        listener.name(label);
        Ok(label.value)
    }

    /// Reads the opening bracket at `at`, and what follows it up to the first child's value.
    #[inline(always)]
    fn begin<L: Listener>(
        &mut self,
        line: &[u8],
        escape: usize,
        is_object: bool,
        at: usize,
        listener: &mut L,
    ) -> Result<Next, BuildFault>
        requires line { IsReadable line.now escape }
        requires opens { Has line.now at (opening (container_if is_object)) }
        requires next { IsValueNext (L.stands listener.old) line.now at self.old }
        ensures reached { IfOk result (λ next. IsReached (L.stands listener.new) line.now next self.new) }
        ensures less { IfOk result (λ next. next_left line.now next < suc (length line.now - at)) }
        ensures limit { self.new.most_depth ≡ self.old.most_depth }
        ensures lender { self.new.stack.ghost_name ≡ self.old.stack.ghost_name }
        ensures refused { IfErr result (λ fault. IsStopOf line.now self.old.most_depth fault) }
    {
        if self.stack.len() >= self.most_depth {
            return Err(DEEP);
        }
        let closing = closing_of(is_object);
        let inside = self.pass_on();
        if is_byte(line, inside, closing) {
            let next = self.pass_closing(line, inside);
            if self.marks.is_empty() && !self.stack.is_empty() {
                return Err(GRAMMAR);
            }
            listener.empty(at, inside + 1, is_object);
            return Ok(Next::After(next));
        }
        self.stack.push_reserved(closing);
        listener.open(at, is_object);
        match self.child(line, escape, is_object, inside, listener) {
            Ok(value) => Ok(Next::Value(value)),
            Err(fault) => Err(fault),
        }
    }

    /// Reads the value at `at`, or the beginning of it.
    #[inline(always)]
    fn value<L: Listener>(
        &mut self,
        line: &[u8],
        escape: usize,
        at: usize,
        listener: &mut L,
    ) -> Result<Next, BuildFault>
        requires line { IsReadable line.now escape }
        requires next { IsValueNext (L.stands listener.old) line.now at self.old }
        ensures reached { IfOk result (λ next. IsReached (L.stands listener.new) line.now next self.new) }
        ensures less { IfOk result (λ next. next_left line.now next < suc (length line.now - at)) }
        ensures limit { self.new.most_depth ≡ self.old.most_depth }
        ensures lender { self.new.stack.ghost_name ≡ self.old.stack.ghost_name }
        ensures refused { IfErr result (λ fault. IsStopOf line.now self.old.most_depth fault) }
    {
        let is_object = is_byte(line, at, b'{');
        if is_object || is_byte(line, at, b'[') {
            return self.begin(line, escape, is_object, at, listener);
        }
        if is_byte(line, at, b'"') {
            self.text(line, escape, at, listener)
        } else {
            self.bare(line, at, listener)
        }
    }

    /// Reads the comma at `at`, and what follows it up to the next child's value.
    #[inline(always)]
    fn comma<L: Listener>(
        &mut self,
        line: &[u8],
        escape: usize,
        at: usize,
        listener: &mut L,
    ) -> Result<usize, BuildFault>
        requires line { IsReadable line.now escape }
        requires comma { Has line.now at 0x2C }
        requires behind { IsValueBehind (L.stands listener.old) line.now at self.old }
        requires inner { 0 < length self.old.stack.now.items }
        ensures next { IfOk result (λ value. IsValueNext (L.stands listener.new) line.now value self.new) }
        ensures order { IfOk result (λ value. at < value) }
        ensures limit { self.new.most_depth ≡ self.old.most_depth }
        ensures lender { self.new.stack.ghost_name ≡ self.old.stack.ghost_name }
        ensures refused { IfErr result (λ fault. IsStopOf line.now self.old.most_depth fault) }
    {
        let closing = self.stack[self.stack.len() - 1];
        let from = self.pass_on();
        self.child(line, escape, closing == b'}', from, listener)
    }

    /// Reads the closing bracket that has to be at `at`, and tells where the next token begins, or the line ends.
    #[inline(always)]
    fn close<L: Listener>(
        &mut self,
        line: &[u8],
        at: usize,
        listener: &mut L,
    ) -> Result<usize, BuildFault>
        requires room { length line.now < 2 ^ 32 }
        requires inside { at < length line.now }
        requires no_comma { Has line.now at 0x2C → ⊥ }
        requires behind { IsValueBehind (L.stands listener.old) line.now at self.old }
        requires inner { 0 < length self.old.stack.now.items }
        ensures behind { IfOk result (λ next. IsValueBehind (L.stands listener.new) line.now next self.new) }
        ensures order { IfOk result (λ next. at < next) }
        ensures limit { self.new.most_depth ≡ self.old.most_depth }
        ensures lender { self.new.stack.ghost_name ≡ self.old.stack.ghost_name }
        ensures refused { IfErr result (λ fault. IsStopOf line.now self.old.most_depth fault) }
    {
        let outer = self.stack.len() - 1;
        if !is_byte(line, at, self.stack[outer]) {
            return Err(GRAMMAR);
        }
        let next = self.pass_closing(line, at);
        if outer > 0 && self.marks.is_empty() {
            return Err(GRAMMAR);
        }
        self.stack.truncate(outer);
        match listener.close(line, at + 1) {
            Ok(()) => Ok(next),
            Err(_) => Err(BuildFault::Memory),
        }
    }

    /// Reads the token at `from`, which follows a value, and those after it: the ends of arrays and objects, up to the next value.
    /// None: the line ends.
    #[inline(always)]
    fn until_value<L: Listener>(
        &mut self,
        line: &[u8],
        escape: usize,
        from: usize,
        listener: &mut L,
    ) -> Result<Option<usize>, BuildFault>
        requires line { IsReadable line.now escape }
        requires behind { IsValueBehind (L.stands listener.old) line.now from self.old }
        ensures reached { IfOk result (λ next. IsReadOn (L.stands listener.new) line.now next self.new) }
        ensures less { IfOk result (λ next. left_behind line.now next < suc (length line.now - from)) }
        ensures limit { self.new.most_depth ≡ self.old.most_depth }
        ensures lender { self.new.stack.ghost_name ≡ self.old.stack.ghost_name }
        ensures refused { IfErr result (λ fault. IsStopOf line.now self.old.most_depth fault) }
    {
        let mut at = from;
        while !self.stack.is_empty() {
            if is_byte(line, at, b',') {
                let value = self.comma(line, escape, at, listener)?;
                return Ok(Some(value));
            }
            at = self.close(line, at, listener)?;
        }
        if at == line.len() {
            Ok(None)
        } else {
            Err(GRAMMAR)
        }
    }
}

/// Reads a line, and tells the listener of the text that it is. No escape of the line comes before `escape`.
///
/// # Errors
///
/// The line is no text, or it nests deeper than it may, or out of memory.
#[inline(always)]
pub(super) fn read_text<L: Listener>(
    line: &[u8],
    escape: usize,
    reader: &mut Reader<'_>,
    listener: &mut L,
) -> Result<(), BuildFault>
    requires line { IsReadable line.now escape }
    requires begun { IsBegun line.now reader.old }
    requires told { (room : ℕ) × (length reader.old.marks.now + reader.old.most_depth + 1 ≤ 2 * room) × L.stands listener.old line.now (Up_to [] None room) }
    ensures told { IfOk result (λ _. IsTold (L.stands listener.new) line.now reader.old.most_depth) }
    ensures refused { IfErr result (λ fault. IsStopOf line.now reader.old.most_depth fault) }
    ensures lender { reader.new.stack.ghost_name ≡ reader.old.stack.ghost_name }
{
    let mut at = first_value(line, reader.marks)?;
    loop {
        at = match reader.value(line, escape, at, listener)? {
            Next::Value(inside) => inside,
            Next::After(next) => match reader.until_value(line, escape, next, listener)? {
                Some(value) => value,
                None => return Ok(()),
            },
        };
    }
}
