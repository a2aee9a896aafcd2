//! The values of a text that are neither arrays nor objects (RFC 8259, sections 3, 6 and 7).

ghost use Rattle.std.specs.Prelude.{◌≡◌, ◌-◌, ◌^◌, ◌<◌, ◌≤◌, ℕ, ℤ, suc, false, true, IsTrue, length, IfOk, IfErr};
ghost use Rattle.std.specs.List.{list_all};
ghost use Rattle.jp_model.specs.Json.Places.{Has, Reads, byte_at};
ghost use Rattle.jp_model.specs.Json.Numbers.{SpellsNumber};
ghost use Rattle.jp_nodes.specs.declared.Kind.TheVariants as kinds;
ghost use Rattle.jp_tape.specs.Places.{Ended};
ghost use Rattle.jp_tape.specs.Ahead.{IsPassed, in_token};
ghost use Rattle.jp_tape.specs.Reading.{FoundScalar, IsReadable, NoValue};
ghost use Rattle.jp_tape.specs.Reader.{IsValueNext, IsReached, next_left};
ghost use Rattle.jp_tape.specs.Refusals.{IsStopOf};

use super::BuildFault;
use super::listener::Listener;
use super::numbers::{NumberEnd, any_number_end, plain_number_end};
use super::reader::{GRAMMAR, Next, Reader};
use super::scan::{marks_behind, next_token, skip_white, word_end};
use super::tokens::{Scalar, text_at};
use jp_nodes::Kind;

/// A number, as a value.
#[inline(always)]
fn scalar_of(number: NumberEnd) -> Scalar
    ensures { result ≡ record { kind = kinds.Number; end = number.end; is_lone = false; is_long = number.is_long } }
{
    Scalar {
        kind: Kind::Number,
        end: number.end,
        is_lone: false,
        is_long: number.is_long,
    }
}

impl Reader<'_> {
    /// Reads the string at `at`.
    #[inline(always)]
    pub(super) fn text<L: Listener>(
        &mut self,
        line: &[u8],
        escape: usize,
        at: usize,
        listener: &mut L,
    ) -> Result<Next, BuildFault>
        requires line { IsReadable line.now escape }
        requires opens { Has line.now at 0x22 }
        requires next { IsValueNext (L.stands listener.old) line.now at self.old }
        ensures reached { IfOk result (λ next. IsReached (L.stands listener.new) line.now next self.new) }
        ensures less { IfOk result (λ next. next_left line.now next < suc (length line.now - at)) }
        ensures limit { self.new.most_depth ≡ self.old.most_depth }
        ensures lender { self.new.stack.ghost_name ≡ self.old.stack.ghost_name }
        ensures refused { IfErr result (λ fault. IsStopOf line.now self.old.most_depth fault) }
    {
        let Some(text) = text_at(line, escape, self.marks, at) else {
            return Err(GRAMMAR);
        };
        self.marks = marks_behind(self.marks, 2);
        listener.leaf(at, text);
        Ok(Next::After(next_token(line, self.marks, text.end)))
    }

    /// Passes a word or a number, and tells of it.
    #[inline(always)]
    fn pass_leaf<L: Listener>(
        &mut self,
        line: &[u8],
        at: usize,
        leaf: Scalar,
        listener: &mut L,
    ) -> Next
        requires room { length line.now < 2 ^ 32 }
        requires found { FoundScalar line.now at leaf }
        requires within { (at < leaf.end) × (leaf.end ≤ length line.now) }
        requires token { in_token (byte_at line.now at) ≡ true }
        requires passed { IsPassed line.now self.old.marks.now 1 leaf.end }
        requires next { IsValueNext (L.stands listener.old) line.now at self.old }
        ensures reached { IsReached (L.stands listener.new) line.now result self.new }
        ensures less { next_left line.now result < suc (length line.now - at) }
        ensures limit { self.new.most_depth ≡ self.old.most_depth }
        ensures lender { self.new.stack.ghost_name ≡ self.old.stack.ghost_name }
    {
        self.marks = marks_behind(self.marks, 1);
        listener.leaf(at, leaf);
        Next::After(skip_white(line, self.marks, leaf.end))
    }

    /// Reads the word at `at`, a value of this kind.
    #[inline(always)]
    fn word<L: Listener>(
        &mut self,
        line: &[u8],
        at: usize,
        word: &[u8],
        kind: Kind,
        listener: &mut L,
    ) -> Result<Next, BuildFault>
        requires room { length line.now < 2 ^ 32 }
        requires some { 0 < length word.now }
        requires plain { IsTrue (list_all in_token word.now) }
        requires found { (end : ℕ) → Reads line.now at end word.now → FoundScalar line.now at (record { kind = kind; end = end; is_lone = false; is_long = false }) }
        requires none { ((end : ℕ) → Reads line.now at end word.now → ⊥) → NoValue line.now at }
        requires next { IsValueNext (L.stands listener.old) line.now at self.old }
        ensures reached { IfOk result (λ next. IsReached (L.stands listener.new) line.now next self.new) }
        ensures less { IfOk result (λ next. next_left line.now next < suc (length line.now - at)) }
        ensures limit { self.new.most_depth ≡ self.old.most_depth }
        ensures lender { self.new.stack.ghost_name ≡ self.old.stack.ghost_name }
        ensures refused { IfErr result (λ fault. IsStopOf line.now self.old.most_depth fault) }
    {
        let Some(end) = word_end(line, at, word) else {
            return Err(GRAMMAR);
        };
        let leaf = Scalar {
            kind,
            end,
            is_lone: false,
            is_long: false,
        };
        Ok(self.pass_leaf(line, at, leaf, listener))
    }

    /// Reads the number at `at`. Few have an exponent.
    #[inline(always)]
    fn number<L: Listener>(
        &mut self,
        line: &[u8],
        at: usize,
        listener: &mut L,
    ) -> Result<Next, BuildFault>
        requires room { length line.now < 2 ^ 32 }
        requires inside { at < length line.now }
        requires none { ((to : ℕ) (m e : ℤ) → SpellsNumber line.now at to m e → Ended line.now to → ⊥) → NoValue line.now at }
        requires next { IsValueNext (L.stands listener.old) line.now at self.old }
        ensures reached { IfOk result (λ next. IsReached (L.stands listener.new) line.now next self.new) }
        ensures less { IfOk result (λ next. next_left line.now next < suc (length line.now - at)) }
        ensures limit { self.new.most_depth ≡ self.old.most_depth }
        ensures lender { self.new.stack.ghost_name ≡ self.old.stack.ghost_name }
        ensures refused { IfErr result (λ fault. IsStopOf line.now self.old.most_depth fault) }
    {
        if let Some(end) = plain_number_end(line, at) {
            let number = NumberEnd {
                end,
                is_long: false,
            };
            return Ok(self.pass_leaf(line, at, scalar_of(number), listener));
        }
        match any_number_end(line, at) {
            Some(number) => Ok(self.pass_leaf(line, at, scalar_of(number), listener)),
            None => Err(GRAMMAR),
        }
    }

    /// Reads the value at `at`, which is neither a text nor an array nor an object.
    #[inline(always)]
    pub(super) fn bare<L: Listener>(
        &mut self,
        line: &[u8],
        at: usize,
        listener: &mut L,
    ) -> Result<Next, BuildFault>
        requires room { length line.now < 2 ^ 32 }
        requires inside { at < length line.now }
        requires no_text { byte_at line.now at ≡ 0x22 → ⊥ }
        requires no_array { byte_at line.now at ≡ 0x5B → ⊥ }
        requires no_object { byte_at line.now at ≡ 0x7B → ⊥ }
        requires next { IsValueNext (L.stands listener.old) line.now at self.old }
        ensures reached { IfOk result (λ next. IsReached (L.stands listener.new) line.now next self.new) }
        ensures less { IfOk result (λ next. next_left line.now next < suc (length line.now - at)) }
        ensures limit { self.new.most_depth ≡ self.old.most_depth }
        ensures lender { self.new.stack.ghost_name ≡ self.old.stack.ghost_name }
        ensures refused { IfErr result (λ fault. IsStopOf line.now self.old.most_depth fault) }
    {
        let byte = line[at];
        if byte == b'n' {
            return self.word(line, at, b"null", Kind::Null, listener);
        }
        if byte == b't' {
            return self.word(line, at, b"true", Kind::True, listener);
        }
        if byte == b'f' {
            return self.word(line, at, b"false", Kind::False, listener);
        }
        self.number(line, at, listener)
    }
}
