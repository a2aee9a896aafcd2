//! The nodes of a text: their words are written while it is read.

ghost use Rattle.std.specs.Prelude.{◌≡◌, ◌+◌, ◌*◌, ◌%◌, ◌^◌, ◌<◌, ◌≤◌, ◌||◌, ◌++◌, ◌∷◌, [], ℕ, List, Bool, false, None, length, drop, get_or, slice_set, vec_capacity, IfOk};
ghost use Rattle.jp_model.specs.declared.Span.{Span};
ghost use Rattle.jp_model.specs.Json.Tree.{Container};
ghost use Rattle.jp_model.specs.Json.Faults.{has_repeated};
ghost use Rattle.jp_nodes.specs.Kinds.{code_of, container_if};
ghost use Rattle.jp_nodes.specs.Words.{head_word, span_word, container_code};
ghost use Rattle.jp_tape.specs.Machine.{first_fault};
ghost use Rattle.jp_tape.specs.Names.{spelled_names, AreKept};
ghost use Rattle.jp_tape.specs.Reader.{Up_to};
ghost use Rattle.jp_tape.specs.Nodes.{NodesStand};

use super::kept::KeptName;
use super::listener::Listener;
use super::names::has_equal;
use super::tokens::{Label, Scalar};
use jp_model::LineFault;
use jp_nodes::Kind;
use jp_nodes::node::{container_kind, head, span_to_word, write_node};
use std::alloc::{AllocError, Global};

/// The nodes that have begun. It borrows nothing of any line.
#[derive(Drop)]
pub(super) struct Nodes {
    alloc: Global,
    /// Three words to a node. Those of an open container do not tell yet how many nodes are below it, and tell in place of its end
    /// how many names were kept before those of its members.
    pub(super) words: Vec<u64>,
    /// How many there are.
    count: u32,
    /// The place of the innermost container that is open, or 0.
    container: u32,
    /// The third word of the next value, once its name was told.
    label: u64,
    /// The names in the containers that are open.
    names: Vec<KeptName>,
    /// The first of the faults that count only where the line is JSON: a lone surrogate, a long exponent, equal names.
    pub(super) later: Option<LineFault>,
}

/// Notes the faults of a string or a number: a surrogate stands alone in it, or its exponent is too long.
#[inline(always)]
fn note(later: &mut Option<LineFault>, is_lone: bool, is_long: bool)
    ensures { (lone too_long repeated : Bool) → later.old ≡ first_fault lone too_long repeated → later.new ≡ first_fault (lone || is_lone) (too_long || is_long) repeated }
{
    if is_lone {
        *later = Some(LineFault::Surrogate);
    } else if is_long && *later != Some(LineFault::Surrogate) {
        *later = Some(LineFault::Number);
    }
}

impl Nodes {
    /// No node. The lists get memory as they grow, and keep it from line to line.
    pub(super) fn new(alloc: Global) -> Nodes
        ensures words { result.words.items ≡ [] }
        ensures opened { result.container ≡ 0 }
        ensures names { result.names.items ≡ [] }
        ensures later { result.later ≡ None }
    {
        Nodes {
            alloc,
            words: Vec::new(alloc),
            count: 0,
            container: 0,
            label: 0,
            names: Vec::new(alloc),
            later: None,
        }
    }

    /// Forgets the line before, and makes room for this number of nodes.
    #[inline(always)]
    pub(super) fn start(&mut self, most: usize) -> Result<(), AllocError>
        requires few { most < 3 * 2 ^ 30 }
        ensures { IfOk result (λ _. (line : List ℕ) → NodesStand self.new line (Up_to [] None most)) }
    {
        self.words.clear();
        self.count = 0;
        self.container = 0;
        self.label = 0;
        self.names.clear();
        self.later = None;
        if self.words.capacity() < 3 * most {
            self.words.reserve(3 * most)?;
        }
        if self.names.capacity() < most {
            self.names.reserve(most)?;
        }
        Ok(())
    }

    /// Notes whether two of the names after the first `outer` are equal. Where a fault is noted already, they are not compared.
    #[inline(always)]
    fn note_equal_names(&mut self, line: &[u8], outer: usize) -> Result<(), AllocError>
        requires within { outer ≤ length self.old.names.items }
        requires kept { self.old.later ≡ None → AreKept line.now (drop outer self.old.names.items) }
        ensures noted { IfOk result (λ _. (lone too_long repeated : Bool) → self.old.later ≡ first_fault lone too_long repeated → self.new.later ≡ first_fault lone too_long (repeated || has_repeated (spelled_names line.now (drop outer self.old.names.items)))) }
        ensures same { self.new ≡ record self.old { later = self.new.later } }
    {
        if self.later.is_none() && has_equal(line, &self.names[outer..], self.alloc)? {
            self.later = Some(LineFault::Duplicate);
        }
        Ok(())
    }

    /// Writes the first two words of the node at this place, after which the next child of its parent comes.
    #[inline(always)]
    fn finish(&mut self, place: usize, head: u64, span: u64)
        requires { 3 * place + 2 < length self.old.words.items }
        ensures words { self.new.words.items ≡ slice_set (slice_set self.old.words.items (3 * place) head) (3 * place + 1) span }
        ensures label { self.new.label ≡ (get_or self.new.words.items (3 * place + 2) 0 + 1) % 2 ^ 64 }
        ensures capacity { vec_capacity self.new.words ≡ vec_capacity self.old.words }
        ensures same { self.new ≡ record self.old { words = self.new.words; label = self.new.label } }
    {
        self.words[3 * place] = head;
        self.words[3 * place + 1] = span;
        self.label = self.words[3 * place + 2].wrapping_add(1);
    }

    /// Writes the node of a value.
    #[inline(always)]
    fn write(&mut self, kind: Kind, at: usize, end: usize)
        requires start { at < 2 ^ 32 }
        requires end { end < 2 ^ 32 }
        requires room { length self.old.words.items + 3 ≤ vec_capacity self.old.words }
        requires few { self.old.count + 1 < 2 ^ 32 }
        ensures words { self.new.words.items ≡ self.old.words.items ++ head_word (code_of kind) 0 self.old.container ∷ span_word (record { start = at; end = end }) ∷ self.old.label ∷ [] }
        ensures capacity { vec_capacity self.new.words ≡ vec_capacity self.old.words }
        ensures count { self.new.count ≡ self.old.count + 1 }
        ensures same { self.new ≡ record self.old { words = self.new.words; count = self.new.count } }
    {
        let head = head(kind, 0, self.container);
        let span = span_to_word(at as u32, end as u32);
        write_node(&mut self.words, head, span, self.label);
        self.count += 1;
    }
}

impl Listener for Nodes {
    ghost stands = { NodesStand };

    #[inline(always)]
    fn leaf(&mut self, at: usize, leaf: Scalar) {
        self.write(leaf.kind, at, leaf.end);
        self.label = self.label.wrapping_add(1);
        note(&mut self.later, leaf.is_lone, leaf.is_long);
    }

    #[inline(always)]
    fn empty(&mut self, at: usize, end: usize, is_object: bool) {
        self.write(container_kind(is_object), at, end);
        self.label = self.label.wrapping_add(1);
    }

    #[inline(always)]
    fn name(&mut self, name: Label) {
        let body = name.name;
        let is_plain = name.is_plain;
        self.names.push_reserved(KeptName { body, is_plain });
        self.label = span_to_word(body.start, body.end);
        note(&mut self.later, name.is_lone, false);
    }

    #[inline(always)]
    fn open(&mut self, at: usize, is_object: bool) {
        let place = self.count;
        let outer = self.names.len();
        self.write(container_kind(is_object), at, outer);
        self.container = place;
        self.label = 0;
    }

    #[inline(always)]
    fn close(&mut self, line: &[u8], end: usize) -> Result<(), AllocError> {
        let place = self.container as usize;
        let below = self.count as usize - place - 1;
        let first = self.words[3 * place];
        let (start, outer) = halves(self.words[3 * place + 1]);
        self.note_equal_names(line, outer as usize)?;
        self.names.truncate(outer as usize);
        self.finish(
            place,
            with_below(first, below),
            span_to_word(start, end as u32),
        );
        self.container = parent_of(first);
        Ok(())
    }
}

/// The first word of a container's node once it is known how many nodes are below it.
#[inline(always)]
fn with_below(first: u64, below: usize) -> u64
    ensures { (code parent : ℕ) → first ≡ head_word code 0 parent → result ≡ head_word code below parent }
{
    first.wrapping_add((below as u64).wrapping_mul(1 << 32))
}

/// The number of an array's kind in its first word. An object has one more.
const ARRAY: u64 = 5 << 32;

/// The place of the parent of an open container, by its first word.
#[inline(always)]
fn parent_of(first: u64) -> u32
    requires { (kind : Container) × (parent : ℕ) × (parent < 2 ^ 32) × (first ≡ head_word (container_code kind) 0 parent) }
    ensures { (kind : Container) (parent : ℕ) → parent < 2 ^ 32 → first ≡ head_word (container_code kind) 0 parent → result ≡ parent }
{
    let rest = first - ARRAY;
    (rest / 2) as u32
}

/// The halves of a word.
#[inline(always)]
fn halves(word: u64) -> (u32, u32)
    requires { (s : Span) × (s.start < 2 ^ 32) × (s.end < 2 ^ 32) × (word ≡ span_word s) }
    ensures { (s : Span) → s.start < 2 ^ 32 → s.end < 2 ^ 32 → word ≡ span_word s → (result.0 ≡ s.start) × (result.1 ≡ s.end) }
{
    ((word >> 32) as u32, (word % (1 << 32)) as u32)
}
