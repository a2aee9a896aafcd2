//! A walk over the nodes of a tape.

ghost use Rattle.std.specs.Prelude.{◌≡◌, ◌<◌, ◌≤◌, ◌+◌, ◌*◌, ◌^◌, ◌++◌, ◌∷◌, [], true, false, length, Some, None, IfSome, IfNone, option_map, slice_get, slice_range};
ghost use Rattle.jp_model.specs.Json.Tree.{span as span_of, value_of, count_children};
ghost use Rattle.jp_model.specs.Json.Strings.{SpellsBody, has_lone_surrogate};
ghost use Rattle.jp_model.specs.Json.Faults.{has_surrogate, has_long_exponent, has_duplicate};
ghost use Rattle.jp_model.specs.Json.Spelling.{Text, Spells};
ghost use Rattle.jp_model.specs.Meaning.Nodes.{root_node, step_to, children, subtree, child_count as count_of};
ghost use Rattle.jp_model.specs.Rows.{source as source_of};
ghost use Rattle.jp_nodes.specs.Kinds.{kind_of};
ghost use Rattle.jp_nodes.specs.Forms.{joined, words_in, IsPackedTapeOf};
ghost use Rattle.jp_nodes.specs.Spots.{children_in, last_step, name_points};
ghost use Rattle.jp_nodes.specs.Tapes.{is_spelled, spelled, IsTapeOf};
ghost use Rattle.jp_model.specs.declared.Span.{Span};
ghost use Rattle.jp_nodes.specs.Words.{node_count, tape_words, nodes_below, head_word, span_word, label_word, kind_code};

mod contents;

use crate::Kind;
use crate::tape::{Tape, half_bits, has_node, word_at};
use crate::word::{Word, kind_of_head};
use jp_model::Span;

/// A node of a line (RFC 9535, section 1.1): a place in the line's tape. It is copied freely and owns nothing.
#[derive(Clone, Copy)]
pub struct Cursor<'a> {
    words: &'a [u64],
    line: &'a [u8],
    /// How many bits each half of a word has. It has four bytes, so that it is copied together with the place.
    bits: u32,
    // It comes last: what is copied sixteen bytes at a time is then not what was just written.
    place: u32,
    ghost spelled_line: { is_spelled line.now ≡ true },
    ghost words_are: { words_in bits words.now ≡ tape_words (spelled line.now) },
    ghost short: { length line.now < 2 ^ 32 },
    ghost whole: { has_surrogate (spelled line.now) ≡ false },
    ghost exponents: { has_long_exponent line.now (spelled line.now) ≡ false },
    ghost distinct: { has_duplicate (spelled line.now) ≡ false },
    ghost within: { place < node_count (spelled line.now) },
}

/// The number of kinds of values that have no children.
const LEAVES: u32 = 5;

/// The span that a word packs.
fn unpack(word: Word) -> Span
    ensures { (s : Span) → s.end < 2 ^ 32 → joined word ≡ span_word s → result ≡ s }
{
    Span {
        start: word.high,
        end: word.low,
    }
}

impl<'a> Cursor<'a> {
    ghost use Rattle.jp_nodes.specs.Cursors.{line_of, place_of, root_of, node_of, name_of, up_of, index_of, nodes_after, children_after, nodes_from, children_from};

    /// The root node of a line. The tape was built of this line.
    pub fn root(tape: &'a Tape, line: &'a [u8]) -> Cursor<'a>
        requires { IsTapeOf tape.now line.now }
        ensures line { line_of result ≡ line.now }
        ensures place { place_of result ≡ 0 }
        ensures node { node_of result ≡ root_node (spelled line.now) }
    {
        Cursor {
            words: &tape.words,
            line,
            bits: tape.bits,
            place: 0,
        }
    }

    /// The root node of a line whose tape a builder has appended to others: these words of them.
    #[inline(always)]
    pub fn of_words(words: &'a [u64], line: &'a [u8]) -> Cursor<'a>
        requires { IsPackedTapeOf words.now line.now }
        ensures line { line_of result ≡ line.now }
        ensures place { place_of result ≡ 0 }
        ensures node { node_of result ≡ root_node (spelled line.now) }
    {
        Cursor {
            words,
            line,
            bits: half_bits(line),
            place: 0,
        }
    }

    /// The node at a place: depth first from the root, whose place is 0. The tape was built of this line.
    pub fn at(tape: &'a Tape, line: &'a [u8], place: u32) -> Cursor<'a>
        requires tape { IsTapeOf tape.now line.now }
        requires place { place < length (subtree (root_node (spelled line.now))) }
        ensures line { line_of result ≡ line.now }
        ensures place { place_of result ≡ place }
        ensures node { slice_get (subtree (root_node (spelled line.now))) place ≡ Some (node_of result) }
    {
        Cursor::root(tape, line).go_to(place)
    }

    /// The node at a place of the same line.
    pub fn go_to(self, place: u32) -> Cursor<'a>
        requires { place < length (subtree (root_node (root_of self))) }
        ensures line { line_of result ≡ line_of self.entry }
        ensures place { place_of result ≡ place }
        ensures node { slice_get (subtree (root_node (root_of self.entry))) place ≡ Some (node_of result) }
    {
        Cursor {
            words: self.words,
            line: self.line,
            bits: self.bits,
            place,
        }
    }

    /// The root node of the same line.
    pub fn top(self) -> Cursor<'a>
        ensures line { line_of result ≡ line_of self.entry }
        ensures place { place_of result ≡ 0 }
        ensures node { node_of result ≡ root_node (root_of self.entry) }
    {
        self.go_to(0)
    }

    /// The bytes of the line.
    pub fn line(self) -> &'a [u8]
        ensures bytes { result.now ≡ line_of self.entry }
        ensures text { Text (line_of self.entry) (root_of self.entry) }
        ensures short { length (line_of self.entry) < 2 ^ 32 }
        ensures whole { has_surrogate (root_of self.entry) ≡ false }
        ensures exponents { has_long_exponent (line_of self.entry) (root_of self.entry) ≡ false }
        ensures distinct { has_duplicate (root_of self.entry) ≡ false }
    {
        self.line
    }

    /// The number of the node: depth first from the root, whose number is 0.
    pub fn place(self) -> u32
        ensures value { result ≡ place_of self.entry }
        ensures within { result < length (subtree (root_node (root_of self.entry))) }
        ensures node { slice_get (subtree (root_node (root_of self.entry))) result ≡ Some (node_of self.entry) }
    {
        self.place
    }

    /// What kind of value the node is (RFC 8259, section 3).
    #[inline(always)]
    pub fn kind(self) -> Kind
        ensures { result ≡ kind_of (value_of (node_of self.entry).tree) }
    {
        kind_of_head(self.head())
    }

    /// Where the node's value is: bytes of the line, from 0.
    #[inline(always)]
    pub fn span(self) -> Span
        ensures value { result ≡ span_of (node_of self.entry).tree }
        ensures spells { Spells (line_of self.entry) (node_of self.entry).tree }
        ensures whole { has_surrogate (node_of self.entry).tree ≡ false }
        ensures exponents { has_long_exponent (line_of self.entry) (node_of self.entry).tree ≡ false }
        ensures distinct { has_duplicate (node_of self.entry).tree ≡ false }
        ensures order { result.start < result.end }
        ensures within { result.end ≤ length (line_of self.entry) }
    {
        unpack(self.body())
    }

    /// The bytes of the node's span, unchanged.
    pub fn source(self) -> &'a [u8]
        ensures { result.now ≡ source_of (line_of self.entry) (node_of self.entry).tree }
    {
        let (line, span) = (self.line(), self.span());
        &line[span.start as usize..span.end as usize]
    }

    /// The first element or member, in the order of the line (RFC 9535, section 2.5.1.2).
    #[inline(always)]
    pub fn first_child(self) -> Option<Cursor<'a>>
        ensures nodes { nodes_from result ≡ children (node_of self.entry) }
        ensures children { children_from result ≡ children_in (value_of (node_of self.entry).tree) }
        ensures line { IfSome result (λ c. line_of c ≡ line_of self.entry) }
        ensures place { IfSome result (λ c. place_of c ≡ place_of self.entry + 1) }
    {
        let place = self.place() + 1;
        if place < self.after() {
            Some(self.go_to(place))
        } else {
            None
        }
    }

    /// The element or member after this one, in the order of the line: the node after its subtree, where that has the same
    /// parent.
    #[inline(always)]
    pub fn next_sibling(self) -> Option<Cursor<'a>>
        ensures nodes { nodes_from result ≡ nodes_after self.entry }
        ensures children { children_from result ≡ children_after self.entry }
        ensures line { IfSome result (λ c. line_of c ≡ line_of self.entry) }
        ensures place { IfSome result (λ c. place_of c ≡ place_of self.entry + length (subtree (node_of self.entry))) }
    {
        let place = self.after();
        if !has_node(self.words, self.bits, place as usize) {
            return None;
        }
        let next = self.go_to(place);
        if next.up() == self.up() {
            Some(next)
        } else {
            None
        }
    }

    /// Where the body of a member's name is, without its quotes: bytes of the line, from 0. The root and elements
    /// have none (RFC 8259, section 4).
    pub fn name_span(self) -> Option<Span>
        ensures body { result ≡ option_map (λ n. n.body) (name_of self.entry) }
        ensures spells { IfSome (name_of self.entry) (λ n. SpellsBody (line_of self.entry) n.body.start n.body.end n.points) }
        ensures whole { IfSome (name_of self.entry) (λ n. has_lone_surrogate n.points ≡ false) }
        ensures step { option_map (λ n. n.points) (name_of self.entry) ≡ name_points (last_step (node_of self.entry).location) }
        ensures within { IfSome result (λ s. (s.start ≤ s.end) × (s.end < length (line_of self.entry))) }
    {
        let word = self.label();
        if word.high > 0 {
            Some(unpack(word))
        } else {
            None
        }
    }

    /// The node that this one is an element or a member of. The root has none.
    pub fn parent(self) -> Option<Cursor<'a>>
        ensures root { IfNone result (node_of self.entry ≡ root_node (root_of self.entry)) }
        ensures line { IfSome result (λ p. line_of p ≡ line_of self.entry) }
        ensures place { IfSome result (λ p. place_of p < place_of self.entry) }
        ensures child { IfSome result (λ p. slice_get (children (node_of p)) (index_of self.entry) ≡ Some (node_of self.entry)) }
        ensures location { IfSome result (λ p. (node_of self.entry).location ≡ (node_of p).location ++ step_to (index_of self.entry) (name_of self.entry) ∷ []) }
    {
        if self.place() == 0 {
            None
        } else {
            Some(self.go_to(self.up()))
        }
    }

    /// The number of siblings before the node: its index in an array, from 0. That of the root is 0. A member's is counted, by
    /// a walk over the members.
    pub fn index(self) -> u32
        ensures value { result ≡ index_of self.entry }
        ensures step { 0 < place_of self.entry → last_step (node_of self.entry).location ≡ Some (step_to result (name_of self.entry)) }
    {
        let word = self.label();
        if word.high == 0 {
            return word.low;
        }
        let members = self.go_to(self.up()).child_count();
        members - Cursor::count_from(Some(self))
    }

    /// How many elements or members the node has. It walks over them.
    pub fn child_count(self) -> u32
        ensures nodes { result ≡ count_of (node_of self.entry) }
        ensures children { result ≡ count_children (children_in (value_of (node_of self.entry).tree)) }
    {
        Cursor::count_from(self.first_child())
    }

    /// How many siblings there are from one on. It walks over them.
    fn count_from(first: Option<Cursor<'a>>) -> u32
        requires { length (nodes_from first) < 2 ^ 32 }
        ensures { result ≡ length (nodes_from first.entry) }
    {
        let mut count = 0;
        let mut next = first;
        while let Some(node) = next {
            count += 1;
            next = node.next_sibling();
        }
        count
    }

    /// The place after the node's subtree.
    #[inline(always)]
    pub fn after(self) -> u32
        ensures value { result ≡ place_of self.entry + length (subtree (node_of self.entry)) }
        ensures within { result ≤ length (subtree (root_node (root_of self.entry))) }
        ensures nodes { slice_range (subtree (root_node (root_of self.entry))) (place_of self.entry) result ≡ subtree (node_of self.entry) }
    {
        self.below() + self.place() + 1
    }

    /// How many nodes are below the node.
    #[inline(always)]
    fn below(self) -> u32
        ensures { result ≡ nodes_below (value_of (node_of self.entry).tree) }
    {
        self.head().high.saturating_sub(LEAVES)
    }

    /// The place of the parent; 0 for the root.
    #[inline(always)]
    fn up(self) -> u32
        ensures { result ≡ up_of self.entry }
    {
        self.head().low / 2
    }

    /// The first word: the kind, the number of the nodes below, and the place of the parent.
    #[inline(always)]
    fn head(self) -> Word
        ensures word { joined result ≡ head_word (kind_code (value_of (node_of self.entry).tree)) (nodes_below (value_of (node_of self.entry).tree)) (up_of self.entry) }
        ensures below { nodes_below (value_of (node_of self.entry).tree) < 2 ^ 31 }
        ensures parent { up_of self.entry < 2 ^ 31 }
    {
        word_at(self.words, self.bits, self.place as usize, 0)
    }

    /// The second word: where the value is.
    #[inline(always)]
    fn body(self) -> Word
        ensures { joined result ≡ span_word (span_of (node_of self.entry).tree) }
    {
        word_at(self.words, self.bits, self.place as usize, 1)
    }

    /// The third word: where the body of the name is, or the index of a node that has no name.
    #[inline(always)]
    fn label(self) -> Word
        ensures word { joined result ≡ label_word (index_of self.entry) (name_of self.entry) }
        ensures index { index_of self.entry < 2 ^ 32 }
    {
        word_at(self.words, self.bits, self.place as usize, 2)
    }
}
