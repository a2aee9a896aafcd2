//! The words of a line, and how they are packed.

ghost use Rattle.std.specs.Prelude.{◌≡◌, ◌↔◌, ℕ, ◌<◌, ◌≤◌, ◌+◌, ◌*◌, ◌%◌, ◌^◌, ◌++◌, false, List, length, slice_index_or, IsTrue};
ghost use Rattle.jp_model.specs.Json.Tree.{Tree};
ghost use Rattle.jp_model.specs.Json.Spelling.{Text};
ghost use Rattle.jp_model.specs.Json.Faults.{has_surrogate, has_long_exponent, has_duplicate};
ghost use Rattle.jp_nodes.specs.Tapes.{spelled, IsTapeOf};
ghost use Rattle.jp_nodes.specs.Words.{tape_words};
ghost use Rattle.jp_nodes.specs.Forms.{joined, compact_words, medium_words, words_in, half_bits as bits_of, node_size as size_of_node, IsAmong, IsPackedTapeOf};

use crate::word::Word;
use std::marker::Model;

/// The bits of each half of a node's words in the tape of a line of fewer than 1,024 bytes: all six halves are in one word.
pub(crate) const COMPACT: u32 = 10;

/// The bits of each half in the tape of a longer line of fewer than 2,097,152 bytes: three halves are in each of two words.
pub(crate) const MEDIUM: u32 = 21;

/// The bits of each half in the tape of any other line: the words are kept as they are.
const WIDE: u32 = 32;

/// How many bits each half of a node's words has in the tape of a line.
#[inline(always)]
#[tactic(auto, unfolding(crate::specs::Forms::half_bits))]
pub(crate) fn half_bits(line: &[u8]) -> u32
    ensures { result ≡ bits_of (length line.now) }
{
    if line.len() < 1 << COMPACT {
        COMPACT
    } else if line.len() < 1 << MEDIUM {
        MEDIUM
    } else {
        WIDE
    }
}

/// How many words a node has in memory.
#[inline(always)]
fn node_size(bits: u32) -> usize
    ensures { result ≡ size_of_node bits }
{
    if bits == COMPACT {
        1
    } else if bits == MEDIUM {
        2
    } else {
        3
    }
}

/// Whether there is a node at a place, in words with `bits` bits to a half.
#[inline(always)]
pub(crate) fn has_node(words: &[u64], bits: u32, place: usize) -> bool
    requires { 3 * place < 2 ^ 64 }
    ensures { IsTrue result ↔ (3 * place < length (words_in bits words.now)) }
{
    if bits == COMPACT {
        place < words.len()
    } else if bits == MEDIUM {
        2 * place + 1 < words.len()
    } else {
        3 * place < words.len()
    }
}

/// One of the three words of a node that is in one word, by its index, from 0.
#[inline(always)]
fn compact_word_at(words: &[u64], place: usize, index: u32) -> Word
    requires index { index < 3 }
    requires within { place < length words.now }
    ensures { joined result ≡ slice_index_or (compact_words words.now) (3 * place + index) 0 }
{
    let node = words[place];
    Word::of_halves(node >> 32, node, COMPACT, index)
}

/// One of the three words of a node that is in two words.
#[inline(always)]
fn medium_word_at(words: &[u64], place: usize, index: u32) -> Word
    requires index { index < 3 }
    requires within { 2 * place + 1 < length words.now }
    ensures { joined result ≡ slice_index_or (medium_words words.now) (3 * place + index) 0 }
{
    Word::of_halves(words[2 * place], words[2 * place + 1], MEDIUM, index)
}

/// One of the three words of the node at a place, by its index, from 0, in words with `bits` bits to a half.
#[inline(always)]
pub(crate) fn word_at(words: &[u64], bits: u32, place: usize, index: u32) -> Word
    requires index { index < 3 }
    requires within { 3 * place + 2 < length (words_in bits words.now) }
    ensures { joined result ≡ slice_index_or (words_in bits words.now) (3 * place + index) 0 }
{
    if bits == COMPACT {
        compact_word_at(words, place, index)
    } else if bits == MEDIUM {
        medium_word_at(words, place, index)
    } else {
        Word::split(words[3 * place + index as usize])
    }
}

/// The nodes of one line in packed words. A clause sees the list of words, three to a node.
#[derive(Drop)]
pub struct Tape {
    pub(crate) words: Vec<u64>,
    pub(crate) bits: u32,
}

impl Model for Tape {
    ghost use Rattle.std.specs.Prelude.{ℕ, List};

    ghost Value = { List ℕ };

    ghost use Rattle.jp_nodes.specs.Forms.{words_in};

    ghost view = { λ t. words_in t.bits t.words.items };
}

/// The words of the tape of a line in a list of tapes: those of `nodes` nodes, from the word at `start` on, as
/// `Builder::append` put them there.
#[inline(always)]
pub fn packed_words<'a>(tapes: &'a [u64], start: usize, nodes: u32, line: &[u8]) -> &'a [u64]
    requires { IsAmong tapes.now start nodes line.now }
    ensures { IsPackedTapeOf result.now line.now }
{
    let size = nodes as usize * node_size(half_bits(line));
    &tapes[start..start + size]
}

/// More words after those of some tapes leave these tapes what they are.
pub fn tapes_are_kept()
    ensures { (words more line : List ℕ) (start nodes : ℕ) → IsAmong words start nodes line → IsAmong (words ++ more) start nodes line }
{}

/// The tape of a line is that of the tree that the line spells, and says what a cursor relies on of that tree.
pub fn tapes_are_of_lines()
    ensures made { (words line : List ℕ) (t : Tree) → Text line t → words ≡ tape_words t → length line < 2 ^ 32
        → has_surrogate t ≡ false → has_duplicate t ≡ false → has_long_exponent line t ≡ false → IsTapeOf words line }
    ensures text { (words line : List ℕ) → IsTapeOf words line → Text line (spelled line) }
    ensures only { (line : List ℕ) (t : Tree) → Text line t → spelled line ≡ t }
{}
