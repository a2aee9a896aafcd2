//! How the words of a line are packed.

ghost use Rattle.std.specs.Prelude.{◌≡◌, ◌++◌, ℕ, List, length, IfOk, OnOk, OnErr};
ghost use Rattle.jp_nodes.specs.Tapes.{IsTapeOf};
ghost use Rattle.jp_nodes.specs.Forms.{compact_node, three_halves, in_one, in_two, nodes_by, packed, IsAmong};

use crate::tape::{COMPACT, MEDIUM, Tape, half_bits};
use std::alloc::{AllocError, Global};

/// The three words of a node in one, where each half of them has at most 10 bits.
#[inline(always)]
#[tactic(auto, unfolding(crate::specs::Forms::compact_node))]
fn compact(head: u64, span: u64, label: u64) -> u64
    ensures { result ≡ compact_node head span label }
{
    head.wrapping_add(span.wrapping_mul(1 << 10))
        .wrapping_add(label.wrapping_mul(1 << 20))
}

/// Three halves in a word, where each has at most 21 bits.
#[inline(always)]
#[tactic(auto, unfolding(crate::specs::Forms::three_halves))]
fn join_halves(head: u64, span: u64, label: u64) -> u64
    ensures { result ≡ three_halves head span label }
{
    head.wrapping_add(span.wrapping_mul(1 << 21))
        .wrapping_add(label.wrapping_mul(1 << 42))
}

/// Appends the nodes of these words, three to a node, each in one word.
fn append_compact(words: &[u64], tapes: &mut Vec<u64>) -> Result<(), AllocError>
    ensures added { OnOk result (tapes.new.items ≡ tapes.old.items ++ nodes_by in_one words.now) }
    ensures same { OnErr result (tapes.new.items ≡ tapes.old.items) }
{
    let count = words.len() / 3;
    tapes.reserve(count)?;
    for place in 0..count {
        let node = compact(words[3 * place], words[3 * place + 1], words[3 * place + 2]);
        tapes.push_reserved(node);
    }
    Ok(())
}

/// Appends the nodes of these words, three to a node, each in two words.
fn append_medium(words: &[u64], tapes: &mut Vec<u64>) -> Result<(), AllocError>
    ensures added { OnOk result (tapes.new.items ≡ tapes.old.items ++ nodes_by in_two words.now) }
    ensures same { OnErr result (tapes.new.items ≡ tapes.old.items) }
{
    let count = words.len() / 3;
    tapes.reserve(2 * count)?;
    for place in 0..count {
        let (head, span, label) = (words[3 * place], words[3 * place + 1], words[3 * place + 2]);
        let highs = join_halves(head >> 32, span >> 32, label >> 32);
        let lows = join_halves(head % (1 << 32), span % (1 << 32), label % (1 << 32));
        tapes.push_reserved(highs);
        tapes.push_reserved(lows);
    }
    Ok(())
}

/// Appends words as they are. The first of all are handed over with their memory.
fn append_wide(words: &mut Vec<u64>, tapes: &mut Vec<u64>) -> Result<(), AllocError>
    ensures added { OnOk result (tapes.new.items ≡ tapes.old.items ++ words.old.items) }
    ensures same { OnErr result (tapes.new.items ≡ tapes.old.items) }
{
    if tapes.is_empty() {
        std::mem::swap(words, tapes);
        return Ok(());
    }
    tapes.extend_from_slice(words)
}

/// Appends these words, three to a node, to those of other tapes, packed with this number of bits to a half.
fn append_words(words: &mut Vec<u64>, bits: u32, tapes: &mut Vec<u64>) -> Result<(), AllocError>
    ensures added { OnOk result (tapes.new.items ≡ tapes.old.items ++ packed bits words.old.items) }
    ensures same { OnErr result (tapes.new.items ≡ tapes.old.items) }
{
    if bits == COMPACT {
        append_compact(words, tapes)
    } else if bits == MEDIUM {
        append_medium(words, tapes)
    } else {
        append_wide(words, tapes)
    }
}

/// Appends the tape of a line, whose words are given, to the tapes of other lines, and answers how many nodes it has. The words
/// are handed over: what is left of them says nothing.
///
/// # Errors
///
/// Memory ran out. Then nothing is appended.
pub fn append_tape(
    words: &mut Vec<u64>,
    line: &[u8],
    tapes: &mut Vec<u64>,
) -> Result<u32, AllocError>
    requires { IsTapeOf words.old.items line.now }
    ensures tape { IfOk result (λ nodes. IsAmong tapes.new.items (length tapes.old.items) nodes line.now) }
    ensures more { OnOk result ((words : List ℕ) × (tapes.new.items ≡ tapes.old.items ++ words)) }
    ensures same { OnErr result (tapes.new.items ≡ tapes.old.items) }
{
    let nodes = (words.len() / 3) as u32;
    append_words(words, half_bits(line), tapes)?;
    Ok(nodes)
}

impl Tape {
    /// The tape of a line, whose words are given. The words are handed over: what is left of them says nothing.
    ///
    /// # Errors
    ///
    /// Memory ran out.
    pub fn of_words(alloc: Global, words: &mut Vec<u64>, line: &[u8]) -> Result<Tape, AllocError>
        requires { IsTapeOf words.old.items line.now }
        ensures { IfOk result (λ tape. tape ≡ words.old.items) }
    {
        let bits = half_bits(line);
        let mut tape = Vec::new(alloc);
        append_words(words, bits, &mut tape)?;
        Ok(Tape { words: tape, bits })
    }
}
