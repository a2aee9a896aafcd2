//! The words of a node.

ghost use Rattle.std.specs.Prelude.{◌≡◌, ◌+◌, ◌*◌, ◌<◌, ◌≤◌, ◌++◌, ◌∷◌, [], length, None, vec_capacity};
ghost use Rattle.jp_nodes.specs.Words.{head_word, span_word, container_code, body_word};
ghost use Rattle.jp_nodes.specs.Kinds.{code_of, container_if};

use crate::Kind;
use crate::word::code;
use jp_model::Span;

/// The kind of a container: an object, or else an array.
pub fn container_kind(is_object: bool) -> Kind
    ensures { code_of result ≡ container_code (container_if is_object) }
{
    if is_object { Kind::Object } else { Kind::Array }
}

/// The first word of a node.
#[tactic(auto, unfolding(crate::specs::Words::head_word))]
pub fn head(kind: Kind, below: usize, parent: u32) -> u64
    ensures { result ≡ head_word (code_of kind) below parent }
{
    let halves = (below as u64).wrapping_mul(1 << 32);
    code(kind)
        .wrapping_add(halves)
        .wrapping_add(parent as u64 * 2)
}

/// The second word of a node, and the third of one that has a name.
#[tactic(auto, unfolding(crate::specs::Words::span_word))]
pub fn span_to_word(start: u32, end: u32) -> u64
    ensures { result ≡ span_word (record { start = start; end = end }) }
{
    start as u64 * (1 << 32) + end as u64
}

/// The third word of a node.
pub fn label_to_word(name: Option<Span>, index: u32) -> u64
    ensures { result ≡ body_word index name }
{
    match name {
        Some(body) => span_to_word(body.start, body.end),
        None => index as u64,
    }
}

/// Writes a node.
#[inline(always)]
pub fn write_node(words: &mut Vec<u64>, head: u64, span: u64, label: u64)
    requires room { length words.old.items + 3 ≤ vec_capacity words.old }
    ensures written { words.new.items ≡ words.old.items ++ head ∷ span ∷ label ∷ [] }
    ensures capacity { vec_capacity words.new ≡ vec_capacity words.old }
{
    words.push_reserved(head);
    words.push_reserved(span);
    words.push_reserved(label);
}
