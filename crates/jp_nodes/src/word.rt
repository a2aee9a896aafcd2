//! A word of a tape, and the kind that is in the first word of a node.

ghost use Rattle.std.specs.Prelude.{◌≡◌, ◌<◌, ◌≤◌, ◌+◌, ◌*◌, ◌%◌, ◌^◌};
ghost use Rattle.jp_model.specs.Json.Faults.{has_open_end as is_open};
ghost use Rattle.jp_model.specs.Json.Tree.{Value};
ghost use Rattle.jp_nodes.specs.Kinds.{kind_of, kind_by, code_of};

use crate::Kind;

/// The halves of a word.
#[derive(Clone, Copy)]
pub(crate) struct Word {
    pub(crate) high: u32,
    pub(crate) low: u32,
    ghost half: { low < 2 ^ 32 },
}

impl Word {
    ghost use Rattle.jp_nodes.specs.Forms.{joined, word_of};

    /// Of three halves that stand in a word, and three in another, from the lowest bits up, one of each.
    #[inline(always)]
    pub(crate) fn of_halves(highs: u64, lows: u64, bits: u32, index: u32) -> Word
        requires bits { bits ≤ 21 }
        requires index { index < 3 }
        ensures { joined result ≡ word_of bits highs lows index }
    {
        let shift = bits * index;
        Word {
            high: ((highs >> shift) % (1 << bits)) as u32,
            low: ((lows >> shift) % (1 << bits)) as u32,
        }
    }

    /// The halves of a word.
    #[inline(always)]
    pub(crate) fn split(word: u64) -> Word
        ensures { joined result ≡ word }
    {
        Word {
            high: (word >> 32) as u32,
            low: (word % (1 << 32)) as u32,
        }
    }
}

/// The number of a kind in a node's first word.
pub(crate) fn code(kind: Kind) -> u64
    ensures { result ≡ code_of kind }
{
    match kind {
        Kind::Null => 0,
        Kind::False => 1 << 32,
        Kind::True => 2 << 32,
        Kind::Number => 3 << 32,
        Kind::Text => 4 << 32,
        Kind::Array => 5 << 32,
        Kind::Object => (5 << 32) + 1,
    }
}

/// The kind by the first word of a node.
pub(crate) fn kind_of_head(word: Word) -> Kind
    ensures { result ≡ kind_by word.high word.low }
{
    match word.high {
        0 => Kind::Null,
        1 => Kind::False,
        2 => Kind::True,
        3 => Kind::Number,
        4 => Kind::Text,
        _ if word.low % 2 == 0 => Kind::Array,
        _ => Kind::Object,
    }
}

/// Whether the bytes of such a value don't show where it ends (RFC 7464, section 2.4).
pub(crate) fn has_open_end(kind: Kind) -> bool
    ensures { (v : Value) → kind ≡ kind_of v → result ≡ is_open v }
{
    match kind {
        Kind::Null | Kind::False | Kind::True | Kind::Number => true,
        Kind::Text | Kind::Array | Kind::Object => false,
    }
}
