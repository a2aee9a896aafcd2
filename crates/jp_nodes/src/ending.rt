//! Whether a text of a sequence may have lost its end.

ghost use Rattle.std.specs.Prelude.{◌≡◌, ◌<◌, ◌^◌, length};
ghost use Rattle.jp_model.specs.Json.Faults.{is_truncated as truncated};
ghost use Rattle.jp_model.specs.Json.Tree.{Tree};
ghost use Rattle.jp_model.specs.Json.Spelling.{Text};
ghost use Rattle.jp_nodes.specs.Words.{tape_words};

use crate::word::{Word, has_open_end, kind_of_head};
use jp_model::Framing;

/// Whether the text of a sequence with these words may have lost its end (RFC 7464, section 2.4): it is a number, true, false or
/// null, and no byte follows it.
pub fn is_truncated(words: &[u64], line: &[u8], framing: Framing) -> bool
    requires room { length line.now < 2 ^ 32 }
    requires text { (t : Tree) × Text line.now t × (words.now ≡ tape_words t) }
    ensures { (t : Tree) → Text line.now t → words.now ≡ tape_words t → result ≡ truncated framing line.now t }
{
    match framing {
        Framing::Lines => false,
        Framing::Sequence => {
            let kind = kind_of_head(Word::split(words[0]));
            let end = Word::split(words[1]).low;
            has_open_end(kind) && end as usize == line.len()
        }
    }
}
