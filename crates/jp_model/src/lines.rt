//! The lines of a collection.

ghost use Rattle.std.specs.Prelude.{◌≡◌};
ghost use Rattle.std.specs.Iterator.{YieldsFirstRef, item_count};
ghost use Rattle.jp_model.specs.Lines.{lines, without_byte_order_mark as without_mark};
ghost use Rattle.jp_model.specs.declared.Framing.TheVariants as framings;

use memchr::memchr;
use std::marker::Model;

/// U+FEFF in UTF-8.
const BYTE_ORDER_MARK: &[u8] = b"\xEF\xBB\xBF";

/// The bytes after a byte order mark at the front, or all (RFC 8259, section 8.1).
pub fn without_byte_order_mark(bytes: &[u8]) -> &[u8]
    ensures { result.now ≡ without_mark bytes.now }
{
    if bytes.starts_with(BYTE_ORDER_MARK) {
        &bytes[3..]
    } else {
        bytes
    }
}

/// The lines of a collection, one after another, each without its line feed.
///
/// A line feed, 0A, ends a line, and an empty last piece is not a line. One byte order mark, EF BB BF, at the front of the
/// collection is dropped. A carriage return before the line feed stays in its line, where it is white space.
#[derive(Drop)]
pub struct Lines<'a> {
    rest: &'a [u8],
}

impl<'a> Model for Lines<'a> {
    ghost use Rattle.std.specs.Prelude.{List, ℕ};
    ghost use Rattle.jp_model.specs.Lines.{text_lines};

    ghost Value = { List (List ℕ) };

    ghost view = { λ a. text_lines a.rest.now };
}

impl<'a> Lines<'a> {
    /// The lines of a collection that is these bytes; none of them is read yet.
    pub fn new(bytes: &'a [u8]) -> Lines<'a>
        ensures { result ≡ lines framings.Lines bytes.now }
    {
        Lines {
            rest: without_byte_order_mark(bytes),
        }
    }
}

impl<'a> Iterator for Lines<'a> {
    type Item = &'a [u8];

    ghost next_gives = { YieldsFirstRef (λ s. s) };

    ghost remaining = { item_count (λ s. s) };

    fn next(&mut self) -> Option<&'a [u8]> {
        if self.rest.is_empty() {
            return None;
        }
        match memchr(b'\n', self.rest) {
            Some(end) => {
                let line = &self.rest[..end];
                self.rest = &self.rest[end + 1..];
                Some(line)
            }
            None => {
                let line = self.rest;
                self.rest = &[];
                Some(line)
            }
        }
    }
}
