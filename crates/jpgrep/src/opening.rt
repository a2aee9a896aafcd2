//! Whether the first line of a stream begins a JSON text that goes on in the next one.

use jp_masks::{Carry, scan_block};
use jp_model::Framing;
use std::io::{self, Read};
use std::simd::prelude::*;

/// How many bytes are counted at once.
const BLOCK: usize = 64;

/// The lanes that are one of two bytes.
fn either(lanes: u8x64, first: u8, second: u8) -> u64 {
    let firsts = lanes.simd_eq(u8x64::splat(first));
    let seconds = lanes.simd_eq(u8x64::splat(second));
    (firsts | seconds).to_bitmask()
}

/// The bits before the lowest of some, or all where there is none.
fn before_first(bits: u64) -> u64 {
    !bits & bits.wrapping_sub(1)
}

/// A byte that is no bracket, quotation mark, reverse solidus or line feed.
const FILLER: u8 = b' ';

/// At most 64 bytes at the end of a block, and what is known before the block: what is known before the bytes, but that an
/// escape stands in the block where it has more than these bytes.
fn block_of(part: &[u8], before: Carry) -> ([u8; BLOCK], Carry) {
    let from = BLOCK.saturating_sub(part.len());
    let mut block = [FILLER; BLOCK];
    let mut first = before;
    if before.escaped && from > 0 {
        block[from - 1] = b'\\';
        first.escaped = false;
    }
    for (place, byte) in block[from..].iter_mut().zip(part) {
        *place = *byte;
    }
    (block, first)
}

/// Where one stands in the first line of a stream that is not blank.
#[derive(Clone, Copy)]
enum Place {
    /// In front of it, and how many bytes of a byte order mark came.
    Front { mark: usize },
    /// In it, and what is known before its next byte.
    Within(Carry),
    /// After it, or in a line that is no beginning of an array or object.
    Behind,
}

/// What the first line of a stream that is not blank opens.
#[derive(Clone, Copy)]
pub(crate) struct Opening {
    place: Place,
    /// How many more brackets and braces are open than are closed.
    open: i64,
}

/// The byte order mark in UTF-8.
const BYTE_ORDER_MARK: [u8; 3] = [0xEF, 0xBB, 0xBF];

impl Opening {
    /// At the front of a stream.
    pub(crate) fn new() -> Opening {
        Opening {
            place: Place::Front { mark: 0 },
            open: 0,
        }
    }

    /// Of a stream whose first line is not looked at.
    pub(crate) fn unseen() -> Opening {
        Opening {
            place: Place::Behind,
            open: 0,
        }
    }

    /// Whether the line begins an array or an object, and more brackets are open in it than are closed, outside strings: so it
    /// is refused.
    pub(crate) fn goes_on(&self) -> bool {
        self.open > 0
    }

    /// Takes the bytes that come next.
    fn pass(&mut self, bytes: &[u8]) {
        for part in self.pass_front(bytes).chunks(BLOCK) {
            match self.place {
                Place::Within(before) => self.go_on(before, part),
                Place::Front { .. } | Place::Behind => return,
            }
        }
    }

    /// Takes the bytes in front of the line and the one that begins it, and returns those after them.
    fn pass_front<'b>(&mut self, bytes: &'b [u8]) -> &'b [u8] {
        for (index, byte) in bytes.iter().enumerate() {
            match self.place {
                Place::Front { mark } => self.begin(mark, *byte),
                Place::Within(_) | Place::Behind => return &bytes[index..],
            }
        }
        &[]
    }

    /// Takes a byte in front of the line.
    fn begin(&mut self, mark: usize, byte: u8) {
        if mark < BYTE_ORDER_MARK.len() && byte == BYTE_ORDER_MARK[mark] {
            self.place = Place::Front { mark: mark + 1 };
            return;
        }
        match byte {
            b'{' | b'[' => {
                self.open = 1;
                self.place = Place::Within(Carry::START);
            }
            b' ' | b'\t' | b'\r' | b'\n' => {
                self.place = Place::Front {
                    mark: BYTE_ORDER_MARK.len(),
                };
            }
            _ => self.place = Place::Behind,
        }
    }

    /// Takes at most 64 bytes of the line, and of what follows it.
    fn go_on(&mut self, before: Carry, part: &[u8]) {
        let (block, first) = block_of(part, before);
        let found = scan_block(&block, Some(Framing::Lines), first);
        let lanes = u8x64::from_array(block);
        let marks = found.marks & before_first(found.ends);
        let opened = (marks & either(lanes, b'[', b'{')).count_ones();
        let closed = (marks & either(lanes, b']', b'}')).count_ones();
        self.open = self
            .open
            .saturating_add(i64::from(opened))
            .saturating_sub(i64::from(closed));
        self.place = if found.ends == 0 {
            Place::Within(found.next)
        } else {
            Place::Behind
        };
    }
}

/// A reader whose first line is looked at as it goes by.
#[derive(Drop)]
pub(crate) struct Looking<R> {
    reader: R,
    opening: Opening,
}

impl<R> Looking<R> {
    /// A reader with nothing read from it yet.
    pub(crate) fn new(reader: R, opening: Opening) -> Looking<R> {
        Looking { reader, opening }
    }

    /// What its first line opens.
    pub(crate) fn opening(&self) -> Opening {
        self.opening
    }
}

impl<R: Read> Read for Looking<R> {
    fn read(&mut self, bytes: &mut [u8]) -> io::Result<usize> {
        let answer = self.reader.read(bytes);
        if let Ok(count) = &answer {
            if let Some(came) = bytes.get(..*count) {
                self.opening.pass(came);
            }
        }
        answer
    }
}
