//! A reader and a writer.

use std::alloc::Global;
use std::io::{self, Read, Write};

/// What a reader does after its last piece.
#[derive(Clone, Copy, Debug, PartialEq, Eq)]
pub(crate) enum Behind {
    /// It is at its end.
    End,
    /// It fails, so that a read too many is told.
    Fault,
}

/// Gives a piece a read, each of no more bytes than a read asks for.
#[derive(Drop)]
pub(crate) struct Reads {
    pieces: &'static [&'static [u8]],
    next: usize,
    behind: Behind,
}

impl Reads {
    /// Gives the pieces from the first one on.
    pub(crate) fn new(pieces: &'static [&'static [u8]], behind: Behind) -> Reads {
        Reads {
            pieces,
            next: 0,
            behind,
        }
    }
}

impl Read for Reads {
    fn read(&mut self, buffer: &mut [u8]) -> io::Result<usize> {
        let Some(piece) = self.pieces.get(self.next) else {
            return match self.behind {
                Behind::End => Ok(0),
                Behind::Fault => Err(io::ErrorKind::Other.into()),
            };
        };
        self.next = self.next.saturating_add(1);
        let count = buffer.len().min(piece.len());
        for place in 0..count {
            buffer[place] = piece[place];
        }
        Ok(count)
    }
}

/// Takes all bytes.
#[derive(Drop)]
pub(crate) struct Taking {
    pub(crate) held: Vec<u8>,
}

impl Taking {
    /// It has none yet.
    pub(crate) fn new(alloc: Global) -> Taking {
        Taking {
            held: Vec::new(alloc),
        }
    }
}

impl Write for Taking {
    fn write(&mut self, bytes: &[u8]) -> io::Result<usize> {
        self.held.extend_from_slice(bytes)?;
        Ok(bytes.len())
    }

    fn flush(&mut self) -> io::Result<()> {
        Ok(())
    }
}
