//! Small readers and writers.

use std::alloc::{AllocError, Global};
use std::io;
use std::io::{Read, Write};

/// A number of calls that is not reached.
pub(crate) const NEVER: u64 = u64::MAX;

/// Gives a limited number of bytes a call, and fails at one call.
#[derive(Drop)]
pub(crate) struct Cutting {
    bytes: Vec<u8>,
    given: usize,
    most: usize,
    fails_in: u64,
}

impl Cutting {
    /// Gives the bytes, at most `most` a call. Call number `fails_in`, from 1, fails.
    pub(crate) fn new(
        alloc: Global,
        bytes: &[u8],
        most: usize,
        fails_in: u64,
    ) -> Result<Cutting, AllocError> {
        let bytes = Vec::from_slice(alloc, bytes)?;
        Ok(Cutting {
            bytes,
            given: 0,
            most,
            fails_in,
        })
    }

    /// How many bytes it gave.
    pub(crate) fn given(&self) -> usize {
        self.given
    }
}

impl Read for Cutting {
    fn read(&mut self, buffer: &mut [u8]) -> io::Result<usize> {
        self.fails_in = self.fails_in.saturating_sub(1);
        if self.fails_in == 0 {
            self.fails_in = NEVER;
            return Err(io::ErrorKind::Other.into());
        }
        let left = self.bytes.len().saturating_sub(self.given);
        let count = buffer.len().min(self.most).min(left);
        for place in 0..count {
            if let Some(byte) = self.bytes.get(self.given) {
                buffer[place] = *byte;
            }
            self.given = self.given.saturating_add(1);
        }
        Ok(count)
    }
}

/// Gives the same bytes again and again, one a call.
#[derive(Drop)]
pub(crate) struct Endless {
    bytes: &'static [u8],
    next: usize,
}

impl Endless {
    /// Gives the bytes from the first one on.
    pub(crate) fn new(bytes: &'static [u8]) -> Endless {
        Endless { bytes, next: 0 }
    }
}

impl Read for Endless {
    fn read(&mut self, buffer: &mut [u8]) -> io::Result<usize> {
        if self.next >= self.bytes.len() {
            self.next = 0;
        }
        match (buffer.first_mut(), self.bytes.get(self.next)) {
            (Some(place), Some(byte)) => {
                *place = *byte;
                self.next = self.next.saturating_add(1);
                Ok(1)
            }
            _ => Ok(0),
        }
    }
}

/// Takes a limited number of bytes a call; one call fails, or takes nothing. It counts the flushes, and one of them may fail.
#[derive(Drop)]
pub(crate) struct Taking {
    pub(crate) held: Vec<u8>,
    pub(crate) flushes: u64,
    pub(crate) failing_flush: u64,
    most: usize,
    fails_in: u64,
    takes_none_in: u64,
}

impl Taking {
    /// Takes at most `most` bytes a call. Call number `fails_in`, from 1, fails, and number `takes_none_in` takes nothing.
    pub(crate) fn new(alloc: Global, most: usize, fails_in: u64, takes_none_in: u64) -> Taking {
        Taking {
            held: Vec::new(alloc),
            flushes: 0,
            failing_flush: NEVER,
            most,
            fails_in,
            takes_none_in,
        }
    }
}

impl Write for Taking {
    fn write(&mut self, bytes: &[u8]) -> io::Result<usize> {
        self.fails_in = self.fails_in.saturating_sub(1);
        self.takes_none_in = self.takes_none_in.saturating_sub(1);
        if self.fails_in == 0 {
            self.fails_in = NEVER;
            return Err(io::ErrorKind::Other.into());
        }
        if self.takes_none_in == 0 {
            self.takes_none_in = NEVER;
            return Ok(0);
        }
        let count = bytes.len().min(self.most);
        self.held.extend_from_slice(&bytes[..count])?;
        Ok(count)
    }

    fn flush(&mut self) -> io::Result<()> {
        self.flushes = self.flushes.saturating_add(1);
        if self.flushes == self.failing_flush {
            return Err(io::ErrorKind::Other.into());
        }
        Ok(())
    }
}
