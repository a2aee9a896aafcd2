//! Readers and writers that are watched.

ghost use Rattle.std.specs.Prelude.{◌≡◌, [], false, is_err, ◌&&◌, ◌||◌};
ghost use Rattle.std.specs.Io.{ReadsAtMost, WritesAtMost};
ghost use Rattle.std.specs.Io.KnownBytes.{Keeps, ReadConsumes, WriteAppends};
ghost use Rattle.jp_devices.specs.Devices.{Grew, one_more, one_more_where, read_failed, read_ended, has_no_room, write_failed, write_took};

use crate::passed::Passed;
use std::io;
use std::io::{Read, Write};
use std::marker::Model;

/// A reader or a writer, with the bytes that its reads gave and those that its writes took so far, which proofs alone see;
/// whether a call of it failed, whether a read came to its end, whether it took bytes that are unflushed, how often it was
/// called, how often in vain, and how often it was read too early.
///
/// The device is reached through `read`, `read_after`, `write` and `flush` alone, so no call of it and no byte is missed.
#[derive(Drop)]
pub struct Watched<T> {
    device: T,
    given: Passed,
    taken: Passed,
    failed: bool,
    ended: bool,
    unflushed: bool,
    calls: u64,
    after: u64,
    early: u64,
}

impl<T> Model for Watched<T> {
    ghost use Rattle.jp_devices.specs.Devices.{Device};

    ghost Value = { Device T };

    ghost view = { λ a. record { device = a.device; given = a.given.bytes; taken = a.taken.bytes; failed = a.failed; ended = a.ended; unflushed = a.unflushed; calls = a.calls; after = a.after; early = a.early } };
}

impl<T> Watched<T> {
    /// A device that was not called yet.
    pub fn new(device: T) -> Watched<T>
        ensures device { result.device ≡ device }
        ensures given { result.given ≡ [] }
        ensures taken { result.taken ≡ [] }
        ensures failed { result.failed ≡ false }
        ensures ended { result.ended ≡ false }
        ensures unflushed { result.unflushed ≡ false }
        ensures calls { result.calls ≡ 0 }
        ensures after { result.after ≡ 0 }
        ensures early { result.early ≡ 0 }
    {
        Watched {
            device,
            given: Passed::none(),
            taken: Passed::none(),
            failed: false,
            ended: false,
            unflushed: false,
            calls: 0,
            after: 0,
            early: 0,
        }
    }

    /// The device, as its last call left it.
    pub fn into_inner(self) -> T
        ensures { result ≡ self.device }
    {
        self.device
    }

    /// Whether a call failed so far: one that answered an error, or a `write` of some bytes that took none.
    pub fn failed(&self) -> bool
        ensures { result ≡ self.now.failed }
    {
        self.failed
    }

    /// Whether a read came to the end so far: a `read` into some room that answered 0.
    pub fn ended(&self) -> bool
        ensures { result ≡ self.now.ended }
    {
        self.ended
    }

    /// Whether bytes were taken that are unflushed: no `flush` came after the `write` that took them, or it failed.
    pub fn unflushed(&self) -> bool
        ensures { result ≡ self.now.unflushed }
    {
        self.unflushed
    }

    /// The number of calls so far, which stays at 18,446,744,073,709,551,615 once there.
    pub fn calls(&self) -> u64
        ensures { result ≡ self.now.calls }
    {
        self.calls
    }

    /// The number of calls that were made after one had failed, of reads after one had come to the end, and of reads into no
    /// room. It stays at 18,446,744,073,709,551,615 once there.
    pub fn after(&self) -> u64
        ensures { result ≡ self.now.after }
    {
        self.after
    }

    /// The number of reads that nothing shows to have come after a flush: those made while the writer that they were given
    /// had bytes unflushed, and those given no writer. It stays at 18,446,744,073,709,551,615 once there.
    pub fn early(&self) -> u64
        ensures { result ≡ self.now.early }
    {
        self.early
    }

    /// Notes one more call: whether it failed, and whether it was made in vain.
    fn note(&mut self, failed: bool, in_vain: bool)
        ensures device { self.new.device ≡ self.old.device }
        ensures given { self.new.given ≡ self.old.given }
        ensures taken { self.new.taken ≡ self.old.taken }
        ensures failed { self.new.failed ≡ (self.old.failed || failed) }
        ensures ended { self.new.ended ≡ self.old.ended }
        ensures unflushed { self.new.unflushed ≡ self.old.unflushed }
        ensures calls { self.new.calls ≡ one_more self.old.calls }
        ensures after { self.new.after ≡ one_more_where in_vain self.old.after }
        ensures early { self.new.early ≡ self.old.early }
    {
        self.failed |= failed;
        self.calls = self.calls.saturating_add(1);
        if in_vain {
            self.after = self.after.saturating_add(1);
        }
    }
}

impl<R: Read> Watched<R> {
    /// Makes one call of the reader's `read`, and answers what it answers: the number of bytes that it put at the front
    /// of `bytes`, or its error. It is given no writer, so the call counts as an early one.
    pub fn read(&mut self, bytes: &mut [u8]) -> io::Result<usize>
        ensures bound { ReadsAtMost result bytes.new }
        ensures bytes { ReadConsumes (R.remaining self.old.device) (R.remaining self.new.device) result bytes.new }
        ensures given { Grew self.old.given self.new.given result bytes.new }
        ensures taken { self.new.taken ≡ self.old.taken }
        ensures failed { self.new.failed ≡ (self.old.failed || read_failed result) }
        ensures ended { self.new.ended ≡ (self.old.ended || read_ended result bytes.new) }
        ensures unflushed { self.new.unflushed ≡ self.old.unflushed }
        ensures calls { self.new.calls ≡ one_more self.old.calls }
        ensures after { self.new.after ≡ one_more_where ((self.old.failed || self.old.ended) || has_no_room bytes.new) self.old.after }
        ensures early { self.new.early ≡ one_more self.old.early }
    {
        let in_vain = self.failed || self.ended || bytes.is_empty();
        let answer = self.device.read(bytes);
        self.note(answer.is_err(), in_vain);
        self.early = self.early.saturating_add(1);
        if let Ok(count) = &answer {
            self.given.add(&bytes[..*count]);
            self.ended |= *count == 0 && !bytes.is_empty();
        }
        answer
    }

    /// Makes one call of the reader's `read`, as `read` does. It counts as an early one only where the writer has bytes
    /// unflushed.
    pub fn read_after<W>(&mut self, writer: &Watched<W>, bytes: &mut [u8]) -> io::Result<usize>
        ensures bound { ReadsAtMost result bytes.new }
        ensures bytes { ReadConsumes (R.remaining self.old.device) (R.remaining self.new.device) result bytes.new }
        ensures given { Grew self.old.given self.new.given result bytes.new }
        ensures taken { self.new.taken ≡ self.old.taken }
        ensures failed { self.new.failed ≡ (self.old.failed || read_failed result) }
        ensures ended { self.new.ended ≡ (self.old.ended || read_ended result bytes.new) }
        ensures unflushed { self.new.unflushed ≡ self.old.unflushed }
        ensures calls { self.new.calls ≡ one_more self.old.calls }
        ensures after { self.new.after ≡ one_more_where ((self.old.failed || self.old.ended) || has_no_room bytes.new) self.old.after }
        ensures early { self.new.early ≡ one_more_where writer.now.unflushed self.old.early }
    {
        let mut early = self.early;
        if writer.unflushed {
            early = early.saturating_add(1);
        }
        let answer = self.read(bytes);
        self.early = early;
        answer
    }
}

impl<W: Write> Watched<W> {
    /// Makes one call of the writer's `write`, and answers what it answers: the number of bytes that it took from the
    /// front of `bytes`, or its error.
    pub fn write(&mut self, bytes: &[u8]) -> io::Result<usize>
        ensures bound { WritesAtMost result bytes.now }
        ensures bytes { WriteAppends (W.contents self.old.device) (W.contents self.new.device) result bytes.now }
        ensures given { self.new.given ≡ self.old.given }
        ensures taken { Grew self.old.taken self.new.taken result bytes.now }
        ensures failed { self.new.failed ≡ (self.old.failed || write_failed result bytes.now) }
        ensures ended { self.new.ended ≡ self.old.ended }
        ensures unflushed { self.new.unflushed ≡ (self.old.unflushed || write_took result) }
        ensures calls { self.new.calls ≡ one_more self.old.calls }
        ensures after { self.new.after ≡ one_more_where self.old.failed self.old.after }
        ensures early { self.new.early ≡ self.old.early }
    {
        let in_vain = self.failed;
        let answer = self.device.write(bytes);
        let failed = match &answer {
            Ok(count) => *count == 0 && !bytes.is_empty(),
            Err(_) => true,
        };
        self.note(failed, in_vain);
        if let Ok(count) = &answer {
            self.taken.add(&bytes[..*count]);
            self.unflushed |= *count > 0;
        }
        answer
    }

    /// Makes one call of the writer's `flush`, and answers what it answers. What the writer received stays.
    pub fn flush(&mut self) -> io::Result<()>
        ensures bytes { Keeps (W.contents self.old.device) (W.contents self.new.device) }
        ensures given { self.new.given ≡ self.old.given }
        ensures taken { self.new.taken ≡ self.old.taken }
        ensures failed { self.new.failed ≡ (self.old.failed || is_err result) }
        ensures ended { self.new.ended ≡ self.old.ended }
        ensures unflushed { self.new.unflushed ≡ (self.old.unflushed && is_err result) }
        ensures calls { self.new.calls ≡ one_more self.old.calls }
        ensures after { self.new.after ≡ one_more_where self.old.failed self.old.after }
        ensures early { self.new.early ≡ self.old.early }
    {
        let in_vain = self.failed;
        let answer = self.device.flush();
        self.note(answer.is_err(), in_vain);
        self.unflushed &= answer.is_err();
        answer
    }
}

/// A watched writer is a writer, whose bytes are those that it took: so a buffer in front of it tells what came through.
impl<W: Write> Write for Watched<W> {
    ghost use Rattle.std.specs.Prelude.{Some};

    ghost contents = { λ w. Some w.taken };

    fn write(&mut self, bytes: &[u8]) -> io::Result<usize> {
        Watched::write(self, bytes)
    }

    fn flush(&mut self) -> io::Result<()> {
        Watched::flush(self)
    }
}
