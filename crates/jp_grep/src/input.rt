//! What a search reads.

ghost use Rattle.std.specs.Prelude.{◌≡◌, ◌||◌};
ghost use Rattle.std.specs.Io.{ReadsAtMost};
ghost use Rattle.std.specs.Io.KnownBytes.{ReadConsumes};
ghost use Rattle.jp_devices.specs.Devices.{Grew, has_no_room, one_more, one_more_where, read_ended, read_failed};
ghost use Rattle.jp_grep.specs.Inputs.{read_count};

use jp_model::Watched;
use jp_sink::Sink;
use std::io;
use std::io::Read;

/// A reader that is watched, and how many bytes its last read brought: so a clause can say what had come before that read.
///
/// The reader is read through `read_after` alone.
#[derive(Drop)]
pub struct Input<R> {
    reader: Watched<R>,
    last: usize,
}

impl<R> Input<R> {
    /// A reader that a search has read no byte from.
    pub fn new(reader: Watched<R>) -> Input<R>
        ensures reader { result.reader ≡ reader }
        ensures last { result.last ≡ 0 }
    {
        Input { reader, last: 0 }
    }

    /// The reader, as its last call left it.
    pub fn into_reader(self) -> Watched<R>
        ensures { result ≡ self.reader }
    {
        self.reader
    }
}

impl<R: Read> Input<R> {
    /// Makes one call of the reader's `read`, and answers what it answers. The call is an early one where the sink holds something
    /// that it has not handed on.
    pub(crate) fn read_after<S: Sink>(&mut self, sink: &S, bytes: &mut [u8]) -> io::Result<usize>
        ensures bound { ReadsAtMost result bytes.new }
        ensures bytes { ReadConsumes (R.remaining self.old.reader.device) (R.remaining self.new.reader.device) result bytes.new }
        ensures given { Grew self.old.reader.given self.new.reader.given result bytes.new }
        ensures failed { self.new.reader.failed ≡ (self.old.reader.failed || read_failed result) }
        ensures ended { self.new.reader.ended ≡ (self.old.reader.ended || read_ended result bytes.new) }
        ensures after { self.new.reader.after ≡ one_more_where ((self.old.reader.failed || self.old.reader.ended) || has_no_room bytes.new) self.old.reader.after }
        ensures early { self.new.reader.early ≡ one_more_where (S.state sink.now).unflushed self.old.reader.early }
        ensures last { self.new.last ≡ read_count result }
    {
        let answer = if sink.is_unflushed() {
            self.reader.read(bytes)
        } else {
            self.reader.read_after(&Watched::new(io::sink()), bytes)
        };
        self.last = match &answer {
            Ok(count) => *count,
            Err(_) => 0,
        };
        answer
    }
}
