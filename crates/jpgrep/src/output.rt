//! Standard output: whether anybody reads it, which file it goes to, and what rows pass on their way to it.

use jp_context::Context;
use jp_grep::{Sink, TextSink};
use std::fs::{self, Metadata};
use std::io::{self, Stdout, Write};
use std::os::unix::fs::MetadataExt;

/// What prints rows on standard output, as they come or some of them.
pub(crate) trait Printer: Sink + Drop {
    /// Standard output.
    fn into_output(self) -> Output;
}

/// Standard output, and whether its last call found that nobody reads the pipe any more.
#[derive(Drop)]
pub(crate) struct Output {
    stdout: Stdout,
    is_unread: bool,
}

/// Whether a call found that nobody reads the pipe any more.
fn found_unread<T>(answer: &io::Result<T>) -> bool {
    match answer {
        Ok(_) => false,
        Err(error) => error.kind() == io::ErrorKind::BrokenPipe,
    }
}

impl Output {
    /// The standard output of the program.
    pub(crate) fn new(rt: &HostRuntime) -> Output {
        Output {
            stdout: rt.stdout(),
            is_unread: false,
        }
    }

    /// Whether nobody reads it any more, as its last call found.
    pub(crate) fn is_unread(&self) -> bool {
        self.is_unread
    }
}

impl Write for Output {
    fn write(&mut self, bytes: &[u8]) -> io::Result<usize> {
        let written = self.stdout.write(bytes);
        self.is_unread = found_unread(&written);
        written
    }

    fn flush(&mut self) -> io::Result<()> {
        let flushed = self.stdout.flush();
        self.is_unread = found_unread(&flushed);
        flushed
    }
}

impl Printer for TextSink<Output> {
    fn into_output(self) -> Output {
        self.finish().into_inner()
    }
}

impl Printer for Context<Output> {
    fn into_output(self) -> Output {
        self.finish().into_inner()
    }
}

/// Which regular file something is, by the numbers of its device and of its node there.
#[derive(Clone, Copy, PartialEq, Eq)]
pub(crate) struct RegularFile {
    device: u64,
    node: u64,
}

impl RegularFile {
    /// Which one has these metadata, if they were found and are those of a regular file.
    pub(crate) fn of(metadata: io::Result<Metadata>) -> Option<RegularFile> {
        match metadata {
            Ok(metadata) if metadata.is_file() => Some(RegularFile {
                device: metadata.dev(),
                node: metadata.ino(),
            }),
            _ => None,
        }
    }

    /// Which one standard output goes to, where the system tells it.
    pub(crate) fn of_output(rt: &HostRuntime) -> Option<RegularFile> {
        RegularFile::of(fs::metadata(rt, "/dev/stdout"))
    }

    /// Which one standard input comes from, where the system tells it.
    pub(crate) fn of_input(rt: &HostRuntime) -> Option<RegularFile> {
        RegularFile::of(fs::metadata(rt, "/dev/stdin"))
    }
}
