//! Which rows are shown.

use crate::Context;
use jp_sink::{Sink, Untold};
use std::alloc::Global;
use std::io::{self, Write};
use std::process::Abort;
use std::test::Fail;

/// Tells rows of one letter each: a capital letter is selected, and a bar is a gap.
fn tell<W: Write>(rt: &impl Abort, letters: &str, context: &mut Context<W>) -> Result<(), Untold> {
    for letter in letters.bytes() {
        assert!(rt; !context.has_failed());
        if letter == b'|' {
            context.gap();
            continue;
        }
        context.row(letter.is_ascii_uppercase(), &[letter, b'\n'])?;
    }
    Ok(())
}

/// Whether this is shown of such rows.
fn shows(
    rt: &impl Abort,
    alloc: Global,
    before: u64,
    after: u64,
    letters: &str,
    wanted: &str,
) -> Result<(), Fail> {
    let mut context = Context::new(alloc, before, after, false, Vec::new(alloc));
    assert!(rt; tell(rt, letters, &mut context).is_ok());
    let out = context.finish();
    assert!(rt; !out.failed());
    assert_eq!(rt; out.into_inner().as_slice(), wanted.as_bytes());
    Ok(())
}

#[test]
fn shows_rows_after(rt: HostRuntime) -> Result<(), Fail> {
    shows(&rt, rt.alloc(), 0, 1, "aBcdEFgh", "B\nc\n--\nE\nF\ng\n")
}

#[test]
fn shows_rows_before(rt: HostRuntime) -> Result<(), Fail> {
    shows(&rt, rt.alloc(), 1, 0, "aBcdEFgh", "a\nB\n--\nd\nE\nF\n")
}

#[test]
fn groups_that_touch_are_one(rt: HostRuntime) -> Result<(), Fail> {
    shows(
        &rt,
        rt.alloc(),
        1,
        1,
        "aBcdEfghijK",
        "a\nB\nc\nd\nE\nf\n--\nj\nK\n",
    )?;
    shows(&rt, rt.alloc(), 2, 2, "aBcdeF", "a\nB\nc\nd\ne\nF\n")?;
    shows(&rt, rt.alloc(), 1, 0, "AbC", "A\nb\nC\n")
}

#[test]
fn without_context_rows_apart_are_parted(rt: HostRuntime) -> Result<(), Fail> {
    shows(&rt, rt.alloc(), 0, 0, "AbCDe", "A\n--\nC\nD\n")?;
    shows(&rt, rt.alloc(), 0, 0, "abc", "")
}

#[test]
fn streams_are_parted(rt: HostRuntime) -> Result<(), Fail> {
    shows(&rt, rt.alloc(), 2, 2, "|abC|def|G", "a\nb\nC\n--\nG\n")?;
    shows(&rt, rt.alloc(), 0, 0, "|A|B", "A\n--\nB\n")?;
    shows(&rt, rt.alloc(), 1, 5, "|ab|C", "C\n")
}

#[test]
fn rows_of_many_lengths_are_kept(rt: HostRuntime) -> Result<(), Fail> {
    let mut context = Context::new(rt.alloc(), 2, 0, false, Vec::new(rt.alloc()));
    for row in [
        b"long, and let go\n".as_slice(),
        b"\n",
        b"longer than that\n",
        b"x\n",
    ] {
        assert!(rt; !context.has_failed());
        assert!(rt; context.row(false, row).is_ok());
    }
    assert!(rt; !context.has_failed());
    assert!(rt; context.row(true, b"Y\n").is_ok());
    assert_eq!(rt;
        context.finish().into_inner().as_slice(),
        b"longer than that\nx\nY\n".as_slice()
    );
    Ok(())
}

#[test]
fn parts_in_colour(rt: HostRuntime) -> Result<(), Fail> {
    let mut context = Context::new(rt.alloc(), 0, 0, true, Vec::new(rt.alloc()));
    assert!(rt; tell(&rt, "AbC", &mut context).is_ok());
    // As `grep -B0 --color=always` of GNU grep 3.11 writes it.
    assert_eq!(rt;
        context.finish().into_inner().as_slice(),
        b"A\n\x1b[36m\x1b[K--\x1b[m\x1b[K\nC\n".as_slice()
    );
    Ok(())
}

#[test]
fn flushes_and_fails_as_its_writer(rt: HostRuntime) -> Result<(), Fail> {
    let mut context = Context::new(rt.alloc(), 1, 0, false, Short { room: 5 });
    assert!(rt; tell(&rt, "aBcD", &mut context).is_ok());
    assert!(rt; context.is_unflushed());
    assert!(rt; !context.has_failed());
    assert!(rt; matches!(context.flush(), Err(Untold::Sink)));
    assert!(rt; context.has_failed());
    let out = context.finish();
    assert!(rt; out.failed());
    assert_eq!(rt; out.after(), 0);
    Ok(())
}

/// Takes some bytes, and then none.
#[derive(Drop)]
struct Short {
    room: usize,
}

impl Write for Short {
    fn write(&mut self, bytes: &[u8]) -> io::Result<usize> {
        let taken = bytes.len().min(self.room);
        self.room -= taken;
        Ok(taken)
    }

    fn flush(&mut self) -> io::Result<()> {
        Ok(())
    }
}
