//! The rows of all nodes of a line.

use crate::tapes::tape_of;
use jp_devices::Watched;
use jp_model::Framing;
use jp_nodes::Cursor;
use jp_rows::write_node;
use std::alloc::{AllocError, Global};
use std::test::Fail;

/// The row of each node of the line of that number, depth first.
fn rows_of(alloc: Global, number: u32, line: &[u8], framing: Framing) -> Option<Watched<Vec<u8>>> {
    let tape = tape_of(alloc, line).ok()?;
    let root = Cursor::root(&tape, line);
    let mut out = Watched::new(Vec::new(alloc));
    for place in 0..root.after() {
        write_node(number, root.go_to(place), framing, &mut out).ok()?;
    }
    Some(out)
}

#[test]
fn a_short_row_is_one_write(rt: HostRuntime) -> Result<(), Fail> {
    let line = b" {\"a\": [true, \"b\\n\"]}";
    let answers: [(u32, Framing, &[u8]); 2] = [
        (
            12,
            Framing::Lines,
            b"12\t$\t{\"a\": [true, \"b\\n\"]}\n12\t$['a']\t[true, \"b\\n\"]\n12\t$['a'][0]\ttrue\n12\t$['a'][1]\t\"b\\n\"\n",
        ),
        (
            4_294_967_295,
            Framing::Sequence,
            b"\x1e4294967295\t$\t{\"a\": [true, \"b\\n\"]}\n\x1e4294967295\t$['a']\t[true, \"b\\n\"]\n\x1e4294967295\t$['a'][0]\ttrue\n\x1e4294967295\t$['a'][1]\t\"b\\n\"\n",
        ),
    ];
    for (number, framing, want) in answers {
        let rows = rows_of(rt.alloc(), number, line, framing).ok_or("no tape")?;
        assert_eq!(rt; rows.calls(), 4);
        assert_eq!(rt; rows.into_inner().as_slice(), want);
    }
    Ok(())
}

#[test]
fn names_with_apostrophes_are_escaped_in_rows(rt: HostRuntime) -> Result<(), Fail> {
    let line = b"{\"it's\":{\"\\u0027\":0,\"b\":1}}";
    let want =
        b"7\t$\t{\"it's\":{\"\\u0027\":0,\"b\":1}}\n7\t$['it\\'s']\t{\"\\u0027\":0,\"b\":1}\n7\t$['it\\'s']['\\'']\t0\n7\t$['it\\'s']['b']\t1\n";
    let rows = rows_of(rt.alloc(), 7, line, Framing::Lines).ok_or("no tape")?;
    assert_eq!(rt; rows.into_inner().as_slice(), want.as_slice());
    Ok(())
}

/// A name of that many letters between these two texts.
fn around_name(
    alloc: Global,
    front: &[u8],
    letters: u32,
    back: &[u8],
) -> Result<Vec<u8>, AllocError> {
    let mut text = Vec::from_slice(alloc, front)?;
    for _ in 0..letters {
        text.push(b'n')?;
    }
    text.extend_from_slice(back)?;
    Ok(text)
}

#[test]
fn long_paths_are_written_piece_by_piece(rt: HostRuntime) -> Result<(), Fail> {
    // The shortest of these names leave room for all of each row, longer ones for what stands before a value, and the longest
    // for neither.
    for letters in 92..=132 {
        let line = around_name(rt.alloc(), b"{\"", letters, b"\":[0]}")?;
        let mut want = around_name(rt.alloc(), b"1\t$\t{\"", letters, b"\":[0]}\n")?;
        let child = around_name(rt.alloc(), b"1\t$['", letters, b"']\t[0]\n")?;
        let grandchild = around_name(rt.alloc(), b"1\t$['", letters, b"'][0]\t0\n")?;
        want.extend_from_slice(&child)?;
        want.extend_from_slice(&grandchild)?;
        let rows = rows_of(rt.alloc(), 1, &line, Framing::Lines).ok_or("no tape")?;
        assert_eq!(rt; rows.into_inner().as_slice(), want.as_slice());
    }
    Ok(())
}

#[test]
fn many_bytes_are_written_from_the_line(rt: HostRuntime) -> Result<(), Fail> {
    for (letters, writes) in [(112, 1), (113, 3), (1000, 3)] {
        let line = around_name(rt.alloc(), b"\"", letters, b"\"")?;
        let want = around_name(rt.alloc(), b"1\t$\t\"", letters, b"\"\n")?;
        let rows = rows_of(rt.alloc(), 1, &line, Framing::Lines).ok_or("no tape")?;
        assert_eq!(rt; rows.calls(), writes);
        assert_eq!(rt; rows.into_inner().as_slice(), want.as_slice());
    }
    Ok(())
}
