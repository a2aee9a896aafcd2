//! The paths of all nodes of a line.

use crate::tapes::tape_of;
use jp_devices::Watched;
use jp_nodes::Cursor;
use jp_rows::{write_path, write_whole};
use std::alloc::{AllocError, Global};
use std::test::Fail;

/// The path of each node, depth first, with a line feed after it.
fn paths_of(alloc: Global, line: &[u8]) -> Option<Vec<u8>> {
    let tape = tape_of(alloc, line).ok()?;
    let root = Cursor::root(&tape, line);
    let mut out = Watched::new(Vec::new(alloc));
    for place in 0..root.after() {
        write_path(root.go_to(place), &mut out).ok()?;
        write_whole(b"\n", &mut out).ok()?;
    }
    Some(out.into_inner())
}

#[test]
fn paths_lead_to_their_nodes(rt: HostRuntime) -> Result<(), Fail> {
    let lines: [(&[u8], &[u8]); 6] = [
        (b"null", b"$\n"),
        (b" { } ", b"$\n"),
        (b"[[],7]", b"$\n$[0]\n$[1]\n"),
        (b"{\"a\":1,\"\":2}", b"$\n$['a']\n$['']\n"),
        (
            b"[{\"a\":[0,{\"b\":1}],\"c\":2},[[3]]]",
            b"$\n$[0]\n$[0]['a']\n$[0]['a'][0]\n$[0]['a'][1]\n$[0]['a'][1]['b']\n$[0]['c']\n$[1]\n$[1][0]\n$[1][0][0]\n",
        ),
        (
            b"{\"\\u0061'\":[null,{\"\\u00e9\":{}}]}",
            b"$\n$['a\\'']\n$['a\\''][0]\n$['a\\''][1]\n$['a\\''][1]['\xC3\xA9']\n",
        ),
    ];
    for (line, want) in lines {
        let paths = paths_of(rt.alloc(), line).ok_or("no tape")?;
        assert_eq!(rt; paths.as_slice(), want);
    }
    Ok(())
}

/// An array of that many zeros, which are at least 1.
fn zeros(alloc: Global, count: u32) -> Result<Vec<u8>, AllocError> {
    let mut line = Vec::new(alloc);
    line.extend_from_slice(b"[0")?;
    for _ in 1..count {
        line.extend_from_slice(b",0")?;
    }
    line.push(b']')?;
    Ok(line)
}

#[test]
fn paths_of_a_long_array_take_no_walk_over_it(rt: HostRuntime) -> Result<(), Fail> {
    let line = zeros(rt.alloc(), 20_000)?;
    let paths = paths_of(rt.alloc(), &line).ok_or("no tape")?;
    assert_eq!(rt; paths.len(), 168_892);
    assert!(rt; paths.as_slice().ends_with(b"\n$[19998]\n$[19999]\n"));
    Ok(())
}

#[test]
fn paths_are_as_deep_as_a_line_may_nest(rt: HostRuntime) -> Result<(), Fail> {
    let mut line = Vec::new(rt.alloc());
    let mut want = Vec::new(rt.alloc());
    for _ in 0..512 {
        line.push(b'[')?;
    }
    for _ in 0..512 {
        line.push(b']')?;
    }
    want.extend_from_slice(b"\n$")?;
    for _ in 0..511 {
        want.extend_from_slice(b"[0]")?;
    }
    want.push(b'\n')?;
    let paths = paths_of(rt.alloc(), &line).ok_or("no tape")?;
    assert!(rt; paths.as_slice().ends_with(&want));
    Ok(())
}
