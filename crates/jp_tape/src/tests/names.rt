//! Equal names of objects with few and with many members.

use super::{Fail, has_tape, is_refused};
use jp_model::LineFault;
use std::alloc::{AllocError, Global};

/// An object of `count` names with `last` as the last one.
fn object(alloc: Global, count: usize, last: &str) -> Result<Vec<u8>, AllocError> {
    let mut line = Vec::from_slice(alloc, b"{")?;
    for number in 1..count {
        let member = format!(in alloc; "\"n{number}\":0,")?;
        line.extend_from_slice(member.as_bytes())?;
    }
    let member = format!(in alloc; "\"{last}\":0}}")?;
    line.extend_from_slice(member.as_bytes())?;
    Ok(line)
}

#[test]
fn equal_names_are_found_among_few_and_many(rt: HostRuntime) -> Result<(), Fail> {
    let alloc = rt.alloc();
    for count in [2usize, 3, 8, 9, 10, 20_000] {
        assert!(rt; has_tape(alloc, &object(alloc, count, "z")?));
        assert!(rt; has_tape(alloc, &object(alloc, count, "\\u006e")?));
        assert!(rt; is_refused(alloc, &object(alloc, count, "n1")?, LineFault::Duplicate));
        assert!(rt;
            is_refused(
                alloc,
                &object(alloc, count, "\\u006e1")?,
                LineFault::Duplicate
            )
        );
        assert!(rt;
            is_refused(
                alloc,
                &object(alloc, count, "n\\u0031")?,
                LineFault::Duplicate
            )
        );
    }
    // Two names that are alike at both ends and in length.
    let alike =
        b"{\"aaaaaaaa1bbbbbbbb\":0,\"a\":0,\"b\":0,\"c\":0,\"d\":0,\"e\":0,\"f\":0,\"g\":0,\"aaaaaaaa2bbbbbbbb\":0}";
    assert!(rt; has_tape(alloc, alike));
    Ok(())
}
