//! What queries select in small lines.

use super::tapes::tape_of;
use jp_eval::{eval_from, truth};
use jp_query::{Logical, parse};
use jp_tape::Cursor;
use jp_types::check;
use std::test::Fail;

#[test]
fn segments_select_their_nodes(rt: HostRuntime) -> Result<(), Fail> {
    let tape = tape_of(rt.alloc(), b"[\"a\",\"b\"]")?;
    let root = Cursor::root(&tape, b"[\"a\",\"b\"]");
    let Ok(query) = parse(rt.alloc(), b"$[?match(@,'a')]") else {
        return Err("no query".into());
    };
    let Ok(query) = check(query) else {
        return Err("not well-typed".into());
    };
    let mut found = Vec::new(rt.alloc());
    eval_from(rt.alloc(), query.segments(), root, root, &mut found)?;
    assert!(&rt; found.len() == 1);
    Ok(())
}

#[test]
fn no_part_makes_and_true_and_or_false(rt: HostRuntime) -> Result<(), Fail> {
    let tape = tape_of(rt.alloc(), b"1")?;
    let root = Cursor::root(&tape, b"1");
    let all = Logical::And(Vec::new(rt.alloc()));
    assert!(&rt; truth(rt.alloc(), &all, root, root)?);
    let some = Logical::Or(Vec::new(rt.alloc()));
    assert!(&rt; !truth(rt.alloc(), &some, root, root)?);
    Ok(())
}
