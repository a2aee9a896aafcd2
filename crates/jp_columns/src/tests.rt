//! What is found where names are equal, escaped or missing, and that it is found at all.

ghost use Rattle.std.specs.Prelude.{IfOk, IfSome};
ghost use Rattle.jp_nodes.specs.Tapes.{IsTapeOf};

use crate::ColumnNames;
use jp_masks::line_marks;
use jp_model::{Framing, is_blank};
use jp_nodes::{Cursor, Tape};
use jp_tape::build;
use std::alloc::{AllocError, Global};
use std::test::Fail;

/// The tape of a line, if it has one.
fn tape_of(alloc: Global, line: &[u8]) -> Result<Option<Tape>, AllocError>
    ensures { IfOk result (λ tape. IfSome tape (λ tape. IsTapeOf tape line.now)) }
{
    if is_blank(line) || line.len() > 0xffff_ffff {
        return Ok(None);
    }
    let is_utf8 = std::str::from_utf8(line).is_ok();
    let marks = line_marks(alloc, line)?;
    Ok(build(alloc, line, &marks, is_utf8, Framing::Lines).ok())
}

/// What is found of a line for each name: the source of the member, and `-` where there is none, each with a space after it.
fn found_in(alloc: Global, names: &[&str], line: &str) -> Result<String, AllocError> {
    let mut texts = Vec::new(alloc);
    for name in names {
        texts.push(String::from_str(alloc, name)?)?;
    }
    let columns = ColumnNames::new(alloc, texts)?;
    let mut text = String::new(alloc);
    let Some(tape) = tape_of(alloc, line.as_bytes())? else {
        return Ok(text);
    };
    let mut found = Vec::new(alloc);
    columns.find(Cursor::root(&tape, line.as_bytes()), &mut found)?;
    for member in &found {
        match member {
            Some(member) => text.push_str(&String::from_utf8_lossy(alloc, member.source())?)?,
            None => text.push('-')?,
        }
        text.push(' ')?;
    }
    Ok(text)
}

#[test]
fn each_column_has_its_member(rt: HostRuntime) -> Result<(), Fail> {
    let names = ["b", "a", "c", "a", "", "é", "aa"];
    let line =
        "{\"a\": 1, \"\\u0062\": [2], \"aa\": {\"c\": 3}, \"\": null, \"\\u00e9\": 5, \"d\": 6}";
    let text = found_in(rt.alloc(), &names, line)?;
    assert!(rt; text.as_str() == "[2] 1 - 1 null 5 {\"c\": 3} ");
    Ok(())
}
