//! What surveys print.

use crate::Survey;
use jp_form::Table;
use jp_lines::{BatchRoom, LineState};
use jp_model::{Framing, Watched};
use jp_sink::Sink;
use std::test::Fail;

/// Tells a survey a node of a line: that of a number, depth first from the root.
fn tell(
    rt: &HostRuntime,
    survey: &mut Survey,
    number: u64,
    line: &[u8],
    place: u32,
) -> Result<(), Fail> {
    let mut room = BatchRoom::new(rt.alloc());
    if line.len() > 1000 || survey.has_failed() {
        return Ok(());
    }
    let batch = room.read(Framing::Lines, line)?;
    if batch.line_count() == 0 {
        return Ok(());
    }
    if let LineState::Tree(view) = batch.line(0).state {
        let root = view.root();
        if place < root.after() {
            survey.node(number, root.go_to(place))?;
        }
    }
    Ok(())
}

/// The text of a survey.
fn text_of(rt: &HostRuntime, survey: Survey) -> Result<Vec<u8>, Fail> {
    let mut out = Watched::new(Vec::new(rt.alloc()));
    survey.write_rows(Table::Canonical, false, &mut out)?;
    Ok(out.into_inner())
}

#[test]
fn shows_the_paths_of_nodes(rt: HostRuntime) -> Result<(), Fail> {
    let mut survey = Survey::new(rt.alloc(), 1000)?;
    tell(&rt, &mut survey, 1, b"{\"a\":[1,\"x\"],\"b\":null}", 0)?;
    tell(&rt, &mut survey, 2, b"{\"a\":[1,2]}", 0)?;
    let wanted =
        b"2\t2\t$\tobject\n2\t2\t$['a']\tarray\n2\t3\t$['a'][*]\tnumber\n1\t1\t$['a'][*]\tstring\n1\t1\t$['b']\tnull\n";
    assert_eq!(rt; text_of(&rt, survey)?.as_slice(), wanted.as_slice());
    Ok(())
}

#[test]
fn folds_objects_of_many_names(rt: HostRuntime) -> Result<(), Fail> {
    let mut survey = Survey::new(rt.alloc(), 1)?;
    tell(&rt, &mut survey, 1, b"{\"a\":1,\"b\":{\"c\":2}}", 0)?;
    let wanted =
        b"1\t1\t$\tobject\n-\t1\t$[**]\tnumber\n-\t1\t$[**]\tobject\n-\t1\t$[**]['c']\tnumber\n";
    assert_eq!(rt; text_of(&rt, survey)?.as_slice(), wanted.as_slice());
    Ok(())
}

#[test]
fn shows_the_paths_below_nodes(rt: HostRuntime) -> Result<(), Fail> {
    let line = b"{\"a\":[{\"x\":1},[],{\"x\":2}],\"'\\n\\u001f\\\"\xc3\xa9\":null}";
    let mut survey = Survey::new(rt.alloc(), 1000)?;
    tell(&rt, &mut survey, 1, line, 2)?;
    tell(&rt, &mut survey, 1, line, 5)?;
    tell(&rt, &mut survey, 1, line, 7)?;
    if survey.has_failed() {
        return Ok(());
    }
    survey.row(true, b"no node")?;
    survey.gap();
    tell(&rt, &mut survey, 1, b"{\"a\":[{}]}", 2)?;
    tell(&rt, &mut survey, 2, b"[[]]", 0)?;
    let wanted =
        b"1\t1\t$\tarray\n1\t1\t$[*]\tarray\n1\t1\t$['\\'\\n\\u001f\"\xc3\xa9']\tnull\n2\t3\t$['a'][*]\tobject\n1\t2\t$['a'][*]['x']\tnumber\n";
    assert_eq!(rt; text_of(&rt, survey)?.as_slice(), wanted.as_slice());
    Ok(())
}
