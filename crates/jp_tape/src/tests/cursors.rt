//! What cursors tell of nodes, and the way through a tree.

use super::{Fail, read};
use crate::{Cursor, Kind};
use jp_decimal::Decimal;
use jp_model::{Framing, Span};
use std::alloc::{AllocError, Global};

/// An object, an array in it, and an empty object in that.
const LINE: [u8; 25] = *b"{\"a\":[1,\"x\",{}],\"b\":null}";

#[test]
fn a_root_is_described(rt: HostRuntime) -> Result<(), Fail> {
    let line = LINE;
    let tape = read(rt.alloc(), &line, Framing::Lines)?;
    let root = Cursor::root(&tape, &line);
    assert_eq!(rt; root.place(), 0);
    assert_eq!(rt; root.kind(), Kind::Object);
    assert_eq!(rt; root.span(), Span { start: 0, end: 25 });
    assert_eq!(rt; root.child_count(), 2);
    assert_eq!(rt; root.after(), 6);
    assert_eq!(rt; root.name_span(), None);
    assert!(rt; root.line() == line.as_slice() && root.source() == line.as_slice());
    assert!(rt; root.next_sibling().is_none());
    Ok(())
}

/// Of each child of a node, in order: its kind, its place, the place after it, and how many children it has.
fn described_children(
    alloc: Global,
    parent: Cursor<'_>,
) -> Result<Vec<(Kind, u32, u32, u32)>, AllocError> {
    let mut children = Vec::new(alloc);
    let mut next = parent.first_child();
    while let Some(child) = next {
        children.push((
            child.kind(),
            child.place(),
            child.after(),
            child.child_count(),
        ))?;
        next = child.next_sibling();
    }
    Ok(children)
}

#[test]
fn children_are_walked(rt: HostRuntime) -> Result<(), Fail> {
    let line = LINE;
    let tape = read(rt.alloc(), &line, Framing::Lines)?;
    let root = Cursor::root(&tape, &line);
    let children = described_children(rt.alloc(), root)?;
    assert_eq!(rt;
        children.as_slice(),
        [(Kind::Array, 1, 5, 3), (Kind::Null, 5, 6, 0)].as_slice()
    );
    Ok(())
}

/// The place of a node's parent, where it has one, and its index.
fn stands_at(node: Cursor<'_>) -> (Option<u32>, u32) {
    match node.parent() {
        Some(parent) => (Some(parent.place()), node.index()),
        None => (None, node.index()),
    }
}

#[test]
fn parents_are_known(rt: HostRuntime) -> Result<(), Fail> {
    let line = *b"[[],{\"a\":[1,2]},[[3],4]]";
    let tape = read(rt.alloc(), &line, Framing::Lines)?;
    let root = Cursor::root(&tape, &line);
    let wanted: [(Option<u32>, u32); 10] = [
        (None, 0),
        (Some(0), 0),
        (Some(0), 1),
        (Some(2), 0),
        (Some(3), 0),
        (Some(3), 1),
        (Some(0), 2),
        (Some(6), 0),
        (Some(7), 0),
        (Some(6), 1),
    ];
    assert_eq!(rt; root.after(), 10);
    for (place, parent) in wanted.iter().enumerate() {
        if (place as u32) < root.after() {
            assert_eq!(rt; stands_at(root.go_to(place as u32)), *parent);
        }
    }
    Ok(())
}

#[test]
fn a_place_is_found(rt: HostRuntime) -> Result<(), Fail> {
    let line = LINE;
    let tape = read(rt.alloc(), &line, Framing::Lines)?;
    assert!(rt; 5 < Cursor::root(&tape, &line).after());
    let text = Cursor::at(&tape, &line, 3);
    assert_eq!(rt; text.kind(), Kind::Text);
    assert_eq!(rt; text.span(), Span { start: 8, end: 11 });
    assert_eq!(rt; text.source(), b"\"x\"".as_slice());
    assert_eq!(rt; text.name_span(), None);
    assert!(rt; text.first_child().is_none());
    let empty = text.go_to(4);
    assert_eq!(rt; empty.kind(), Kind::Object);
    assert!(rt; empty.first_child().is_none() && empty.next_sibling().is_none());
    let member = empty.go_to(5);
    assert_eq!(rt; member.name_span(), Some(Span { start: 17, end: 18 }));
    assert_eq!(rt; member.index(), 1);
    assert_eq!(rt; member.source(), b"null".as_slice());
    assert_eq!(rt; member.top().place(), 0);
    Ok(())
}

#[test]
fn contents_are_read(rt: HostRuntime) -> Result<(), Fail> {
    let line = b"{\"\\u0061\":\"x\\n\",\"\":-25e-1}".as_slice();
    let tape = read(rt.alloc(), line, Framing::Lines)?;
    let root = Cursor::root(&tape, line);
    assert!(rt; root.name().is_none() && root.text().is_none() && root.number().is_none());
    assert!(rt; 2 < root.after());
    let text = root.go_to(1);
    assert_eq!(rt; text.name(), Some(b"\\u0061".as_slice()));
    assert_eq!(rt; text.text(), Some(b"x\\n".as_slice()));
    assert!(rt; text.number().is_none());
    let number = root.go_to(2);
    assert_eq!(rt; number.name(), Some(b"".as_slice()));
    assert!(rt; number.text().is_none());
    let same = Decimal::read(b"-2.5");
    assert!(rt;
        match (number.number(), same) {
            (Some(value), Ok(other)) => value.equal(&other),
            _ => false,
        }
    );
    Ok(())
}
