//! Stores: faults of a load that a reader brings, edits with bytes that no command line can hold, and lines that are viewed.

use super::devices::{Cutting, NEVER};
use jp_model::{Framing, LineFault, Watched};
use jp_store::{EditFault, LoadFault, Status, Store};
use std::alloc::Global;
use std::test::Fail;

/// The fault of a load, if there is one, of a reader that gives three bytes a read and fails at one call.
fn fault_of(
    alloc: Global,
    framing: Framing,
    most: u32,
    bytes: &[u8],
    fails_in: u64,
) -> Result<Option<LoadFault>, Fail> {
    let mut reader = Watched::new(Cutting::new(alloc, bytes, 3, fails_in)?);
    Ok(Store::load(alloc, framing, most, &mut reader).err())
}

#[test]
fn faults_of_loads_come_in_order(rt: HostRuntime) -> Result<(), Fail> {
    let bytes = b"x\x1E1\n".as_slice();
    // The third call is the one after all bytes.
    for (most, fails_in, fault) in [
        (4, NEVER, LoadFault::Framing),
        (4, 3, LoadFault::Read),
        (3, 3, LoadFault::Size),
    ] {
        let told = fault_of(rt.alloc(), Framing::Sequence, most, bytes, fails_in)?;
        assert_eq!(&rt; told, Some(fault));
    }
    Ok(())
}

/// The store of these bytes, in which at most `most` are allowed.
fn loaded(alloc: Global, framing: Framing, most: u32, bytes: &[u8]) -> Result<Store, Fail> {
    let mut reader = Watched::new(Cutting::new(alloc, bytes, 100, NEVER)?);
    match Store::load(alloc, framing, most, &mut reader) {
        Ok(store) => Ok(store),
        Err(_) => Err("the collection is not loaded".into()),
    }
}

/// The bytes of the root of a line, and how many children it has.
fn root_of(alloc: Global, store: &mut Store, n: u32) -> Result<(Vec<u8>, u32), Fail> {
    if n == 0 || store.line_count() < n {
        return Err("there is no such line".into());
    }
    if store.is_metered() {
        return Err("the meter was had".into());
    }
    let mut opened = store.meter();
    match store.view(n, &mut opened) {
        Some(line) => Ok((
            Vec::from_slice(alloc, line.root().source())?,
            line.root().child_count(),
        )),
        None => Err("the line has no tree".into()),
    }
}

#[test]
fn faults_of_edits_come_in_order(rt: HostRuntime) -> Result<(), Fail> {
    let alloc = rt.alloc();
    let mut store = loaded(alloc, Framing::Lines, 8, b"{\"a\":1}\n")?;
    assert_eq!(&rt; store.append(b"1\n"), Err(EditFault::Size));
    assert_eq!(&rt; store.replace(1, b"1\n"), Err(EditFault::Separator));
    assert_eq!(&rt; store.replace(2, b"1\n"), Err(EditFault::NoLine));
    assert_eq!(&rt;
        store.replace(0, b"too large for it"),
        Err(EditFault::NoLine)
    );
    let (source, _) = root_of(alloc, &mut store, 1)?;
    assert_eq!(&rt; source.as_slice(), b"{\"a\":1}".as_slice());
    assert_eq!(&rt; store.replace(1, b"{}"), Ok(()));
    assert_eq!(&rt; store.append(b"1"), Ok(2));
    assert_eq!(&rt; store.append(b"\n23"), Err(EditFault::Size));
    assert_eq!(&rt; store.append(b"\n"), Err(EditFault::Separator));
    assert_eq!(&rt; store.line_count(), 2);
    Ok(())
}

#[test]
fn a_text_of_a_sequence_may_hold_line_feeds(rt: HostRuntime) -> Result<(), Fail> {
    let alloc = rt.alloc();
    let mut store = loaded(alloc, Framing::Sequence, 1000, b"")?;
    assert_eq!(&rt; store.append(b"12"), Ok(1));
    assert_eq!(&rt; store.append(b"12 "), Ok(2));
    assert_eq!(&rt; store.append(b"\x1E"), Err(EditFault::Separator));
    assert_eq!(&rt; store.append(b"[1,\n2]"), Ok(3));
    assert_eq!(&rt; store.line_count(), 3);
    assert_eq!(&rt; store.line_status(1), Status::Refused(LineFault::Truncated));
    assert_eq!(&rt; store.line_status(2), Status::Tree);
    assert_eq!(&rt; store.refused_count(), 1);
    assert_eq!(&rt; store.refused_lines()?.as_slice(), [1].as_slice());
    let (source, children) = root_of(alloc, &mut store, 3)?;
    assert_eq!(&rt; source.as_slice(), b"[1,\n2]".as_slice());
    assert_eq!(&rt; children, 2);
    Ok(())
}

#[test]
fn a_line_with_a_tree_is_counted(rt: HostRuntime) -> Result<(), Fail> {
    let mut store = loaded(rt.alloc(), Framing::Lines, 1000, b"[1,22]\n\nx\n3")?;
    assert_eq!(&rt; store.line_count(), 4);
    if store.is_metered() {
        return Err("the meter was had".into());
    }
    let mut opened = store.meter();
    assert_eq!(&rt; opened.count(), 0);
    assert!(&rt; store.view(2, &mut opened).is_none());
    assert!(&rt; store.view(3, &mut opened).is_none());
    assert_eq!(&rt; opened.count(), 0);
    let Some(line) = store.view(1, &mut opened) else {
        return Err("the line has no tree".into());
    };
    assert_eq!(&rt; opened.count(), 1);
    assert_eq!(&rt; line.root().source(), b"[1,22]".as_slice());
    assert_eq!(&rt; line.root().child_count(), 2);
    assert!(&rt; store.view(4, &mut opened).is_some());
    assert!(&rt; store.view(4, &mut opened).is_some());
    assert_eq!(&rt; opened.count(), 3);
    assert!(&rt; store.is_metered());
    Ok(())
}
