//! Singular queries and their paths.

use jp_query::{Selector, SingularPath, Step, is_singular, parse, singular, singular_selector};
use std::alloc::Global;
use std::test::Fail;

/// Whether a text is a query and singular.
fn spells_singular(alloc: Global, text: &[u8]) -> bool {
    match parse(alloc, text) {
        Ok(query) => is_singular(query.segments()),
        Err(_) => false,
    }
}

/// The path of a text.
fn path_of(alloc: Global, text: &[u8]) -> Result<SingularPath, Fail> {
    let query = parse(alloc, text)?;
    let path = singular(alloc, &query)?.ok_or("the query is singular")?;
    Ok(path)
}

#[test]
fn names_and_indexes_are_singular(rt: HostRuntime) {
    let alloc = rt.alloc();
    assert!(rt; spells_singular(alloc, b"$"));
    assert!(rt; spells_singular(alloc, b"$.a[-1]"));
    assert!(rt; spells_singular(alloc, b"$['a'][0]"));
}

#[test]
fn other_segments_are_not_singular(rt: HostRuntime) {
    let alloc = rt.alloc();
    let texts: [&[u8]; 5] = [b"$.*", b"$[:1]", b"$['a',0]", b"$..a", b"$.a[?@]"];
    assert!(rt; texts.iter().all(|text| !spells_singular(alloc, text)));
}

#[test]
fn selectors_of_singular_segments_are_told(rt: HostRuntime) -> Result<(), Fail> {
    let alloc = rt.alloc();
    let query = parse(alloc, b"$.a[-1].*")?;
    let segments = query.segments();
    assert_eq!(rt; segments.len(), 3);
    assert!(rt; matches!(singular_selector(&segments[0]), Some(Selector::Name(_))));
    assert!(rt; matches!(singular_selector(&segments[1]), Some(Selector::Index(-1))));
    assert!(rt; singular_selector(&segments[2]).is_none());
    Ok(())
}

#[test]
fn paths_are_equal_by_their_steps(rt: HostRuntime) -> Result<(), Fail> {
    let alloc = rt.alloc();
    assert!(rt; path_of(alloc, b"$[0]")? == path_of(alloc, b"$[ 0 ]")?);
    assert!(rt; path_of(alloc, b"$.a")? == path_of(alloc, b"$['\\u0061']")?);
    assert!(rt; path_of(alloc, b"$[0]")? != path_of(alloc, b"$['0']")?);
    assert!(rt; path_of(alloc, b"$.a")? != path_of(alloc, b"$.a.a")?);
    Ok(())
}

#[test]
fn paths_of_many_steps_are_told(rt: HostRuntime) -> Result<(), Fail> {
    let alloc = rt.alloc();
    let path = path_of(alloc, b"$.a[0]['b'][-1].c[2].d")?;
    assert_eq!(rt; path.steps().len(), 7);
    assert!(rt; path.steps()[0] == Step::Name(String::from_str(alloc, "a")?));
    assert!(rt; path.steps()[3] == Step::Index(-1));
    assert!(rt; path.steps()[6] == Step::Name(String::from_str(alloc, "d")?));
    assert!(rt; path_of(alloc, b"$")?.steps().is_empty());
    let all = parse(alloc, b"$.a[*]")?;
    assert!(rt; singular(alloc, &all)?.is_none());
    Ok(())
}
