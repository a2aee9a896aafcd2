//! The paths of indexes, and quoted texts.

use super::with_room;
use jp_devices::Watched;
use jp_query::parse;
use jp_rows::{QueryPart, push_steps, write_steps};
use jp_syntax::{SingularPath, singular};
use std::alloc::Global;
use std::test::Fail;

/// The path that a query spells, where it is singular.
fn path_of(alloc: Global, query: &[u8]) -> Option<SingularPath> {
    let Ok(query) = parse(alloc, query) else {
        return None;
    };
    singular(alloc, &query).ok()?
}

#[test]
fn steps_are_written(rt: HostRuntime) -> Result<(), Fail> {
    let paths: [(&[u8], &[u8]); 7] = [
        (b"$", b"$"),
        (b"$.a", b"$['a']"),
        (b"$['']", b"$['']"),
        (b"$[0][-1]", b"$[0][-1]"),
        (
            b"$[9007199254740991][-9007199254740991]",
            b"$[9007199254740991][-9007199254740991]",
        ),
        (
            b"$.a [ 10 ] [\"it's\"]['\\\\\\n\\u0007\\u001F\\u007f']",
            b"$['a'][10]['it\\'s']['\\\\\\n\\u0007\\u001f\x7f']",
        ),
        (
            b"$.\xC3\xA9['\\u20ac\\ud834\\udd1e']",
            b"$['\xC3\xA9']['\xE2\x82\xAC\xF0\x9D\x84\x9E']",
        ),
    ];
    for (query, want) in paths {
        let path = path_of(rt.alloc(), query).ok_or("not singular")?;
        let mut out = Watched::new(Vec::new(rt.alloc()));
        assert!(rt; write_steps(&path, &mut out).is_ok());
        assert_eq!(rt; out.into_inner().as_slice(), want);
        let mut text = Vec::from_slice(rt.alloc(), b"seek ")?;
        push_steps(&path, &mut text)?;
        assert!(rt; text.as_slice().starts_with(b"seek $"));
        assert_eq!(rt; &text[5..], want);
    }
    Ok(())
}

#[test]
fn no_write_of_a_path_follows_a_failed_one(rt: HostRuntime) -> Result<(), Fail> {
    let path = path_of(rt.alloc(), b"$.a[-1]['\\n']").ok_or("not singular")?;
    let text = b"$['a'][-1]['\\n']";
    for room in 0..=text.len() {
        let mut out = Watched::new(with_room(rt.alloc(), room, true));
        let result = write_steps(&path, &mut out);
        assert_eq!(rt; result.is_err(), room < text.len());
        assert_eq!(rt; out.after(), 0);
        let held = out.into_inner().held;
        assert!(rt; room <= text.len());
        assert_eq!(rt; held.as_slice(), &text[..room]);
    }
    Ok(())
}

#[test]
fn texts_are_quoted(rt: HostRuntime) -> Result<(), Fail> {
    let mut out = Vec::from_slice(rt.alloc(), b"== ")?;
    QueryPart::Quoted("it's \\ \u{8}\u{1f}\u{20ac}\"").push_to(&mut out)?;
    assert_eq!(rt;
        out.as_slice(),
        b"== 'it\\'s \\\\ \\b\\u001f\xE2\x82\xAC\"'".as_slice()
    );
    QueryPart::Quoted("").push_to(&mut out)?;
    assert!(rt; out.as_slice().ends_with(b"\"'''"));
    Ok(())
}

#[test]
fn steps_are_put_behind_a_text(rt: HostRuntime) -> Result<(), Fail> {
    let mut out = Vec::from_slice(rt.alloc(), b"walk ")?;
    QueryPart::Name("it's").push_to(&mut out)?;
    QueryPart::Index(-2).push_to(&mut out)?;
    QueryPart::Index(10).push_to(&mut out)?;
    assert_eq!(rt; out.as_slice(), b"walk ['it\\'s'][-2][10]".as_slice());
    Ok(())
}
