//! Examples of the form of the files, and of what is refused in them.

use crate::difference::first_line_difference;
use crate::malformed::{Malformed, Reason};
use crate::parsing::parse;
use jp_model::{Framing, RunFault};
use std::test::Fail;

/// Two examples in which no line is malformed. The second is a name alone.
const WELL_FORMED: &str = "# A comment.

== a name, and its lines
most: 8
| [1,
|
> query $«no line feed»
| «FF ef»«bb» x
script most: 4294967295
< a\tb
ends: read script
< «c3»«A9»«no line feed»
framing: sequence
== another
";

#[test]
fn examples_are_read(rt: HostRuntime) -> Result<(), Fail> {
    let parsed = parse(rt.alloc(), WELL_FORMED.as_bytes())?;
    assert!(rt; parsed.malformed.is_empty());
    let [first, second] = parsed.examples.as_slice() else {
        return Err("not two examples".into());
    };
    assert_eq!(rt; first.name.as_str(), "a name, and its lines");
    assert_eq!(rt; first.line, 3);
    assert_eq!(rt;
        first.collection.as_slice(),
        b"[1,\n\n\xFF\xEF\xBB x\n".as_slice()
    );
    assert_eq!(rt; first.script.as_slice(), b"query $".as_slice());
    assert_eq!(rt; first.output.as_slice(), b"a\tb\n\xC3\xA9".as_slice());
    assert_eq!(rt; first.framing, Some(Framing::Sequence));
    assert_eq!(rt; first.most, Some(8));
    assert_eq!(rt; first.script_most, Some(4_294_967_295));
    assert_eq!(rt; first.fault, Some(RunFault::ReadScript));
    assert_eq!(rt; second.line, 14);
    assert!(rt; second.collection.is_empty() && second.script.is_empty());
    assert!(rt; second.output.is_empty() && second.fault.is_none());
    Ok(())
}

/// Files whose line 3 alone is malformed, each with what is wrong there.
const MALFORMED: [(&[u8], Reason); 30] = [
    (b"# a\n\n| 1\n== a", Reason::BeforeFirst),
    (b"\n\nmost: 1\n== a", Reason::BeforeFirst),
    (b"== a\n| 1\n| \xFF", Reason::NotUtf8),
    (b"== a\n| 1\n== ", Reason::NoName),
    (b"== a\n| 1\n==\n| 1", Reason::NoName),
    (b"== a\n| 1\n==b", Reason::NoSpace),
    (b"== a\n| 1\n? 1", Reason::UnknownMark),
    (b"== a\n| 1\n ", Reason::UnknownMark),
    (b"== a\n| 1\nmost 1", Reason::UnknownMark),
    (b"== a\n| 1\n|1", Reason::NoSpace),
    (b"== a\n| 1\n>1", Reason::NoSpace),
    (b"== a\n| 1\n<1", Reason::NoSpace),
    (b"== a\n| 1\nleast: 1", Reason::UnknownKey),
    (b"== a\nmost: 1\nmost: 1", Reason::Repeated),
    (
        b"== a\nframing: sequence\nframing: sequence",
        Reason::Repeated,
    ),
    (b"== a\nscript most: 1\nscript most: 2", Reason::Repeated),
    (b"== a\nends: size\nends: framing", Reason::Repeated),
    (b"== a\n| 1\nmost: 4294967296", Reason::Number),
    (b"== a\n| 1\nmost: +1", Reason::Number),
    (b"== a\n| 1\nscript most: ", Reason::Number),
    (b"== a\n| 1\nframing: lines", Reason::UnknownFraming),
    (b"== a\n| 1\nends: write", Reason::UnknownEnding),
    (b"== a\n| 1\n> a\xC2\xABFF", Reason::Unclosed),
    (
        b"== a\n| 1\n> a\xC2\xABFF\xC2\xAB00\xC2\xBB",
        Reason::Unclosed,
    ),
    (b"== a\n| 1\n< \xC2\xAB\xC2\xBB", Reason::NotBytes),
    (b"== a\n| 1\n< \xC2\xABF\xC2\xBB", Reason::NotBytes),
    (b"== a\n| 1\n< \xC2\xAB+F\xC2\xBB", Reason::NotBytes),
    (b"== a\n| 1\n< \xC2\xABFF  00\xC2\xBB", Reason::NotBytes),
    (
        b"== a\n| 1\n| a\xC2\xABno line feed\xC2\xBB ",
        Reason::NotAtEnd,
    ),
    (
        b"== a\n| 1\n| \xC2\xABno line feed\xC2\xBB\xC2\xAB00\xC2\xBB",
        Reason::NotAtEnd,
    ),
];

#[test]
fn malformed_lines_are_told(rt: HostRuntime) -> Result<(), Fail> {
    for (text, reason) in MALFORMED {
        let parsed = parse(rt.alloc(), text)?;
        let expected = Malformed { line: 3, reason };
        let shown = text.escape_ascii();
        assert_eq!(rt;
            parsed.malformed.as_slice(),
            [expected].as_slice(),
            "{shown}"
        );
    }
    Ok(())
}

#[test]
fn an_example_with_a_malformed_line_is_marked(rt: HostRuntime) -> Result<(), Fail> {
    let parsed = parse(rt.alloc(), b"| 1\n== a\n== b\nmost: x\n> query $\n== c")?;
    let [a, b, c] = parsed.examples.as_slice() else {
        return Err("not three examples".into());
    };
    assert!(rt; !a.is_malformed && b.is_malformed && !c.is_malformed);
    Ok(())
}

/// Two outputs, and the line in which they differ: its number, and what it is in each.
type Differing = (
    &'static [u8],
    &'static [u8],
    (u64, Option<&'static str>, Option<&'static str>),
);

/// They differ in the bytes of a line, in its line feed, or by a line that one of them lacks.
const DIFFERENCES: [Differing; 6] = [
    (b"a\nb\nc\n", b"a\nx\ty\nc\n", (2, Some("b"), Some("x\ty"))),
    (b"a\n", b"a", (1, Some("a"), Some("a«no line feed»"))),
    (b"a\n", b"a\n\n", (2, None, Some(""))),
    (b"a\n\xFFb", b"a\n", (2, Some("«FF»b«no line feed»"), None)),
    (b"", b"\xC3\xA9\n", (1, None, Some("é"))),
    (b"\xC2\xAB\r\n", b"", (1, Some("«C2»«AB»«0D»"), None)),
];

#[test]
fn the_first_line_that_differs_is_told(rt: HostRuntime) -> Result<(), Fail> {
    for (expected, got, (number, wanted, written)) in DIFFERENCES {
        let found = first_line_difference(rt.alloc(), expected, got)?;
        let found = found.ok_or("no difference")?;
        assert_eq!(rt; found.number, number);
        assert_eq!(rt; found.expected.as_ref().map(|line| line.as_str()), wanted);
        assert_eq!(rt; found.got.as_ref().map(|line| line.as_str()), written);
    }
    let found = first_line_difference(rt.alloc(), b"a\n\nb", b"a\n\nb")?;
    assert!(rt; found.is_none());
    Ok(())
}
