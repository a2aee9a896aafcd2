//! Texts and refusals as they are shown.

use crate::{shown, shown_refusal};

#[test]
fn texts_are_shown(rt: HostRuntime) {
    let alloc = rt.alloc();
    for (text, most, wanted) in [
        ("a.jsonl", 80, "a.jsonl"),
        ("é\u{1b}[31m\n", 80, "é\\u{1b}[31m\\n"),
        ("\u{7f}\u{9b}\u{a0}", 80, "\\u{7f}\\u{9b}\u{a0}"),
        ("abc", 2, "ab.."),
        ("ab", 2, "ab"),
    ] {
        assert!(rt; shown(alloc, text, most).is_ok_and(|shown| shown.as_str() == wanted));
    }
}

#[test]
fn refusals_are_shown(rt: HostRuntime) {
    let alloc = rt.alloc();
    let short = "error: unexpected argument '--x' found\n\n  tip: try '--y'\n\nUsage: t\n";
    assert!(rt; shown_refusal(alloc, short).is_ok_and(|shown| shown.as_str() == short));
    let other = "error: the argument '--x' cannot be used\n";
    assert!(rt; shown_refusal(alloc, other).is_ok_and(|shown| shown.as_str() == other));
    let broken =
        "error: unexpected argument '--\u{1b}' found\n\n  tip: to pass '--\u{1b}' as a value\n\nUsage: t\n";
    let wanted = "error: unexpected argument '--\\u{1b}' found\n\nUsage: t\n";
    assert!(rt; shown_refusal(alloc, broken).is_ok_and(|shown| shown.as_str() == wanted));
}
