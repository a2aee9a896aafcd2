//! What patterns match (RFC 9485), and which texts are not patterns.

use jp_iregexp::{Pattern, laws};
use std::alloc::{AllocError, Global};
use std::test::Fail;

/// Whether the whole text matches; `None` if the first text is not a pattern.
fn matches(alloc: Global, pattern: &str, text: &str) -> Result<Option<bool>, AllocError> {
    match Pattern::parse(alloc, pattern)? {
        None => Ok(None),
        Some(found) => Ok(Some(found.matches(alloc, text)?)),
    }
}

/// Whether some part of the text matches; `None` if the first text is not a pattern.
fn occurs(alloc: Global, pattern: &str, text: &str) -> Result<Option<bool>, AllocError> {
    match Pattern::parse(alloc, pattern)? {
        None => Ok(None),
        Some(found) => Ok(Some(found.occurs(alloc, text)?)),
    }
}

/// A text, repeated.
fn repeated(alloc: Global, text: &str, count: usize) -> Result<String, AllocError> {
    let mut all = String::new(alloc);
    for _ in 0..count {
        all.push_str(text)?;
    }
    Ok(all)
}

#[test]
fn counts_are_exact(rt: HostRuntime) -> Result<(), Fail> {
    for size in [0usize, 62, 63, 64, 65] {
        let text = repeated(rt.alloc(), "x", size)?;
        for (pattern, count) in [
            (".{0}", 0usize),
            (".{62}", 62),
            (".{63}", 63),
            (".{64}", 64),
            (".{65}", 65),
        ] {
            assert_eq!(rt;
                matches(rt.alloc(), pattern, text.as_str())?,
                Some(size == count)
            );
        }
        assert_eq!(rt;
            matches(rt.alloc(), ".{63,64}", text.as_str())?,
            Some(size == 63 || size == 64)
        );
        assert_eq!(rt;
            matches(rt.alloc(), ".{63,}", text.as_str())?,
            Some(size >= 63)
        );
    }
    let text = repeated(rt.alloc(), "x", 64)?;
    for (pattern, is_match) in [
        ("x{63}", false),
        ("x{64}", true),
        ("x{65}", false),
        ("(x{8}){8}", true),
        ("(x{8}){7}", false),
        ("(x{8}){9}", false),
        ("((x{2}){4}){8}", true),
    ] {
        assert_eq!(rt;
            matches(rt.alloc(), pattern, text.as_str())?,
            Some(is_match)
        );
    }
    assert_eq!(rt; matches(rt.alloc(), "x{0000000000001}", "x")?, Some(true));
    Ok(())
}

/// Texts that are not patterns, one per line.
const NO_PATTERNS: &str = r"[z-a]
\p{Lx}
\p{}
\p{lu}
\p{l}
\p{Cs}
\P{Cs}
[\p{Cs}]
\p{IsGreek}
\p{Lu
\p
\pL
\d
[\d]
\w
\b
\1
\u0041
\$
\
a**
a*?
a++
a{1}?
(?:a)
(?i)a
(?=a)
*
a{1}{2}
|+
(
)
(a
a)
()*)
a{2,1}
a{1000000000}
a{0,1000000000}
a{
a{}
a{,2}
a{1,2,3}
a{x}
a{-1}
a{1 }
a{1
a{1,
{
{1}
}
a}
]
[
[]
[]]
[[:alpha:]]
[a-z&&[^b]]
[^]]
[^
[a--b]
[a-b-c]
[\p{L}-z]
[--a]";

#[test]
fn other_texts_are_no_patterns(rt: HostRuntime) -> Result<(), Fail> {
    for pattern in NO_PATTERNS.lines() {
        assert_eq!(rt; matches(rt.alloc(), pattern, "")?, None);
    }
    for pattern in ["a{0999999999}", "a{000000000002,2}", "a{999999999}"] {
        assert_eq!(rt; matches(rt.alloc(), pattern, "")?, Some(false));
    }
    Ok(())
}

#[test]
fn parentheses_are_counted(rt: HostRuntime) -> Result<(), Fail> {
    let (open, close) = (
        repeated(rt.alloc(), "(", 256)?,
        repeated(rt.alloc(), ")", 256)?,
    );
    let mut deep = String::new(rt.alloc());
    deep.push_str(open.as_str())?;
    deep.push_str("a")?;
    deep.push_str(close.as_str())?;
    assert_eq!(rt; matches(rt.alloc(), deep.as_str(), "a")?, Some(true));
    assert_eq!(rt; occurs(rt.alloc(), deep.as_str(), "ba")?, Some(true));
    deep.push_str("[(]")?;
    assert_eq!(rt; matches(rt.alloc(), deep.as_str(), "a(")?, None);
    let escaped = repeated(rt.alloc(), "\\(", 256)?;
    let text = repeated(rt.alloc(), "(", 256)?;
    assert_eq!(rt;
        matches(rt.alloc(), escaped.as_str(), text.as_str())?,
        Some(true)
    );
    let escaped = repeated(rt.alloc(), "\\(", 257)?;
    assert_eq!(rt; matches(rt.alloc(), escaped.as_str(), "")?, None);
    let classes = repeated(rt.alloc(), "[(]", 256)?;
    assert_eq!(rt;
        matches(rt.alloc(), classes.as_str(), text.as_str())?,
        Some(true)
    );
    let classes = repeated(rt.alloc(), "[(]", 257)?;
    assert_eq!(rt; matches(rt.alloc(), classes.as_str(), "")?, None);
    Ok(())
}

#[test]
fn counts_do_not_multiply(rt: HostRuntime) -> Result<(), Fail> {
    let (open, close) = (
        repeated(rt.alloc(), "(", 40)?,
        repeated(rt.alloc(), "){0,9}", 40)?,
    );
    let mut nested = String::new(rt.alloc());
    nested.push_str(open.as_str())?;
    nested.push_str("a")?;
    nested.push_str(close.as_str())?;
    assert_eq!(rt; matches(rt.alloc(), nested.as_str(), "aaa")?, Some(true));
    assert_eq!(rt; matches(rt.alloc(), nested.as_str(), "aab")?, Some(false));
    assert_eq!(rt; occurs(rt.alloc(), nested.as_str(), "bbb")?, Some(true));
    Ok(())
}

#[test]
fn counts_with_other_branches_do_not_multiply(rt: HostRuntime) -> Result<(), Fail> {
    let (open, close) = (
        repeated(rt.alloc(), "(", 40)?,
        repeated(rt.alloc(), "|a){2}", 40)?,
    );
    let mut nested = String::new(rt.alloc());
    nested.push_str(open.as_str())?;
    nested.push_str("a")?;
    nested.push_str(close.as_str())?;
    let pattern = nested.as_str();
    let text = repeated(rt.alloc(), "a", 60)?;
    assert_eq!(rt; matches(rt.alloc(), pattern, text.as_str())?, Some(true));
    assert_eq!(rt; matches(rt.alloc(), pattern, "aa")?, Some(true));
    assert_eq!(rt; matches(rt.alloc(), pattern, "a")?, Some(false));
    assert_eq!(rt; occurs(rt.alloc(), pattern, "baab")?, Some(true));
    Ok(())
}

#[test]
fn runs_of_a_class_take_one_pass(rt: HostRuntime) -> Result<(), Fail> {
    let text = repeated(rt.alloc(), "x", 100_000)?;
    for (pattern, is_match, is_found) in [
        (".*", true, true),
        ("[^y]+", true, true),
        ("x.*x", true, true),
        ("x.*y", false, false),
        ("x*y*x*", true, true),
        ("x*y+", false, false),
        ("[a-w]*", false, true),
        (".{1,100000}", true, true),
        (".{0,99999}", false, true),
    ] {
        assert_eq!(rt;
            matches(rt.alloc(), pattern, text.as_str())?,
            Some(is_match)
        );
        assert_eq!(rt; occurs(rt.alloc(), pattern, text.as_str())?, Some(is_found));
    }
    Ok(())
}

/// Whether the pattern answers for the text as a pattern that has one choice more. The text does not hold that choice, and its
/// 64 states are more than one word takes, so it is matched position by position.
fn answers_as_by_positions(alloc: Global, pattern: &str, text: &str) -> Result<bool, AllocError> {
    let mut longer = String::from_str(alloc, pattern)?;
    longer.push_str("|\u{10FFFF}{64}")?;
    Ok(
        matches(alloc, pattern, text)? == matches(alloc, longer.as_str(), text)?
            && occurs(alloc, pattern, text)? == occurs(alloc, longer.as_str(), text)?,
    )
}

#[test]
fn states_answer_as_positions_do(rt: HostRuntime) -> Result<(), Fail> {
    for (size, end) in [
        (0usize, ""),
        (0, "b"),
        (62, ""),
        (62, "b"),
        (62, "aé"),
        (64, "\n"),
        (999, "é"),
    ] {
        let mut text = repeated(rt.alloc(), "a", size)?;
        text.push_str(end)?;
        for pattern in [
            "",
            "a|",
            "a*",
            "a*[b\n]?",
            "[^b]*",
            "(a|é)*",
            "(a?|b)*é?",
            "((a*)*b?)*",
            ".*a.{2}",
            "a?(\\p{Ll}|\n)+",
            ".{62,63}",
            ".{63}",
            ".{64}",
            "(aa|a?b){0,31}",
            "b|a+é",
        ] {
            assert!(rt; answers_as_by_positions(rt.alloc(), pattern, text.as_str())?);
        }
    }
    Ok(())
}

#[test]
fn exact_counts_of_a_class_take_one_pass(rt: HostRuntime) -> Result<(), Fail> {
    for size in [0usize, 1, 62, 63, 64, 65, 127, 128, 129, 1000] {
        let mut text = repeated(rt.alloc(), "a", size)?;
        for (pattern, count) in [
            ("a{64}", 64usize),
            ("a{65}", 65),
            ("a{128}", 128),
            (".{999}", 999),
            ("[^b]{1000}", 1000),
            (".{1001}", 1001),
        ] {
            assert_eq!(rt;
                matches(rt.alloc(), pattern, text.as_str())?,
                Some(size == count)
            );
            assert_eq!(rt;
                occurs(rt.alloc(), pattern, text.as_str())?,
                Some(size >= count)
            );
        }
        text.push_str("b")?;
        let behind = repeated(rt.alloc(), "a", size)?;
        text.push_str(behind.as_str())?;
        for (pattern, is_found) in [
            ("a{64}", size >= 64),
            ("a{64}b", size >= 64),
            ("ba{128}", size >= 128),
            ("a{129}", size >= 129),
            ("a{64}ba{64,}", size >= 64),
            ("a{0}b", true),
        ] {
            assert_eq!(rt; occurs(rt.alloc(), pattern, text.as_str())?, Some(is_found));
        }
    }
    Ok(())
}

/// A pattern of few states answers as one that is matched position by position.
#[test]
fn counts_under_stars_answer_as_small_patterns_do(rt: HostRuntime) -> Result<(), Fail> {
    for size in [0usize, 1, 64, 130] {
        for (front, end) in [("a", "b"), ("ab", ""), ("aab", "\n")] {
            let mut text = repeated(rt.alloc(), front, size)?;
            text.push_str(end)?;
            for pattern in [
                "(.|\n)*",
                "(a{2}|b)*",
                "(a{2}|b){0,64}",
                "(a|ab){0,31}",
                "(a{3}|b)+a?",
                "(a*b)*",
                "((a|b)*\n|b)*",
                "(aab?)*\n?",
                "(a{0,3}b){2,}",
                "(ab){5}",
                "((a|b){3}){4,}",
                "b*(a.{5})*",
            ] {
                assert!(rt; answers_as_by_positions(rt.alloc(), pattern, text.as_str())?);
            }
        }
    }
    Ok(())
}

#[test]
fn a_turn_starts_from_what_was_added(rt: HostRuntime) -> Result<(), Fail> {
    let all_a = repeated(rt.alloc(), "a", 640)?;
    let all_b = repeated(rt.alloc(), "b", 640)?;
    let mut both = repeated(rt.alloc(), "a", 640)?;
    both.push_str("b")?;
    for (pattern, of_a, of_b, of_both) in [
        ("(a{64}|b)*", true, true, true),
        ("(a{65}|b)*", false, true, false),
        ("(a{63}|b|a{65})*", true, true, true),
        ("(a{64}|b)*a", false, false, false),
        ("(.|\n)*|x{64}", true, true, true),
        ("(a|b|x{64}){640}", true, true, false),
        ("(a|b|x{64}){0,640}", true, true, false),
        ("(a|b|x{64}){641}", false, false, true),
        ("(aa|bb|x{64}){320}b?", true, true, true),
        ("(a{0,99}b|a{64})*", true, true, true),
        ("(a{64}){10}b{0,64}", true, false, true),
        ("(a{64}){11}|b{64}", false, false, false),
    ] {
        for (text, is_match) in [
            (all_a.as_str(), of_a),
            (all_b.as_str(), of_b),
            (both.as_str(), of_both),
        ] {
            assert_eq!(rt; matches(rt.alloc(), pattern, text)?, Some(is_match));
        }
    }
    Ok(())
}
