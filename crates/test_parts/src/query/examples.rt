//! The examples of RFC 9535, and the trees that they spell.

use jp_query::{
    Argument, Call, Comparable, CompareOp, Literal, Logical, Origin, Path, Segment, Selector, parse,
};
use std::alloc::{AllocError, Global};
use std::test::Fail;

/// Queries of the tables of RFC 9535, sections 1.5 and 2.3 to 2.5, each with its tree as `tree_of` shows it.
const EXAMPLES: [(&str, &str); 60] = [
    ("$", "$"),
    ("$.store.book[*].author", "$/|store|,/|book|,/*,/|author|,"),
    ("$..author", "$//|author|,"),
    ("$.store.*", "$/|store|,/*,"),
    ("$.store..price", "$/|store|,//|price|,"),
    ("$..book[2]", "$//|book|,/2,"),
    ("$..book[2].author", "$//|book|,/2,/|author|,"),
    ("$..book[2].publisher", "$//|book|,/2,/|publisher|,"),
    ("$..book[-1]", "$//|book|,/-1,"),
    ("$..book[0,1]", "$//|book|,/0,1,"),
    ("$..book[:2]", "$//|book|,/:2:,"),
    ("$..book[?@.isbn]", "$//|book|,/?@/|isbn|,,"),
    ("$..book[?@.price<10]", "$//|book|,/?@/|price|,<10,"),
    ("$..*", "$//*,"),
    ("$.o['j j']", "$/|o|,/|j j|,"),
    ("$.o['j j']['k.k']", "$/|o|,/|j j|,/|k.k|,"),
    ("$.o[\"j j\"][\"k.k\"]", "$/|o|,/|j j|,/|k.k|,"),
    ("$[\"'\"][\"@\"]", "$/|'|,/|@|,"),
    ("$[*]", "$/*,"),
    ("$.o[*, *]", "$/|o|,/*,*,"),
    ("$.a[*]", "$/|a|,/*,"),
    ("$[1:3]", "$/1:3:,"),
    ("$[5:]", "$/5::,"),
    ("$[1:5:2]", "$/1:5:2,"),
    ("$[5:1:-2]", "$/5:1:-2,"),
    ("$[::-1]", "$/::-1,"),
    ("$.a[?@.b == 'kilo']", "$/|a|,/?@/|b|,==|kilo|,"),
    ("$.a[?(@.b == 'kilo')]", "$/|a|,/?@/|b|,==|kilo|,"),
    ("$.a[?@>3.5]", "$/|a|,/?@>3.5,"),
    ("$.a[?@.b]", "$/|a|,/?@/|b|,,"),
    ("$[?@.*]", "$/?@/*,,"),
    ("$[?@[?@.b]]", "$/?@/?,,"),
    ("$.o[?@<3, ?@<3]", "$/|o|,/?@<3,?@<3,"),
    ("$.a[?@<2 || @.b == \"k\"]", "$/|a|,/?or(@<2,@/|b|,==|k|,),"),
    (
        "$.a[?match(@.b, \"[jk]\")]",
        "$/|a|,/?match(@/|b|,,|[jk]|,),",
    ),
    (
        "$.a[?search(@.b, \"[jk]\")]",
        "$/|a|,/?search(@/|b|,,|[jk]|,),",
    ),
    ("$.o[?@>1 && @<4]", "$/|o|,/?and(@>1,@<4,),"),
    ("$.o[?@.u || @.x]", "$/|o|,/?or(@/|u|,,@/|x|,,),"),
    ("$.a[?@.b == $.x]", "$/|a|,/?@/|b|,==$/|x|,,"),
    ("$.a[?@ == @]", "$/|a|,/?@==@,"),
    ("$[?length(@) < 3]", "$/?length(@,)<3,"),
    ("$[?count(@.*) == 1]", "$/?count(@/*,,)==1,"),
    (
        "$[?match(@.timezone, 'Europe/.*')]",
        "$/?match(@/|timezone|,,|Europe/.*|,),",
    ),
    (
        "$[?value(@..color) == \"red\"]",
        "$/?value(@//|color|,,)==|red|,",
    ),
    ("$[?length(@.authors) >= 5]", "$/?length(@/|authors|,,)>=5,"),
    (
        "$[?count(@.*.author) >= 5]",
        "$/?count(@/*,/|author|,,)>=5,",
    ),
    (
        "$[?match(@.date, \"1974-05-..\")]",
        "$/?match(@/|date|,,|1974-05-..|,),",
    ),
    (
        "$[?search(@.author, \"[BR]ob\")]",
        "$/?search(@/|author|,,|[BR]ob|,),",
    ),
    ("$[0, 3]", "$/0,3,"),
    ("$[0:2, 5]", "$/0:2:,5,"),
    ("$[0, 0]", "$/0,0,"),
    ("$..j", "$//|j|,"),
    ("$..[0]", "$//0,"),
    ("$..[*]", "$//*,"),
    ("$..o", "$//|o|,"),
    ("$.o..[*, *]", "$/|o|,//*,*,"),
    ("$.a..[0, 1]", "$/|a|,//0,1,"),
    ("$.a[?!@.b]", "$/|a|,/?not(@/|b|,),"),
    ("$[?@.b == null]", "$/?@/|b|,==null,"),
    ("$[?@.b==true]", "$/?@/|b|,==true,"),
];

/// A name or a text between bars.
fn push_barred(text: &str, out: &mut Vec<u8>) -> Result<(), AllocError> {
    out.push(b'|')?;
    out.extend_from_slice(text.as_bytes())?;
    out.push(b'|')?;
    Ok(())
}

/// A number that may be left out.
fn push_integer(alloc: Global, integer: Option<i64>, out: &mut Vec<u8>) -> Result<(), AllocError> {
    if let Some(integer) = integer {
        out.extend_from_slice(format!(in alloc; "{integer}")?.as_bytes())?;
    }
    Ok(())
}

/// A selector that is not a filter; of a filter its question mark alone.
fn push_selector(alloc: Global, selector: &Selector, out: &mut Vec<u8>) -> Result<(), AllocError> {
    match selector {
        Selector::Name(name) => push_barred(name.as_str(), out),
        Selector::Wildcard => Ok(out.push(b'*')?),
        Selector::Index(index) => push_integer(alloc, Some(*index), out),
        Selector::Slice { first, last, step } => {
            push_integer(alloc, *first, out)?;
            out.push(b':')?;
            push_integer(alloc, *last, out)?;
            out.push(b':')?;
            push_integer(alloc, *step, out)
        }
        Selector::Filter(_) => Ok(out.push(b'?')?),
    }
}

/// Selectors, a comma after each.
fn push_selectors(
    alloc: Global,
    selectors: &[Selector],
    out: &mut Vec<u8>,
) -> Result<(), AllocError> {
    for selector in selectors {
        push_selector(alloc, selector, out)?;
        out.push(b',')?;
    }
    Ok(())
}

/// A query within a filter: one bar before a segment to children, two before one to descendants.
fn push_path(alloc: Global, path: &Path, out: &mut Vec<u8>) -> Result<(), AllocError> {
    out.push(match path.origin {
        Origin::Root => b'$',
        Origin::Current => b'@',
    })?;
    for segment in &path.segments {
        match segment {
            Segment::Child(selectors) => {
                out.push(b'/')?;
                push_selectors(alloc, selectors.as_slice(), out)?;
            }
            Segment::Descendant(selectors) => {
                out.extend_from_slice(b"//")?;
                push_selectors(alloc, selectors.as_slice(), out)?;
            }
        }
    }
    Ok(())
}

/// A literal: a text between bars, and any other as a query spells it.
fn push_literal(literal: &Literal, out: &mut Vec<u8>) -> Result<(), AllocError> {
    match literal {
        Literal::Null => Ok(out.extend_from_slice(b"null")?),
        Literal::False => Ok(out.extend_from_slice(b"false")?),
        Literal::True => Ok(out.extend_from_slice(b"true")?),
        Literal::Number(bytes) => Ok(out.extend_from_slice(bytes.as_slice())?),
        Literal::Text(text) => push_barred(text.as_str(), out),
    }
}

/// A call whose arguments are literals and queries, a comma after each.
fn push_call(alloc: Global, call: &Call, out: &mut Vec<u8>) -> Result<(), AllocError> {
    out.extend_from_slice(call.name.as_bytes())?;
    out.push(b'(')?;
    for argument in &call.arguments {
        match argument {
            Argument::Constant(literal) => push_literal(literal, out)?,
            Argument::Nodes(path) => push_path(alloc, path, out)?,
            Argument::Condition(_) | Argument::Result(_) => out.push(b'?')?,
        }
        out.push(b',')?;
    }
    out.push(b')')?;
    Ok(())
}

/// A side of a comparison: a literal, a singular query or a call.
fn push_side(alloc: Global, side: &Comparable, out: &mut Vec<u8>) -> Result<(), AllocError> {
    match side {
        Comparable::Constant(literal) => push_literal(literal, out),
        Comparable::Single(path) => push_path(alloc, path, out),
        Comparable::Result(call) => push_call(alloc, call, out),
    }
}

/// A comparison operator as a query spells it.
fn operator(op: CompareOp) -> &'static str {
    match op {
        CompareOp::Equal => "==",
        CompareOp::NotEqual => "!=",
        CompareOp::Less => "<",
        CompareOp::LessEqual => "<=",
        CompareOp::Greater => ">",
        CompareOp::GreaterEqual => ">=",
    }
}

/// An expression without parts.
fn push_simple(alloc: Global, expression: &Logical, out: &mut Vec<u8>) -> Result<(), AllocError> {
    match expression {
        Logical::Compare { left, op, right } => {
            push_side(alloc, left, out)?;
            out.extend_from_slice(operator(*op).as_bytes())?;
            push_side(alloc, right, out)
        }
        Logical::Exists(path) => push_path(alloc, path, out),
        Logical::Test(call) => push_call(alloc, call, out),
        Logical::Or(_) | Logical::And(_) | Logical::Not(_) => Ok(out.push(b'?')?),
    }
}

/// Expressions without parts, a comma after each.
fn push_parts(alloc: Global, parts: &[Logical], out: &mut Vec<u8>) -> Result<(), AllocError> {
    for part in parts {
        push_simple(alloc, part, out)?;
        out.push(b',')?;
    }
    Ok(())
}

/// An expression whose parts have no parts.
fn push_expression(
    alloc: Global,
    expression: &Logical,
    out: &mut Vec<u8>,
) -> Result<(), AllocError> {
    match expression {
        Logical::Or(parts) => {
            out.extend_from_slice(b"or(")?;
            push_parts(alloc, parts.as_slice(), out)?;
            out.push(b')')?;
        }
        Logical::And(parts) => {
            out.extend_from_slice(b"and(")?;
            push_parts(alloc, parts.as_slice(), out)?;
            out.push(b')')?;
        }
        Logical::Not(inner) => {
            out.extend_from_slice(b"not(")?;
            push_simple(alloc, inner, out)?;
            out.push(b')')?;
        }
        Logical::Compare { .. } | Logical::Exists(_) | Logical::Test(_) => {
            push_simple(alloc, expression, out)?;
        }
    }
    Ok(())
}

/// Selectors of the query itself, whose filters are shown with their expressions.
fn push_all(alloc: Global, selectors: &[Selector], out: &mut Vec<u8>) -> Result<(), AllocError> {
    for selector in selectors {
        push_selector(alloc, selector, out)?;
        if let Selector::Filter(expression) = selector {
            push_expression(alloc, expression, out)?;
        }
        out.push(b',')?;
    }
    Ok(())
}

/// The tree that a text spells: one bar before a segment to children, two before one to descendants, a comma after each
/// selector, names and texts between bars, and a question mark before the expression of a filter.
fn tree_of(alloc: Global, text: &str) -> Result<Vec<u8>, Fail> {
    let Ok(query) = parse(alloc, text.as_bytes()) else {
        return Err("refused".into());
    };
    let mut out = Vec::from_slice(alloc, b"$")?;
    for segment in query.segments() {
        match segment {
            Segment::Child(selectors) => {
                out.push(b'/')?;
                push_all(alloc, selectors.as_slice(), &mut out)?;
            }
            Segment::Descendant(selectors) => {
                out.extend_from_slice(b"//")?;
                push_all(alloc, selectors.as_slice(), &mut out)?;
            }
        }
    }
    Ok(out)
}

#[test]
fn examples_of_the_rfc_are_read(rt: HostRuntime) -> Result<(), Fail> {
    for (text, tree) in EXAMPLES {
        let read = tree_of(rt.alloc(), text)?;
        assert_eq!(rt; read.as_slice(), tree.as_bytes(), "of {text}");
    }
    Ok(())
}
