//! What asks nothing of the current node, so that it is answered once in a line.

ghost use Rattle.std.specs.Prelude.{◌≡◌, true, false};
ghost use Rattle.jp_syntax.specs.View.{argument_view, call_view, comparable_view, logical_view, logicals_view, origin_view, path_view};
ghost use Rattle.jp_eval.specs.Roots.{argument_asks_root, asks_from, call_asks_root, is_root, logical_asks_root, logicals_ask_root, path_asks_root, side_asks_root};
ghost use Rattle.jp_model.specs.Query.Syntax.{current};

use jp_syntax::{Argument, Call, Comparable, Logical, Origin, Path};

/// Whether a query within a filter begins at the root (RFC 9535, section 2.3.5.1).
pub(crate) fn path_asks_root(path: &Path) -> bool
    ensures { result ≡ path_asks_root (path_view path.now) }
{
    match path.origin {
        Origin::Root => true,
        Origin::Current => false,
    }
}

/// Whether each argument of a call asks the root alone, or nothing.
#[cycle(roots)]
pub(crate) fn call_asks_root(call: &Call) -> bool
    ensures { result ≡ call_asks_root (call_view call.now) }
{
    for argument in &call.arguments {
        if !argument_asks_root(argument) {
            return false;
        }
    }
    true
}

/// Whether an argument asks the root alone, or nothing. No function of RFC 9535 is given an expression.
#[cycle(roots)]
fn argument_asks_root(argument: &Argument) -> bool
    ensures { result ≡ argument_asks_root (argument_view argument.now) }
{
    match argument {
        Argument::Constant(_) => true,
        Argument::Nodes(path) => path_asks_root(path),
        Argument::Condition(_) => false,
        Argument::Result(call) => call_asks_root(call),
    }
}

/// Whether a side of a comparison asks the root alone, or nothing.
fn side_asks_root(side: &Comparable) -> bool
    ensures { result ≡ side_asks_root (comparable_view side.now) }
{
    match side {
        Comparable::Constant(_) => true,
        Comparable::Single(path) => path_asks_root(path),
        Comparable::Result(call) => call_asks_root(call),
    }
}

/// Whether an expression asks the root alone, or nothing.
#[cycle(logical)]
pub(crate) fn logical_asks_root(expression: &Logical) -> bool
    ensures { result ≡ logical_asks_root (logical_view expression.now) }
{
    match expression {
        Logical::Or(parts) => all_ask_root(parts),
        Logical::And(parts) => all_ask_root(parts),
        Logical::Not(inner) => logical_asks_root(inner),
        Logical::Compare { left, op: _, right } => side_asks_root(left) && side_asks_root(right),
        Logical::Exists(path) => path_asks_root(path),
        Logical::Test(call) => call_asks_root(call),
    }
}

/// Whether each of some expressions asks the root alone, or nothing.
#[cycle(logical)]
fn all_ask_root(parts: &[Logical]) -> bool
    ensures { result ≡ logicals_ask_root (logicals_view parts.now) }
{
    for part in parts {
        if !logical_asks_root(part) {
            return false;
        }
    }
    true
}

/// Whether what asks the root alone becomes a slot: where it is met in a filter, and not where a slot is compiled already.
pub(crate) fn becomes_slot(from: Origin, asks_root: bool) -> bool
    requires { asks_from (origin_view from) asks_root ≡ true }
    ensures yes { result ≡ true → origin_view from ≡ current }
    ensures asks { result ≡ true → asks_root ≡ true }
    ensures no { result ≡ false → asks_root ≡ is_root (origin_view from) }
{
    match from {
        Origin::Current => asks_root,
        Origin::Root => false,
    }
}
