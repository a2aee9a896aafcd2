//! Which function a well-typed call is of, and what it is given (RFC 9535, section 2.4).

ghost use Rattle.std.specs.Prelude.{◌≡◌, ◌&&◌, true};
ghost use Rattle.jp_model.specs.Query.Syntax.{argument, call as syntax_call, no_arguments};
ghost use Rattle.jp_model.specs.Query.Typing.{call_serves, call_typed, logical_kind, value_kind};
ghost use Rattle.jp_syntax.specs.View.{argument_view, call_view};
ghost use Rattle.jp_eval.specs.Calls.{called};
ghost use Rattle.jp_eval.specs.Questions.{passing_name};

use jp_syntax::{Argument, Call, Path};

/// A call whose answer is a value, by its function.
pub(crate) enum ValueCall<'c> {
    /// How long a value is (RFC 9535, section 2.4.4).
    Length(&'c Argument),
    /// How many nodes a query selects (RFC 9535, section 2.4.5).
    Count(&'c Path),
    /// The value of the only node that a query selects (RFC 9535, section 2.4.8).
    Value(&'c Path),
}

/// The function of a call that answers a value, and what it is given.
pub(crate) fn value_call(call: &Call) -> ValueCall<'_>
    requires { (call_serves value_kind (call_view call.now) && call_typed (call_view call.now)) ≡ true }
    ensures { called result ≡ call_view call.now }
{
    let argument = &call.arguments[0];
    if call.name.as_str() == "length" {
        return ValueCall::Length(argument);
    }
    let path = match argument {
        Argument::Nodes(path) => path,
        Argument::Constant(_) => unreachable!(),
        Argument::Condition(_) => unreachable!(),
        Argument::Result(_) => unreachable!(),
    };
    if call.name.as_str() == "count" {
        ValueCall::Count(path)
    } else {
        ValueCall::Value(path)
    }
}

/// Whether a call that answers a truth takes all of a text, or a part of it, and the text and the pattern that it is given.
pub(crate) fn pattern_call(call: &Call) -> (bool, &Argument, &Argument)
    requires { (call_serves logical_kind (call_view call.now) && call_typed (call_view call.now)) ≡ true }
    ensures { syntax_call (passing_name result.0) (argument (argument_view result.1.now) (argument (argument_view result.2.now) no_arguments)) ≡ call_view call.now }
{
    let whole = call.name.as_str() == "match";
    (whole, &call.arguments[0], &call.arguments[1])
}
