//! Whether a query is well-typed (RFC 9535, section 2.4.3).

ghost use Rattle.std.specs.Prelude.{◌≡◌, ◌&&◌, map};
ghost use Rattle.jp_model.specs.Query.Typing.{segments_typed, selectors_typed, logical_typed, logicals_typed, comparable_typed, call_typed, call_serves, arguments_typed, argument_typed};
ghost use Rattle.jp_syntax.specs.View.{segments_view, selectors_view, logical_view, logicals_view, comparable_view, call_view, arguments_view, argument_view};
ghost use Rattle.jp_types.specs.Signatures.{all_fit, fits, kind_view};

use crate::signature::{Kind, Signature, signature_of};
use crate::walk::Walk;
use jp_syntax::{Argument, Call, Comparable, Logical, Segment, Selector, is_singular};

/// Whether an argument may stand for a parameter of this type, whatever the functions in it give (RFC 9535, section 2.4.3).
pub fn fits(argument: &Argument, parameter: Kind) -> bool
    ensures { result ≡ fits (argument_view argument.now) (kind_view parameter) }
{
    match argument {
        Argument::Constant(_) => parameter == Kind::Value,
        Argument::Nodes(path) => parameter != Kind::Value || is_singular(&path.segments),
        Argument::Condition(_) => parameter == Kind::Logical,
        Argument::Result(_) => true,
    }
}

/// Whether there are as many arguments as parameters, and each may stand for its own.
fn all_fit(arguments: &[Argument], parameters: &[Kind]) -> bool
    ensures { result ≡ all_fit (arguments_view arguments.now) (map kind_view parameters.now) }
{
    if arguments.len() != parameters.len() {
        return false;
    }
    for (index, argument) in arguments.iter().enumerate() {
        if !fits(argument, parameters[index]) {
            return false;
        }
    }
    true
}

impl Walk {
    /// Whether some segments are well-typed.
    #[cycle(typing)]
    pub fn segments_typed(&mut self, segments: &[Segment]) -> bool
        ensures { result ≡ segments_typed (segments_view segments.now) }
    {
        for segment in segments {
            let (Segment::Child(selectors) | Segment::Descendant(selectors)) = segment;
            if !self.selectors_typed(selectors) {
                return false;
            }
        }
        true
    }

    /// Whether the filters among the selectors are well-typed.
    #[cycle(typing)]
    fn selectors_typed(&mut self, selectors: &[Selector]) -> bool
        ensures { result ≡ selectors_typed (selectors_view selectors.now) }
    {
        for selector in selectors {
            let typed = match selector {
                Selector::Filter(condition) => self.logical_typed(condition),
                _ => true,
            };
            if !typed {
                return false;
            }
        }
        true
    }

    /// Whether a logical expression is well-typed: a function that is a test has to give LogicalType or NodesType.
    #[cycle(typing)]
    pub fn logical_typed(&mut self, condition: &Logical) -> bool
        ensures { result ≡ logical_typed (logical_view condition.now) }
    {
        match condition {
            Logical::Or(parts) | Logical::And(parts) => self.logicals_typed(parts),
            Logical::Not(inner) => self.logical_typed(inner),
            Logical::Compare { left, op: _, right } => {
                self.comparable_typed(left) && self.comparable_typed(right)
            }
            Logical::Exists(path) => self.segments_typed(&path.segments),
            Logical::Test(call) => self.call_typed(call, Kind::Logical),
        }
    }

    /// Whether the operands of `||` or `&&` are well-typed.
    #[cycle(typing)]
    fn logicals_typed(&mut self, parts: &[Logical]) -> bool
        ensures { result ≡ logicals_typed (logicals_view parts.now) }
    {
        for part in parts {
            if !self.logical_typed(part) {
                return false;
            }
        }
        true
    }

    /// Whether a side of a comparison is well-typed: a function there has to give ValueType.
    #[cycle(typing)]
    fn comparable_typed(&mut self, side: &Comparable) -> bool
        ensures { result ≡ comparable_typed (comparable_view side.now) }
    {
        match side {
            Comparable::Constant(_) => true,
            Comparable::Single(path) => self.segments_typed(&path.segments),
            Comparable::Result(call) => self.call_typed(call, Kind::Value),
        }
    }

    /// Whether a call is well-typed, and allowed where a type is wanted. One whose own arguments do not fit is found before
    /// those within its arguments.
    #[cycle(typing)]
    fn call_typed(&mut self, call: &Call, wanted: Kind) -> bool
        ensures { result ≡ (call_serves (kind_view wanted) (call_view call.now) && call_typed (call_view call.now)) }
    {
        let Some(Signature { parameters, answer }) = signature_of(&call.name) else {
            return false;
        };
        if !answer.serves(wanted) {
            return false;
        }
        if !all_fit(&call.arguments, parameters) {
            return false;
        }
        self.passed = self.passed.saturating_add(1);
        self.arguments_typed(&call.arguments, parameters)
    }

    /// Whether there are as many arguments as parameters, and each can stand for its own.
    #[cycle(typing)]
    fn arguments_typed(&mut self, arguments: &[Argument], parameters: &[Kind]) -> bool
        ensures { result ≡ arguments_typed (arguments_view arguments.now) (map kind_view parameters.now) }
    {
        if arguments.len() != parameters.len() {
            return false;
        }
        for (index, argument) in arguments.iter().enumerate() {
            if !self.argument_typed(argument, parameters[index]) {
                return false;
            }
        }
        true
    }

    /// Whether an argument is well-typed, and can stand for a parameter of this type.
    #[cycle(typing)]
    fn argument_typed(&mut self, argument: &Argument, parameter: Kind) -> bool
        ensures { result ≡ argument_typed (argument_view argument.now) (kind_view parameter) }
    {
        if !fits(argument, parameter) {
            return false;
        }
        match argument {
            Argument::Constant(_) => true,
            Argument::Nodes(path) => self.segments_typed(&path.segments),
            Argument::Condition(condition) => self.logical_typed(condition),
            Argument::Result(call) => self.call_typed(call, parameter),
        }
    }
}
