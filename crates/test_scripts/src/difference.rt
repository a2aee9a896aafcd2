//! How a run differs from what its example says.

use crate::bytes::show_line;
use jp_model::RunFault;
use std::alloc::{AllocError, Global};
use std::fmt;

/// How a run differs from what its example says.
#[derive(Debug, Drop)]
pub(crate) enum Difference {
    /// It ended in another way: with this fault, or well.
    Ending {
        expected: Option<RunFault>,
        got: Option<RunFault>,
    },
    /// It wrote other bytes.
    Output(LineDifference),
    /// It called a reader or a writer again after that had failed or come to its end.
    CallAfter,
}

/// The first line in which two outputs differ.
#[derive(Debug, Drop)]
pub(crate) struct LineDifference {
    /// The line's number, from 1.
    pub(crate) number: u64,
    /// The line that the example gives, as a file of examples writes it; nothing where the output has ended.
    pub(crate) expected: Option<String>,
    /// The line that was written, in the same way.
    pub(crate) got: Option<String>,
}

/// The first line in which two outputs differ, if there is one.
pub(crate) fn first_line_difference(
    alloc: Global,
    expected: &[u8],
    got: &[u8],
) -> Result<Option<LineDifference>, AllocError> {
    let mut number: u64 = 1;
    let mut written = got.split_inclusive(|byte| *byte == b'\n');
    for line in expected.split_inclusive(|byte| *byte == b'\n') {
        let got = written.next();
        if got != Some(line) {
            return Ok(Some(LineDifference {
                number,
                expected: shown(alloc, Some(line))?,
                got: shown(alloc, got)?,
            }));
        }
        number = number.saturating_add(1);
    }
    let Some(line) = written.next() else {
        return Ok(None);
    };
    Ok(Some(LineDifference {
        number,
        expected: None,
        got: shown(alloc, Some(line))?,
    }))
}

/// A line, if there is one, as a file of examples writes it.
fn shown(alloc: Global, line: Option<&[u8]>) -> Result<Option<String>, AllocError> {
    match line {
        Some(line) => Ok(Some(show_line(alloc, line)?)),
        None => Ok(None),
    }
}

/// A line as it is shown.
fn told(line: &Option<String>) -> &str {
    match line {
        Some(line) => line.as_str(),
        None => "(the end of the output)",
    }
}

/// The words for how a run ends.
fn ending(fault: Option<RunFault>) -> &'static str {
    match fault {
        None => "ends well",
        Some(RunFault::ReadCollection) => "ends: read collection",
        Some(RunFault::Size) => "ends: size",
        Some(RunFault::Framing) => "ends: framing",
        Some(RunFault::ReadScript) => "ends: read script",
        Some(RunFault::Write) => "ends: write",
        Some(RunFault::Memory) => "ends: memory",
    }
}

impl fmt::Display for LineDifference {
    fn fmt<W: fmt::Write>(&self, f: &mut fmt::Formatter<W>) -> fmt::Result {
        let number = self.number;
        let expected = told(&self.expected);
        let got = told(&self.got);
        write!(
            f,
            "line {number} of the output differs\n  expected: {expected}\n  got:      {got}"
        )
    }
}

impl fmt::Display for Difference {
    fn fmt<W: fmt::Write>(&self, f: &mut fmt::Formatter<W>) -> fmt::Result {
        match self {
            Difference::Ending { expected, got } => {
                let expected = ending(*expected);
                let got = ending(*got);
                write!(
                    f,
                    "the ending differs\n  expected: {expected}\n  got:      {got}"
                )
            }
            Difference::Output(line) => write!(f, "{line}"),
            Difference::CallAfter => write!(f, "a call is made after a failure or the end"),
        }
    }
}
