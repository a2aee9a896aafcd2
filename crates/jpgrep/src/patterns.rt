//! Patterns of a query that are not valid, and so match nothing: known before any line is read.

use jp_patterns::{invalid_patterns, invalid_patterns_of};
use jp_shown::shown;
use jp_syntax::{Logical, Segment};
use std::alloc::AllocError;

/// Warns of a pattern that is not valid.
fn warn_of(rt: &HostRuntime, pattern: &str) -> Result<(), AllocError> {
    let pattern = shown(rt.alloc(), pattern, usize::MAX)?;
    let _ = eprintln!(rt;
        "jpgrep: '{pattern}' is not a valid I-Regexp (RFC 9485), so it matches nothing"
    );
    Ok(())
}

/// Warns of literal patterns that are not valid I-Regexps (RFC 9485): they match nothing (RFC 9535, section 2.4.6).
#[derive(Drop)]
pub(crate) struct Warner<'r> {
    rt: &'r HostRuntime,
    /// Whether it has warned of one.
    pub(crate) has_warned: bool,
}

impl<'r> Warner<'r> {
    /// One that has warned of nothing.
    pub(crate) fn new(rt: &'r HostRuntime) -> Warner<'r> {
        Warner {
            rt,
            has_warned: false,
        }
    }

    /// Warns of patterns that are not valid.
    fn warn(&mut self, patterns: &[&str]) -> Result<(), AllocError> {
        for pattern in patterns {
            self.has_warned = true;
            warn_of(self.rt, pattern)?;
        }
        Ok(())
    }

    /// Warns of the patterns in segments.
    pub(crate) fn read_segments(&mut self, segments: &[Segment]) -> Result<(), AllocError> {
        let patterns = invalid_patterns(self.rt.alloc(), segments)?;
        self.warn(&patterns)
    }

    /// Warns of the patterns in an expression.
    pub(crate) fn read_condition(&mut self, condition: &Logical) -> Result<(), AllocError> {
        let patterns = invalid_patterns_of(self.rt.alloc(), condition)?;
        self.warn(&patterns)
    }
}
