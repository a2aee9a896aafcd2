//! How far a search has come.

ghost use Rattle.std.specs.Prelude.{◌≡◌, ◌+◌, ◌==◌, ◌<◌, ◌^◌, None, Some, MatchResult, cond, false, ltb, true};
ghost use Rattle.jp_grep.specs.Faults.{is_inner_fault, limit_of};
ghost use Rattle.jp_grep.specs.Searching.{IsUnderWay};
ghost use Rattle.jp_grep.specs.Watching.{IsEnough, IsShort};

use crate::fault::SearchFault;
use crate::found::{Found, Limit, Unread};
use jp_form::Form;

/// What came of a line.
#[derive(Clone, Copy, Debug, PartialEq, Eq)]
pub(crate) struct Verdict {
    /// How many of its nodes were selected.
    pub(crate) selected: u64,
    pub(crate) refused: bool,
    /// Memory was refused for its answer.
    pub(crate) given_up: bool,
}

impl Verdict {
    /// That of a line that has a value, or is blank.
    pub(crate) fn of_value(selected: u64) -> Verdict
        ensures selected { result.selected ≡ selected }
        ensures refused { result.refused ≡ false }
        ensures given_up { result.given_up ≡ false }
    {
        Verdict {
            selected,
            refused: false,
            given_up: false,
        }
    }

    /// That of a refused line.
    pub(crate) fn of_refused(selected: bool) -> Verdict
        ensures selected { result.selected ≡ cond selected 1 0 }
        ensures refused { result.refused ≡ true }
        ensures given_up { result.given_up ≡ false }
    {
        Verdict {
            selected: u64::from(selected),
            refused: true,
            given_up: false,
        }
    }

    /// That of a line for whose answer memory was refused.
    pub(crate) fn of_given_up() -> Verdict
        ensures selected { result.selected ≡ 0 }
        ensures refused { result.refused ≡ false }
        ensures given_up { result.given_up ≡ true }
    {
        Verdict {
            selected: 0,
            refused: false,
            given_up: true,
        }
    }
}

/// How many lines of a stream were selected, or nodes of them where these are asked one by one, how many lines were refused, and
/// for the answer of how many memory was refused.
#[derive(Clone, Copy, Debug, PartialEq, Eq)]
pub struct Counts {
    pub selected: u64,
    pub refused: u64,
    pub given_up: u64,
}

/// How far a search has come.
#[derive(Clone, Copy)]
pub(crate) struct Progress {
    /// The number of the next line, from 1.
    pub(crate) number: u64,
    pub(crate) counts: Counts,
    /// How many lines were passed after the last one that is wanted.
    pub(crate) trailed: u64,
}

impl Progress {
    /// At the first line.
    pub(crate) fn new() -> Progress
        ensures number { result.number ≡ 1 }
        ensures selected { result.counts.selected ≡ 0 }
        ensures refused { result.counts.refused ≡ 0 }
        ensures given_up { result.counts.given_up ≡ 0 }
        ensures trailed { result.trailed ≡ 0 }
    {
        Progress {
            number: 1,
            counts: Counts {
                selected: 0,
                refused: 0,
                given_up: 0,
            },
            trailed: 0,
        }
    }

    /// Whether some more lines have numbers of 64 bits, and the line after them has one too.
    pub(crate) fn has_numbers(&self, count: usize) -> bool
        ensures { result ≡ ltb (self.now.number + count) (2 ^ 64) }
    {
        self.number.checked_add(count as u64).is_some()
    }

    /// Whether no more lines matter: as many nodes are selected as are wanted, and as many lines were passed after them as are to
    /// be.
    pub(crate) fn is_done(&self, form: Form<'_>) -> bool
        requires { IsUnderWay form self.now }
        ensures done { result ≡ true → IsEnough form.entry self.now.counts.selected self.now.trailed }
        ensures more { result ≡ false → IsShort form.entry self.now.counts.selected self.now.trailed }
        ensures fits { form.entry.most < 2 ^ 64 }
        ensures few { form.entry.trailing < 2 ^ 64 }
    {
        self.counts.selected == form.most && self.trailed == form.trailing
    }

    /// Goes on after a line with this outcome.
    pub(crate) fn pass(&mut self, form: Form<'_>, verdict: Verdict)
        requires number { self.old.number + 1 < 2 ^ 64 }
        requires selected { self.old.counts.selected + verdict.selected < 2 ^ 64 }
        requires trailed { self.old.counts.selected ≡ form.most → self.old.trailed + 1 < 2 ^ 64 }
        requires refused { self.old.counts.refused < self.old.number }
        requires given_up { self.old.counts.given_up < self.old.number }
        ensures number { self.new.number ≡ self.old.number + 1 }
        ensures selected { self.new.counts.selected ≡ self.old.counts.selected + verdict.selected }
        ensures refused { self.new.counts.refused ≡ self.old.counts.refused + cond verdict.refused 1 0 }
        ensures given_up { self.new.counts.given_up ≡ self.old.counts.given_up + cond verdict.given_up 1 0 }
        ensures trailed { self.new.trailed ≡ self.old.trailed + cond (self.old.counts.selected == form.entry.most) 1 0 }
    {
        if self.counts.selected == form.most {
            self.trailed += 1;
        }
        self.number += 1;
        self.counts.selected += verdict.selected;
        if verdict.refused {
            self.counts.refused += 1;
        }
        if verdict.given_up {
            self.counts.given_up += 1;
        }
    }

    /// What was found so far, where all lines were answered.
    pub(crate) fn found(&self) -> Found
        ensures counts { result.counts ≡ self.now.counts }
        ensures unread { result.unread ≡ None }
    {
        Found {
            counts: self.counts,
            unread: None,
        }
    }

    /// What was found so far, where a size or a growth is why the rest is passed over. Any other fault is answered.
    pub(crate) fn stop(&self, fault: SearchFault) -> Result<Found, SearchFault>
        ensures { MatchResult result
            (λ found. (is_inner_fault fault ≡ true) × (found.counts ≡ self.now.counts)
            × (found.unread ≡ Some (record { limit = limit_of fault; line = self.now.number })))
            (λ told. (told ≡ fault) × (is_inner_fault fault ≡ false)) }
    {
        let limit = match fault {
            SearchFault::Size => Limit::Size,
            SearchFault::Memory => Limit::Memory,
            other => return Err(other),
        };
        Ok(Found {
            counts: self.counts,
            unread: Some(Unread {
                limit,
                line: self.number,
            }),
        })
    }
}
