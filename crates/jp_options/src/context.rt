//! What the program's arguments ask for of the lines around selected lines.

ghost use Rattle.std.specs.Prelude.{◌≡◌, List};
ghost use Rattle.clap.specs.Words.{Row};
ghost use Rattle.jp_options.specs.Command.{IsAskedBy, asks_context as asks_lines, refuses_context};
ghost use Rattle.jp_options.specs.Words.{asked_after, asked_before, asked_trailing, asks_context, shows_context};

use crate::options::Options;

impl<'a> Options<'a> {
    /// How many lines before a selected line are shown: as many as `-B` says, or else as `-C` says, or else none.
    pub fn lines_before(&self) -> u64
        ensures { result ≡ asked_before self.now }
    {
        self.before.unwrap_or(self.around.unwrap_or(0))
    }

    /// How many lines after a selected line are shown: as many as `-A` says, or else as `-C` says, or else none.
    pub fn lines_after(&self) -> u64
        ensures { result ≡ asked_after self.now }
    {
        self.after.unwrap_or(self.around.unwrap_or(0))
    }

    /// Whether lines around selected lines are asked for, be it none of them: then a row `--` parts those that do not touch.
    pub(crate) fn asks_context(&self) -> bool
        ensures all { result ≡ asks_context self.now }
        ensures asked { (found : List Row) → IsAskedBy found self.now → result ≡ asks_lines found }
    {
        self.after.is_some() || self.before.is_some() || self.around.is_some()
    }

    /// Whether lines around selected lines are shown: they are asked for, and nothing is printed in place of lines.
    pub fn shows_context(&self) -> bool
        ensures { result ≡ shows_context self.now }
    {
        self.asks_context() && !self.first_decides() && !self.counted
    }

    /// How many lines are shown after the last selected line that is wanted.
    pub(crate) fn lines_trailing(&self) -> u64
        ensures { result ≡ asked_trailing self.now }
    {
        if self.shows_context() {
            self.lines_after()
        } else {
            0
        }
    }

    /// Whether something is printed that has no lines around it: values, a table, nodes, or what is told at the end.
    pub(crate) fn refuses_context(&self) -> bool
        ensures { (found : List Row) → IsAskedBy found self.now → result ≡ refuses_context found }
    {
        self.only_matching || self.paths || self.is_table() || self.asks_each() || self.counts_all()
    }
}
