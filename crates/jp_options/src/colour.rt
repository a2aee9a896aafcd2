//! Whether what is printed has colours.

ghost use Rattle.std.specs.Prelude.{◌≡◌, Some, None, IfOk, IsErr, IsOk, is_some, true, false};
ghost use Rattle.jp_options.specs.Colour.{asked_colours, asked_marks, colour_by};

use crate::options::Options;
use jp_form::Spelling;

/// When what is printed has colours.
#[derive(Clone, Copy, Debug, PartialEq, Eq)]
pub enum Colour {
    /// `--color=never`, and where the option is not given.
    Never,
    /// `--color=auto`, and `--color` alone: where it is printed to a terminal.
    Auto,
    /// `--color=always`.
    Always,
}

impl Colour {
    /// What a value of `--color` says, if it says anything.
    pub(crate) fn read(value: &str) -> Option<Colour>
        ensures { result ≡ colour_by value.now }
    {
        if value == "always" {
            Some(Colour::Always)
        } else if value == "auto" {
            Some(Colour::Auto)
        } else if value == "never" {
            Some(Colour::Never)
        } else {
            None
        }
    }
}

impl<'a> Options<'a> {
    /// Whether what is printed has colours, by whether it is printed to a terminal.
    pub fn is_coloured(&self, terminal: bool) -> bool
        ensures { result ≡ asked_colours terminal self.now }
    {
        match self.colour {
            Colour::Never => false,
            Colour::Auto => terminal,
            Colour::Always => true,
        }
    }

    /// Whether nodes are coloured in selected lines: a query is given, the lines match, and they are printed as they stand.
    pub(crate) fn marks_nodes(&self, coloured: bool) -> bool
        ensures { result ≡ asked_marks coloured self.now }
    {
        coloured
            && self.gives_query()
            && !self.inverted
            && !self.survey
            && matches!(self.spelling(), Spelling::Source)
    }
}
