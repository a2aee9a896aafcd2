//! What the program's arguments ask for of columns, of a tally, and of paths.

ghost use Rattle.std.specs.Prelude.{◌≡◌, ◌||◌, ◌∷◌, [], List, map};
ghost use Rattle.std.specs.Option.{option_map_or};
ghost use Rattle.clap.specs.Words.{Row};
ghost use Rattle.jp_options.specs.Command.{IsAskedBy, counts_all, missing_conflicts, refuses_survey, refuses_tally, told_conflicts};
ghost use Rattle.jp_options.specs.Words.{asked_columns, asked_fold, asks_names, counted_table, has_columns, has_header, has_several, tally_rows};

use crate::messages::{NO_CONTEXT, NO_PATHS, NO_SURVEY, NO_TABLE, NO_TALLY};
use crate::options::Options;
use clap::error::ErrorKind;
use jp_form::{Shown, Table};

impl<'a> Options<'a> {
    /// Whether the names of the columns stand above the rows of a table.
    pub fn has_header(&self) -> bool
        ensures { result ≡ has_header self.now }
    {
        self.header || !self.names.is_empty()
    }

    /// The names of the columns: those of `--names`, or else the queries.
    pub fn columns(&self) -> &[&'a str]
        ensures { map (λ s. s.now) result.now ≡ asked_columns self.now }
    {
        if self.names.is_empty() {
            self.queries()
        } else {
            &self.names
        }
    }

    /// Whether there are several queries.
    fn has_several(&self) -> bool
        ensures { result ≡ has_several self.now }
    {
        self.queries.len() > 1
    }

    /// Whether each query is a column: those of a table, or several of a tally. Paths have other columns.
    pub fn has_columns(&self) -> bool
        ensures { result ≡ has_columns self.now }
    {
        if self.tally {
            self.has_several()
        } else {
            !self.survey && self.is_table()
        }
    }

    /// What of a line is tallied: the values of one query, or a row of the values of several.
    pub(crate) fn tallied(&self) -> Shown
        ensures { result ≡ tally_rows self.now }
    {
        if self.has_several() {
            Shown::Cells(Table::Canonical)
        } else {
            Shown::Values { paths: false }
        }
    }

    /// How the cells of a tally are shown, or those of paths.
    pub fn counted_table(&self) -> Table
        ensures { result ≡ counted_table self.now }
    {
        if self.commas {
            Table::Commas
        } else if self.tabs || self.raw {
            Table::Tabs
        } else {
            Table::Canonical
        }
    }

    /// Whether the name of a file stands in front of its rows.
    pub(crate) fn is_named(&self) -> bool
        ensures { result ≡ asks_names self.now }
    {
        !self.counts_all() && (self.named || (!self.unnamed && self.files().len() > 1))
    }

    /// How many names the nodes of an object's path may have before its paths are folded: as many as `--fold` says, or else 1,000.
    pub fn names_before_fold(&self) -> u64
        ensures { result ≡ asked_fold self.now }
    {
        self.fold.unwrap_or(1000)
    }

    /// Whether what came is counted, and told at the end.
    pub(crate) fn counts_all(&self) -> bool
        ensures all { result ≡ (self.now.tally || self.now.survey) }
        ensures asked { (found : List Row) → IsAskedBy found self.now → result ≡ counts_all found }
    {
        self.tally || self.survey
    }

    /// Why a word lacks another, if one does: the names of columns a table, a tally or paths, and `--fold` paths.
    pub(crate) fn missing_conflict(&self) -> Option<(ErrorKind, &'static str)>
        ensures { (found : List Row) → IsAskedBy found self.now
            → option_map_or (λ conflict. conflict.0 ∷ []) result [] ≡ missing_conflicts found }
    {
        if self.has_header() && !self.is_table() && !self.counts_all() {
            return Some((ErrorKind::MissingRequiredArgument, NO_TABLE));
        }
        if self.fold.is_some() && !self.survey {
            return Some((ErrorKind::MissingRequiredArgument, NO_PATHS));
        }
        None
    }

    /// Why something is printed that paths, a tally or lines around selected lines have none of, if it is.
    pub(crate) fn told_conflict(&self) -> Option<(ErrorKind, &'static str)>
        ensures { (found : List Row) → IsAskedBy found self.now
            → option_map_or (λ conflict. conflict.0 ∷ []) result [] ≡ told_conflicts found }
    {
        if self.survey && self.refuses_survey() {
            return Some((ErrorKind::ArgumentConflict, NO_SURVEY));
        }
        if self.tally && self.refuses_tally() {
            return Some((ErrorKind::ArgumentConflict, NO_TALLY));
        }
        if self.asks_context() && self.refuses_context() {
            return Some((ErrorKind::ArgumentConflict, NO_CONTEXT));
        }
        None
    }

    /// Whether something is asked for that paths have none of.
    pub(crate) fn refuses_survey(&self) -> bool
        ensures { (found : List Row) → IsAskedBy found self.now → result ≡ refuses_survey found }
    {
        !self.queries.is_empty()
            || self.tally
            || !self.names.is_empty()
            || self.raw
            || self.canonical
            || self.refuses_tally()
    }

    /// Whether something is asked for that a tally has none of.
    pub(crate) fn refuses_tally(&self) -> bool
        ensures { (found : List Row) → IsAskedBy found self.now → result ≡ refuses_tally found }
    {
        let values = self.only_matching || self.paths;
        let summaries = self.counted || self.with_matches || self.without_matches || self.quiet;
        let fronts = self.numbered || self.named || self.null;
        values || summaries || fronts || self.inverted || self.sequence || self.refused
    }
}
