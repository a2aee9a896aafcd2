//! Where the collection and the script come from.

ghost use Rattle.std.specs.Prelude.{◌≡◌, IfOk, map, option_map};
ghost use Rattle.jp_cli.specs.Sources.{IsCollectionOf, IsScriptOf, comes_from_input};

use crate::Options;
use std::alloc::{AllocError, Global};

/// Where the collection comes from.
#[derive(Clone, Copy, Debug, PartialEq, Eq)]
pub enum CollectionSource<'a> {
    /// Standard input.
    StandardInput,
    /// The file of this name.
    File(&'a str),
}

/// Where the script comes from.
#[derive(Debug, Drop)]
pub enum ScriptSource<'a> {
    /// Standard input.
    StandardInput,
    /// The file of this name.
    File(&'a str),
    /// The program's arguments: this is the script, one command to a line.
    Commands(String),
}

impl<'a> Options<'a> {
    /// Where the collection comes from: standard input where its file is `-`, and else the file.
    pub fn collection_source(&self) -> CollectionSource<'a>
        ensures { IsCollectionOf self.now.file.now result }
    {
        if self.file == "-" {
            CollectionSource::StandardInput
        } else {
            CollectionSource::File(self.file)
        }
    }

    /// Whether the collection or the script comes from standard input.
    pub fn reads_standard_input(&self) -> bool
        ensures { result ≡ comes_from_input self.now.file.now (option_map (λ s. s.now) self.now.script)
            (map (λ s. s.now) self.now.commands.items) }
    {
        self.file == "-" || (self.script.is_none() && self.commands.is_empty())
    }

    /// Where the script comes from: the commands, each with a line feed after it, if there are any; else the file of
    /// commands, and where none is named standard input.
    ///
    /// # Errors
    ///
    /// Memory ran out while the commands were joined.
    pub fn script_source(&self, alloc: Global) -> Result<ScriptSource<'a>, AllocError>
        ensures { IfOk result (IsScriptOf (option_map (λ s. s.now) self.now.script)
            (map (λ s. s.now) self.now.commands.items)) }
    {
        if !self.commands.is_empty() {
            let mut script = self.commands.join(alloc, "\n")?;
            script.push('\n')?;
            return Ok(ScriptSource::Commands(script));
        }
        match self.script {
            Some(file) => Ok(ScriptSource::File(file)),
            None => Ok(ScriptSource::StandardInput),
        }
    }
}
