//! The commands that change what is held: indexes and edits. A command that is refused changes nothing.

ghost use Rattle.std.specs.Prelude.{◌≡◌};
ghost use Rattle.jp_model.specs.Script.Commands.{index_line, drop_line, append_line, replace_line};
ghost use Rattle.jp_query.specs.Status.{query_of};
ghost use Rattle.jp_cli.specs.Replies.{TellsEditFault};
ghost use Rattle.jp_cli.specs.Runs.{RepliesTo, setup_of};

use crate::query::read_path;
use crate::reply::Reply;
use crate::session::Session;
use jp_store::{EditFault, IndexFault};
use std::alloc::AllocError;

/// What is said of a text that spells no singular path.
const NO_PATH: &[u8] = b"error: index path\n";

/// Reports why an edit is refused.
fn refuse_edit(fault: EditFault) -> Result<Reply, AllocError>
    ensures { TellsEditFault fault result }
{
    match fault {
        EditFault::NoLine => Ok(Reply::Fixed(b"error: line\n")),
        EditFault::Size => Ok(Reply::Fixed(b"error: size\n")),
        EditFault::Separator => Ok(Reply::Fixed(b"error: separator\n")),
        EditFault::Memory => Err(AllocError),
    }
}

impl Session {
    /// Makes an index of the path that a text spells, and says in how many lines the path has a node.
    pub(crate) fn make_index(&mut self, text: &[u8]) -> Result<Reply, AllocError>
        ensures replies { RepliesTo query_of (setup_of self.old) (index_line text.now)
            self.old.store.state self.new.store.state result }
        ensures setup { setup_of self.new ≡ setup_of self.old }
        ensures opened { self.new.opened ≡ self.old.opened }
    {
        let Some(path) = read_path(self.alloc, text)? else {
            return Ok(Reply::Fixed(NO_PATH));
        };
        match self.store.add_index(path) {
            Ok(count) => Ok(Reply::Numbered(b"indexed ", count as usize)),
            Err(IndexFault::Exists) => Ok(Reply::Fixed(b"error: index exists\n")),
            Err(IndexFault::Limit) => Ok(Reply::Fixed(b"error: index limit\n")),
            Err(IndexFault::Memory) => Err(AllocError),
        }
    }

    /// Takes the index away of the path that a text spells.
    pub(crate) fn take_index(&mut self, text: &[u8]) -> Result<Reply, AllocError>
        ensures replies { RepliesTo query_of (setup_of self.old) (drop_line text.now)
            self.old.store.state self.new.store.state result }
        ensures setup { setup_of self.new ≡ setup_of self.old }
        ensures opened { self.new.opened ≡ self.old.opened }
    {
        let Some(path) = read_path(self.alloc, text)? else {
            return Ok(Reply::Fixed(NO_PATH));
        };
        match self.store.drop_index(&path) {
            Ok(()) => Ok(Reply::Fixed(b"dropped\n")),
            Err(_) => Ok(Reply::Fixed(b"error: index missing\n")),
        }
    }

    /// Adds a line after the others, and returns its number.
    pub(crate) fn append_line(&mut self, text: &[u8]) -> Result<Reply, AllocError>
        ensures replies { RepliesTo query_of (setup_of self.old) (append_line text.now)
            self.old.store.state self.new.store.state result }
        ensures setup { setup_of self.new ≡ setup_of self.old }
        ensures opened { self.new.opened ≡ self.old.opened }
    {
        match self.store.append(text) {
            Ok(number) => Ok(Reply::Numbered(b"appended ", number as usize)),
            Err(fault) => refuse_edit(fault),
        }
    }

    /// Puts a text in the place of the line of a number.
    pub(crate) fn replace_line(&mut self, number: u64, text: &[u8]) -> Result<Reply, AllocError>
        ensures replies { RepliesTo query_of (setup_of self.old) (replace_line number text.now)
            self.old.store.state self.new.store.state result }
        ensures setup { setup_of self.new ≡ setup_of self.old }
        ensures opened { self.new.opened ≡ self.old.opened }
    {
        if number > u64::from(self.store.line_count()) {
            return refuse_edit(EditFault::NoLine);
        }
        match self.store.replace(number as u32, text) {
            Ok(()) => Ok(Reply::Numbered(b"replaced ", number as usize)),
            Err(fault) => refuse_edit(fault),
        }
    }
}
