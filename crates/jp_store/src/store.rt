//! The lines of a collection and the indexes over them.

ghost use Rattle.std.specs.Prelude.{◌≡◌, ◌+◌, ◌<◌, ◌≤◌, ◌^◌, true, false, List, length, count_by, slice_get, Some, None, is_ok, IfOk, MatchOption, MatchResult};
ghost use Rattle.jp_devices.specs.Devices.{Came, GaveUpTo};
ghost use Rattle.jp_model.specs.Json.Status.{parsed};
ghost use Rattle.jp_model.specs.Lines.{is_framed};
ghost use Rattle.jp_model.specs.Plans.{is_tree};
ghost use Rattle.jp_model.specs.Script.Machine.{has_node, has_path, is_refused_status};
ghost use Rattle.jp_model.specs.Steps.{Step};
ghost use Rattle.jp_syntax.specs.SingularPaths.{path_steps};
ghost use Rattle.jp_store.specs.Collections.{statuses_in, line_text, line_status, loaded, with_lines, with_index, without_index, appended, replaced, metered};
ghost use Rattle.jp_model.specs.Numbered.{numbers_where};
ghost use Rattle.jp_store.specs.Loads.{LoadStopped, is_read_fault};
ghost use Rattle.jp_store.specs.Faults.{RefusesIndex, index_fault, RefusesEdit, append_fault, replace_fault};
ghost use Rattle.jp_lines.specs.Views.{status_kind, text_of_view, tree_of_view};
ghost use Rattle.jp_index.specs.Entries.{entries_of};
ghost use Rattle.jp_index.specs.Indexes.{IsIndexOf};
ghost use Rattle.jp_index.specs.Numbered.{IsFirstBehind};

use crate::collection::{CollectionFault, read_collection};
use crate::counts::Counts;
use crate::edits::{root_of_line, test_edit};
use crate::indexes::{build_index, edit_indexes, has_index, remove_index};
use crate::measuring::measure;
use crate::opened::Opened;
use crate::{EditFault, IndexFault, LoadFault, Missing, Status};
use jp_index::{ValueIndex, laws};
use jp_lines::{Line, LineView, is_framed_text, read_edited, read_lines, tape_of, text_of};
use jp_model::{Framing, Watched};
use jp_nodes::Cursor;
use jp_syntax::SingularPath;
use std::alloc::{AllocError, Global};
use std::io::Read;
use std::marker::Model;

/// A collection: its lines, each with its status and tape, and the indexes over them, in the order in which they were made.
#[derive(Drop)]
pub struct Store {
    framing: Framing,
    most: u32,
    bytes: Vec<u8>,
    lines: Vec<Line>,
    /// The tapes of the lines that were loaded.
    tapes: Vec<u64>,
    counts: Counts,
    indexes: Vec<ValueIndex>,
    is_metered: bool,
    alloc: Global,
}

impl Model for Store {
    ghost use Rattle.std.specs.Prelude.{map};
    ghost use Rattle.jp_store.specs.Collections.{Collection};

    ghost Value = { Collection };

    ghost use Rattle.jp_store.specs.Stored.{IsKept, path_of};
    ghost use Rattle.jp_lines.specs.Stored.{stored_text};

    ghost view = { λ s. record { framing = s.framing; most = s.most; state = record { lines = map (stored_text s.bytes.items) s.lines.items; paths = map path_of s.indexes.items }; is_metered = s.is_metered } };

    ghost invariant = { λ s. IsKept s.framing s.bytes.items s.tapes.items s.lines.items s.counts s.indexes.items };
}

impl Store {
    /// The lines of a collection, and no index. It reads to the end, and keeps what it read. No read follows one that answered
    /// 0, one that failed, or the byte past the limit.
    ///
    /// # Errors
    ///
    /// `Read` if a read failed, `Size` if byte number `most` + 1 came, whichever is first; `Framing` if bytes other
    /// than white space come before the first separator of a sequence; `Memory` if a growth was refused, of a collection
    /// that is within the limit and, where it came to its end, framed.
    pub fn load<R: Read>(
        alloc: Global,
        framing: Framing,
        most: u32,
        reader: &mut Watched<R>,
    ) -> Result<Store, LoadFault>
        requires { reader.old.failed ≡ false }
        ensures came { (came : Came) × GaveUpTo R.remaining reader.old reader.new came × MatchResult result
            (λ store. (came.ended ≡ true) × (length came.bytes ≤ most) × (is_framed framing came.bytes ≡ true) × (store ≡ loaded framing most came.bytes))
            (λ fault. LoadStopped fault framing most came) }
        ensures failed { MatchResult result (λ _. reader.new.failed ≡ false) (λ fault. reader.new.failed ≡ is_read_fault fault) }
        ensures calls { reader.new.calls ≤ reader.old.calls + (most + 1) }
        ensures after { reader.old.ended ≡ false → reader.new.after ≡ reader.old.after }
    {
        let bytes = match read_collection(alloc, most, reader) {
            Ok(bytes) => bytes,
            Err(CollectionFault::Read) => return Err(LoadFault::Read),
            Err(CollectionFault::Size) => return Err(LoadFault::Size),
            Err(CollectionFault::Memory) => return Err(LoadFault::Memory),
        };
        if !is_framed_text(framing, &bytes) {
            return Err(LoadFault::Framing);
        }
        let Ok((lines, tapes)) = read_lines(alloc, framing, &bytes) else {
            return Err(LoadFault::Memory);
        };
        let Ok(counts) = measure(alloc, &bytes, &lines) else {
            return Err(LoadFault::Memory);
        };
        Ok(Store {
            framing,
            most,
            bytes,
            lines,
            tapes,
            counts,
            indexes: Vec::new(alloc),
            is_metered: false,
            alloc,
        })
    }

    /// How the collection is cut into lines.
    pub fn framing(&self) -> Framing
        ensures { result ≡ self.now.framing }
    {
        self.framing
    }

    /// The number of lines.
    pub fn line_count(&self) -> u32
        ensures { result ≡ length self.now.state.lines }
    {
        self.lines.len() as u32
    }

    /// The number of lines that have a tree.
    pub fn tree_count(&self) -> u32
        ensures { result ≡ count_by is_tree (statuses_in self.now) }
    {
        self.counts.trees
    }

    /// The number of refused lines.
    pub fn refused_count(&self) -> usize
        ensures { result ≡ length (numbers_where is_refused_status 1 (statuses_in self.now)) }
    {
        self.counts.refused.count()
    }

    /// The numbers of the refused lines, from 1, ascending. Where there is one, a bit is looked at for each line.
    ///
    /// # Errors
    ///
    /// Memory ran out.
    pub fn refused_lines(&self) -> Result<Vec<u32>, AllocError>
        ensures { IfOk result (λ lines. lines.items ≡ numbers_where is_refused_status 1 (statuses_in self.now)) }
    {
        self.counts.refused.numbers(self.alloc)
    }

    /// The first refused line after line `n`. Lines count from 1. Between them a bit is looked at for each line.
    pub fn refused_behind(&self, n: u32) -> Option<u32>
        ensures { IsFirstBehind n (numbers_where is_refused_status 1 (statuses_in self.now)) result }
    {
        self.counts.refused.first_behind(n)
    }

    /// What line `n` is. Lines count from 1.
    pub fn line_status(&self, n: u32) -> Status
        requires first { 1 ≤ n }
        requires last { n ≤ length self.now.state.lines }
        ensures { result ≡ status_kind (line_status n self.now) }
    {
        self.lines[n as usize - 1].status()
    }

    /// The bytes of line `n`, without what separates lines. Lines count from 1.
    pub fn text(&self, n: u32) -> &[u8]
        requires first { 1 ≤ n }
        requires last { n ≤ length self.now.state.lines }
        ensures { result.now ≡ line_text n self.now }
    {
        text_of(&self.bytes, &self.lines[n as usize - 1])
    }

    /// Whether its meter was had.
    pub fn is_metered(&self) -> bool
        ensures { result ≡ self.now.is_metered }
    {
        self.is_metered
    }

    /// A count of opened lines, at 0. It can be had once, so each line that is opened later is counted in it, from 0 or from
    /// where it was restarted.
    pub fn meter(&mut self) -> Opened
        requires { self.old.is_metered ≡ false }
        ensures count { result ≡ 0 }
        ensures had { self.new ≡ metered self.old }
    {
        self.is_metered = true;
        Opened { count: 0 }
    }

    /// Opens line `n`: gives it with its tape, where it has a tree, and then counts it. Lines count from 1.
    pub fn view(&self, n: u32, opened: &mut Opened) -> Option<LineView<'_>>
        requires first { 1 ≤ n }
        requires last { n ≤ length self.now.state.lines }
        requires room { opened.old + 1 < 2 ^ 64 }
        ensures { MatchOption result
            ((is_tree (line_status n self.now) ≡ false) × (opened.new ≡ opened.old))
            (λ view. (line_status n self.now ≡ parsed (tree_of_view view)) × (text_of_view view ≡ line_text n self.now) × (opened.new ≡ opened.old + 1)) }
    {
        let line = &self.lines[n as usize - 1];
        if !line.is_tree() {
            return None;
        }
        opened.count += 1;
        let text = text_of(&self.bytes, line);
        Some(LineView::new(tape_of(&self.tapes, line, text), text))
    }

    /// Makes an index of a path, the last one, and answers in how many lines the path has a node.
    ///
    /// # Errors
    ///
    /// `Exists` if there is an index of this path, `Limit` if there are sixteen, `Memory` if a growth was refused.
    pub fn add_index(&mut self, path: SingularPath) -> Result<u32, IndexFault>
        ensures { MatchResult result
            (λ count. (index_fault (path_steps path) self.old ≡ None) × (self.new ≡ with_index (path_steps path) self.old)
            × (count ≡ count_by (has_node (path_steps path)) (statuses_in self.old)))
            (λ fault. RefusesIndex fault (index_fault (path_steps path) self.old) × (self.new ≡ self.old)) }
    {
        laws::a_line_has_one_entry();
        if has_index(&self.indexes, &path) {
            return Err(IndexFault::Exists);
        }
        if self.indexes.len() >= 16 {
            return Err(IndexFault::Limit);
        }
        let Ok(index) = build_index(self.alloc, path, &self.bytes, &self.tapes, &self.lines) else {
            return Err(IndexFault::Memory);
        };
        let count = index.count();
        let Ok(()) = self.indexes.push(index) else {
            return Err(IndexFault::Memory);
        };
        Ok(count)
    }

    /// Deletes the index of a path. The others keep their order.
    ///
    /// # Errors
    ///
    /// `Missing` if there is none.
    pub fn drop_index(&mut self, path: &SingularPath) -> Result<(), Missing>
        ensures there { is_ok result ≡ has_path (path_steps path.now) self.old.state.paths }
        ensures rest { self.new ≡ without_index (path_steps path.now) self.old }
    {
        let found = has_index(&self.indexes, path);
        remove_index(&mut self.indexes, path);
        if found { Ok(()) } else { Err(Missing) }
    }

    /// The number of indexes.
    pub fn index_count(&self) -> u32
        ensures { result ≡ length self.now.state.paths }
    {
        self.indexes.len() as u32
    }

    /// Index `k`, counted from 0 in the order in which they were made. It has the entries of the present lines.
    pub fn index(&self, k: u32) -> &ValueIndex
        requires { k < length self.now.state.paths }
        ensures { (path : List Step) → slice_get self.now.state.paths k ≡ Some path → IsIndexOf result.now path (entries_of path (statuses_in self.now)) }
    {
        &self.indexes[k as usize]
    }

    /// The path of index `k`, counted from 0 in the order in which they were made.
    pub fn path_at(&self, k: u32) -> &SingularPath
        requires { k < length self.now.state.paths }
        ensures { slice_get self.now.state.paths k ≡ Some (path_steps result.now) }
    {
        self.index(k).path()
    }

    /// Adds a line after the others, as it is, and answers its number.
    ///
    /// # Errors
    ///
    /// `Size` if the lines would be too large, `Separator` if the text holds the byte that separates lines, `Memory`
    /// where a growth was refused.
    pub fn append(&mut self, text: &[u8]) -> Result<u32, EditFault>
        ensures { MatchResult result
            (λ n. (append_fault text.now self.old ≡ None) × (self.new ≡ with_lines (appended text.now self.old) self.old)
            × (n ≡ length self.old.state.lines + 1))
            (λ fault. RefusesEdit fault (append_fault text.now self.old) × (self.new ≡ self.old)) }
    {
        let held = match test_edit(self.framing, self.most, self.counts.held, text) {
            Ok(held) => held,
            Err(fault) => return Err(fault),
        };
        let Ok(line) = read_edited(self.alloc, self.framing, text) else {
            return Err(EditFault::Memory);
        };
        let Ok(()) = self.lines.reserve(1) else {
            return Err(EditFault::Memory);
        };
        let n = self.lines.len() as u32 + 1;
        let Ok(()) = self.counts.reserve(n) else {
            return Err(EditFault::Memory);
        };
        let root = root_of_line(&self.bytes, &self.tapes, &line);
        let Ok(()) = edit_indexes(self.alloc, &mut self.indexes, 0, n, root) else {
            return Err(EditFault::Memory);
        };
        self.counts.change(held, n, false, &line);
        self.lines.push_reserved(line);
        Ok(n)
    }

    /// Puts a text, as it is, in the place of line `n`. Lines count from 1.
    ///
    /// # Errors
    ///
    /// `NoLine` if there is no such line, else as `append`.
    pub fn replace(&mut self, n: u32, text: &[u8]) -> Result<(), EditFault>
        ensures { MatchResult result
            (λ _. (replace_fault n text.now self.old ≡ None) × (self.new ≡ with_lines (replaced n text.now self.old) self.old))
            (λ fault. RefusesEdit fault (replace_fault n text.now self.old) × (self.new ≡ self.old)) }
    {
        if n == 0 || n as usize > self.lines.len() {
            return Err(EditFault::NoLine);
        }
        let position = n as usize - 1;
        let old = &self.lines[position];
        let had_tree = old.is_tree();
        let rest = self.counts.held - text_of(&self.bytes, old).len() as u64 - 1;
        let held = match test_edit(self.framing, self.most, rest, text) {
            Ok(held) => held,
            Err(fault) => return Err(fault),
        };
        let Ok(line) = read_edited(self.alloc, self.framing, text) else {
            return Err(EditFault::Memory);
        };
        let Ok(()) = self.counts.reserve(n) else {
            return Err(EditFault::Memory);
        };
        let root = root_of_line(&self.bytes, &self.tapes, &line);
        let Ok(()) = edit_indexes(self.alloc, &mut self.indexes, 0, n, root) else {
            return Err(EditFault::Memory);
        };
        self.counts.change(held, n, had_tree, &line);
        self.lines[position] = line;
        Ok(())
    }
}
