//! An index made of all lines at once.

ghost use Rattle.std.specs.Prelude.{◌≡◌, ℕ, ◌+◌, ◌<◌, ◌≤◌, ◌^◌, List, [], ◌++◌, length, option_map, IfOk, OnOk, OnErr};
ghost use Rattle.std.specs.Option.{is_some};
ghost use Rattle.std.specs.Vec.{vec_capacity, vec_len};
ghost use Rattle.jp_model.specs.Numbered.{numbers_where};
ghost use Rattle.jp_model.specs.Steps.{Step};
ghost use Rattle.jp_syntax.specs.SingularPaths.{path_steps};
ghost use Rattle.jp_nodes.specs.Cursors.{root_of};
ghost use Rattle.jp_index.specs.Entries.{Entry, entry_in};
ghost use Rattle.jp_index.specs.LineSetViews.{numbers_of};

use crate::chunks::Order;
use crate::comparing::has_key;
use crate::index::ValueIndex;
use crate::line_set::LineSet;
use crate::order::sort_by_key;
use crate::reading::read_root;
use crate::slot::Slot;
use jp_nodes::Cursor;
use jp_syntax::SingularPath;
use std::alloc::{AllocError, Global};

/// An index in the making. The lines are added one by one from the first, and their keys are sorted once, at the end.
#[derive(Drop)]
pub struct IndexBuilder {
    pub(crate) path: SingularPath,
    /// What is kept of line k is at k - 1.
    pub(crate) cells: Vec<Option<Slot>>,
    /// The lines that have a key, in order of line.
    pub(crate) by_key: Vec<u32>,
    ghost few: { length cells.items < 2 ^ 32 },
}

/// The lines that have something kept here.
fn lines_kept(alloc: Global, cells: &[Option<Slot>]) -> Result<LineSet, AllocError>
    requires { length cells.now < 2 ^ 32 }
    ensures { IfOk result (λ lines. numbers_of lines ≡ numbers_where is_some 1 cells.now) }
{
    let mut lines = LineSet::new(alloc);
    lines.reserve(cells.len() as u32)?;
    let mut line = 0;
    for cell in cells {
        line += 1;
        lines.set(line, cell.is_some());
    }
    Ok(lines)
}

impl IndexBuilder {
    ghost use Rattle.jp_index.specs.Indexes.{IsIndexOf, IsBuildOf, lines_built};

    /// No line yet. It allocates nothing yet.
    pub fn new(alloc: Global, path: SingularPath) -> IndexBuilder
        ensures { IsBuildOf result (path_steps path) 0 [] }
    {
        IndexBuilder {
            path,
            cells: Vec::new(alloc),
            by_key: Vec::new(alloc),
        }
    }

    /// The number of lines that were added.
    pub fn line_count(&self) -> u32
        ensures { result ≡ lines_built self.now }
    {
        self.cells.len() as u32
    }

    /// Makes room for `keys` more keys. The entries are as before, after an `Err` too.
    pub fn reserve(&mut self, keys: usize) -> Result<(), AllocError>
        ensures entries { (path : List Step) (lines : ℕ) (entries : List Entry) → IsBuildOf self.old path lines entries → IsBuildOf self.new path lines entries }
        ensures room { OnOk result (vec_len self.new.by_key + keys ≤ vec_capacity self.new.by_key) }
    {
        self.by_key.reserve(keys)
    }

    /// Adds the next line, which has this root or, where it has no tree, none. After an `Err` the entries are as before.
    pub fn push(&mut self, alloc: Global, root: Option<Cursor<'_>>) -> Result<(), AllocError>
        requires { lines_built self.old + 1 < 2 ^ 32 }
        ensures ok { (path : List Step) (lines : ℕ) (entries : List Entry) → IsBuildOf self.old path lines entries
            → OnOk result (IsBuildOf self.new path (lines + 1) (entries ++ entry_in path (lines + 1) (option_map root_of root.entry))) }
        ensures err { (path : List Step) (lines : ℕ) (entries : List Entry) → IsBuildOf self.old path lines entries → OnErr result (IsBuildOf self.new path lines entries) }
    {
        let line = self.cells.len() as u32 + 1;
        let cell = read_root(alloc, &self.path, root)?;
        self.by_key.reserve(1)?;
        if has_key(&cell) {
            self.cells.push(cell)?;
            let _ = self.by_key.push(line);
        } else {
            self.cells.push(cell)?;
        }
        Ok(())
    }

    /// The index of the lines that were added. It allocates a bit for each line, and while it sorts, if there are
    /// more than 20 keys.
    pub fn finish(self) -> Result<ValueIndex, AllocError>
        ensures { (path : List Step) (lines : ℕ) (entries : List Entry) → IsBuildOf self path lines entries → IfOk result (λ index. IsIndexOf index path entries) }
    {
        let IndexBuilder {
            path,
            cells,
            mut by_key,
        } = self;
        sort_by_key(&cells, &mut by_key)?;
        let kept = lines_kept(*by_key.allocator(), &cells)?;
        let order = Order::from_sorted(*by_key.allocator(), &by_key)?;
        Ok(ValueIndex {
            path,
            cells,
            order,
            kept,
        })
    }
}
