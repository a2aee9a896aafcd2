//! The names of columns, and the members of those names.

ghost use Rattle.std.specs.Prelude.{◌≡◌, ℕ, ◌<◌, [], true, false, All, IfOk, IfSome, None, OnOk, Some, is_some, length, map, slice_index_or};
ghost use Rattle.std.specs.List.{list_all};
ghost use Rattle.jp_model.specs.Meaning.Nodes.{step_to};
ghost use Rattle.jp_model.specs.Meaning.Slices.{is_name, named};
ghost use Rattle.jp_nodes.specs.Cursors.{line_of, name_of, node_of};
ghost use Rattle.jp_children.specs.Found.{node_list};
ghost use Rattle.jp_columns.specs.Names.{AreAll, AreColumns, Ascend, text_of};

use crate::order::{compare_with, first_of, sort_columns};
use jp_nodes::{Cursor, Kind};
use std::alloc::{AllocError, Global};

/// Whether each column has a member.
fn have_all(found: &[Option<Cursor<'_>>]) -> bool
    ensures { result ≡ list_all is_some found.now }
{
    found.iter().all(|member| member.is_some())
}

/// The names of columns. Several columns may have one name.
#[derive(Drop)]
pub struct ColumnNames {
    names: Vec<String>,
    /// The columns in the order of their names, so that those of one name stand together.
    sorted: Vec<usize>,
    ghost in_order: { Ascend names.items sorted.items },
    ghost all: { AreAll names.items sorted.items },
    ghost columns: { AreColumns names.items sorted.items },
}

impl ColumnNames {
    ghost use Rattle.jp_columns.specs.Columns.{names_of};

    /// The names of columns, the first of the first column.
    ///
    /// If memory is refused, the answer is `AllocError`.
    pub fn new(alloc: Global, names: Vec<String>) -> Result<ColumnNames, AllocError>
        ensures { IfOk result (λ columns. names_of columns ≡ map text_of names.items) }
    {
        let mut sorted = (0..names.len()).collect(alloc)?;
        sort_columns(&names, &mut sorted);
        Ok(ColumnNames { names, sorted })
    }

    /// Notes a member for each column of its name.
    fn note<'a>(&self, member: Cursor<'a>, found: &mut [Option<Cursor<'a>>])
        requires { length found.old ≡ length (names_of self.now) }
        ensures length { length found.new ≡ length found.old }
        ensures named { (column index : ℕ) → column < length found.old → is_name (slice_index_or (names_of self.now) column []) (step_to index (name_of member.entry)) ≡ true
            → slice_index_or found.new column None ≡ Some member.entry }
        ensures others { (column index : ℕ) → is_name (slice_index_or (names_of self.now) column []) (step_to index (name_of member.entry)) ≡ false
            → slice_index_or found.new column None ≡ slice_index_or found.old column None }
    {
        let Some(body) = member.name() else {
            return;
        };
        let first = first_of(&self.names, &self.sorted, body);
        for column in &self.sorted[first..] {
            if compare_with(&self.names, body, *column).is_ne() {
                return;
            }
            found[*column] = Some(member);
        }
    }

    /// Finds the member of each column's name, of an object alone, in place of what was found before (RFC 9535, section 2.3.1.2).
    /// The members are gone over once, and only until all columns have theirs. That is asked each time as many members have come
    /// as there are columns, so that the question costs no more than they do.
    ///
    /// If memory is refused, the answer is `AllocError`.
    pub fn find<'a>(
        &self,
        node: Cursor<'a>,
        found: &mut Vec<Option<Cursor<'a>>>,
    ) -> Result<(), AllocError>
        ensures nodes { OnOk result (map node_list found.new.items ≡ map (λ name. named name (node_of node.entry)) (names_of self.now)) }
        ensures lines { OnOk result (All (λ some. IfSome some (λ c. line_of c ≡ line_of node.entry)) found.new.items) }
    {
        found.clear();
        found.resize(self.names.len(), None)?;
        if node.kind() != Kind::Object {
            return Ok(());
        }
        let mut next = node.first_child();
        let mut ahead = found.len();
        while let Some(member) = next {
            if ahead == 0 {
                if have_all(found) {
                    return Ok(());
                }
                ahead = found.len();
            }
            self.note(member, found);
            next = member.next_sibling();
            ahead = ahead.saturating_sub(1);
        }
        Ok(())
    }
}
