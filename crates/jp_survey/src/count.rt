//! How many nodes of each kind are at each place.

ghost use Rattle.std.specs.Prelude.{◌≡◌, ◌+◌, ◌<◌, ◌++◌, ◌∷◌, [], IfOk, OnOk, length};
ghost use Rattle.jp_survey.specs.Counts.{Adds, count_of, last_of, lines_of, more_of, no_count, no_counts, nodes_of, with_count, with_node};
ghost use Rattle.jp_survey.specs.declared.kind.NodeKind.{NodeKind};

use crate::kind::NodeKind;
use std::alloc::{AllocError, Global};

/// How many nodes of a kind are at a place.
#[derive(Clone, Copy, Debug)]
pub(crate) struct Count {
    pub(crate) nodes: u64,
    /// In how many lines there is such a node.
    pub(crate) lines: u64,
    /// The number of the last of these lines, from 1.
    pub(crate) last: u64,
}

impl Count {
    /// Of no node.
    fn none() -> Count
        ensures { result ≡ no_count }
    {
        Count {
            nodes: 0,
            lines: 0,
            last: 0,
        }
    }

    /// With one node more, in the line of a number.
    fn with_node(self, line: u64) -> Result<Count, AllocError>
        ensures { IfOk result (λ count. count ≡ more_of line self) }
    {
        let lines = if self.last == line { 0 } else { 1 };
        Ok(Count {
            nodes: self.nodes.checked_add(1).ok_or(AllocError)?,
            lines: self.lines.checked_add(lines).ok_or(AllocError)?,
            last: line,
        })
    }

    /// With the nodes and the lines of another.
    fn with(self, other: Count) -> Result<Count, AllocError>
        ensures nodes { IfOk result (λ count. count.nodes ≡ self.nodes + other.nodes) }
        ensures lines { IfOk result (λ count. count.lines ≡ self.lines + other.lines) }
        ensures last { IfOk result (λ count. count.last ≡ 0) }
    {
        Ok(Count {
            nodes: self.nodes.checked_add(other.nodes).ok_or(AllocError)?,
            lines: self.lines.checked_add(other.lines).ok_or(AllocError)?,
            last: 0,
        })
    }
}

/// How many nodes of each kind are at a place.
#[derive(Clone, Copy, Debug)]
pub(crate) struct PlaceCounts {
    pub(crate) null: Count,
    pub(crate) boolean: Count,
    pub(crate) number: Count,
    pub(crate) string: Count,
    pub(crate) array: Count,
    pub(crate) object: Count,
}

impl PlaceCounts {
    /// Of no node.
    fn none() -> PlaceCounts
        ensures { result ≡ no_counts }
    {
        let none = Count::none();
        PlaceCounts {
            null: none,
            boolean: none,
            number: none,
            string: none,
            array: none,
            object: none,
        }
    }

    /// Of one kind.
    #[inline(always)]
    pub(crate) fn of(&self, kind: NodeKind) -> Count
        ensures { result ≡ count_of self.now kind }
    {
        match kind {
            NodeKind::Null => self.null,
            NodeKind::Boolean => self.boolean,
            NodeKind::Number => self.number,
            NodeKind::String => self.string,
            NodeKind::Array => self.array,
            NodeKind::Object => self.object,
        }
    }

    /// With another count of one kind.
    #[inline(always)]
    fn with(self, kind: NodeKind, count: Count) -> PlaceCounts
        ensures { result ≡ with_count self kind count }
    {
        let mut counts = self;
        match kind {
            NodeKind::Null => counts.null = count,
            NodeKind::Boolean => counts.boolean = count,
            NodeKind::Number => counts.number = count,
            NodeKind::String => counts.string = count,
            NodeKind::Array => counts.array = count,
            NodeKind::Object => counts.object = count,
        }
        counts
    }

    /// With the nodes and the lines of another place.
    fn with_all(self, other: &PlaceCounts) -> Result<PlaceCounts, AllocError>
        ensures nodes { IfOk result (λ counts. (kind : NodeKind) → nodes_of kind counts ≡ nodes_of kind self + nodes_of kind other.now) }
        ensures lines { IfOk result (λ counts. (kind : NodeKind) → lines_of kind counts ≡ lines_of kind self + lines_of kind other.now) }
        ensures last { IfOk result (λ counts. (kind : NodeKind) → last_of kind counts ≡ 0) }
    {
        Ok(PlaceCounts {
            null: self.null.with(other.null)?,
            boolean: self.boolean.with(other.boolean)?,
            number: self.number.with(other.number)?,
            string: self.string.with(other.string)?,
            array: self.array.with(other.array)?,
            object: self.object.with(other.object)?,
        })
    }
}

/// The counts of places.
#[derive(Drop)]
pub(crate) struct Counts {
    pub(crate) places: Vec<PlaceCounts>,
}

impl Counts {
    /// Of no place.
    pub(crate) fn new(alloc: Global) -> Counts
        ensures { result.places.items ≡ [] }
    {
        Counts {
            places: Vec::new(alloc),
        }
    }

    /// Adds a place with no node.
    pub(crate) fn add_place(&mut self) -> Result<(), AllocError>
        ensures { OnOk result (self.new.places.items ≡ self.old.places.items ++ no_counts ∷ []) }
    {
        Ok(self.places.push(PlaceCounts::none())?)
    }

    /// Counts a node of a kind at a place, in the line of a number.
    #[inline(always)]
    pub(crate) fn count(
        &mut self,
        place: usize,
        kind: NodeKind,
        line: u64,
    ) -> Result<(), AllocError>
        ensures counts { OnOk result (self.new.places.items ≡ with_node self.old.places.items place kind line) }
        ensures within { OnOk result (place < length self.old.places.items) }
    {
        let Some(counts) = self.places.get(place) else {
            return Err(AllocError);
        };
        let counted = counts.with(kind, counts.of(kind).with_node(line)?);
        self.places[place] = counted;
        Ok(())
    }

    /// Counts the nodes of a place at another.
    pub(crate) fn add(&mut self, place: usize, some: &PlaceCounts) -> Result<(), AllocError>
        ensures adds { OnOk result (Adds self.old.places.items self.new.places.items place some.now) }
    {
        let Some(counts) = self.places.get(place) else {
            return Err(AllocError);
        };
        let summed = counts.with_all(some)?;
        self.places[place] = summed;
        Ok(())
    }
}
