//! The tree of the paths of nodes, with how many nodes are where.

ghost use Rattle.std.specs.Prelude.{◌≡◌, ◌+◌, ◌++◌, ◌∷◌, ◌<◌, [], ℕ, IfOk, IfSome, List, None, OnOk, chars, false, length, slice_index_or, string_bytes, true};
ghost use Rattle.jp_model.specs.Meaning.Nodes.{root_node, subtree};
ghost use Rattle.jp_nodes.specs.Cursors.{node_of, place_of, root_of};
ghost use Rattle.jp_strings.specs.Points.{IsText, points_of};
ghost use Rattle.jp_survey.specs.Foldings.{folded_by, is_over, longer};
ghost use Rattle.jp_survey.specs.Justified.{WithPath};
ghost use Rattle.jp_survey.specs.Paths.{Line, member, strides_of};
ghost use Rattle.jp_survey.specs.Places.{has_path, path_at, stride_in};
ghost use Rattle.jp_survey.specs.Seen.{HasBegun, HasCome, HasSeen};
ghost use Rattle.jp_survey.specs.Trees.{AreKnown, Grows, IsPlaceAt, IsTree, Leads, links_of, names_of, stride_to, tree_folds, tree_paths};

use crate::count::Counts;
use crate::folding::fold_all;
use crate::kind::NodeKind;
use crate::links::{Link, Links, Step};
use indexmap::IndexSet;
use jp_nodes::Cursor;
use jp_strings::{spells, unescape};
use std::alloc::{AllocError, Global};

/// The paths of the nodes of lines, with how many nodes are where.
#[derive(Drop)]
pub(crate) struct Tree {
    pub(crate) alloc: Global,
    /// How many members by name an object has that is not folded.
    fold: u64,
    pub(crate) names: IndexSet<String>,
    pub(crate) links: Links,
    pub(crate) counts: Counts,
    /// The place that came after each the last time: lines look alike.
    followers: Vec<usize>,
    /// The places of the nodes that are counted together: of one that is told and all that is in it.
    places: Vec<usize>,
    /// How many lines came.
    lines: u64,
    /// How many places there are to be before objects are folded.
    wanted: usize,
}

/// Notes the place that came after another.
#[inline(always)]
fn remember(followers: &mut [usize], before: usize, place: usize) {
    if let Some(follower) = followers.get_mut(before) {
        *follower = place;
    }
}

/// How many places there are at least before objects are folded.
const LEAST: usize = 1 << 12;

impl Tree {
    /// Of no line yet.
    pub(crate) fn new(alloc: Global, fold: u64) -> Result<Tree, AllocError>
        ensures tree { IfOk result IsTree }
        ensures seen { IfOk result (HasSeen fold []) }
    {
        let mut counts = Counts::new(alloc);
        counts.add_place()?;
        let mut followers = Vec::new(alloc);
        followers.push(0)?;
        Ok(Tree {
            alloc,
            fold,
            names: IndexSet::new(alloc),
            links: Links::new(alloc)?,
            counts,
            followers,
            places: Vec::new(alloc),
            lines: 0,
            wanted: LEAST,
        })
    }

    /// The number of a place, which is added where it is new.
    pub(crate) fn add(&mut self, parent: usize, step: Step) -> Result<usize, AllocError>
        requires tree { IsTree self.old }
        requires leads { Leads self.old parent step }
        ensures tree { OnOk result (IsTree self.new) }
        ensures grows { OnOk result (Grows self.old self.new) }
        ensures place { IfOk result (λ place. IsPlaceAt self.new place (path_at (tree_paths self.old) parent ++ stride_in (names_of self.old) step ∷ [])) }
        ensures path { OnOk result (WithPath (tree_paths self.old) (path_at (tree_paths self.old) parent ++ stride_in (names_of self.old) step ∷ []) (tree_paths self.new)) }
    {
        let before = self.links.len();
        let place = self.links.add(Link { parent, step })?;
        if self.links.len() > before {
            self.counts.add_place()?;
            self.followers.push(0)?;
        }
        Ok(place)
    }

    /// The number of a name, which is added where it is new.
    fn name_number(&mut self, name: String) -> Result<usize, AllocError>
        requires { IsTree self.old }
        ensures tree { OnOk result (IsTree self.new) }
        ensures grows { OnOk result (Grows self.old self.new) }
        ensures links { self.new.links ≡ self.old.links }
        ensures counts { self.new.counts ≡ self.old.counts }
        ensures paths { OnOk result (tree_paths self.new ≡ tree_paths self.old) }
        ensures within { IfOk result (λ number. number < length (names_of self.new)) }
        ensures name { IfOk result (λ number. slice_index_or (names_of self.new) number [] ≡ chars (string_bytes name)) }
    {
        let (number, _) = self.names.insert_full(name)?;
        Ok(number)
    }

    /// The place of all members together, where the object of a place is folded.
    fn others_place(&self, parent: usize) -> Option<usize>
        requires { IsTree self.now }
        ensures place { IfSome result (λ place. (x : List ℕ) → IsPlaceAt self.now place (longer (tree_folds self.now) (path_at (tree_paths self.now) parent) (member x))) }
        ensures plain { result ≡ None → parent < length (links_of self.now) → has_path (tree_folds self.now) (path_at (tree_paths self.now) parent) ≡ false }
    {
        self.links.find(Link {
            parent,
            step: Step::Others,
        })
    }

    /// The place of a member of an object that is not folded.
    fn add_member(&mut self, parent: usize, name: String) -> Result<usize, AllocError>
        requires tree { IsTree self.old }
        requires parent { parent < length (links_of self.old) }
        requires plain { has_path (tree_folds self.old) (path_at (tree_paths self.old) parent) ≡ false }
        ensures tree { OnOk result (IsTree self.new) }
        ensures grows { OnOk result (Grows self.old self.new) }
        ensures place { IfOk result (λ place. IsPlaceAt self.new place (longer (tree_folds self.old) (path_at (tree_paths self.old) parent) (member (chars (string_bytes name))))) }
        ensures path { OnOk result (WithPath (tree_paths self.old) (longer (tree_folds self.old) (path_at (tree_paths self.old) parent) (member (chars (string_bytes name)))) (tree_paths self.new)) }
    {
        let number = self.name_number(name)?;
        self.add(parent, Step::Member(number))
    }

    /// The place of a member by the body of its name: its own, or that of all others where the object is folded.
    fn member_place(&mut self, parent: usize, body: &[u8]) -> Result<usize, AllocError>
        requires tree { IsTree self.old }
        requires parent { parent < length (links_of self.old) }
        requires body { IsText body.now }
        ensures tree { OnOk result (IsTree self.new) }
        ensures grows { OnOk result (Grows self.old self.new) }
        ensures place { IfOk result (λ place. IsPlaceAt self.new place (longer (tree_folds self.old) (path_at (tree_paths self.old) parent) (member (points_of body.now)))) }
        ensures path { OnOk result (WithPath (tree_paths self.old) (longer (tree_folds self.old) (path_at (tree_paths self.old) parent) (member (points_of body.now))) (tree_paths self.new)) }
    {
        if let Some(place) = self.others_place(parent) {
            return Ok(place);
        }
        let name = unescape(self.alloc, body)?;
        self.add_member(parent, name)
    }

    /// The place of a node below a place.
    fn child_place(&mut self, parent: usize, child: Cursor<'_>) -> Result<usize, AllocError>
        requires tree { IsTree self.old }
        requires parent { parent < length (links_of self.old) }
        ensures tree { OnOk result (IsTree self.new) }
        ensures grows { OnOk result (Grows self.old self.new) }
        ensures place { IfOk result (λ place. IsPlaceAt self.new place (longer (tree_folds self.old) (path_at (tree_paths self.old) parent) (stride_to child.entry))) }
        ensures path { OnOk result (WithPath (tree_paths self.old) (longer (tree_folds self.old) (path_at (tree_paths self.old) parent) (stride_to child.entry)) (tree_paths self.new)) }
    {
        match child.name() {
            Some(body) => self.member_place(parent, body),
            None => self.add(parent, Step::Element),
        }
    }

    /// Whether a node below a place has the place that is guessed.
    #[inline(always)]
    fn is_place(&self, guess: usize, parent: usize, child: Cursor<'_>) -> bool
        requires { IsTree self.now }
        ensures { result ≡ true → IsPlaceAt self.now guess (longer (tree_folds self.now) (path_at (tree_paths self.now) parent) (stride_to child.entry)) }
    {
        let Some(link) = self.links.links.get_index(guess) else {
            return false;
        };
        if link.parent != parent {
            return false;
        }
        match (link.step, child.name()) {
            (Step::Element, None) | (Step::Others, Some(_)) => true,
            (Step::Member(number), Some(body)) => match self.names.get_index(number) {
                Some(name) => spells(body, name.as_str()),
                None => false,
            },
            _ => false,
        }
    }

    /// The place that came after another the last time, if it is that of a node below a place.
    #[inline(always)]
    fn guess(&self, before: usize, parent: usize, child: Cursor<'_>) -> Option<usize>
        requires { IsTree self.now }
        ensures { IfSome result (λ place. IsPlaceAt self.now place (longer (tree_folds self.now) (path_at (tree_paths self.now) parent) (stride_to child.entry))) }
    {
        let guess = *self.followers.get(before)?;
        if self.is_place(guess, parent, child) {
            return Some(guess);
        }
        None
    }

    /// The place of a node below a place, which comes after the node of another.
    #[inline(always)]
    pub(crate) fn next_place(
        &mut self,
        before: usize,
        parent: usize,
        child: Cursor<'_>,
    ) -> Result<usize, AllocError>
        requires tree { IsTree self.old }
        requires parent { parent < length (links_of self.old) }
        ensures tree { OnOk result (IsTree self.new) }
        ensures grows { OnOk result (Grows self.old self.new) }
        ensures place { IfOk result (λ place. IsPlaceAt self.new place (longer (tree_folds self.old) (path_at (tree_paths self.old) parent) (stride_to child.entry))) }
        ensures path { OnOk result (WithPath (tree_paths self.old) (longer (tree_folds self.old) (path_at (tree_paths self.old) parent) (stride_to child.entry)) (tree_paths self.new)) }
    {
        if let Some(place) = self.guess(before, parent, child) {
            return Ok(place);
        }
        let place = self.child_place(parent, child)?;
        remember(&mut self.followers, before, place);
        Ok(place)
    }

    /// The place of a node, which comes after the node of another place. It is the node of the number `first` in its line, whose
    /// place is `top`, or below that, and the places of the nodes from that one up to it are known.
    #[inline(always)]
    fn place_of(
        &mut self,
        first: u32,
        top: usize,
        before: usize,
        node: Cursor<'_>,
    ) -> Result<usize, AllocError>
        requires tree { IsTree self.old }
        requires top { place_of node ≡ first → IsPlaceAt self.old top (folded_by (tree_folds self.old) (strides_of (node_of node).location)) }
        requires known { AreKnown self.old (subtree (root_node (root_of node))) first (place_of node) }
        ensures tree { OnOk result (IsTree self.new) }
        ensures grows { OnOk result (Grows self.old self.new) }
        ensures place { IfOk result (λ place. IsPlaceAt self.new place (folded_by (tree_folds self.old) (strides_of (node_of node.entry).location))) }
        ensures path { OnOk result (WithPath (tree_paths self.old) (folded_by (tree_folds self.old) (strides_of (node_of node.entry).location)) (tree_paths self.new)) }
    {
        if node.place() == first {
            return Ok(top);
        }
        let Some(parent) = node.parent() else {
            return Err(AllocError);
        };
        let number = parent.place().checked_sub(first).ok_or(AllocError)?;
        let above = *self.places.get(number as usize).ok_or(AllocError)?;
        self.next_place(before, above, node)
    }

    /// The number of the next line.
    fn next_line(&self) -> Result<u64, AllocError>
        ensures { IfOk result (λ line. line ≡ self.now.lines + 1) }
    {
        self.lines.checked_add(1).ok_or(AllocError)
    }

    /// Begins a line, of which no node is counted yet.
    pub(crate) fn begin_line(&mut self) -> Result<(), AllocError>
        requires { IsTree self.old }
        ensures tree { OnOk result (IsTree self.new) }
        ensures begun { (fold : ℕ) (lines : List Line) → HasSeen fold lines self.old → OnOk result (HasBegun fold lines [] self.new) }
    {
        self.make_room()?;
        let line = self.next_line()?;
        self.lines = line;
        Ok(())
    }

    /// Counts a node of the line that has begun, and all that is in it. `top` is its place.
    pub(crate) fn count_nodes(&mut self, top: usize, node: Cursor<'_>) -> Result<(), AllocError>
        requires tree { IsTree self.old }
        requires top { IsPlaceAt self.old top (folded_by (tree_folds self.old) (strides_of (node_of node).location)) }
        ensures tree { OnOk result (IsTree self.new) }
        ensures begun { (fold : ℕ) (lines : List Line) (line : Line) → HasCome fold lines line (node_of node.entry).location self.old → OnOk result (HasBegun fold lines (line ++ node_of node.entry ∷ []) self.new) }
    {
        let line = self.lines;
        self.places.clear();
        let first = node.place();
        let mut before = top;
        for number in first..node.after() {
            let below = node.go_to(number);
            let place = self.place_of(first, top, before, below)?;
            self.counts.count(place, NodeKind::of(below.kind()), line)?;
            self.places.push(place)?;
            before = place;
        }
        Ok(())
    }

    /// Folds the objects that have too many names.
    pub(crate) fn fold_objects(&mut self) -> Result<(), AllocError>
        requires { IsTree self.old }
        ensures tree { OnOk result (IsTree self.new) }
        ensures over { OnOk result ((place : ℕ) → place < length (links_of self.new) → is_over self.new.fold (links_of self.new) place ≡ false) }
        ensures seen { (fold : ℕ) (lines : List Line) → HasSeen fold lines self.old → OnOk result (HasSeen fold lines self.new) }
    {
        if !self.links.has_over(self.fold) {
            return Ok(());
        }
        let folded = fold_all(self.alloc, &self.links, &self.counts, self.fold)?;
        self.links = folded.links;
        self.counts = folded.counts;
        self.followers.clear();
        Ok(self.followers.resize(self.links.len(), 0)?)
    }

    /// Folds the objects that have too many names, once there are many places.
    fn make_room(&mut self) -> Result<(), AllocError>
        requires { IsTree self.old }
        ensures tree { OnOk result (IsTree self.new) }
        ensures seen { (fold : ℕ) (lines : List Line) → HasSeen fold lines self.old → OnOk result (HasSeen fold lines self.new) }
    {
        if self.links.len() < self.wanted {
            return Ok(());
        }
        self.fold_objects()?;
        self.wanted = self.links.len().saturating_mul(2).max(LEAST);
        Ok(())
    }
}
