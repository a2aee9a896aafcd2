//! The way from place to place.

ghost use Rattle.std.specs.Prelude.{◌≡◌, ◌+◌, ℕ, IfOk, List, OnOk, length, slice_index_or};
ghost use Rattle.jp_survey.specs.Entries.{path_of_listed, stride_of_listed};
ghost use Rattle.jp_survey.specs.Paths.{Path};
ghost use Rattle.jp_survey.specs.Places.{ArePlaces, names_in, path_at, paths_of, stride_in};
ghost use Rattle.jp_survey.specs.declared.links.Link.{Link};
ghost use Rattle.jp_survey.specs.Walked.{IsWay};

use crate::links::{Links, Step};
use indexmap::IndexSet;
use std::alloc::{AllocError, Global};

/// A step of a path, as it is shown. They are in this order, and names in that of their scalars.
#[derive(Clone, Copy, Debug, PartialEq, Eq, PartialOrd, Ord)]
pub(crate) enum Stride<'a> {
    /// To the elements of an array.
    Element,
    /// To the member of a name.
    Member(&'a String),
    /// To the members of an object that is folded.
    Others,
}

/// A step as it is shown.
pub(crate) fn stride_of(names: &IndexSet<String>, step: Step) -> Result<Stride<'_>, AllocError>
    ensures { IfOk result (λ stride. stride_of_listed stride ≡ stride_in (names_in names.now.keys) step) }
{
    match step {
        Step::Start | Step::Element => Ok(Stride::Element),
        Step::Member(number) => {
            let name = names.get_index(number).ok_or(AllocError)?;
            Ok(Stride::Member(name))
        }
        Step::Others => Ok(Stride::Others),
    }
}

/// The way to a place: the places above it and it, and the steps from each to the next.
#[derive(Drop)]
pub(crate) struct Way<'n> {
    places: Vec<usize>,
    pub(crate) path: Vec<Stride<'n>>,
}

impl<'n> Way<'n> {
    /// To the root.
    pub(crate) fn new(alloc: Global) -> Result<Way<'n>, AllocError>
        ensures { (names : List (List ℕ)) (links : List Link) → ArePlaces names links → IfOk result (IsWay (paths_of names links)) }
    {
        let mut places = Vec::new(alloc);
        places.push(0)?;
        Ok(Way {
            places,
            path: Vec::new(alloc),
        })
    }

    /// Goes back to a place on it.
    fn go_back(&mut self, place: usize) -> Result<(), AllocError>
        ensures way { (paths : List Path) → IsWay paths self.old → OnOk result (IsWay paths self.new) }
        ensures last { OnOk result ((i : ℕ) → i + 1 ≡ length self.new.places.items → slice_index_or self.new.places.items i 0 ≡ place) }
    {
        for _turn in 0..self.path.len() {
            if self.places.last() == Some(&place) {
                return Ok(());
            }
            let _ = self.places.pop();
            let _ = self.path.pop();
        }
        if self.places.last() == Some(&place) {
            return Ok(());
        }
        Err(AllocError)
    }

    /// Goes back to the place above another, and on to that.
    pub(crate) fn go_to(
        &mut self,
        names: &'n IndexSet<String>,
        links: &Links,
        place: usize,
    ) -> Result<(), AllocError>
        requires places { ArePlaces (names_in names.now.keys) links.now.links.keys }
        requires way { IsWay (paths_of (names_in names.now.keys) links.now.links.keys) self.old }
        ensures way { OnOk result (IsWay (paths_of (names_in names.now.keys) links.now.links.keys) self.new) }
        ensures path { OnOk result (path_of_listed self.new.path.items ≡ path_at (paths_of (names_in names.now.keys) links.now.links.keys) place) }
    {
        let link = links.links.get_index(place).ok_or(AllocError)?;
        self.go_back(link.parent)?;
        if place > 0 {
            let stride = stride_of(names, link.step)?;
            self.path.push(stride)?;
            self.places.push(place)?;
        }
        Ok(())
    }
}
