//! The places that paths lead to, each linked to the one above it.

ghost use Rattle.std.specs.Prelude.{◌≡◌, ◌+◌, ◌<◌, ◌∷◌, [], ℕ, IfOk, OnOk, false, is_some, length, not, position};
ghost use Rattle.jp_survey.specs.Foldings.{is_over};
ghost use Rattle.jp_survey.specs.Places.{AreLinked, AreMembersCounted, has_link, link_at, link_equal, members_of, root_link, with_link};

use indexmap::IndexSet;
use std::alloc::{AllocError, Global};

/// The step to a place from the one above it.
#[derive(Clone, Copy, Debug, PartialEq, Eq, Hash)]
pub(crate) enum Step {
    /// None: where all paths begin.
    Start,
    /// To the elements of an array.
    Element,
    /// To the member of a name, by its number.
    Member(usize),
    /// To the members of an object that is folded.
    Others,
}

/// A place, by the number of the one above it.
#[derive(Clone, Copy, Debug, PartialEq, Eq, Hash)]
pub(crate) struct Link {
    pub(crate) parent: usize,
    pub(crate) step: Step,
}

/// Places, each by its number. That of the root is 0, and a place has a greater one than the place above it.
#[derive(Drop)]
pub(crate) struct Links {
    pub(crate) links: IndexSet<Link>,
    /// How many members by name each place has.
    pub(crate) members: Vec<u64>,
}

/// Adds a link where it is new: its number, and whether it is.
fn insert(links: &mut IndexSet<Link>, link: Link) -> Result<(usize, bool), AllocError>
    ensures links { OnOk result (links.new.keys ≡ with_link links.old.keys link) }
    ensures is_new { IfOk result (λ added. added.1 ≡ not (has_link links.old.keys link)) }
    ensures within { IfOk result (λ added. added.0 < length links.new.keys) }
    ensures place { IfOk result (λ added. link_at links.new.keys added.0 ≡ link) }
{
    Ok(links.insert_full(link)?)
}

/// One more.
fn with_one(count: u64) -> Result<u64, AllocError>
    ensures { IfOk result (λ more. more ≡ count + 1) }
{
    count.checked_add(1).ok_or(AllocError)
}

impl Links {
    /// With the root alone.
    pub(crate) fn new(alloc: Global) -> Result<Links, AllocError>
        ensures links { IfOk result (λ links. links.links.keys ≡ root_link ∷ []) }
        ensures linked { IfOk result AreLinked }
    {
        let mut links = IndexSet::new(alloc);
        let mut members = Vec::new(alloc);
        links.insert(Link {
            parent: 0,
            step: Step::Start,
        })?;
        members.push(0)?;
        Ok(Links { links, members })
    }

    /// How many places there are.
    pub(crate) fn len(&self) -> usize
        ensures { result ≡ length self.now.links.keys }
    {
        self.links.len()
    }

    /// The number of a place.
    pub(crate) fn find(&self, link: Link) -> Option<usize>
        ensures place { result ≡ position (link_equal link) self.now.links.keys }
        ensures found { is_some result ≡ has_link self.now.links.keys link }
    {
        self.links.get_index_of(&link)
    }

    /// How many members by name a place has.
    fn members_of(&self, place: usize) -> u64
        requires { AreMembersCounted self.now }
        ensures { result ≡ members_of self.now.links.keys place }
    {
        match self.members.get(place) {
            Some(members) => *members,
            None => 0,
        }
    }

    /// Whether the object at a place is to be folded: it has more members by name than it may have, or some where others are
    /// not told apart.
    pub(crate) fn is_over(&self, place: usize, fold: u64) -> bool
        requires { AreMembersCounted self.now }
        ensures { result ≡ is_over fold self.now.links.keys place }
    {
        let step = Step::Others;
        let others = Link {
            parent: place,
            step,
        };
        let members = self.members_of(place);
        members > fold || (members > 0 && self.find(others).is_some())
    }

    /// Whether an object is to be folded.
    pub(crate) fn has_over(&self, fold: u64) -> bool
        requires { AreMembersCounted self.now }
        ensures { result ≡ false → (place : ℕ) → place < length self.now.links.keys → is_over fold self.now.links.keys place ≡ false }
    {
        for place in 0..self.len() {
            if self.is_over(place, fold) {
                return true;
            }
        }
        false
    }

    /// The number of a place, which is added where it is new.
    pub(crate) fn add(&mut self, link: Link) -> Result<usize, AllocError>
        ensures links { OnOk result (self.new.links.keys ≡ with_link self.old.links.keys link) }
        ensures counted { AreMembersCounted self.old → OnOk result (AreMembersCounted self.new) }
        ensures linked { AreLinked self.old → link.parent < length self.old.links.keys → OnOk result (AreLinked self.new) }
        ensures within { IfOk result (λ place. place < length self.new.links.keys) }
        ensures place { IfOk result (λ place. link_at self.new.links.keys place ≡ link) }
    {
        let (place, is_new) = insert(&mut self.links, link)?;
        if !is_new {
            return Ok(place);
        }
        self.members.push(0)?;
        match link.step {
            Step::Member(_) => {
                let Some(members) = self.members.get(link.parent) else {
                    return Err(AllocError);
                };
                self.members[link.parent] = with_one(*members)?;
                Ok(place)
            }
            Step::Start | Step::Element | Step::Others => Ok(place),
        }
    }
}
