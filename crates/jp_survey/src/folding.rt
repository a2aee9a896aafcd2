//! Objects that are folded, since they have more names than paths are wanted.

ghost use Rattle.std.specs.Prelude.{◌≡◌, ◌<◌, ℕ, IfOk, List, None, OnOk, Some, false, length, map, true};
ghost use Rattle.jp_survey.specs.Counts.{Joined};
ghost use Rattle.jp_survey.specs.Foldings.{Refolds, is_over};
ghost use Rattle.jp_survey.specs.Justified.{StayJustified};
ghost use Rattle.jp_survey.specs.Movings.{AreByDepth, AreCountedMoving, AreMoving, StayMoving, folded_step, moved_to};
ghost use Rattle.jp_survey.specs.Places.{AreApart, AreLinked, AreMembersCounted, ArePlaces, link_at};

use crate::count::Counts;
use crate::links::{Link, Links, Step};
use std::alloc::{AllocError, Global};

/// Places with their counts.
#[derive(Drop)]
pub(crate) struct Folded {
    pub(crate) links: Links,
    pub(crate) counts: Counts,
}

/// A place, by how many steps lead to it.
#[derive(Clone, Copy, Debug, PartialEq, Eq, PartialOrd, Ord)]
struct Deep {
    depth: usize,
    place: usize,
}

/// Places that move to others, where objects are folded.
#[derive(Drop)]
pub(crate) struct Moving {
    /// The others. Objects are folded here.
    folded: Links,
    /// All that lies below these, each by the number of the one above it. Objects are not folded here.
    told: Links,
    /// The new place of each that has moved.
    places: Vec<Option<usize>>,
}

impl Moving {
    /// The first of some places has moved, which is the root.
    fn new(alloc: Global, many: usize) -> Result<Moving, AllocError>
        ensures counted { IfOk result AreCountedMoving }
        ensures moving { (fold : ℕ) (names : List (List ℕ)) (links : List Link) → ArePlaces names links → many ≡ length links
            → IfOk result (λ moving. AreMoving fold names links moving.told.links.keys moving.folded.links.keys moving.places.items) }
    {
        let mut places = Vec::new(alloc);
        places.push(Some(0))?;
        for _place in 1..many {
            places.push(None)?;
        }
        Ok(Moving {
            folded: Links::new(alloc)?,
            told: Links::new(alloc)?,
            places,
        })
    }

    /// Whether a place is to move yet.
    fn is_left(&self, place: usize) -> bool
        ensures { result ≡ true → (place < length self.now.places.items) × (moved_to self.now.places.items place ≡ None) }
    {
        matches!(self.places.get(place), Some(None))
    }

    /// The link of a place below the place to which the one above it has moved.
    fn link_of(&self, links: &Links, place: usize) -> Result<Link, AllocError>
        ensures within { OnOk result (place < length links.now.links.keys) }
        ensures parent { IfOk result (λ link. moved_to self.now.places.items (link_at links.now.links.keys place).parent ≡ Some link.parent) }
        ensures step { IfOk result (λ link. link.step ≡ (link_at links.now.links.keys place).step) }
    {
        let link = *links.links.get_index(place).ok_or(AllocError)?;
        let Some(Some(parent)) = self.places.get(link.parent) else {
            return Err(AllocError);
        };
        Ok(Link {
            parent: *parent,
            step: link.step,
        })
    }

    /// Tells what a place is.
    fn tell(&mut self, links: &Links, place: usize) -> Result<(), AllocError>
        requires { AreCountedMoving self.old }
        ensures counted { OnOk result (AreCountedMoving self.new) }
        ensures moving { (fold : ℕ) → OnOk result (StayMoving fold links.now.links.keys self.old self.new) }
    {
        let link = self.link_of(links, place)?;
        self.told.add(link)?;
        Ok(())
    }

    /// The step of a link, once the objects are folded that are to be.
    fn folded_step(&self, link: Link, fold: u64) -> Step
        requires { AreMembersCounted self.now.told }
        ensures { result ≡ folded_step (is_over fold self.now.told.links.keys link.parent) link.step }
    {
        match link.step {
            Step::Member(_) if self.told.is_over(link.parent, fold) => Step::Others,
            step => step,
        }
    }

    /// Moves a place, unless it has moved.
    fn move_place(&mut self, links: &Links, place: usize, fold: u64) -> Result<(), AllocError>
        requires { AreCountedMoving self.old }
        ensures counted { OnOk result (AreCountedMoving self.new) }
        ensures moving { OnOk result (StayMoving fold links.now.links.keys self.old self.new) }
    {
        if !self.is_left(place) {
            return Ok(());
        }
        let link = self.link_of(links, place)?;
        let step = self.folded_step(link, fold);
        let parent = link.parent;
        let to = self.folded.add(Link { parent, step })?;
        self.places[place] = Some(to);
        Ok(())
    }

    /// Tells what some places are.
    fn tell_all(&mut self, links: &Links, places: &[Deep]) -> Result<(), AllocError>
        requires { AreCountedMoving self.old }
        ensures counted { OnOk result (AreCountedMoving self.new) }
        ensures moving { (fold : ℕ) → OnOk result (StayMoving fold links.now.links.keys self.old self.new) }
    {
        for deep in places {
            self.tell(links, deep.place)?;
        }
        Ok(())
    }

    /// Moves the places of a depth, once it has told what all of them are.
    fn move_level(&mut self, links: &Links, places: &[Deep], fold: u64) -> Result<(), AllocError>
        requires { AreCountedMoving self.old }
        ensures counted { OnOk result (AreCountedMoving self.new) }
        ensures moving { OnOk result (StayMoving fold links.now.links.keys self.old self.new) }
    {
        self.tell_all(links, places)?;
        for deep in places {
            self.move_place(links, deep.place, fold)?;
        }
        Ok(())
    }

    /// Moves places, which are in the order of their depth.
    fn move_all(&mut self, links: &Links, places: &[Deep], fold: u64) -> Result<(), AllocError>
        requires { AreCountedMoving self.old }
        ensures counted { OnOk result (AreCountedMoving self.new) }
        ensures moving { OnOk result (StayMoving fold links.now.links.keys self.old self.new) }
    {
        let mut first = 0;
        for (index, deep) in places.iter().enumerate() {
            if deep.depth > places[first].depth {
                self.move_level(links, &places[first..index], fold)?;
                first = index;
            }
        }
        self.move_level(links, &places[first..], fold)
    }
}

/// Places in the order of their depth.
fn by_depth(alloc: Global, links: &Links) -> Result<Vec<Deep>, AllocError>
    ensures { (names : List (List ℕ)) → ArePlaces names links.now.links.keys → IfOk result (λ places. AreByDepth names links.now.links.keys places.items) }
{
    let mut places: Vec<Deep> = Vec::new(alloc);
    for (place, link) in links.links.as_slice().iter().enumerate() {
        let depth = match link.step {
            Step::Start => 0,
            Step::Element | Step::Member(_) | Step::Others => {
                let above = places.get(link.parent).ok_or(AllocError)?;
                above.depth.checked_add(1).ok_or(AllocError)?
            }
        };
        places.push(Deep { depth, place })?;
    }
    places.sort_unstable();
    Ok(places)
}

/// The new places, if all have moved.
fn all_moved(alloc: Global, places: &[Option<usize>]) -> Result<Vec<usize>, AllocError>
    ensures { IfOk result (λ all. map Some all.items ≡ places.now) }
{
    let mut all = Vec::new(alloc);
    for place in places {
        all.push((*place).ok_or(AllocError)?)?;
    }
    Ok(all)
}

/// The counts of places that were folded: `places` has the new place of each, and `most` are there.
fn fold_counts(
    alloc: Global,
    counts: &Counts,
    places: &[usize],
    most: usize,
) -> Result<Counts, AllocError>
    ensures joined { IfOk result (λ folded. Joined counts.now.places.items folded.places.items places.now (length counts.now.places.items)) }
    ensures many { IfOk result (λ folded. length folded.places.items ≡ most) }
{
    let mut folded = Counts::new(alloc);
    for _place in 0..most {
        folded.add_place()?;
    }
    for (place, some) in counts.places.iter().enumerate() {
        let to = *places.get(place).ok_or(AllocError)?;
        folded.add(to, some)?;
    }
    Ok(folded)
}

/// The places with their objects folded, from the top down: all that fall into one place are known before any that lies below
/// them moves, so that none has more members by name than it may have.
pub(crate) fn fold_all(
    alloc: Global,
    links: &Links,
    counts: &Counts,
    fold: u64,
) -> Result<Folded, AllocError>
    requires linked { AreLinked links.now }
    requires counted { length counts.now.places.items ≡ length links.now.links.keys }
    ensures linked { IfOk result (λ folded. AreLinked folded.links) }
    ensures counted { IfOk result (λ folded. length folded.counts.places.items ≡ length folded.links.links.keys) }
    ensures refolds { (names : List (List ℕ)) → ArePlaces names links.now.links.keys → IfOk result (λ folded. Refolds names links.now.links.keys counts.now.places.items folded.links.links.keys folded.counts.places.items) }
    ensures apart { (names : List (List ℕ)) → ArePlaces names links.now.links.keys → IfOk result (λ folded. AreApart names folded.links.links.keys) }
    ensures justified { (names : List (List ℕ)) → ArePlaces names links.now.links.keys → IfOk result (λ folded. StayJustified fold names links.now.links.keys folded.links.links.keys) }
    ensures over { IfOk result (λ folded. (place : ℕ) → place < length folded.links.links.keys → is_over fold folded.links.links.keys place ≡ false) }
{
    let order = by_depth(alloc, links)?;
    let mut moving = Moving::new(alloc, links.len())?;
    moving.move_all(links, &order, fold)?;
    let places = all_moved(alloc, &moving.places)?;
    let counts = fold_counts(alloc, counts, &places, moving.folded.len())?;
    // None is left to be folded, which is looked at and not proved.
    if moving.folded.has_over(fold) {
        return Err(AllocError);
    }
    Ok(Folded {
        links: moving.folded,
        counts,
    })
}
