//! The states of a pattern's parts, by Glushkov's construction: a state for each class, numbered as they are read. Each part
//! says once which of its states take a first scalar, which take a last one, and whether it can be empty. Parts are put
//! together by links: what follows a part waits after its last states.

ghost use Rattle.std.specs.Prelude.{◌≡◌, ◌<◌, ◌^◌, ◌&&◌, ◌||◌, ◌-◌, IfOk, bit_or, map, true, Some, None};
ghost use Rattle.std.specs.Option.{IfSome};
ghost use Rattle.jp_model.specs.Pattern.Language.{Language, Repeats, RepeatsWithin};
ghost use Rattle.jp_model.specs.Pattern.Tree.{one_of};
ghost use Rattle.jp_iregexp.specs.States.{through, Accepts};
ghost use Rattle.jp_iregexp.specs.Layouts.{AreLinked, LaidOnto, state_of, turns_in_front};
ghost use Rattle.jp_iregexp.specs.Nodes.{most_of, tree_of, class_of, sequence_list, choice_list};

use crate::automaton::{Automaton, END, MOST_STATES, State};
use crate::class::Class;
use crate::node::Node;
use std::alloc::{AllocError, Global};

/// The states that take a first scalar of a part, those that take a last one, and whether the empty text is in its set.
#[derive(Clone, Copy)]
pub(crate) struct Part {
    pub(crate) first: u64,
    pub(crate) last: u64,
    pub(crate) has_empty: bool,
}

/// The empty text alone.
const NOTHING: Part = Part {
    first: 0,
    last: 0,
    has_empty: true,
};

impl Part {
    /// The one part or the other.
    fn or(self, other: Part) -> Part
        ensures first { result.first ≡ bit_or self.first other.first }
        ensures last { result.last ≡ bit_or self.last other.last }
        ensures has_empty { result.has_empty ≡ (self.has_empty || other.has_empty) }
    {
        Part {
            first: self.first | other.first,
            last: self.last | other.last,
            has_empty: self.has_empty || other.has_empty,
        }
    }
}

/// The states of a part, and those beyond it too where the part can be empty.
fn through(has_empty: bool, states: u64, beyond: u64) -> u64
    ensures { result ≡ through has_empty states beyond }
{
    if has_empty { states | beyond } else { states }
}

/// The states so far.
#[derive(Drop)]
pub(crate) struct Layout {
    states: Vec<State>,
}

impl Layout {
    /// Lays a part out, or gives up where there are too many states.
    #[cycle(layout)]
    fn part(&mut self, alloc: Global, node: &Node) -> Result<Option<Part>, AllocError>
        ensures { IfOk result (λ found. IfSome found (λ p. LaidOnto (map state_of self.old.states.items) (map state_of self.new.states.items) (Language (tree_of node.now)) p.first p.last p.has_empty)) }
    {
        match node {
            Node::Class(class) => self.class(alloc, class),
            Node::Sequence(parts) => self.sequence(alloc, parts.as_slice()),
            Node::Choice(parts) => self.choice(alloc, parts.as_slice()),
            Node::Repeated {
                body,
                least,
                further,
                ..
            } => self.repeated(alloc, body, *least, *further),
        }
    }

    /// Lays a class out as one more state, after which nothing waits yet.
    fn class(&mut self, alloc: Global, class: &Class) -> Result<Option<Part>, AllocError>
        ensures { IfOk result (λ found. IfSome found (λ p. LaidOnto (map state_of self.old.states.items) (map state_of self.new.states.items) (Language (one_of (class_of class.now))) p.first p.last p.has_empty)) }
    {
        let number = self.states.len();
        if number >= MOST_STATES {
            return Ok(None);
        }
        let class = class.copy(alloc)?;
        self.states.push(State { class, after: 0 })?;
        Ok(Some(Part {
            first: 1 << number,
            last: 1 << number,
            has_empty: false,
        }))
    }

    /// Lays the parts out one after another: the first states of each wait after the last ones of those before it.
    #[cycle(layout)]
    fn sequence(&mut self, alloc: Global, parts: &[Node]) -> Result<Option<Part>, AllocError>
        ensures { IfOk result (λ found. IfSome found (λ p. LaidOnto (map state_of self.old.states.items) (map state_of self.new.states.items) (Language (sequence_list parts.now)) p.first p.last p.has_empty)) }
    {
        let mut all = NOTHING;
        for part in parts {
            let Some(next) = self.part(alloc, part)? else {
                return Ok(None);
            };
            all = self.joined(all, next);
        }
        Ok(Some(all))
    }

    /// Lays the branches out, with no link from one to another.
    #[cycle(layout)]
    fn choice(&mut self, alloc: Global, parts: &[Node]) -> Result<Option<Part>, AllocError>
        ensures { IfOk result (λ found. IfSome found (λ p. LaidOnto (map state_of self.old.states.items) (map state_of self.new.states.items) (Language (choice_list parts.now)) p.first p.last p.has_empty)) }
    {
        let mut all = Part {
            has_empty: false,
            ..NOTHING
        };
        for part in parts {
            let Some(next) = self.part(alloc, part)? else {
                return Ok(None);
            };
            all = all.or(next);
        }
        Ok(Some(all))
    }

    /// Lays out the turns of a part: those in front, which each text has, and then the last ones.
    #[cycle(layout)]
    fn repeated(
        &mut self,
        alloc: Global,
        body: &Node,
        least: u32,
        further: Option<u32>,
    ) -> Result<Option<Part>, AllocError>
        ensures { IfOk result (λ found. IfSome found (λ p. LaidOnto (map state_of self.old.states.items) (map state_of self.new.states.items) (RepeatsWithin (Language (tree_of body.now)) least (most_of least further)) p.first p.last p.has_empty)) }
    {
        let Some(front) = self.exact(alloc, body, turns_in_front(least, further))? else {
            return Ok(None);
        };
        let Some(back) = self.last_turns(alloc, body, least, further)? else {
            return Ok(None);
        };
        Ok(Some(self.joined(front, back)))
    }

    /// Lays out the turns that `turns_in_front` leaves.
    #[cycle(layout)]
    fn last_turns(
        &mut self,
        alloc: Global,
        body: &Node,
        least: u32,
        further: Option<u32>,
    ) -> Result<Option<Part>, AllocError>
        ensures { IfOk result (λ found. IfSome found (λ p. LaidOnto (map state_of self.old.states.items) (map state_of self.new.states.items) (RepeatsWithin (Language (tree_of body.now)) (least - turns_in_front least further) further) p.first p.last p.has_empty)) }
    {
        match further {
            Some(further) => self.up_to(alloc, body, further),
            None => self.any(alloc, body, least),
        }
    }

    /// Lays out exactly `count` turns. They end where a turn has no state, and is the empty text or none.
    #[cycle(layout)]
    fn exact(&mut self, alloc: Global, body: &Node, count: u32) -> Result<Option<Part>, AllocError>
        ensures { IfOk result (λ found. IfSome found (λ p. LaidOnto (map state_of self.old.states.items) (map state_of self.new.states.items) (Repeats (Language (tree_of body.now)) count) p.first p.last p.has_empty)) }
    {
        let mut all = NOTHING;
        for turn in 0..count {
            let Some(next) = self.part(alloc, body)? else {
                return Ok(None);
            };
            all = self.joined(all, next);
            if next.first == 0 {
                return Ok(Some(all));
            }
        }
        Ok(Some(all))
    }

    /// Lays out up to `most` turns. They end where a turn has no state.
    #[cycle(layout)]
    fn up_to(&mut self, alloc: Global, body: &Node, most: u32) -> Result<Option<Part>, AllocError>
        ensures { IfOk result (λ found. IfSome found (λ p. LaidOnto (map state_of self.old.states.items) (map state_of self.new.states.items) (RepeatsWithin (Language (tree_of body.now)) 0 (Some most)) p.first p.last p.has_empty)) }
    {
        let mut all = NOTHING;
        for turn in 0..most {
            let Some(next) = self.part(alloc, body)? else {
                return Ok(None);
            };
            if next.first == 0 {
                return Ok(Some(all));
            }
            let more = self.joined(all, next);
            all = Part {
                has_empty: true,
                ..more
            };
        }
        Ok(Some(all))
    }

    /// Lays out any number of turns, or at least one where `least` is not 0: after the last states the first ones wait again.
    #[cycle(layout)]
    fn any(&mut self, alloc: Global, body: &Node, least: u32) -> Result<Option<Part>, AllocError>
        ensures { IfOk result (λ found. IfSome found (λ p. LaidOnto (map state_of self.old.states.items) (map state_of self.new.states.items) (RepeatsWithin (Language (tree_of body.now)) (least - (least - 1)) None) p.first p.last p.has_empty)) }
    {
        let Some(turn) = self.part(alloc, body)? else {
            return Ok(None);
        };
        self.link(turn.last, turn.first);
        Ok(Some(Part {
            has_empty: turn.has_empty || least == 0,
            ..turn
        }))
    }

    /// Links the one part to the other, and gives the two as one part.
    fn joined(&mut self, one: Part, other: Part) -> Part
        ensures linked { AreLinked one.last other.first (map state_of self.old.states.items) (map state_of self.new.states.items) }
        ensures first { result.first ≡ through one.has_empty one.first other.first }
        ensures last { result.last ≡ through other.has_empty other.last one.last }
        ensures has_empty { result.has_empty ≡ (one.has_empty && other.has_empty) }
    {
        self.link(one.last, other.first);
        Part {
            first: through(one.has_empty, one.first, other.first),
            last: through(other.has_empty, other.last, one.last),
            has_empty: one.has_empty && other.has_empty,
        }
    }

    /// After each of the last states the first ones wait too.
    fn link(&mut self, last: u64, first: u64)
        ensures { AreLinked last first (map state_of self.old.states.items) (map state_of self.new.states.items) }
    {
        let mut rest = last;
        while rest != 0 {
            self.link_one(rest.trailing_zeros() as usize, first);
            rest &= rest - 1;
        }
    }

    /// After the state with this number, where there is one, the first ones wait too.
    fn link_one(&mut self, number: usize, first: u64)
        requires { number < 64 }
        ensures { AreLinked (2 ^ number) first (map state_of self.old.states.items) (map state_of self.new.states.items) }
    {
        if let Some(state) = self.states.get_mut(number) {
            state.after |= first;
        }
    }
}

/// How many turns come in front of the last ones: those are the further ones, or any number of them with one of the least.
pub(crate) fn turns_in_front(least: u32, further: Option<u32>) -> u32
    ensures { result ≡ turns_in_front least further }
{
    if further.is_some() {
        least
    } else {
        least.saturating_sub(1)
    }
}

/// The automaton of a pattern, or none where it is too large.
pub(crate) fn automaton_of(alloc: Global, root: &Node) -> Result<Option<Automaton>, AllocError>
    ensures { IfOk result (λ found. IfSome found (λ a. Accepts (map state_of a.states.items) a.starts (tree_of root.now))) }
{
    let mut layout = Layout {
        states: Vec::new(alloc),
    };
    let Some(all) = layout.part(alloc, root)? else {
        return Ok(None);
    };
    if layout.states.len() > MOST_STATES {
        return Ok(None);
    }
    layout.link(all.last, END);
    let starts = through(all.has_empty, all.first, END);
    let automaton = Automaton::new(alloc, layout.states, starts)?;
    Ok(Some(automaton))
}
