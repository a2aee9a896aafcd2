//! The graph of a pattern, from its end on: each part is put in front of the state from which a text goes on after it.

ghost use Rattle.std.specs.Prelude.{◌≡◌, ◌++◌, ◌∷◌, [], ◌-◌, IfOk, Some, None, length};
ghost use Rattle.std.specs.Option.{IfSome};
ghost use Rattle.jp_model.specs.Pattern.Language.{Language, Repeats, RepeatsWithin};
ghost use Rattle.jp_model.specs.Pattern.Tree.{one_of};
ghost use Rattle.jp_iregexp.specs.Graphs.{AddsEntry, IsFan, Spells};
ghost use Rattle.jp_iregexp.specs.Layouts.{turns_in_front};
ghost use Rattle.jp_iregexp.specs.Nodes.{most_of, tree_of, class_of, sequence_list, choice_list};

use crate::branches::DEEP;
use crate::class::Class;
use crate::graph::{Graph, State};
use crate::layout::turns_in_front;
use crate::node::Node;
use std::alloc::{AllocError, AllocFailed, Global};

/// The number of parts that may be written out for the counts of a pattern, beyond twice the number of its scalars.
const MOST_COPIES: usize = 1_000;

/// Why there is no graph.
pub(crate) enum Stop {
    /// Its counts write out too many parts.
    Large,
    Memory,
}

impl From<AllocError> for Stop {
    fn from(_e: AllocError) -> Stop {
        Stop::Memory
    }
}

impl<T: Drop> From<AllocFailed<T>> for Stop {
    fn from(_e: AllocFailed<T>) -> Stop {
        Stop::Memory
    }
}

/// The states so far, and how many parts may still be put in front of them.
#[derive(Drop)]
pub(crate) struct Entries {
    pub(crate) states: Vec<State>,
    left: usize,
}

impl Entries {
    /// Adds a state, and gives its number.
    pub(crate) fn push(&mut self, state: State) -> Result<usize, Stop>
        ensures { IfOk result (λ number. (number ≡ length self.old.states.items) × (self.new.states.items ≡ self.old.states.items ++ state ∷ [])) }
    {
        let number = self.states.len();
        self.states.push(state)?;
        Ok(number)
    }

    /// The state from which a text goes through a part, and then on from `next`.
    #[cycle(entry)]
    fn entry(&mut self, alloc: Global, node: &Node, next: usize) -> Result<usize, Stop>
        ensures { IfOk result (λ entry. AddsEntry self.old.states.items self.new.states.items (Language (tree_of node.now)) next entry) }
    {
        if self.left == 0 {
            return Err(Stop::Large);
        }
        self.left -= 1;
        match node {
            Node::Class(class) => self.scalar(alloc, class, next),
            Node::Sequence(parts) => self.sequence(alloc, parts.as_slice(), next),
            Node::Choice(parts) => self.choice(alloc, parts.as_slice(), next),
            Node::Repeated {
                body,
                least,
                further,
                ..
            } => self.repeated(alloc, body, *least, *further, next),
        }
    }

    /// In front of `next` a scalar of the class.
    fn scalar(&mut self, alloc: Global, class: &Class, next: usize) -> Result<usize, Stop>
        ensures { IfOk result (λ entry. AddsEntry self.old.states.items self.new.states.items (Language (one_of (class_of class.now))) next entry) }
    {
        let class = class.copy(alloc)?;
        self.push(State::Scalar { class, next })
    }

    /// In front of `next` the parts one after another.
    #[cycle(entry)]
    fn sequence(&mut self, alloc: Global, parts: &[Node], next: usize) -> Result<usize, Stop>
        ensures { IfOk result (λ entry. AddsEntry self.old.states.items self.new.states.items (Language (sequence_list parts.now)) next entry) }
    {
        let mut at = next;
        for number in (0..parts.len()).rev() {
            at = self.entry(alloc, &parts[number], at)?;
        }
        Ok(at)
    }

    /// In front of `next` one of the branches.
    #[cycle(entry)]
    fn choice(&mut self, alloc: Global, parts: &[Node], next: usize) -> Result<usize, Stop>
        ensures { IfOk result (λ entry. AddsEntry self.old.states.items self.new.states.items (Language (choice_list parts.now)) next entry) }
    {
        let base = self.states.len();
        let mut branches = Vec::new(alloc);
        for part in parts {
            let entry = self.entry(alloc, part, next)?;
            branches.push(entry)?;
        }
        self.merged(alloc, branches, base, DEEP)
    }

    /// In front of `next` the turns of a part: those that each text has, and then the last ones.
    #[cycle(entry)]
    fn repeated(
        &mut self,
        alloc: Global,
        body: &Node,
        least: u32,
        further: Option<u32>,
        next: usize,
    ) -> Result<usize, Stop>
        ensures { IfOk result (λ entry. AddsEntry self.old.states.items self.new.states.items (RepeatsWithin (Language (tree_of body.now)) least (most_of least further)) next entry) }
    {
        let at = self.last_turns(alloc, body, least, further, next)?;
        self.exact(alloc, body, turns_in_front(least, further), at)
    }

    /// In front of `next` the turns that `turns_in_front` leaves.
    #[cycle(entry)]
    fn last_turns(
        &mut self,
        alloc: Global,
        body: &Node,
        least: u32,
        further: Option<u32>,
        next: usize,
    ) -> Result<usize, Stop>
        ensures { IfOk result (λ entry. AddsEntry self.old.states.items self.new.states.items (RepeatsWithin (Language (tree_of body.now)) (least - turns_in_front least further) further) next entry) }
    {
        match further {
            Some(further) => self.up_to(alloc, body, further, next),
            None => self.any(alloc, body, least, next),
        }
    }

    /// In front of `next` exactly `count` turns. Those that are too many are not begun.
    #[cycle(entry)]
    fn exact(&mut self, alloc: Global, body: &Node, count: u32, next: usize) -> Result<usize, Stop>
        ensures { IfOk result (λ entry. AddsEntry self.old.states.items self.new.states.items (Repeats (Language (tree_of body.now)) count) next entry) }
    {
        if count as usize > self.left {
            return Err(Stop::Large);
        }
        let mut at = next;
        for turn in 0..count {
            at = self.entry(alloc, body, at)?;
        }
        Ok(at)
    }

    /// In front of `next` up to `most` turns.
    #[cycle(entry)]
    fn up_to(&mut self, alloc: Global, body: &Node, most: u32, next: usize) -> Result<usize, Stop>
        ensures { IfOk result (λ entry. AddsEntry self.old.states.items self.new.states.items (RepeatsWithin (Language (tree_of body.now)) 0 (Some most)) next entry) }
    {
        if most as usize > self.left {
            return Err(Stop::Large);
        }
        let mut at = next;
        for turn in 0..most {
            let entry = self.entry(alloc, body, at)?;
            let fan = fan_of(alloc, entry, next)?;
            at = self.push(fan)?;
        }
        Ok(at)
    }

    /// In front of `next` any number of turns, or at least one where `least` is not 0. The state to which each turn leads comes
    /// first, and is told afterwards where it leads.
    #[cycle(entry)]
    fn any(&mut self, alloc: Global, body: &Node, least: u32, next: usize) -> Result<usize, Stop>
        ensures { IfOk result (λ entry. AddsEntry self.old.states.items self.new.states.items (RepeatsWithin (Language (tree_of body.now)) (least - (least - 1)) None) next entry) }
    {
        let turns = self.push(State::Fan(Vec::new(alloc)))?;
        let entry = self.entry(alloc, body, turns)?;
        self.states[turns] = fan_of(alloc, entry, next)?;
        if least == 0 {
            return Ok(turns);
        }
        Ok(entry)
    }
}

/// The state from which a text goes on as from either of the two.
fn fan_of(alloc: Global, one: usize, other: usize) -> Result<State, AllocError>
    ensures { IfOk result (λ state. IsFan state (one ∷ other ∷ [])) }
{
    let targets = vec![in alloc; one, other]?;
    Ok(State::Fan(targets))
}

/// The graph of a pattern that is `scalars` long, or none where its counts write out too many parts.
pub(crate) fn graph_of(
    alloc: Global,
    root: &Node,
    scalars: usize,
) -> Result<Option<Graph>, AllocError>
    ensures { IfOk result (λ found. IfSome found (λ graph. Spells graph.states.items graph.start (tree_of root.now))) }
{
    match built(alloc, root, scalars) {
        Ok(graph) => Ok(Some(graph)),
        Err(Stop::Large) => Ok(None),
        Err(Stop::Memory) => Err(AllocError),
    }
}

/// The graph of a pattern: the end comes first, and the rest in front of it.
fn built(alloc: Global, root: &Node, scalars: usize) -> Result<Graph, Stop>
    ensures { IfOk result (λ graph. Spells graph.states.items graph.start (tree_of root.now)) }
{
    let mut entries = Entries {
        states: Vec::new(alloc),
        left: scalars.saturating_mul(2).saturating_add(MOST_COPIES),
    };
    let end = entries.push(State::Fan(Vec::new(alloc)))?;
    let start = entries.entry(alloc, root, end)?;
    Ok(Graph {
        states: entries.states,
        start,
    })
}
