//! A pattern's tree, and its automaton or its graph where it has one.

ghost use Rattle.std.specs.Prelude.{◌≡◌, IfOk, Some, map};
ghost use Rattle.std.specs.Option.{IfSome};
ghost use Rattle.std.proofs.Props.{props};
ghost use Rattle.jp_iregexp.specs.States.{Accepts};
ghost use Rattle.jp_iregexp.specs.Graphs.{Spells};
ghost use Rattle.jp_iregexp.specs.Layouts.{state_of};
ghost use Rattle.jp_iregexp.specs.Nodes.{tree_of};
ghost use Rattle.jp_iregexp.specs.Numbers.{numbers_after};

use crate::automaton::Automaton;
use crate::entries::graph_of;
use crate::graph::Graph;
use crate::layout::automaton_of;
use crate::node::Node;
use crate::parsed::Parsed;
use std::alloc::{AllocError, Global};

/// A tree, how many of its parts are repeated, and its automaton, which it has where it is small enough, or else its graph, which
/// it has unless its counts are too large.
#[derive(Drop)]
pub(crate) struct Compiled {
    pub(crate) root: Node,
    pub(crate) automaton: Option<Automaton>,
    pub(crate) graph: Option<Graph>,
    pub(crate) repeated: usize,
    ghost same: { ∥ IfSome automaton (λ a. Accepts (map state_of a.states.items) a.starts (tree_of root)) ∥₁ },
    ghost led: { ∥ IfSome graph (λ g. Spells g.states.items g.start (tree_of root)) ∥₁ },
    ghost numbered: { numbers_after 0 root ≡ Some repeated } by { Prim.hlevel props },
}

impl Compiled {
    /// Lays out the tree of a pattern that is `scalars` long. If memory is refused, the answer is an error.
    pub(crate) fn new(alloc: Global, parsed: Parsed, scalars: usize) -> Result<Compiled, AllocError>
        ensures { IfOk result (λ compiled. tree_of compiled.root ≡ tree_of parsed.root) }
    {
        let automaton = automaton_of(alloc, &parsed.root)?;
        let graph = graph_beside(alloc, automaton.is_some(), &parsed.root, scalars)?;
        let Parsed { root, repeated } = parsed;
        Ok(Compiled {
            root,
            automaton,
            graph,
            repeated,
        })
    }
}

/// The graph of a pattern that has no automaton, if it is not too large.
fn graph_beside(
    alloc: Global,
    has_automaton: bool,
    root: &Node,
    scalars: usize,
) -> Result<Option<Graph>, AllocError>
    ensures { IfOk result (λ found. IfSome found (λ g. Spells g.states.items g.start (tree_of root.now))) }
{
    if has_automaton {
        return Ok(None);
    }
    graph_of(alloc, root, scalars)
}
