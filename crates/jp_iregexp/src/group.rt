//! What was read of one group of a pattern (RFC 9485, section 3).

ghost use Rattle.std.specs.Prelude.{◌≡◌, ℕ, IfOk, IsTrue, OnOk, Some, None, if◌then◌else◌, option_and_then};
ghost use Rattle.jp_iregexp.specs.Groups.{group_of, atom_of, latest_first};
ghost use Rattle.jp_model.specs.Pattern.Groups.{fresh, with_atom, add_atom, add_count, next_branch, whole_of};
ghost use Rattle.jp_iregexp.specs.Nodes.{most_of, tree_of};
ghost use Rattle.jp_iregexp.specs.Numbers.{group_after, next_of, numbers_after};

use crate::lengths::common_length;
use crate::node::Node;
use std::alloc::{AllocError, Global};

/// The finished branches, the pieces of the last one, and the atom that a quantifier may still follow.
#[derive(Drop)]
pub(crate) struct Group {
    branches: Vec<Node>,
    pieces: Vec<Node>,
    atom: Option<Node>,
}

impl Group {
    /// A group with nothing read yet.
    pub(crate) fn new(alloc: Global) -> Group
        ensures group { group_of result ≡ fresh }
        ensures numbers { (first : ℕ) → group_after first result ≡ Some first }
    {
        Group {
            branches: Vec::new(alloc),
            pieces: Vec::new(alloc),
            atom: None,
        }
    }

    /// One more atom.
    pub(crate) fn add_atom(&mut self, atom: Node) -> Result<(), AllocError>
        ensures group { OnOk result (group_of self.new ≡ add_atom (tree_of atom) (group_of self.old)) }
        ensures numbers { OnOk result ((first : ℕ) → group_after first self.new ≡ option_and_then (λ due. numbers_after due atom) (group_after first self.old)) }
    {
        self.end_piece()?;
        self.atom = Some(atom);
        Ok(())
    }

    /// The atom, where there is one, becomes a piece, as no quantifier follows it.
    #[tactic(auto, using(crate::proofs::Built::first_push))]
    fn end_piece(&mut self) -> Result<(), AllocError>
        ensures pieces { OnOk result (latest_first self.new.pieces.items ≡ with_atom (atom_of self.old.atom) (latest_first self.old.pieces.items)) }
        ensures atom { OnOk result (self.new.atom ≡ None) }
        ensures branches { self.new.branches ≡ self.old.branches }
        ensures numbers { OnOk result ((first : ℕ) → group_after first self.new ≡ group_after first self.old) }
    {
        if let Some(piece) = self.atom.take() {
            self.pieces.push(piece)?;
        }
        Ok(())
    }

    /// The atom with a quantifier after it, which gets this number, and whether there is an atom. The length of the atom's texts
    /// is noted beside the number. Where there is no atom, nothing changes.
    #[tactic(auto, using(crate::proofs::Built::first_push))]
    pub(crate) fn add_count(
        &mut self,
        alloc: Global,
        least: u32,
        further: Option<u32>,
        number: usize,
    ) -> Result<bool, AllocError>
        ensures group { IfOk result (λ stands. add_count least (most_of least further) (group_of self.old) (group_of self.old).atom ≡ (if stands then Some (group_of self.new) else None)) }
        ensures numbers { IfOk result (λ stands. IsTrue stands → (first : ℕ) → group_after first self.new ≡ option_and_then (λ due. next_of due number) (group_after first self.old)) }
    {
        match self.atom.take() {
            None => Ok(false),
            Some(atom) => {
                let length = common_length(&atom);
                self.pieces.push(Node::Repeated {
                    body: Box::new(alloc, atom)?,
                    least,
                    further,
                    number,
                    length,
                })?;
                Ok(true)
            }
        }
    }

    /// The branch ends, and another begins.
    #[tactic(auto, using(crate::proofs::Built::first_push))]
    pub(crate) fn end_branch(&mut self, alloc: Global) -> Result<(), AllocError>
        ensures group { OnOk result (group_of self.new ≡ next_branch (group_of self.old)) }
        ensures numbers { OnOk result ((first : ℕ) → group_after first self.new ≡ group_after first self.old) }
    {
        self.end_piece()?;
        let pieces = std::mem::replace(&mut self.pieces, Vec::new(alloc));
        self.branches.push(Node::Sequence(pieces))?;
        Ok(())
    }

    /// The group as one part.
    #[tactic(auto, using(crate::proofs::Built::first_push))]
    pub(crate) fn into_node(mut self, alloc: Global) -> Result<Node, AllocError>
        ensures tree { IfOk result (λ node. tree_of node ≡ whole_of (group_of self)) }
        ensures numbers { IfOk result (λ node. (first : ℕ) → numbers_after first node ≡ group_after first self) }
    {
        self.end_branch(alloc)?;
        let Group {
            branches,
            pieces,
            atom,
        } = self;
        Ok(Node::Choice(branches))
    }
}
