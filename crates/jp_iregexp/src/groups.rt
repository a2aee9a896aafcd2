//! The groups of a pattern that are open while it is read (RFC 9485, section 3).

ghost use Rattle.std.specs.Prelude.{◌≡◌, ◌+◌, ◌-◌, ◌^◌, ◌<◌, ◌≤◌, IfOk, IfSome, [], ◌∷◌, Some, option_map};
ghost use Rattle.std.proofs.Props.{props};
ghost use Rattle.jp_model.specs.Pattern.Groups.{fresh, whole_of, close_group, after_token, at_end};
ghost use Rattle.jp_iregexp.specs.Numbers.{groups_after};
ghost use Rattle.jp_iregexp.specs.Nodes.{tree_of};

use crate::group::Group;
use crate::node::Node;
use crate::parsed::Parsed;
use crate::token::Token;
use std::alloc::{AllocError, Global};

/// The innermost group, and those around it, the outermost first. What is repeated in them is numbered in the order of reading.
#[derive(Drop)]
pub(crate) struct Groups {
    now: Group,
    around: Vec<Group>,
    /// How many parts are repeated so far: the number of the next.
    pub(crate) repeated: usize,
    ghost numbered: { groups_after 0 around.items now ≡ Some repeated } by { Prim.hlevel props },
}

impl Groups {
    ghost use Rattle.jp_iregexp.specs.Groups.{groups_of};
    ghost use Rattle.jp_iregexp.specs.Tokens.{token_of};

    /// One group with nothing read yet.
    pub(crate) fn new(alloc: Global) -> Groups
        ensures groups { groups_of result ≡ record { now = fresh; around = [] } }
        ensures none { result.repeated ≡ 0 }
    {
        Groups {
            now: Group::new(alloc),
            around: Vec::new(alloc),
            repeated: 0,
        }
    }

    /// A group begins, and is the innermost one.
    #[tactic(auto, using(crate::proofs::Built::latest_group))]
    fn open(self, alloc: Global) -> Result<Groups, AllocError>
        ensures groups { IfOk result (λ more. groups_of more ≡ record { now = fresh; around = (groups_of self).now ∷ (groups_of self).around }) }
        ensures repeated { IfOk result (λ more. more.repeated ≡ self.repeated) }
    {
        let Groups {
            now,
            mut around,
            repeated,
        } = self;
        around.push(now)?;
        Ok(Groups {
            now: Group::new(alloc),
            around,
            repeated,
        })
    }

    /// The innermost group ends, if it is in another one.
    #[tactic(auto, using(crate::proofs::Built::latest_group))]
    fn close(self, alloc: Global) -> Result<Option<Groups>, AllocError>
        ensures groups { IfOk result (λ found. close_group (whole_of (groups_of self).now) (groups_of self).around ≡ option_map groups_of found) }
        ensures repeated { IfOk result (λ found. IfSome found (λ more. more.repeated ≡ self.repeated)) }
    {
        let Groups {
            now: inner,
            mut around,
            repeated,
        } = self;
        match around.pop() {
            None => Ok(None),
            Some(mut now) => {
                now.add_atom(inner.into_node(alloc)?)?;
                Ok(Some(Groups {
                    now,
                    around,
                    repeated,
                }))
            }
        }
    }

    /// One more token, if it is allowed there.
    pub(crate) fn add(mut self, alloc: Global, token: Token) -> Result<Option<Groups>, AllocError>
        requires { self.repeated < 2 ^ 64 - 1 }
        ensures groups { IfOk result (λ found. after_token (token_of token) (groups_of self) ≡ option_map groups_of found) }
        ensures repeated { IfOk result (λ found. IfSome found (λ more. more.repeated ≤ self.repeated + 1)) }
    {
        match token {
            Token::Class(class) => {
                self.now.add_atom(Node::Class(class))?;
                Ok(Some(self))
            }
            Token::Open => Ok(Some(self.open(alloc)?)),
            Token::Close => self.close(alloc),
            Token::Bar => {
                self.now.end_branch(alloc)?;
                Ok(Some(self))
            }
            Token::Count(least, further) => {
                let number = self.repeated;
                if !self.now.add_count(alloc, least, further, number)? {
                    return Ok(None);
                }
                self.repeated = number + 1;
                Ok(Some(self))
            }
        }
    }

    /// The pattern, where no group is left open.
    pub(crate) fn into_root(self, alloc: Global) -> Result<Option<Parsed>, AllocError>
        ensures { IfOk result (λ found. option_map (λ parsed. tree_of parsed.root) found ≡ at_end (groups_of self).now (groups_of self).around) }
    {
        let Groups {
            now,
            around,
            repeated,
        } = self;
        if around.is_empty() {
            let root = now.into_node(alloc)?;
            Ok(Some(Parsed { root, repeated }))
        } else {
            Ok(None)
        }
    }
}
