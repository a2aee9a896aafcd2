//! The length that all texts of a part have, if they have one.

ghost use Rattle.std.specs.Prelude.{◌≡◌, None};
ghost use Rattle.jp_iregexp.specs.Lengths.{bounded, length_of, sum_list, common_list};

use crate::node::Node;

/// No length is above this one.
const LONGEST: usize = 1 << 31;

/// The length, if it is not above the longest.
fn bounded(length: usize) -> Option<u32>
    ensures { result ≡ bounded length }
{
    if length > LONGEST {
        return None;
    }
    Some(length as u32)
}

/// The length of each text of the part, if they have one, and it is not above the longest. The length of a repeated part's body
/// is noted in the tree, so the body is not visited again.
#[cycle(length)]
pub(crate) fn common_length(node: &Node) -> Option<u32>
    ensures { result ≡ length_of node.now }
{
    match node {
        Node::Class(_) => Some(1),
        Node::Sequence(parts) => sequence_length(parts.as_slice()),
        Node::Choice(parts) => choice_length(parts.as_slice()),
        Node::Repeated {
            least,
            further,
            length,
            ..
        } => {
            if *further != Some(0) {
                return None;
            }
            let once = (*length)?;
            bounded(once as usize * *least as usize)
        }
    }
}

/// The sum of the parts' lengths, if each of them has one and the sum is not above the longest.
#[cycle(length)]
fn sequence_length(parts: &[Node]) -> Option<u32>
    ensures { result ≡ sum_list 0 parts.now }
{
    let mut length = 0;
    for part in parts {
        let next = common_length(part)?;
        length = bounded(length as usize + next as usize)?;
    }
    Some(length)
}

/// The length that each of the branches has, if it is the same.
#[cycle(length)]
fn choice_length(parts: &[Node]) -> Option<u32>
    ensures { result ≡ common_list None parts.now }
{
    let mut common = None;
    for part in parts {
        let next = common_length(part)?;
        if let Some(length) = common {
            if length != next {
                return None;
            }
        }
        common = Some(next);
    }
    common
}
