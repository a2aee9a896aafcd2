//! Values in canonical form.

ghost use Rattle.std.specs.Prelude.{◌≡◌, ◌++◌, ◌∷◌, [], map, OnOk, OnErr, if◌then◌else◌};
ghost use Rattle.jp_canon.specs.Canonical.{canonical_text, bracketed, element_texts, member_texts, by_name};
ghost use Rattle.jp_canon.specs.Members.{text_of};
ghost use Rattle.jp_model.specs.Json.Tree.{array as array_of, object as object_of, value_of};
ghost use Rattle.jp_nodes.specs.Cursors.{node_of};
ghost use Rattle.jp_nodes.specs.Spots.{children_in};

use crate::layout::append_number;
use crate::members::append_by_name;
use crate::string::append_string;
use jp_nodes::{Cursor, Kind};
use jp_values::Member;
use std::alloc::{AllocError, Global};

/// Appends a comma, but not before the first of some elements or members.
fn append_comma(is_first: bool, text: &mut Vec<u8>) -> Result<(), AllocError>
    ensures { OnOk result (text.new.items ≡ text.old.items ++ (if is_first then [] else 0x2C ∷ [])) }
{
    if is_first {
        return Ok(());
    }
    text.push(b',')?;
    Ok(())
}

/// Appends a member: its name, and its value. The list of members is used, and left as it was.
#[cycle(value)]
fn append_member<'a>(
    alloc: Global,
    member: Member<'a>,
    members: &mut Vec<Member<'a>>,
    text: &mut Vec<u8>,
) -> Result<(), AllocError>
    ensures text { OnOk result (text.new.items ≡ text.old.items ++ text_of member.entry) }
    ensures members { OnOk result (members.new.items ≡ members.old.items) }
{
    append_string(member.name, text)?;
    text.push(b':')?;
    append_value(alloc, member.node, members, text)
}

/// Appends an object, with its members in the order of their names.
#[cycle(value)]
fn append_object<'a>(
    alloc: Global,
    object: Cursor<'a>,
    members: &mut Vec<Member<'a>>,
    text: &mut Vec<u8>,
) -> Result<(), AllocError>
    ensures text { OnOk result (text.new.items ≡ text.old.items ++ bracketed object_of (map (λ m. m.text) (by_name (member_texts (children_in (value_of (node_of object.entry).tree)))))) }
    ensures members { OnOk result (members.new.items ≡ members.old.items) }
{
    let from = members.len();
    append_by_name(object, members)?;
    text.push(b'{')?;
    for index in from..members.len() {
        append_comma(index == from, text)?;
        append_member(alloc, members[index], members, text)?;
    }
    members.truncate(from);
    text.push(b'}')?;
    Ok(())
}

/// Appends an array.
#[cycle(value)]
fn append_array<'a>(
    alloc: Global,
    array: Cursor<'a>,
    members: &mut Vec<Member<'a>>,
    text: &mut Vec<u8>,
) -> Result<(), AllocError>
    ensures text { OnOk result (text.new.items ≡ text.old.items ++ bracketed array_of (element_texts (children_in (value_of (node_of array.entry).tree)))) }
    ensures members { OnOk result (members.new.items ≡ members.old.items) }
{
    text.push(b'[')?;
    let mut is_first = true;
    let mut next = array.first_child();
    while let Some(element) = next {
        append_comma(is_first, text)?;
        append_value(alloc, element, members, text)?;
        is_first = false;
        next = element.next_sibling();
    }
    text.push(b']')?;
    Ok(())
}

/// Appends a value. It nests as deep as the value does.
#[cycle(value)]
fn append_value<'a>(
    alloc: Global,
    node: Cursor<'a>,
    members: &mut Vec<Member<'a>>,
    text: &mut Vec<u8>,
) -> Result<(), AllocError>
    ensures text { OnOk result (text.new.items ≡ text.old.items ++ canonical_text (node_of node.entry).tree) }
    ensures members { OnOk result (members.new.items ≡ members.old.items) }
{
    match node.kind() {
        Kind::Null => text.extend_from_slice(b"null"),
        Kind::False => text.extend_from_slice(b"false"),
        Kind::True => text.extend_from_slice(b"true"),
        Kind::Number => append_number(alloc, &node.number().unwrap(), text),
        Kind::Text => append_string(node.text().unwrap(), text),
        Kind::Array => append_array(alloc, node, members, text),
        Kind::Object => append_object(alloc, node, members, text),
    }
}

/// Writes nodes in canonical form. Its memory is lent from node to node.
#[derive(Drop)]
pub struct Printer {
    alloc: Global,
    /// The text of a node, as far as it is made. It is appended once it is whole.
    made: Vec<u8>,
}

impl Printer {
    /// A printer that has made no text yet.
    pub fn new(alloc: Global) -> Printer {
        Printer {
            alloc,
            made: Vec::new(alloc),
        }
    }

    /// Appends the canonical text of a node: that of all values that are equal to the node's (RFC 9535, section 2.3.5.2.2).
    ///
    /// # Errors
    ///
    /// Memory ran out. The text is as before.
    pub fn append(&mut self, node: Cursor<'_>, text: &mut Vec<u8>) -> Result<(), AllocError>
        ensures text { OnOk result (text.new.items ≡ text.old.items ++ canonical_text (node_of node.entry).tree) }
        ensures kept { OnErr result (text.new.items ≡ text.old.items) }
    {
        // It lists nodes of this line, so it is not kept. Where there is no object it takes no memory.
        let mut members = Vec::new(self.alloc);
        self.made.clear();
        append_value(self.alloc, node, &mut members, &mut self.made)?;
        text.extend_from_slice(&self.made)
    }
}
