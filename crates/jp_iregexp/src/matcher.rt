//! Which positions a part of a pattern reaches.

ghost use Rattle.std.specs.Prelude.{◌<◌, ◌+◌, ◌*◌, ◌^◌, length, Some, IfOk, OnOk};
ghost use Rattle.jp_iregexp.specs.Positions.{AreEnds, AreStarts};
ghost use Rattle.jp_model.specs.Pattern.Language.{Language};
ghost use Rattle.jp_iregexp.specs.Right.{AreRight};
ghost use Rattle.jp_iregexp.specs.Tables.{Numbered, NumberedList, bodies_of};
ghost use Rattle.jp_iregexp.specs.Nodes.{tree_of, class_of, sequence_list, choice_list};
ghost use Rattle.jp_model.specs.Pattern.Tree.{one_of};

use crate::Result;
use crate::class::Class;
use crate::node::Node;
use crate::places::after_each;
use crate::positions::PositionSet;
use crate::tables::Tables;
use std::alloc::Global;

/// Among no more positions than this no scalar is looked for in the whole text.
const FEW: usize = 64;

/// The positions after one scalar of the class, from each of the starts.
fn class_ends(
    alloc: Global,
    class: &Class,
    text: &[char],
    starts: &PositionSet,
) -> Result<PositionSet>
    requires { AreStarts text.now starts.now }
    ensures { IfOk result (λ out. AreEnds (Language (one_of (class_of class.now))) text.now starts.now out) }
{
    let mut out = PositionSet::empty(alloc);
    let low = starts.low();
    let high = starts.high();
    for p in low..high.min(text.len()) {
        if starts.contains(p) && class.contains(text[p]) {
            out.insert(p + 1)?;
        }
    }
    Ok(out)
}

/// A text and the pattern that it is matched with.
#[derive(Drop)]
pub(crate) struct Matcher<'a> {
    pub(crate) alloc: Global,
    pub(crate) text: &'a [char],
    pub(crate) root: &'a Node,
}

impl Matcher<'_> {
    /// The positions where a text of the part ends that begins at one of the starts.
    #[cycle(ends)]
    pub(crate) fn ends(
        &self,
        node: &Node,
        starts: &PositionSet,
        tables: &mut Tables,
    ) -> Result<PositionSet>
        requires starts { AreStarts self.now.text.now starts.now }
        requires numbered { Numbered (bodies_of self.now.root.now) node.now }
        requires right { AreRight self.now.text.now self.now.root.now tables.old }
        ensures kept { OnOk result (AreRight self.now.text.now self.now.root.now tables.new) }
        ensures ends { IfOk result (λ out. AreEnds (Language (tree_of node.now)) self.now.text.now starts.now out) }
    {
        if !starts.has_any() {
            return Ok(PositionSet::empty(self.alloc));
        }
        match node {
            Node::Class(class) => self.scalar_ends(class, starts, tables),
            Node::Sequence(parts) => self.sequence_ends(parts.as_slice(), starts, tables),
            Node::Choice(parts) => self.choice_ends(parts.as_slice(), starts, tables),
            Node::Repeated {
                body,
                least,
                further,
                number,
                length,
            } => {
                let further = self.turns(*further);
                self.repeated_ends(body, *number, *length, *least, further, starts, tables)
            }
        }
    }

    /// The positions after one scalar of the class. Where it is alone in the class, and is asked for in most of a text, it is
    /// looked for once.
    fn scalar_ends(
        &self,
        class: &Class,
        starts: &PositionSet,
        tables: &mut Tables,
    ) -> Result<PositionSet>
        requires starts { AreStarts self.now.text.now starts.now }
        requires right { AreRight self.now.text.now self.now.root.now tables.old }
        ensures kept { OnOk result (AreRight self.now.text.now self.now.root.now tables.new) }
        ensures ends { IfOk result (λ out. AreEnds (Language (one_of (class_of class.now))) self.now.text.now starts.now out) }
    {
        if let Some(scalar) = class.only_ascii() {
            self.look_for(scalar, starts, tables)?;
            if let Some(after) = tables.after.get(scalar as usize) {
                return starts.moved_within(self.alloc, 1, after);
            }
        }
        class_ends(self.alloc, class, self.text, starts)
    }

    /// Looks for an ASCII scalar in the whole text, where it is asked for in most of it, and was not looked for yet.
    fn look_for(&self, scalar: u8, starts: &PositionSet, tables: &mut Tables) -> Result<()>
        requires fits { length self.now.text.now < 2 ^ 63 }
        requires right { AreRight self.now.text.now self.now.root.now tables.old }
        ensures { OnOk result (AreRight self.now.text.now self.now.root.now tables.new) }
    {
        let number = scalar as usize;
        let width = starts.high().saturating_sub(starts.low());
        if width <= FEW.max(self.text.len() / 2) {
            return Ok(());
        }
        if tables.after.get(number).is_some() {
            return Ok(());
        }
        let after = after_each(self.alloc, self.text, char::from(scalar))?;
        tables.after.keep(number, after)
    }

    /// The positions where the parts one after another end.
    #[cycle(ends)]
    fn sequence_ends(
        &self,
        parts: &[Node],
        starts: &PositionSet,
        tables: &mut Tables,
    ) -> Result<PositionSet>
        requires starts { AreStarts self.now.text.now starts.now }
        requires numbered { NumberedList (bodies_of self.now.root.now) parts.now }
        requires right { AreRight self.now.text.now self.now.root.now tables.old }
        ensures kept { OnOk result (AreRight self.now.text.now self.now.root.now tables.new) }
        ensures ends { IfOk result (λ out. AreEnds (Language (sequence_list parts.now)) self.now.text.now starts.now out) }
    {
        let mut reached = starts.copy(self.alloc)?;
        for part in parts {
            if !reached.has_any() {
                return Ok(reached);
            }
            reached = self.ends(part, &reached, tables)?;
        }
        Ok(reached)
    }

    /// The positions where one of the parts ends.
    #[cycle(ends)]
    fn choice_ends(
        &self,
        parts: &[Node],
        starts: &PositionSet,
        tables: &mut Tables,
    ) -> Result<PositionSet>
        requires starts { AreStarts self.now.text.now starts.now }
        requires numbered { NumberedList (bodies_of self.now.root.now) parts.now }
        requires right { AreRight self.now.text.now self.now.root.now tables.old }
        ensures kept { OnOk result (AreRight self.now.text.now self.now.root.now tables.new) }
        ensures ends { IfOk result (λ out. AreEnds (Language (choice_list parts.now)) self.now.text.now starts.now out) }
    {
        let mut all = PositionSet::empty(self.alloc);
        for part in parts {
            let reached = self.ends(part, starts, tables)?;
            all.add_all(&reached)?;
        }
        Ok(all)
    }
}
