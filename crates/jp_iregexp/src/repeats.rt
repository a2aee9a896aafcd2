//! Which positions the turns of a repeated part reach.

ghost use Rattle.std.specs.Prelude.{◌≡◌, ◌<◌, ◌≤◌, ◌+◌, ◌*◌, ◌^◌, ◌⊎◌, length, get_or, Some, IfOk, OnOk};
ghost use Rattle.jp_iregexp.specs.Evens.{HaveLength};
ghost use Rattle.jp_iregexp.specs.Positions.{AreEnds, AreStarts, IsClosed};
ghost use Rattle.jp_model.specs.Pattern.Language.{Language, Repeats, RepeatsWithin};
ghost use Rattle.jp_iregexp.specs.Right.{AreRight};
ghost use Rattle.jp_iregexp.specs.Tables.{IsLength, IsTable, Numbered, NumberedTurns, bodies_of};
ghost use Rattle.jp_iregexp.specs.Nodes.{turns_of, tree_of};
ghost use Rattle.jp_model.specs.Pattern.Tree.{empty, times};

use crate::Result;
use crate::even::doubled;
use crate::matcher::Matcher;
use crate::node::Node;
use crate::positions::PositionSet;
use crate::runs::run_ends;
use crate::tables::{Tables, ends_in};

/// It is kept for no more bodies than this what their turns reach, which takes 64 bytes for each scalar of the text at most.
const KEPT: usize = 512;

/// It is kept only once a match has asked the bodies of repeated parts this often.
const OFTEN: usize = 64;

/// How many turns of a part may follow `least * once` of them, where it is taken from `once` up to `most` times in each of
/// `least` turns and up to `further` more. What goes beyond the greatest number is left out, as no text is as long.
fn joined(once: u32, most: usize, least: u32, further: usize) -> usize
    requires once { once ≤ 1 }
    requires most { once ≤ most }
    ensures fits { least * once + result ≤ (least + further) * most }
    ensures enough { ((least + further) * most ≤ least * once + result) ⊎ (2 ^ 63 ≤ result) }
{
    let turns = (least as usize).saturating_add(further);
    turns.saturating_mul(most) - (least * once) as usize
}

impl Matcher<'_> {
    /// The part `least` times, and up to `further` times more. Where all of it is another part that is taken any number of
    /// times from none or from one on, turns of turns are turns of that part.
    #[cycle(ends)]
    pub(crate) fn repeated_ends(
        &self,
        body: &Node,
        number: usize,
        length: Option<u32>,
        least: u32,
        further: usize,
        starts: &PositionSet,
        tables: &mut Tables,
    ) -> Result<PositionSet>
        requires starts { AreStarts self.now.text.now starts.now }
        requires numbered { NumberedTurns (bodies_of self.now.root.now) body.now number }
        requires length { IsLength body.now length }
        requires right { AreRight self.now.text.now self.now.root.now tables.old }
        ensures kept { OnOk result (AreRight self.now.text.now self.now.root.now tables.new) }
        ensures ends { IfOk result (λ out. AreEnds (Language (times (tree_of body.now) least (Some (least + further)))) self.now.text.now starts.now out) }
    {
        match body {
            Node::Class(class) => {
                return run_ends(self.alloc, class, self.text, least, further, starts);
            }
            Node::Sequence(parts) | Node::Choice(parts) => {
                if let [part] = parts.as_slice() {
                    return self.repeated_ends(part, number, length, least, further, starts, tables);
                }
            }
            Node::Repeated {
                body: part,
                least: once,
                further: more,
                number,
                length,
            } if *once <= 1 => {
                let most = *once as usize + self.turns(*more);
                let further = joined(*once, most, least, further);
                let least = least * *once;
                return self.repeated_ends(part, *number, *length, least, further, starts, tables);
            }
            _ => {}
        }
        let reached = self.exact_turns(body, number, length, least, starts, tables)?;
        self.added_turns(body, number, further, &reached, tables)
    }

    /// As many of the further turns as reach anything new: without a bound, as many as the text has scalars.
    pub(crate) fn turns(&self, further: Option<u32>) -> usize
        ensures turns { result ≡ turns_of (length self.now.text.now) further }
        ensures small { length self.now.text.now < 2 ^ 63 → result < 2 ^ 63 }
    {
        match further {
            Some(further) => further as usize,
            None => self.text.len(),
        }
    }

    /// The part exactly `count` times.
    #[cycle(ends)]
    fn exact_turns(
        &self,
        body: &Node,
        number: usize,
        length: Option<u32>,
        count: u32,
        starts: &PositionSet,
        tables: &mut Tables,
    ) -> Result<PositionSet>
        requires starts { AreStarts self.now.text.now starts.now }
        requires numbered { NumberedTurns (bodies_of self.now.root.now) body.now number }
        requires length { IsLength body.now length }
        requires right { AreRight self.now.text.now self.now.root.now tables.old }
        ensures kept { OnOk result (AreRight self.now.text.now self.now.root.now tables.new) }
        ensures ends { IfOk result (λ out. AreEnds (Repeats (Language (tree_of body.now)) count) self.now.text.now starts.now out) }
    {
        match length {
            Some(length) if count > 1 && length > 0 => {
                self.even_turns(body, number, length as usize, count, starts, tables)
            }
            _ => self.counted_turns(body, number, count, starts, tables),
        }
    }

    /// Exactly `count` turns of a part whose texts all have this length: the ends of one turn are found once, from each
    /// position that the turns may come to.
    #[cycle(ends)]
    fn even_turns(
        &self,
        body: &Node,
        number: usize,
        length: usize,
        count: u32,
        starts: &PositionSet,
        tables: &mut Tables,
    ) -> Result<PositionSet>
        requires starts { AreStarts self.now.text.now starts.now }
        requires numbered { NumberedTurns (bodies_of self.now.root.now) body.now number }
        requires right { AreRight self.now.text.now self.now.root.now tables.old }
        requires length { HaveLength (Language (tree_of body.now)) length }
        requires some { 0 < length }
        requires small { length ≤ 2 ^ 31 }
        requires many { 0 < count }
        ensures kept { OnOk result (AreRight self.now.text.now self.now.root.now tables.new) }
        ensures ends { IfOk result (λ out. AreEnds (Repeats (Language (tree_of body.now)) count) self.now.text.now starts.now out) }
    {
        let distance = count as usize * length;
        if distance > self.text.len() {
            return Ok(PositionSet::empty(self.alloc));
        }
        let high = (starts.high() + distance).min(self.text.len() + 1);
        let from = PositionSet::range(self.alloc, starts.low(), high)?;
        let once = self.one_turn(body, number, &from, tables)?;
        let all = doubled(self.alloc, &once, length, count)?;
        starts.moved_within(self.alloc, distance, &all)
    }

    /// Exactly `count` turns. They stop where one changes nothing, as where nothing is reached any more.
    #[cycle(ends)]
    fn counted_turns(
        &self,
        body: &Node,
        number: usize,
        count: u32,
        starts: &PositionSet,
        tables: &mut Tables,
    ) -> Result<PositionSet>
        requires starts { AreStarts self.now.text.now starts.now }
        requires numbered { NumberedTurns (bodies_of self.now.root.now) body.now number }
        requires right { AreRight self.now.text.now self.now.root.now tables.old }
        ensures kept { OnOk result (AreRight self.now.text.now self.now.root.now tables.new) }
        ensures ends { IfOk result (λ out. AreEnds (Repeats (Language (tree_of body.now)) count) self.now.text.now starts.now out) }
    {
        let mut reached = starts.copy(self.alloc)?;
        for turn in 0..count {
            let next = self.one_turn(body, number, &reached, tables)?;
            if next.is_same(&reached) {
                return Ok(next);
            }
            reached = next;
        }
        Ok(reached)
    }

    /// The part up to `most` times. A turn starts from what the one before it added, and they stop where one adds nothing, or
    /// where it is known before that it would add nothing.
    #[cycle(ends)]
    fn added_turns(
        &self,
        body: &Node,
        number: usize,
        most: usize,
        starts: &PositionSet,
        tables: &mut Tables,
    ) -> Result<PositionSet>
        requires starts { AreStarts self.now.text.now starts.now }
        requires numbered { NumberedTurns (bodies_of self.now.root.now) body.now number }
        requires right { AreRight self.now.text.now self.now.root.now tables.old }
        ensures kept { OnOk result (AreRight self.now.text.now self.now.root.now tables.new) }
        ensures ends { IfOk result (λ out. AreEnds (RepeatsWithin (Language (tree_of body.now)) 0 (Some most)) self.now.text.now starts.now out) }
    {
        let mut reached = starts.copy(self.alloc)?;
        let mut frontier = starts.copy(self.alloc)?;
        for turn in 0..most {
            if tables.stays(number, &frontier) {
                return Ok(reached);
            }
            let next = self.one_turn(body, number, &frontier, tables)?;
            let fresh = next.without(self.alloc, &reached)?;
            if !fresh.has_any() {
                self.keep_closed(number, &reached, tables)?;
                return Ok(reached);
            }
            reached.add_all(&fresh)?;
            frontier = fresh;
        }
        Ok(reached)
    }

    /// Keeps a set that no turn of the body with this number leaves, in place of the one before, once the match has asked
    /// often.
    fn keep_closed(&self, number: usize, reached: &PositionSet, tables: &mut Tables) -> Result<()>
        requires closed { IsClosed (Language (get_or (bodies_of self.now.root.now) number empty)) self.now.text.now reached.now }
        requires right { AreRight self.now.text.now self.now.root.now tables.old }
        ensures { OnOk result (AreRight self.now.text.now self.now.root.now tables.new) }
    {
        if number >= KEPT || tables.asked < OFTEN {
            return Ok(());
        }
        let set = reached.copy(self.alloc)?;
        tables.closed.keep(number, set)
    }

    /// The part once: by its table, if it was made.
    #[cycle(ends)]
    fn one_turn(
        &self,
        body: &Node,
        number: usize,
        starts: &PositionSet,
        tables: &mut Tables,
    ) -> Result<PositionSet>
        requires starts { AreStarts self.now.text.now starts.now }
        requires numbered { NumberedTurns (bodies_of self.now.root.now) body.now number }
        requires right { AreRight self.now.text.now self.now.root.now tables.old }
        ensures kept { OnOk result (AreRight self.now.text.now self.now.root.now tables.new) }
        ensures ends { IfOk result (λ out. AreEnds (Language (tree_of body.now)) self.now.text.now starts.now out) }
    {
        if tables.asked < tables.direct {
            tables.asked += 1;
            return self.ends(body, starts, tables);
        }
        self.kept_turn(body, number, starts, tables)
    }

    /// The part once, by its table.
    #[cycle(ends)]
    fn kept_turn(
        &self,
        body: &Node,
        number: usize,
        starts: &PositionSet,
        tables: &mut Tables,
    ) -> Result<PositionSet>
        requires starts { AreStarts self.now.text.now starts.now }
        requires numbered { NumberedTurns (bodies_of self.now.root.now) body.now number }
        requires right { AreRight self.now.text.now self.now.root.now tables.old }
        ensures kept { OnOk result (AreRight self.now.text.now self.now.root.now tables.new) }
        ensures ends { IfOk result (λ out. AreEnds (Language (tree_of body.now)) self.now.text.now starts.now out) }
    {
        self.make_table(body, number, tables)?;
        match tables.bodies.get(number) {
            Some(rows) => ends_in(self.alloc, rows.as_slice(), starts),
            None => self.ends(body, starts, tables),
        }
    }

    /// Makes the table of a body, if it is missing.
    #[cycle(ends)]
    fn make_table(&self, body: &Node, number: usize, tables: &mut Tables) -> Result<()>
        requires fits { length self.now.text.now < 2 ^ 63 }
        requires numbered { NumberedTurns (bodies_of self.now.root.now) body.now number }
        requires right { AreRight self.now.text.now self.now.root.now tables.old }
        ensures { OnOk result (AreRight self.now.text.now self.now.root.now tables.new) }
    {
        if tables.bodies.get(number).is_some() {
            return Ok(());
        }
        let rows = self.rows(body, tables)?;
        tables.bodies.keep(number, rows)
    }

    /// The ends of a part from each position.
    #[cycle(ends)]
    fn rows(&self, body: &Node, tables: &mut Tables) -> Result<Vec<PositionSet>>
        requires fits { length self.now.text.now < 2 ^ 63 }
        requires numbered { Numbered (bodies_of self.now.root.now) body.now }
        requires right { AreRight self.now.text.now self.now.root.now tables.old }
        ensures kept { OnOk result (AreRight self.now.text.now self.now.root.now tables.new) }
        ensures rows { IfOk result (λ rows. IsTable (Language (tree_of body.now)) self.now.text.now rows.items) }
    {
        let mut rows = Vec::new(self.alloc);
        for p in 0..self.text.len() + 1 {
            let start = PositionSet::one(self.alloc, p)?;
            let row = self.ends(body, &start, tables)?;
            rows.push(row)?;
        }
        Ok(rows)
    }
}
