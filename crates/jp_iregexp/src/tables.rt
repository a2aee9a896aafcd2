//! What a match keeps beside a pattern: for a text of n scalars a table has n + 1 rows, each as wide as what it reaches.

ghost use Rattle.std.specs.Prelude.{◌≡◌, IfOk, IsTrue, []};
ghost use Rattle.jp_iregexp.specs.Positions.{AreEnds, AreStarts};
ghost use Rattle.jp_iregexp.specs.Tables.{AreInRows, IsTailOfKept};
ghost use Rattle.jp_model.specs.Pattern.Language.{Language};
ghost use Rattle.jp_iregexp.specs.Nodes.{tree_of};

use crate::Result;
use crate::compiled::Compiled;
use crate::kept::Kept;
use crate::matcher::Matcher;
use crate::node::Node;
use crate::positions::PositionSet;
use std::alloc::Global;

/// The positions where a text of a pattern ends that begins at one of the starts.
pub(crate) fn reach(
    alloc: Global,
    compiled: &Compiled,
    text: &[char],
    starts: &PositionSet,
) -> Result<PositionSet>
    requires { AreStarts text.now starts.now }
    ensures { IfOk result (λ out. AreEnds (Language (tree_of compiled.now.root)) text.now starts.now out) }
{
    let matcher = Matcher {
        alloc,
        text,
        root: &compiled.root,
    };
    let mut tables = Tables::new(alloc, compiled.repeated, text.len());
    matcher.ends(&compiled.root, starts, &mut tables)
}

/// What a match keeps: by the numbers of the bodies of repeated parts their ends from each position, and the last set that each
/// cannot leave; by ASCII scalar the positions after it. Bodies are first asked directly, as often as it would cost to make all
/// the tables. From then on the first question of a body makes its table.
#[derive(Drop)]
pub(crate) struct Tables {
    /// How many questions were asked directly, and how many may be.
    pub(crate) asked: usize,
    pub(crate) direct: usize,
    pub(crate) bodies: Kept<Vec<PositionSet>>,
    pub(crate) closed: Kept<PositionSet>,
    pub(crate) after: Kept<PositionSet>,
}

impl Tables {
    /// Nothing yet, where this many parts are repeated and the text has this many scalars.
    fn new(alloc: Global, repeated: usize, length: usize) -> Tables
        ensures bodies { result.bodies.rows.items ≡ [] }
        ensures closed { result.closed.rows.items ≡ [] }
        ensures after { result.after.rows.items ≡ [] }
    {
        let questions = repeated.saturating_add(1).saturating_mul(length);
        Tables {
            asked: 0,
            direct: questions.saturating_mul(2),
            bodies: Kept::new(alloc),
            closed: Kept::new(alloc),
            after: Kept::new(alloc),
        }
    }

    /// Whether no turn of the body leaves this set: it is what is left, from its lowest position on, of one that none leaves.
    pub(crate) fn stays(&self, number: usize, set: &PositionSet) -> bool
        ensures { IsTrue result → IsTailOfKept self.now.closed.rows.items number set.now }
    {
        match self.closed.get(number) {
            Some(whole) => set.is_tail_of(whole),
            None => false,
        }
    }
}

/// The ends in the rows of the starts.
pub(crate) fn ends_in(
    alloc: Global,
    rows: &[PositionSet],
    starts: &PositionSet,
) -> Result<PositionSet>
    ensures { IfOk result (λ out. AreInRows rows.now starts.now out) }
{
    let mut out = PositionSet::empty(alloc);
    let low = starts.low();
    let high = starts.high();
    for p in low..high.min(rows.len()) {
        if starts.contains(p) {
            out.add_all(&rows[p])?;
        }
    }
    Ok(out)
}
