//! A sink that surveys the nodes that it is told.

ghost use Rattle.std.specs.Prelude.{◌≡◌, ◌++◌, ◌∷◌, [], ℕ, IfOk, List, OnOk, Some, false, is_err};
ghost use Rattle.std.proofs.Props.{props};
ghost use Rattle.jp_nodes.specs.Cursors.{node_of};
ghost use Rattle.jp_survey.specs.Places.{IsKnown-prop};
ghost use Rattle.jp_survey.specs.Seen.{HasBegun, HasTold};
ghost use Rattle.jp_survey.specs.Told.{Told, line_so_far, lines_before, lines_in, within};
ghost use Rattle.jp_survey.specs.Trees.{HasCounted, IsTree, folded_of, names_of};

use crate::fault::SurveyFault;
use crate::order::order_places;
use crate::text::text_of;
use crate::tree::Tree;
use jp_devices::{Watched, write_whole};
use jp_form::Table;
use jp_nodes::Cursor;
use jp_sink::{Sink, Untold};
use std::alloc::{AllocError, Global};
use std::io::Write;

/// What is in the nodes that a search told: nodes of one number that follow one another, with no gap between, are of one line.
#[derive(Drop)]
pub struct Survey {
    alloc: Global,
    /// How many names an object has at most that is not folded.
    fold: u64,
    tree: Tree,
    /// The number of the line of the node that came last, where it may go on.
    number: Option<u64>,
    /// Whether memory ran out, after which it is of no use.
    is_full: bool,
    ghost is_tree: { is_full ≡ false → IsTree tree } by { Prim.hlevel (props, IsKnown-prop) },
}

/// Begins a line, unless the one that goes on has this number.
fn go_on(tree: &mut Tree, number: &mut Option<u64>, next: u64) -> Result<(), AllocError>
    requires { IsTree tree.old }
    ensures tree { OnOk result (IsTree tree.new) }
    ensures number { OnOk result (number.new ≡ Some next) }
    ensures begun { (fold : ℕ) (told : Told) → HasTold fold told number.old tree.old → OnOk result (HasBegun fold (lines_before told next) (line_so_far told next) tree.new) }
{
    if *number == Some(next) {
        return Ok(());
    }
    tree.begin_line()?;
    *number = Some(next);
    Ok(())
}

/// Counts a node of the line of a number, and all that is in it.
fn count_node(
    tree: &mut Tree,
    number: &mut Option<u64>,
    next: u64,
    node: Cursor<'_>,
) -> Result<(), AllocError>
    requires { IsTree tree.old }
    ensures tree { OnOk result (IsTree tree.new) }
    ensures told { (fold : ℕ) (told : Told) → HasTold fold told number.old tree.old
        → OnOk result (HasTold fold (within (lines_before told next) next (line_so_far told next ++ node_of node.entry ∷ [])) number.new tree.new) }
{
    go_on(tree, number, next)?;
    tree.count_node(node)
}

impl Survey {
    ghost use Rattle.jp_sink.specs.Events.{Event};
    ghost use Rattle.jp_survey.specs.Held.{HasSurveyed};
    ghost use Rattle.jp_survey.specs.Surveys.{Entry, IsSurvey};
    ghost use Rattle.jp_survey.specs.Texts.{WritesSurvey, is_write_fault, survey_text};
    ghost use Rattle.jp_survey.specs.Told.{lines_told};

    /// A survey that was told nothing yet, in which an object is folded that has more than `fold` names.
    ///
    /// # Errors
    ///
    /// Memory ran out.
    pub fn new(alloc: Global, fold: u64) -> Result<Survey, AllocError>
        ensures told { IfOk result (λ survey. HasSurveyed survey []) }
        ensures full { IfOk result (λ survey. survey.is_full ≡ false) }
        ensures fold { IfOk result (λ survey. survey.fold ≡ fold) }
    {
        Ok(Survey {
            alloc,
            fold,
            tree: Tree::new(alloc, fold)?,
            number: None,
            is_full: false,
        })
    }

    /// Counts a node of the line of a number, and all that is in it. If memory is refused, it is full.
    fn count(&mut self, number: u64, node: Cursor<'_>) -> Result<(), AllocError>
        requires { self.old.is_full ≡ false }
        ensures told { (told : Told) → HasTold self.old.fold told self.old.number self.old.tree
            → OnOk result (HasTold self.old.fold (within (lines_before told number) number (line_so_far told number ++ node_of node.entry ∷ [])) self.new.number self.new.tree) }
        ensures full { self.new.is_full ≡ is_err result }
        ensures fold { self.new.fold ≡ self.old.fold }
    {
        self.is_full = true;
        count_node(&mut self.tree, &mut self.number, number, node)?;
        self.is_full = false;
        Ok(())
    }

    /// Folds the objects that have too many names. It is full then.
    fn finish(&mut self) -> Result<(), AllocError>
        ensures tree { OnOk result (IsTree self.new.tree) }
        ensures counted { (told : Told) → (self.old.is_full ≡ false → HasTold self.old.fold told self.old.number self.old.tree)
            → OnOk result (HasCounted self.old.fold (names_of self.new.tree) (lines_in told) (folded_of self.new.tree)) }
    {
        if self.is_full {
            return Err(AllocError);
        }
        self.is_full = true;
        self.tree.fold_objects()
    }

    /// The text of the survey. It is full then.
    fn text(&mut self, table: Table, has_names: bool) -> Result<Vec<u8>, AllocError>
        ensures { (told : List Event) → HasSurveyed self.old told
            → IfOk result (λ text. (survey : List Entry) × IsSurvey self.old.fold (lines_told told) survey × (text.items ≡ survey_text table has_names survey)) }
    {
        self.finish()?;
        let tree = &self.tree;
        let order = order_places(self.alloc, &tree.names, &tree.links)?;
        text_of(self.alloc, table, has_names, tree, &order)
    }

    /// Writes what is in the nodes that were told: for each path and kind of value one row, in order, with in how many lines there is
    /// such a node and how many there are. Objects of too many names are folded, from the top down, and below one that is folded a
    /// hyphen stands for the number of lines. Above all stands the row of the names of the columns, where it is wanted.
    ///
    /// # Errors
    ///
    /// `Write` if it was not written: then a beginning of it was. `Memory` if a growth was refused, now or before: then nothing was.
    pub fn write_rows<W: Write>(
        self,
        table: Table,
        has_names: bool,
        out: &mut Watched<W>,
    ) -> Result<(), SurveyFault>
        requires { out.old.failed ≡ false }
        ensures rows { (told : List Event) → HasSurveyed self told
            → WritesSurvey W.contents out.old out.new result (IsSurvey self.fold (lines_told told)) table has_names }
        ensures fault { out.new.failed ≡ is_write_fault result }
    {
        let mut survey = self;
        let Ok(text) = survey.text(table, has_names) else {
            return Err(SurveyFault::Memory);
        };
        match write_whole(&text, out) {
            Ok(()) => Ok(()),
            Err(_) => Err(SurveyFault::Write),
        }
    }
}

/// It takes nodes and passes over rows. A node fails it where memory is refused, and it is then of no use.
impl Sink for Survey {
    ghost use Rattle.jp_survey.specs.Held.{HasSurveyed};

    ghost stands = { λ survey told. HasSurveyed survey told };

    ghost stopped = { λ survey told. Unit {0} };

    ghost state = { λ survey. record { failed = survey.is_full; unflushed = false; after = 0; settings = survey.fold ∷ [] } };

    fn gap(&mut self) {
        self.number = None;
    }

    fn row(&mut self, _is_selected: bool, _text: &[u8]) -> Result<(), Untold> {
        Ok(())
    }

    fn node(&mut self, number: u64, node: Cursor<'_>) -> Result<(), Untold> {
        match self.count(number, node) {
            Ok(()) => Ok(()),
            Err(_) => Err(Untold::Sink),
        }
    }

    fn flush(&mut self) -> Result<(), Untold> {
        Ok(())
    }

    fn is_unflushed(&self) -> bool {
        false
    }

    fn has_failed(&self) -> bool {
        self.is_full
    }
}
