//! A set of values.

ghost use Rattle.std.specs.Prelude.{◌≡◌, List, All, IfOk, map};
ghost use Rattle.jp_canon.specs.Canonical.{canonical_text};
ghost use Rattle.jp_model.specs.Json.Tree.{Tree, value_of};
ghost use Rattle.jp_model.specs.Lines.{closed_lines};
ghost use Rattle.jp_nodes.specs.Cursors.{node_of};

use crate::source::canonical_source;
use crate::texts::Texts;
use jp_canon::Printer;
use jp_laws::canonical::canonical_texts_are_equal_where_values_are;
use jp_nodes::Cursor;
use std::alloc::{AllocError, Global};

/// A set of values.
#[derive(Drop)]
pub struct Listed {
    /// Their canonical texts.
    pub(crate) texts: Texts,
}

impl Listed {
    ghost use Rattle.jp_listed.specs.Sets.{HasLines, HasValues, IsOfLine, has_value};

    /// The values of the lines of some canonical texts that a line feed ends. Where these are the texts of values of lines, the
    /// set has what is equal to one of them (RFC 9535, section 2.3.5.2.2), and nothing else.
    ///
    /// # Errors
    ///
    /// Memory ran out.
    pub fn of_lines(alloc: Global, texts: Vec<u8>) -> Result<Listed, AllocError>
        ensures lines { IfOk result (HasLines (closed_lines texts.items)) }
        ensures values { IfOk result (λ listed. (values : List Tree) → All IsOfLine values → closed_lines texts.items ≡ map canonical_text values → HasValues values listed) }
    {
        canonical_texts_are_equal_where_values_are();
        let texts = Texts::of_lines(alloc, texts)?;
        Ok(Listed { texts })
    }

    /// Whether the set has the value of a node: one that is equal to it (RFC 9535, section 2.3.5.2.2).
    ///
    /// # Errors
    ///
    /// Memory ran out.
    pub fn has(&self, alloc: Global, node: Cursor<'_>) -> Result<bool, AllocError>
        ensures { IfOk result (λ answer. answer ≡ has_value self.now (value_of (node_of node.entry).tree)) }
    {
        if let Some(source) = canonical_source(node) {
            return Ok(self.texts.has(source));
        }
        let mut text = Vec::new(alloc);
        Printer::new(alloc).append(node, &mut text)?;
        Ok(self.texts.has(&text))
    }
}
