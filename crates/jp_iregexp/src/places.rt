//! Where single scalars are in a text. The branches of a pattern of many of them, as of a choice of words, ask for the same ones
//! again and again.

ghost use Rattle.std.specs.Prelude.{◌^◌, ◌<◌, IfOk, length};
ghost use Rattle.jp_iregexp.specs.Places.{IsAfterEach};

use crate::Result;
use crate::positions::PositionSet;
use std::alloc::Global;

/// The positions after each such scalar of the text.
pub(crate) fn after_each(alloc: Global, text: &[char], scalar: char) -> Result<PositionSet>
    requires { length text.now < 2 ^ 63 }
    ensures { IfOk result (IsAfterEach text.now scalar) }
{
    let mut after = PositionSet::empty(alloc);
    for p in 0..text.len() {
        if text[p] == scalar {
            after.insert(p + 1)?;
        }
    }
    Ok(after)
}
