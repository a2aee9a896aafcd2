//! The path of a command that makes or drops an index.

ghost use Rattle.std.specs.Prelude.{◌≡◌, IfOk, option_map};
ghost use Rattle.jp_model.specs.Script.Machine.{index_path};
ghost use Rattle.jp_query.specs.Status.{query_of};
ghost use Rattle.jp_syntax.specs.SingularPaths.{path_steps};

use jp_query::{Refusal, read_query};
use jp_syntax::{SingularPath, singular};
use std::alloc::{AllocError, Global};

/// Reads the path of a singular query (RFC 9535, section 2.3.5.1), and nothing from any other text.
pub(crate) fn read_path(alloc: Global, text: &[u8]) -> Result<Option<SingularPath>, AllocError>
    ensures { IfOk result (λ path. option_map path_steps path ≡ index_path (query_of text.now)) }
{
    match read_query(alloc, text) {
        Ok(checked) => singular(alloc, checked.query()),
        Err(Refusal::Fault(_)) => Ok(None),
        Err(Refusal::Memory) => Err(AllocError),
    }
}
