//! Where the value of a line begins.

ghost use Rattle.std.specs.Prelude.{◌≡◌, ◌<◌, false, length, true, IfOk, IfErr};
ghost use Rattle.jp_model.specs.Json.Status.{IsNoText};
ghost use Rattle.jp_model.specs.Json.Marks.{marks as marks_of};
ghost use Rattle.jp_tape.specs.Ahead.{IsClosed, first_or};
ghost use Rattle.jp_tape.specs.Reading.{OnFault};
ghost use Rattle.jp_tape.specs.Reader.{MayBegin};

use super::BuildFault;
use super::reader::GRAMMAR;
use super::scan::is_at;
use jp_masks::laws::marks_are_tokens;

/// Whether the last mark of a line is a closing bracket.
#[inline(always)]
fn is_closed(line: &[u8], marks: &[u32]) -> bool
    requires some { 0 < length marks.now }
    ensures yes { result ≡ true → IsClosed line.now marks.now }
    ensures no { result ≡ false → IsClosed line.now marks.now → ⊥ }
{
    let last = marks[marks.len() - 1] as usize;
    is_at(line, last, b'}') || is_at(line, last, b']')
}

/// Where the value of a line begins. Its last mark has to be a closing bracket where it is an array or an object, so that the marks
/// before that are read without a look whether more are to come, and a string has to have two marks.
#[inline(always)]
pub(super) fn first_value(line: &[u8], marks: &[u32]) -> Result<usize, BuildFault>
    requires marks { marks.now ≡ marks_of line.now }
    ensures value { IfOk result (λ at. at ≡ first_or marks.now (length line.now)) }
    ensures begins { IfOk result (λ at. MayBegin line.now at marks.now) }
    ensures none { IfErr result (λ fault. OnFault fault (IsNoText line.now)) }
{
    marks_are_tokens();
    if marks.is_empty() {
        return Err(GRAMMAR);
    }
    let at = marks[0] as usize;
    let first = line[at];
    if first == b'"' && marks.len() < 2 {
        return Err(GRAMMAR);
    }
    if (first == b'{' || first == b'[') && !is_closed(line, marks) {
        return Err(GRAMMAR);
    }
    Ok(at)
}
