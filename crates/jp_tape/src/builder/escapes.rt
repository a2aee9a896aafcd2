//! Where the first escape of a line is.

ghost use Rattle.std.specs.Prelude.{◌≡◌, ◌+◌, ◌<◌, true, length};
ghost use Rattle.jp_lanes.specs.First.{is_escape};
ghost use Rattle.jp_model.specs.Json.Places.{byte_at};
ghost use Rattle.jp_tape.specs.Places.{IsUnescaped};

/// The place of the first reverse solidus or control character before the last byte of the line, or else of that byte. The body
/// of each string before it stands for itself, and need not be searched. The last byte is in no string that ends: in a file
/// with CR LF it is a carriage return.
pub(super) fn first_escape(line: &[u8]) -> usize
    ensures before { IsUnescaped line.now result }
    ensures is_one { result + 1 < length line.now → is_escape (byte_at line.now result) ≡ true }
{
    if line.is_empty() {
        return 0;
    }
    jp_lanes::first_escape(&line[..line.len() - 1], 0)
}
