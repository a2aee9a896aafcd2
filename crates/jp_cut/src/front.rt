//! The front of a stream.

ghost use Rattle.std.specs.Prelude.{◌≡◌};
ghost use Rattle.jp_cut.specs.Front.{may_become_mark as may_be_front_of_mark};

/// Whether bytes may be the beginning of a byte order mark that is still to come whole (RFC 8259, section 8.1).
pub fn may_become_mark(bytes: &[u8]) -> bool
    ensures { result ≡ may_be_front_of_mark bytes.now }
{
    match bytes {
        [] => true,
        [first] => *first == 0xEF,
        [first, second] => *first == 0xEF && *second == 0xBB,
        _ => false,
    }
}
