//! Data of other formats, which is no lines of JSON.

ghost use Rattle.std.specs.Prelude.{◌≡◌, map};
ghost use Rattle.jp_grep.specs.Formats.{as_mark, begins_mark, begins_one, first_format, format_of};

/// A format of data whose first bytes tell that it is no lines of JSON.
#[derive(Clone, Copy, Debug, PartialEq, Eq)]
pub enum Format {
    Gzip,
    Zstd,
    Xz,
    Zip,
    Utf16,
    Bzip2,
}

/// The marks that tell a format. In those of bzip2 a digit gives the size of the blocks.
const MARKS: [(Format, &[u8]); 15] = [
    (Format::Gzip, b"\x1F\x8B"),
    (Format::Zstd, b"\x28\xB5\x2F\xFD"),
    (Format::Xz, b"\xFD7zXZ\x00"),
    (Format::Zip, b"PK\x03\x04"),
    (Format::Utf16, b"\xFF\xFE"),
    (Format::Utf16, b"\xFE\xFF"),
    (Format::Bzip2, b"BZh11AY&SY"),
    (Format::Bzip2, b"BZh21AY&SY"),
    (Format::Bzip2, b"BZh31AY&SY"),
    (Format::Bzip2, b"BZh41AY&SY"),
    (Format::Bzip2, b"BZh51AY&SY"),
    (Format::Bzip2, b"BZh61AY&SY"),
    (Format::Bzip2, b"BZh71AY&SY"),
    (Format::Bzip2, b"BZh81AY&SY"),
    (Format::Bzip2, b"BZh91AY&SY"),
];

/// The bytes of the longest mark.
pub(crate) const LONGEST_MARK: usize = 10;

/// The format of the first of some marks that the bytes begin with.
fn first_format(marks: &[(Format, &[u8])], bytes: &[u8]) -> Option<Format>
    ensures { result ≡ first_format (map as_mark marks.now) bytes.now }
{
    for (format, mark) in marks {
        if bytes.starts_with(mark) {
            return Some(*format);
        }
    }
    None
}

/// Whether the bytes are the beginning of one of some marks, or all of it.
fn begins_one(marks: &[(Format, &[u8])], bytes: &[u8]) -> bool
    ensures { result ≡ begins_one (map as_mark marks.now) bytes.now }
{
    for (_, mark) in marks {
        if mark.starts_with(bytes) {
            return true;
        }
    }
    false
}

/// The format whose mark the bytes begin with.
#[tactic(auto, unfolding(crate::specs::Formats::format_of))]
pub(crate) fn format_of(bytes: &[u8]) -> Option<Format>
    ensures { result ≡ format_of bytes.now }
{
    first_format(&MARKS, bytes)
}

/// Whether the bytes are the beginning of a mark, or all of it.
#[tactic(auto, unfolding(crate::specs::Formats::begins_mark))]
pub(crate) fn begins_mark(bytes: &[u8]) -> bool
    ensures { result ≡ begins_mark bytes.now }
{
    begins_one(&MARKS, bytes)
}
