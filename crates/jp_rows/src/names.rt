//! The steps of normalized paths (RFC 9535, section 2.7).

ghost use Rattle.std.specs.Prelude.{◌≡◌, ◌++◌, false, is_err, chars, encode_utf8_all};
ghost use Rattle.std.specs.List.{list_all};
ghost use Rattle.jp_devices.specs.Devices.{Writes};
ghost use Rattle.jp_model.specs.Steps.{name_step, index_step};
ghost use Rattle.jp_model.specs.Meaning.Nodes.{step_to};
ghost use Rattle.jp_model.specs.Meaning.Paths.{name_scalar, step_text};
ghost use Rattle.jp_strings.specs.Points.{IsText, points_of};
ghost use Rattle.jp_nodes.specs.Cursors.{name_of, index_of};
ghost use Rattle.jp_rows.specs.Names.{IsOfText, name_text, scalars_of, stands_unescaped as byte_stands_unescaped};

use itoa::Buffer;
use jp_devices::{WriteFault, write_whole};
use jp_model::Watched;
use jp_nodes::Cursor;
use jp_strings::{Scalars, control_escape};
use std::io::Write;

/// A name or a string: by its scalars, or by its body in a JSON text.
#[derive(Clone, Copy)]
pub(crate) enum Name<'a> {
    Scalars(&'a str),
    Body(&'a [u8]),
}

/// Writes one scalar of a name (RFC 9535, section 2.7: normal-single-quoted).
fn write_scalar<W: Write>(scalar: char, out: &mut Watched<W>) -> Result<(), WriteFault>
    requires { out.old.failed ≡ false }
    ensures text { Writes W.contents out.old out.new result (encode_utf8_all (name_scalar scalar)) }
    ensures fault { out.new.failed ≡ is_err result }
    ensures after { out.new.after ≡ out.old.after }
{
    match scalar {
        '\u{8}' => write_whole(b"\\b", out),
        '\t' => write_whole(b"\\t", out),
        '\n' => write_whole(b"\\n", out),
        '\u{c}' => write_whole(b"\\f", out),
        '\r' => write_whole(b"\\r", out),
        '\'' => write_whole(b"\\'", out),
        '\\' => write_whole(b"\\\\", out),
        '\0'..='\u{1f}' => write_whole(&control_escape(scalar as u8), out),
        _ => write_whole(scalar.encode_utf8(&mut [0; 4]).as_bytes(), out),
    }
}

/// Whether a byte of a body is printed as it stands: it is neither a reverse solidus nor an apostrophe (RFC 9535, section 2.7).
fn is_unescaped_byte(byte: u8) -> bool
    ensures { result ≡ byte_stands_unescaped byte }
{
    byte != b'\\' && byte != b'\''
}

/// Whether a body is printed as it stands.
pub(crate) fn needs_no_escape(body: &[u8]) -> bool
    ensures { result ≡ list_all byte_stands_unescaped body.now }
{
    body.iter().all(|byte| is_unescaped_byte(*byte))
}

/// Writes the scalars of a text as a name has them.
fn write_scalars<W: Write>(text: &str, out: &mut Watched<W>) -> Result<(), WriteFault>
    requires { out.old.failed ≡ false }
    ensures text { Writes W.contents out.old out.new result (name_text (chars text.now)) }
    ensures fault { out.new.failed ≡ is_err result }
    ensures after { out.new.after ≡ out.old.after }
{
    for scalar in text.chars() {
        write_scalar(scalar, out)?;
    }
    Ok(())
}

/// Writes a name by its body: in one piece, or scalar by scalar where some scalar is escaped.
fn write_body<W: Write>(body: &[u8], out: &mut Watched<W>) -> Result<(), WriteFault>
    requires body { IsText body.now }
    requires working { out.old.failed ≡ false }
    ensures text { Writes W.contents out.old out.new result (name_text (points_of body.now)) }
    ensures fault { out.new.failed ≡ is_err result }
    ensures after { out.new.after ≡ out.old.after }
{
    if needs_no_escape(body) {
        return write_whole(body, out);
    }
    for scalar in Scalars::new(body) {
        write_scalar(scalar, out)?;
    }
    Ok(())
}

/// Writes a name, without what is around it.
fn write_name<W: Write>(name: Name<'_>, out: &mut Watched<W>) -> Result<(), WriteFault>
    requires text { IsOfText name }
    requires working { out.old.failed ≡ false }
    ensures text { Writes W.contents out.old out.new result (name_text (scalars_of name.entry)) }
    ensures fault { out.new.failed ≡ is_err result }
    ensures after { out.new.after ≡ out.old.after }
{
    match name {
        Name::Scalars(text) => write_scalars(text, out),
        Name::Body(body) => write_body(body, out),
    }
}

/// Writes a name between two marks.
pub(crate) fn write_between<W: Write>(
    front: &[u8],
    name: Name<'_>,
    back: &[u8],
    out: &mut Watched<W>,
) -> Result<(), WriteFault>
    requires text { IsOfText name }
    requires working { out.old.failed ≡ false }
    ensures text { Writes W.contents out.old out.new result (front.now ++ name_text (scalars_of name.entry) ++ back.now) }
    ensures fault { out.new.failed ≡ is_err result }
    ensures after { out.new.after ≡ out.old.after }
{
    write_whole(front, out)?;
    write_name(name, out)?;
    write_whole(back, out)
}

/// Writes the step to the member of a name.
pub(crate) fn write_name_step<W: Write>(body: &[u8], out: &mut Watched<W>) -> Result<(), WriteFault>
    requires body { IsText body.now }
    requires working { out.old.failed ≡ false }
    ensures text { Writes W.contents out.old out.new result (encode_utf8_all (step_text (name_step (points_of body.now)))) }
    ensures fault { out.new.failed ≡ is_err result }
    ensures after { out.new.after ≡ out.old.after }
{
    write_between(b"['", Name::Body(body), b"']", out)
}

/// Writes the step to the element of an index. Below 0 it counts from the end.
pub(crate) fn write_index_step<W: Write>(index: i64, out: &mut Watched<W>) -> Result<(), WriteFault>
    requires { out.old.failed ≡ false }
    ensures text { Writes W.contents out.old out.new result (encode_utf8_all (step_text (index_step index))) }
    ensures fault { out.new.failed ≡ is_err result }
    ensures after { out.new.after ≡ out.old.after }
{
    let mut digits = Buffer::new();
    write_whole(b"[", out)?;
    write_whole(digits.format(index).as_bytes(), out)?;
    write_whole(b"]", out)
}

/// Writes the step to a child: its name, where it has one, or its index.
pub(crate) fn write_step<W: Write>(
    child: Cursor<'_>,
    out: &mut Watched<W>,
) -> Result<(), WriteFault>
    requires { out.old.failed ≡ false }
    ensures text { Writes W.contents out.old out.new result (encode_utf8_all (step_text (step_to (index_of child.entry) (name_of child.entry)))) }
    ensures fault { out.new.failed ≡ is_err result }
    ensures after { out.new.after ≡ out.old.after }
{
    match child.name_span() {
        Some(body) => write_name_step(&child.line()[body.start as usize..body.end as usize], out),
        None => write_index_step(i64::from(child.index()), out),
    }
}
