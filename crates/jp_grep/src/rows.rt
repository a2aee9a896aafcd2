//! Rows as text.
//!
//! If memory is refused, what was added to the text is to be forgotten.

ghost use Rattle.std.specs.Prelude.{◌≡◌, ◌∷◌, ◌++◌, [], OnOk};
ghost use Rattle.jp_model.specs.Meaning.Paths.{path_text};
ghost use Rattle.jp_model.specs.Rows.{line_feed, row_start};
ghost use Rattle.jp_paint.specs.Colours.{painted};
ghost use Rattle.jp_paint.specs.declared.part.Part.TheVariants as parts;
ghost use Rattle.jp_nodes.specs.Cursors.{line_of, node_of};
ghost use Rattle.jp_grep.specs.Spelled.{spelled};
ghost use Rattle.jp_grep.specs.Items.{framing_by};
ghost use Rattle.jp_grep.specs.Rows.{fault_front, front, name_front, number_front, path_front, row};

use crate::spelling::Speller;
use itoa::Buffer;
use jp_form::{Form, Units};
use jp_model::{Framing, LineFault};
use jp_nodes::Cursor;
use jp_paint::{Part, push_painted, stop};
use jp_rows::push_path;
use std::alloc::AllocError;

/// Adds what a row begins with: in a sequence one RS (RFC 7464, section 2.2).
fn add_row_start(units: Units, text: &mut Vec<u8>) -> Result<(), AllocError>
    ensures { OnOk result (text.new.items ≡ text.old.items ++ row_start (framing_by units)) }
{
    match units {
        Units::Lines(Framing::Lines) | Units::Pieces(_) => Ok(()),
        Units::Lines(Framing::Sequence) => Ok(text.push(b'\x1e')?),
    }
}

/// Adds the name of the stream and a sign or a NUL, where it is wanted.
fn add_name(form: &Form<'_>, sign: u8, text: &mut Vec<u8>) -> Result<(), AllocError>
    ensures { OnOk result (text.new.items ≡ text.old.items ++ name_front form.now.named form.now.null form.now.coloured form.now.name.now (sign ∷ [])) }
{
    if !form.named {
        return Ok(());
    }
    push_painted(form.coloured, Part::Name, form.name.as_bytes(), text)?;
    if form.null {
        return Ok(text.push(b'\0')?);
    }
    push_painted(form.coloured, Part::Sign, &[sign], text)
}

/// Adds the number of a line and a sign, where it is wanted.
fn add_number(form: &Form<'_>, number: u64, sign: u8, text: &mut Vec<u8>) -> Result<(), AllocError>
    ensures { OnOk result (text.new.items ≡ text.old.items ++ number_front form.now.numbered form.now.coloured number (sign ∷ [])) }
{
    if !form.numbered {
        return Ok(());
    }
    let mut digits = Buffer::new();
    let digits = digits.format(number).as_bytes();
    push_painted(form.coloured, Part::Place, digits, text)?;
    push_painted(form.coloured, Part::Sign, &[sign], text)
}

/// Adds what stands in front of a row of a line, with a sign after its name and its number.
pub(crate) fn add_front(
    sign: u8,
    form: &Form<'_>,
    number: u64,
    text: &mut Vec<u8>,
) -> Result<(), AllocError>
    ensures { OnOk result (text.new.items ≡ text.old.items ++ front (sign ∷ []) form.now number) }
{
    add_row_start(form.units, text)?;
    add_name(form, sign, text)?;
    add_number(form, number, sign, text)
}

/// Adds bytes and a line feed.
fn add_ended(body: &[u8], text: &mut Vec<u8>) -> Result<(), AllocError>
    ensures { OnOk result (text.new.items ≡ text.old.items ++ (body.now ++ line_feed)) }
{
    text.extend_from_slice(body)?;
    text.extend_from_slice(b"\n")
}

/// Adds the path of a node, in its colour where it is `coloured`.
fn add_path(coloured: bool, node: Cursor<'_>, text: &mut Vec<u8>) -> Result<(), AllocError>
    ensures { OnOk result (text.new.items ≡ text.old.items ++ painted coloured parts.Place (path_text (node_of node.entry).location)) }
{
    if !coloured {
        return push_path(node, text);
    }
    text.extend_from_slice(Part::Place.start())?;
    push_path(node, text)?;
    text.extend_from_slice(stop())
}

/// Adds the path of a node and a tab, where it is wanted.
fn add_path_front(
    form: &Form<'_>,
    paths: bool,
    node: Cursor<'_>,
    text: &mut Vec<u8>,
) -> Result<(), AllocError>
    ensures { OnOk result (text.new.items ≡ text.old.items ++ path_front paths form.now.coloured (node_of node.entry)) }
{
    if !paths {
        return Ok(());
    }
    add_path(form.coloured, node, text)?;
    text.extend_from_slice(b"\t")
}

/// Adds a row of a line that shows a value, with its path in front where it is wanted.
pub(crate) fn add_value(
    form: &Form<'_>,
    paths: bool,
    number: u64,
    node: Cursor<'_>,
    speller: &mut Speller,
    text: &mut Vec<u8>,
) -> Result<(), AllocError>
    ensures { OnOk result (text.new.items ≡ text.old.items ++ row form.now number (path_front paths form.now.coloured (node_of node.entry) ++ spelled form.now.spelling form.now.units (line_of node.entry) (node_of node.entry).tree)) }
{
    add_front(b':', form, number, text)?;
    add_path_front(form, paths, node, text)?;
    speller.append(form.spelling, form.units, node, text)?;
    text.extend_from_slice(b"\n")
}

/// Adds the word of a fault and a tab, where they are wanted.
fn add_fault_front(faults: bool, fault: LineFault, text: &mut Vec<u8>) -> Result<(), AllocError>
    ensures { OnOk result (text.new.items ≡ text.old.items ++ fault_front faults fault) }
{
    if !faults {
        return Ok(());
    }
    text.extend_from_slice(fault.word().as_bytes())?;
    text.extend_from_slice(b"\t")
}

/// Adds the row of a refused line, with the word of its fault and a tab in front where they are wanted.
pub(crate) fn add_refused(
    form: &Form<'_>,
    faults: bool,
    number: u64,
    fault: LineFault,
    line: &[u8],
    text: &mut Vec<u8>,
) -> Result<(), AllocError>
    ensures { OnOk result (text.new.items ≡ text.old.items ++ row form.now number (fault_front faults fault ++ line.now)) }
{
    add_front(b':', form, number, text)?;
    add_fault_front(faults, fault, text)?;
    add_ended(line, text)
}
