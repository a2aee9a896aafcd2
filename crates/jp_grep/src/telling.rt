//! What a sink is told of a stream beside its items: one row, and what stands after all rows.

ghost use Rattle.std.specs.Prelude.{◌≡◌, ◌∷◌, [], ◌++◌, OnOk, false, true, codes, decimal, is_err};
ghost use Rattle.jp_model.specs.Rows.{line_feed};
ghost use Rattle.jp_paint.specs.Colours.{painted};
ghost use Rattle.jp_paint.specs.declared.part.Part.TheVariants as parts;
ghost use Rattle.jp_sink.specs.Events.{node_event, row_event};
ghost use Rattle.jp_grep.specs.Faults.{write_of};
ghost use Rattle.jp_grep.specs.Rows.{behind_name, name_front, summary_of};
ghost use Rattle.jp_grep.specs.Searching.{PutsFirst};
ghost use Rattle.jp_grep.specs.Telling.{Puts, PutsEnd, TellsOfSink, TellsPart, TellsText};
ghost use Rattle.jp_nodes.specs.Cursors.{line_of, node_of};

use crate::fault::SearchFault;
use itoa::Buffer;
use jp_form::{Form, Summary};
use jp_nodes::Cursor;
use jp_paint::{Part, stop};
use jp_rows::WriteFault;
use jp_sink::{Sink, Untold};

/// The fault of a search whose sink did not take a selected row or node: the sink failed, since none is refused for want of
/// memory alone.
fn told(taken: Result<(), Untold>) -> Result<(), SearchFault>
    ensures { result ≡ write_of taken }
{
    match taken {
        Ok(()) => Ok(()),
        Err(_) => Err(SearchFault::Write),
    }
}

/// Tells the row of a line that is selected.
#[inline(always)]
pub(crate) fn tell_row<S: Sink>(text: &[u8], sink: &mut S) -> Result<(), SearchFault>
    requires working { (S.state sink.old).failed ≡ false }
    ensures events { Puts S.stands S.stopped sink.old sink.new result (row_event true text.now ∷ []) }
    ensures tells { TellsOfSink result (S.state sink.old) (S.state sink.new) }
{
    told(sink.row(true, text))
}

/// Tells a node that is selected.
pub(crate) fn tell_node<S: Sink>(
    number: u64,
    node: Cursor<'_>,
    sink: &mut S,
) -> Result<(), SearchFault>
    requires working { (S.state sink.old).failed ≡ false }
    ensures events { Puts S.stands S.stopped sink.old sink.new result (node_event number (line_of node.entry) (node_of node.entry) ∷ []) }
    ensures tells { TellsOfSink result (S.state sink.old) (S.state sink.new) }
{
    told(sink.node(number, node))
}

/// Tells the row of a line that is not selected, and tells whether there was memory for it.
pub(crate) fn tell_other<S: Sink>(text: &[u8], sink: &mut S) -> Result<bool, SearchFault>
    requires working { (S.state sink.old).failed ≡ false }
    ensures events { PutsFirst S.stands S.stopped sink.old sink.new result (λ whole. whole) (row_event false text.now ∷ []) }
    ensures tells { TellsOfSink result (S.state sink.old) (S.state sink.new) }
{
    match sink.row(false, text) {
        Ok(()) => Ok(true),
        Err(Untold::Line) => Ok(false),
        Err(Untold::Sink) => Err(SearchFault::Write),
    }
}

/// Has the sink hand on what it holds, so that whoever waits for it has it.
pub(crate) fn flush_sink<S: Sink>(sink: &mut S) -> Result<(), SearchFault>
    requires working { (S.state sink.old).failed ≡ false }
    ensures events { Puts S.stands S.stopped sink.old sink.new result [] }
    ensures tells { TellsOfSink result (S.state sink.old) (S.state sink.new) }
    ensures flushed { OnOk result ((S.state sink.new).unflushed ≡ false) }
{
    told(sink.flush())
}

/// Tells a part of a text after those before it, unless one of these was not told.
fn then_tell<S: Sink>(
    before: Result<(), WriteFault>,
    part: &[u8],
    sink: &mut S,
) -> Result<(), WriteFault>
    requires working { (S.state sink.old).failed ≡ is_err before }
    ensures { TellsPart S.stands S.stopped sink.old sink.new (S.state sink.old) (S.state sink.new) before result part.now }
{
    match before {
        Ok(()) => match sink.row(true, part) {
            Ok(()) => Ok(()),
            Err(_) => Err(WriteFault),
        },
        Err(fault) => Err(fault),
    }
}

/// Tells bytes after what was told before them, in the colour of a part where it is `coloured`.
fn then_paint<S: Sink>(
    before: Result<(), WriteFault>,
    coloured: bool,
    part: Part,
    bytes: &[u8],
    sink: &mut S,
) -> Result<(), WriteFault>
    requires working { (S.state sink.old).failed ≡ is_err before }
    ensures { TellsPart S.stands S.stopped sink.old sink.new (S.state sink.old) (S.state sink.new) before result (painted coloured part bytes.now) }
{
    if !coloured {
        return then_tell(before, bytes, sink);
    }
    let begun = then_tell(before, part.start(), sink);
    let told = then_tell(begun, bytes, sink);
    then_tell(told, stop(), sink)
}

/// Tells the name of a stream and what follows it: a NUL where it is wanted, and else other bytes, which may be a sign.
fn tell_name<S: Sink>(
    form: &Form<'_>,
    coloured_sign: bool,
    other: &[u8],
    sink: &mut S,
) -> Result<(), WriteFault>
    requires working { (S.state sink.old).failed ≡ false }
    ensures { TellsText S.stands S.stopped sink.old sink.new (S.state sink.old) (S.state sink.new) result (painted form.now.coloured parts.Name form.now.name.now ++ behind_name form.now.null (painted coloured_sign parts.Sign other.now)) }
{
    let named = then_paint(
        Ok(()),
        form.coloured,
        Part::Name,
        form.name.as_bytes(),
        sink,
    );
    if form.null {
        return then_tell(named, b"\0", sink);
    }
    then_paint(named, coloured_sign, Part::Sign, other, sink)
}

/// Tells a number and a line feed after what was told.
fn tell_number<S: Sink>(
    before: Result<(), WriteFault>,
    number: u64,
    sink: &mut S,
) -> Result<(), WriteFault>
    requires working { (S.state sink.old).failed ≡ is_err before }
    ensures { TellsPart S.stands S.stopped sink.old sink.new (S.state sink.old) (S.state sink.new) before result (decimal number ++ line_feed) }
{
    let mut digits = Buffer::new();
    let counted = then_tell(before, digits.format(number).as_bytes(), sink);
    then_tell(counted, b"\n", sink)
}

/// Tells a number in a line, with the name of the stream in front where it is wanted.
fn tell_count<S: Sink>(form: &Form<'_>, count: u64, sink: &mut S) -> Result<(), WriteFault>
    requires working { (S.state sink.old).failed ≡ false }
    ensures { TellsText S.stands S.stopped sink.old sink.new (S.state sink.old) (S.state sink.new) result (name_front form.now.named form.now.null form.now.coloured form.now.name.now (codes ":") ++ (decimal count ++ line_feed)) }
{
    if !form.named {
        return tell_number(Ok(()), count, sink);
    }
    let named = tell_name(form, form.coloured, b":", sink);
    tell_number(named, count, sink)
}

/// The fault of a search that told a text in parts: there is one where a part was not taken.
fn whole(parts: Result<(), WriteFault>) -> Result<(), SearchFault>
    ensures { result ≡ write_of parts }
{
    match parts {
        Ok(()) => Ok(()),
        Err(_) => Err(SearchFault::Write),
    }
}

/// Tells what stands after the rows of a stream of which `count` lines were selected, where `all` were answered or not. It comes
/// by parts, so that no memory is asked for it.
///
/// # Errors
///
/// `Write` if the sink failed: then a part of it was told.
pub(crate) fn tell_summary<S: Sink>(
    form: &Form<'_>,
    count: u64,
    all: bool,
    sink: &mut S,
) -> Result<(), SearchFault>
    requires working { (S.state sink.old).failed ≡ false }
    ensures text { PutsEnd S.stands S.stopped sink.old sink.new result (summary_of form.now.summary form.now count all) }
    ensures tells { TellsOfSink result (S.state sink.old) (S.state sink.new) }
{
    match form.summary {
        Summary::Count => whole(tell_count(form, count, sink)),
        Summary::NameWith if count > 0 => whole(tell_name(form, false, b"\n", sink)),
        Summary::NameWithout if count == 0 && all => whole(tell_name(form, false, b"\n", sink)),
        _ => Ok(()),
    }
}
