//! The machine that cuts: what is known between two bytes of a stream, and what a byte does.

ghost use Rattle.std.specs.Prelude.{◌≡◌, ◌<◌};
ghost use Rattle.jp_model.specs.Characters.{is_white as is_white_byte};
ghost use Rattle.jp_cut.specs.declared.machine.Place.TheVariants as places;
ghost use Rattle.jp_cut.specs.Passing.{is_inside as is_inside_text};
ghost use Rattle.jp_cut.specs.Machine.{nothing_open as nothing_open_at, begin as begin_step, behind as known_behind, depth_behind as behind_depth, element as element_step, first_element as first_element_step, in_text as text_step, in_word as word_step, is_closing as is_closing_byte, is_opening as is_opening_byte, is_whole as has_nothing_open, next_element as next_element_step, step as step_of};

/// Which pieces a stream is cut into.
#[derive(Clone, Copy, Debug, PartialEq, Eq)]
pub enum Pieces {
    /// JSON texts with white space between them.
    Texts,
    /// The elements of the texts that are arrays, and the texts that are not.
    Elements,
}

/// Where a byte of a stream stands.
#[derive(Clone, Copy, Debug, PartialEq, Eq)]
pub enum Place {
    /// Between texts.
    Between,
    /// In a text that begins with no bracket and no quotation mark.
    Word,
    /// In a text that begins with a bracket or a quotation mark.
    Text,
    /// After the bracket that opens an array whose elements are pieces, and white space.
    ArrayStart,
    /// After a comma of such an array, and white space.
    NextElement,
    /// In an element of such an array.
    Element,
}

/// What is known between two bytes of a stream.
#[derive(Clone, Copy, Debug, PartialEq, Eq)]
pub struct Known {
    pub place: Place,
    /// How many brackets of the open piece are open.
    pub depth: usize,
    /// Whether a string is open.
    pub inside: bool,
    /// Whether a reverse solidus escapes the next byte of the string.
    pub escaped: bool,
}

/// What a byte does to the pieces.
#[derive(Clone, Copy, Debug, PartialEq, Eq)]
pub enum Turn {
    /// It is of no piece.
    Passed,
    /// It is of the open piece.
    Kept,
    /// It is the last byte of the open piece.
    Last,
    /// The open piece ended before it, and it is of no piece.
    Ended,
    /// The open piece ended before it, and it is the first byte of the next.
    EndedBefore,
}

/// What a byte does, and what is known after it.
#[derive(Clone, Copy, Debug, PartialEq, Eq)]
pub struct Step {
    pub turn: Turn,
    pub known: Known,
}

/// Whether a byte is white space (RFC 8259, section 2).
#[inline(always)]
fn is_white(byte: u8) -> bool
    ensures { result ≡ is_white_byte byte }
{
    matches!(byte, b' ' | b'\t' | b'\n' | b'\r')
}

/// Whether a byte opens an array or an object (RFC 8259, section 2).
#[inline(always)]
fn is_opening(byte: u8) -> bool
    ensures { result ≡ is_opening_byte byte }
{
    byte == b'[' || byte == b'{'
}

/// Whether a byte closes an array or an object (RFC 8259, section 2).
#[inline(always)]
fn is_closing(byte: u8) -> bool
    ensures { result ≡ is_closing_byte byte }
{
    byte == b']' || byte == b'}'
}

/// What is known at a place where no bracket of the piece and no string is open.
pub fn nothing_open(place: Place) -> Known
    ensures { result ≡ nothing_open_at place }
{
    Known {
        place,
        depth: 0,
        inside: false,
        escaped: false,
    }
}

/// How many brackets are open after a byte outside strings.
#[inline(always)]
fn depth_behind(depth: usize, byte: u8) -> usize
    requires { depth < usize.MAX }
    ensures { result ≡ behind_depth depth byte }
{
    if is_opening(byte) {
        depth + 1
    } else if is_closing(byte) {
        depth.saturating_sub(1)
    } else {
        depth
    }
}

/// What is known after a byte of a piece.
#[inline(always)]
pub fn behind(known: Known, byte: u8) -> Known
    requires { known.depth < usize.MAX }
    ensures { result ≡ known_behind known byte }
{
    Known {
        place: known.place,
        depth: if known.inside {
            known.depth
        } else {
            depth_behind(known.depth, byte)
        },
        inside: known.inside != (byte == b'"' && !known.escaped),
        escaped: byte == b'\\' && !known.escaped,
    }
}

/// Whether a place is in a text of brackets or a string, or in an element.
pub fn is_inside(place: Place) -> bool
    ensures { result ≡ is_inside_text place }
{
    matches!(place, Place::Text | Place::Element)
}

/// Whether no bracket of the piece and no string is open.
#[inline(always)]
fn is_whole(known: Known) -> bool
    ensures { result ≡ has_nothing_open known }
{
    known.depth == 0 && !known.inside
}

/// What a byte does between texts.
#[inline(always)]
fn begin(pieces: Pieces, byte: u8) -> Step
    ensures { result ≡ begin_step pieces byte }
{
    if is_white(byte) {
        return Step {
            turn: Turn::Passed,
            known: nothing_open(Place::Between),
        };
    }
    if pieces == Pieces::Elements && byte == b'[' {
        return Step {
            turn: Turn::Passed,
            known: nothing_open(Place::ArrayStart),
        };
    }
    let known = if is_opening(byte) || byte == b'"' {
        behind(nothing_open(Place::Text), byte)
    } else {
        nothing_open(Place::Word)
    };
    Step {
        turn: Turn::Kept,
        known,
    }
}

/// What a byte does in a text that began with no bracket and no quotation mark.
#[inline(always)]
fn in_word(pieces: Pieces, known: Known, byte: u8) -> Step
    ensures { result ≡ word_step pieces known byte }
{
    if !(is_white(byte) || is_opening(byte) || byte == b'"') {
        return Step {
            turn: Turn::Kept,
            known,
        };
    }
    let next = begin(pieces, byte);
    let turn = match next.turn {
        Turn::Passed => Turn::Ended,
        Turn::Kept => Turn::EndedBefore,
        other => other,
    };
    Step {
        turn,
        known: next.known,
    }
}

/// What a byte does in a text of brackets or a string.
#[inline(always)]
fn in_text(known: Known, byte: u8) -> Step
    requires { known.depth < usize.MAX }
    ensures { result ≡ text_step (known_behind known byte) }
{
    let next = behind(known, byte);
    if is_whole(next) {
        Step {
            turn: Turn::Last,
            known: nothing_open(Place::Between),
        }
    } else {
        Step {
            turn: Turn::Kept,
            known: next,
        }
    }
}

/// What a byte does in an element.
#[inline(always)]
fn in_element(known: Known, byte: u8) -> Step
    requires { known.depth < usize.MAX }
    ensures { result ≡ element_step known byte }
{
    if is_whole(known) {
        let ended = match byte {
            b',' => Some((Turn::Ended, Place::NextElement)),
            b']' => Some((Turn::Ended, Place::Between)),
            b'}' => Some((Turn::Last, Place::Between)),
            _ => None,
        };
        if let Some((turn, place)) = ended {
            return Step {
                turn,
                known: nothing_open(place),
            };
        }
    }
    Step {
        turn: Turn::Kept,
        known: behind(known, byte),
    }
}

/// What a byte does in front of an element.
#[inline(always)]
fn before_element(place: Place, byte: u8) -> Step
    ensures next { place ≡ places.NextElement → result ≡ next_element_step byte }
    ensures first { place ≡ places.ArrayStart → result ≡ first_element_step byte }
{
    if is_white(byte) {
        return Step {
            turn: Turn::Passed,
            known: nothing_open(place),
        };
    }
    if place == Place::ArrayStart && byte == b']' {
        return Step {
            turn: Turn::Passed,
            known: nothing_open(Place::Between),
        };
    }
    in_element(nothing_open(Place::Element), byte)
}

/// What a byte does.
#[inline(always)]
#[tactic(auto, unfolding(crate::specs::Machine::step))]
pub fn step_on(pieces: Pieces, known: Known, byte: u8) -> Step
    requires { known.depth < usize.MAX }
    ensures { result ≡ step_of pieces known byte }
{
    match known.place {
        Place::Between => begin(pieces, byte),
        Place::Word => in_word(pieces, known, byte),
        Place::Text => in_text(known, byte),
        Place::ArrayStart | Place::NextElement => before_element(known.place, byte),
        Place::Element => in_element(known, byte),
    }
}
