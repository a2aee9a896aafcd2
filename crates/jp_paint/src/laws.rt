//! Laws of rows in colours.

ghost use Rattle.jp_paint.specs.Laws.{ColoursAreSequences, ColoursComeOff, PaintedTextsJoin};

/// A part in its colour, and a line in which bytes are coloured, differ from what they are without colours by escape sequences
/// alone. A colour that prints a letter, or an end that is left out within a line, is refused.
pub fn colours_are_sequences()
    ensures { ColoursAreSequences }
{}

/// Texts that differ from plain ones by escape sequences alone do so one after another, too: no sequence reaches into the text
/// after it.
pub fn painted_texts_join()
    ensures { PaintedTextsJoin }
{}

/// Without its escape sequences a text in colours is the plain one, where that has none of its own.
pub fn colours_come_off()
    ensures { ColoursComeOff }
{}
