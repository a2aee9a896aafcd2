//! Laws of the cut.

ghost use Rattle.std.specs.Prelude.{◌≡◌, ◌++◌, ℕ, List};
ghost use Rattle.jp_model.specs.Lines.{without_byte_order_mark};
ghost use Rattle.jp_cut.specs.Cuts.{Piece, cut_of, pieces_of};
ghost use Rattle.jp_cut.specs.TextLayout.{IsLaidOut};
ghost use Rattle.jp_cut.specs.declared.machine.Pieces.{Pieces};
ghost use Rattle.jp_cut.specs.declared.machine.Pieces.TheVariants.{Texts};

/// What has ended has ended, whatever bytes come after: so pieces can be handed out before the next read. A cut that takes
/// back or joins a piece when more comes, such as a number that ends with a read, is refused.
pub fn what_ended_stays()
    ensures { (pieces : Pieces) (front back : List ℕ)
        → (more : List Piece) × ((cut_of pieces (front ++ back)).ended ≡ (cut_of pieces front).ended ++ more) }
{}

/// The texts of a stream and white space between them are all of the stream (RFC 8259, section 2). A cut that drops a byte,
/// such as a bracket that closes nothing or the byte after a number, or that hands out one twice, is refused.
pub fn texts_are_the_stream()
    ensures { (stream : List ℕ) → IsLaidOut (without_byte_order_mark stream) (pieces_of Texts stream) }
{}
