//! Laws of streams of values: which pieces they are cut into, and which streams are cut into values.

ghost use Rattle.std.specs.Prelude.{◌≡◌, ◌∷◌, ◌++◌, [], ℕ, List, true, false, map, All};
ghost use Rattle.jp_model.specs.declared.Framing.TheVariants.{Lines as in_lines};
ghost use Rattle.jp_model.specs.Json.Faults.{has_open_end};
ghost use Rattle.jp_model.specs.Json.Places.{bytes_between};
ghost use Rattle.jp_model.specs.Json.Reader.{status_of};
ghost use Rattle.jp_model.specs.Json.Status.{parsed};
ghost use Rattle.jp_model.specs.Json.Tree.{array, container, Children, Tree, span, value_of};
ghost use Rattle.jp_model.specs.Lines.{HasNoSeparator, lines, without_byte_order_mark};
ghost use Rattle.jp_cut.specs.Cuts.{Piece, cut_of, pieces_of};
ghost use Rattle.jp_cut.specs.Worked.{closed, bytes_and_ends};
ghost use Rattle.jp_cut.specs.declared.machine.Pieces.{Pieces};
ghost use Rattle.jp_cut.specs.declared.machine.Pieces.TheVariants.{Elements, Texts};
ghost use Rattle.jp_cut_laws.specs.Elements.{IsArray, SaysTheSame, SayTheSame};
ghost use Rattle.jp_cut_laws.specs.Values.{AreValues, IsRefused, IsTaken, IsValue, after_piece, after_pieces, bytes_of, is_split, may_end_word, on_one_line, open_word, values_of_lines};

/// A value that a line accepts is one piece, whole, unless it is an array and its elements are the pieces. A string, an array
/// or an object is closed with its last byte, whatever follows it, and what follows is cut as it is alone. A number, `true`,
/// `false` or `null` stays open until white space, an opening bracket, a quotation mark or the end of the stream.
///
/// A cut that counts brackets in strings, or takes `\"` for the end of a string, or ends a number at its point, is refused
/// here.
pub fn a_value_is_one_piece()
    ensures its_end_shows { (pieces : Pieces) (bytes more : List ℕ) (t : Tree) → IsValue bytes t
        → is_split pieces (value_of t) ≡ false → has_open_end (value_of t) ≡ false
        → cut_of pieces (bytes ++ more) ≡ after_piece bytes (cut_of pieces more) }
    ensures it_may_go_on { (pieces : Pieces) (bytes : List ℕ) (t : Tree) → IsValue bytes t → has_open_end (value_of t) ≡ true
        → cut_of pieces bytes ≡ open_word bytes }
    ensures it_is_ended { (pieces : Pieces) (bytes : List ℕ) (byte : ℕ) (more : List ℕ) (t : Tree) → IsValue bytes t
        → has_open_end (value_of t) ≡ true → may_end_word (byte ∷ more) ≡ true
        → cut_of pieces (bytes ++ byte ∷ more) ≡ after_piece bytes (cut_of pieces (byte ∷ more)) }
{}

/// The pieces of a stream of values are these values, or the elements of those that are arrays; each is closed, and none is
/// refused. Such a stream is values that a line accepts, with any white space around them, where each number, `true`, `false`
/// and `null` is followed by white space, an opening bracket, a quotation mark or the end (RFC 8259, section 2).
///
/// A cut at each line feed, which cuts a value that stands on two lines, is refused here, and so is one for which a line feed
/// does not end a number.
pub fn values_are_pieces()
    ensures are { (pieces : Pieces) (stream : List ℕ) (values : List (List ℕ))
        → AreValues pieces (without_byte_order_mark stream) values
        → bytes_and_ends (pieces_of pieces stream) ≡ map closed values }
    ensures none_is_refused { (pieces : Pieces) (stream : List ℕ) (values : List (List ℕ))
        → AreValues pieces (without_byte_order_mark stream) values → All IsTaken (pieces_of pieces stream) }
{}

/// A stream whose pieces are all closed and accepted, each as a line, is a stream of values: these pieces, or arrays of them,
/// with white space around them, where each number, `true`, `false` and `null` is followed by white space, an opening bracket,
/// a quotation mark or the end. So no other stream is taken for one (RFC 8259, sections 2 and 5).
///
/// A cut that passes over commas, and so takes `1,2` for two values, is refused here, and so is one that takes `1true` for
/// two.
pub fn accepted_pieces_are_values()
    ensures { (pieces : Pieces) (stream : List ℕ) → All IsTaken (pieces_of pieces stream)
        → AreValues pieces (without_byte_order_mark stream) (bytes_of (pieces_of pieces stream)) }
{}

/// A collection in which no line is refused is a stream of the values of its lines. With the laws above, these are its pieces,
/// so it has the same values as a stream. A value alone, without the white space around it, says the same as its line.
///
/// A grammar in which a comma may follow the value of a line is refused here.
pub fn lines_are_values()
    ensures of_one { (line : List ℕ) (t : Tree) → status_of in_lines line ≡ parsed t
        → AreValues Texts line (bytes_between line (span t).start (span t).end ∷ []) }
    ensures of_all { (collection : List ℕ) → All (λ line. IsRefused line → ⊥) (lines in_lines collection)
        → AreValues Texts (without_byte_order_mark collection) (values_of_lines (lines in_lines collection)) }
    ensures alone { (line : List ℕ) (t : Tree) → status_of in_lines line ≡ parsed t
        → SaysTheSame (bytes_between line (span t).start (span t).end) t }
{}

/// The elements of an array are its pieces, each closed: elements that a line accepts, with commas between them and any white
/// space around them. The white space after an element is part of its piece, and what follows the array is cut as it is alone
/// (RFC 8259, section 5).
///
/// A cut at each comma is refused here: it cuts an array that is an element.
pub fn elements_are_pieces()
    ensures { (bytes more : List ℕ) (elements : List (List ℕ)) → IsArray bytes elements → (pieces : List Piece)
        × (bytes_and_ends pieces ≡ map closed elements)
        × (cut_of Elements (bytes ++ more) ≡ after_pieces pieces bytes (cut_of Elements more)) }
{}

/// An array that a line accepts has elements that lines accept, and they say the same as its children, in turn. With the law
/// above, these are its pieces (RFC 8259, section 5).
///
/// A grammar in which the comma between two elements may be missing, or one may stand after the last, is refused here.
pub fn an_array_has_its_elements()
    ensures { (bytes : List ℕ) (t : Tree) (children : Children) → IsValue bytes t → value_of t ≡ container array children
        → (elements : List (List ℕ)) × IsArray bytes elements × SayTheSame elements children }
{}

/// A text that a line accepts says the same without its line feeds and carriage returns, and is one line then. Neither stands
/// in a string as itself, so both are white space around tokens (RFC 8259, sections 2 and 7).
///
/// A grammar in which a control character may stand in a string as itself is refused here: without a line feed it is another.
pub fn one_line_says_the_same()
    ensures says { (text : List ℕ) (t : Tree) → status_of in_lines text ≡ parsed t → SaysTheSame (on_one_line text) t }
    ensures is_one { (text : List ℕ) → HasNoSeparator 0x0A (on_one_line text) }
{}
