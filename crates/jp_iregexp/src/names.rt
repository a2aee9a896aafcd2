//! The names of properties (RFC 9485, section 3, `IsCategory`).

ghost use Rattle.std.specs.Prelude.{◌≡◌, option_map, map};
ghost use Rattle.jp_model.specs.Characters.{text_equal};
ghost use Rattle.jp_model.specs.Pattern.Classes.{look_up, property_named};
ghost use Rattle.jp_iregexp.specs.Nodes.{property_of};
ghost use Rattle.jp_iregexp.specs.Names.{letters_of, entry_of};

use crate::class::Property;
use crate::class::Property::{Category, Group};
use unicode::properties::{GeneralCategory, GeneralCategoryGroup};

/// The properties that a pattern can name, each after the letters of its name.
static PROPERTIES: [(char, Option<char>, Property); 36] = [
    ('L', None, Group(GeneralCategoryGroup::Letter)),
    ('L', Some('l'), Category(GeneralCategory::LowercaseLetter)),
    ('L', Some('m'), Category(GeneralCategory::ModifierLetter)),
    ('L', Some('o'), Category(GeneralCategory::OtherLetter)),
    ('L', Some('t'), Category(GeneralCategory::TitlecaseLetter)),
    ('L', Some('u'), Category(GeneralCategory::UppercaseLetter)),
    ('M', None, Group(GeneralCategoryGroup::Mark)),
    ('M', Some('c'), Category(GeneralCategory::SpacingMark)),
    ('M', Some('e'), Category(GeneralCategory::EnclosingMark)),
    ('M', Some('n'), Category(GeneralCategory::NonspacingMark)),
    ('N', None, Group(GeneralCategoryGroup::Number)),
    ('N', Some('d'), Category(GeneralCategory::DecimalNumber)),
    ('N', Some('l'), Category(GeneralCategory::LetterNumber)),
    ('N', Some('o'), Category(GeneralCategory::OtherNumber)),
    ('P', None, Group(GeneralCategoryGroup::Punctuation)),
    (
        'P',
        Some('c'),
        Category(GeneralCategory::ConnectorPunctuation),
    ),
    ('P', Some('d'), Category(GeneralCategory::DashPunctuation)),
    ('P', Some('e'), Category(GeneralCategory::ClosePunctuation)),
    ('P', Some('f'), Category(GeneralCategory::FinalPunctuation)),
    (
        'P',
        Some('i'),
        Category(GeneralCategory::InitialPunctuation),
    ),
    ('P', Some('o'), Category(GeneralCategory::OtherPunctuation)),
    ('P', Some('s'), Category(GeneralCategory::OpenPunctuation)),
    ('Z', None, Group(GeneralCategoryGroup::Separator)),
    ('Z', Some('l'), Category(GeneralCategory::LineSeparator)),
    (
        'Z',
        Some('p'),
        Category(GeneralCategory::ParagraphSeparator),
    ),
    ('Z', Some('s'), Category(GeneralCategory::SpaceSeparator)),
    ('S', None, Group(GeneralCategoryGroup::Symbol)),
    ('S', Some('c'), Category(GeneralCategory::CurrencySymbol)),
    ('S', Some('k'), Category(GeneralCategory::ModifierSymbol)),
    ('S', Some('m'), Category(GeneralCategory::MathSymbol)),
    ('S', Some('o'), Category(GeneralCategory::OtherSymbol)),
    ('C', None, Group(GeneralCategoryGroup::Other)),
    ('C', Some('c'), Category(GeneralCategory::Control)),
    ('C', Some('f'), Category(GeneralCategory::Format)),
    ('C', Some('n'), Category(GeneralCategory::Unassigned)),
    ('C', Some('o'), Category(GeneralCategory::PrivateUse)),
];

/// Whether a name has these letters.
fn is_spelled(first: char, second: Option<char>, name: &[char]) -> bool
    ensures { result ≡ text_equal (letters_of first second) name.now }
{
    match (second, name) {
        (None, [letter]) => *letter == first,
        (Some(second), [letter, next]) => *letter == first && *next == second,
        _ => false,
    }
}

/// What a table has under a name.
fn find_in(table: &[(char, Option<char>, Property)], name: &[char]) -> Option<Property>
    ensures { option_map property_of result ≡ look_up (map entry_of table.now) name.now }
{
    let mut left = table;
    while let [(first, second, property), rest @ ..] = left {
        if is_spelled(*first, *second, name) {
            return Some(*property);
        }
        left = rest;
    }
    None
}

/// The property of these letters.
pub(crate) fn find_property(name: &[char]) -> Option<Property>
    ensures { option_map property_of result ≡ property_named name.now }
{
    find_in(&PROPERTIES, name)
}
