//! Classes of scalars (RFC 9485, sections 3 and 4).

ghost use Rattle.std.specs.Prelude.{◌≡◌, ◌<◌, ◌==◌, ℕ, map, IfOk};
ghost use Rattle.std.specs.List.{list_any};
ghost use Rattle.std.specs.Option.{IfSome};
ghost use Rattle.jp_model.specs.Pattern.Classes.{in_property, in_item, in_class};
ghost use Rattle.jp_iregexp.specs.Nodes.{property_of, item_of, class_of};

use std::alloc::{AllocError, Global};
use unicode::properties::{GeneralCategory, GeneralCategoryGroup};

/// What the braces of `\p{..}` name.
#[derive(Clone, Copy)]
pub(crate) enum Property {
    Group(GeneralCategoryGroup),
    Category(GeneralCategory),
}

/// One item of a class.
#[derive(Clone, Copy)]
pub(crate) enum Item {
    /// The scalars from the first to the second, both included.
    Range(char, char),
    /// The scalars of a property.
    With(Property),
    /// The scalars that do not have a property.
    Without(Property),
}

/// A set of scalars.
#[derive(Drop)]
pub(crate) enum Class {
    /// `.`
    Dot,
    /// The scalars in one of the items, or, where it is negated, in none of them.
    Members { negated: bool, items: Vec<Item> },
}

/// Whether the general category of a scalar is the one that is named, or in the group that is named.
pub(crate) fn has_property(property: Property, scalar: char) -> bool
    ensures { result ≡ in_property (property_of property) scalar }
{
    let category = GeneralCategory::for_char(scalar);
    match property {
        Property::Group(group) => group.contains(category),
        Property::Category(wanted) => category == wanted,
    }
}

/// Whether a scalar is one of those that the item stands for.
#[inline(always)]
fn is_in_item(item: Item, scalar: char) -> bool
    ensures { result ≡ in_item scalar (item_of item) }
{
    match item {
        Item::Range(first, last) => first <= scalar && scalar <= last,
        Item::With(property) => has_property(property, scalar),
        Item::Without(property) => !has_property(property, scalar),
    }
}

/// Whether a scalar is in the union of the items.
#[inline(always)]
fn has_some_item(items: &[Item], scalar: char) -> bool
    ensures { result ≡ list_any (in_item scalar) (map item_of items.now) }
{
    for item in items {
        if is_in_item(*item, scalar) {
            return true;
        }
    }
    false
}

impl Class {
    /// A class of the same scalars, with items of its own.
    pub(crate) fn copy(&self, alloc: Global) -> Result<Class, AllocError>
        ensures { IfOk result (λ class. class_of class ≡ class_of self.now) }
    {
        match self {
            Class::Dot => Ok(Class::Dot),
            Class::Members { negated, items } => Ok(Class::Members {
                negated: *negated,
                items: Vec::from_slice(alloc, items.as_slice())?,
            }),
        }
    }

    /// The scalar that is alone in the class, where it is ASCII.
    pub(crate) fn only_ascii(&self) -> Option<u8>
        ensures scalar { IfSome result (λ only. (scalar : ℕ) → in_class (class_of self.now) scalar ≡ (scalar == only)) }
        ensures ascii { IfSome result (λ only. only < 128) }
    {
        match self {
            Class::Members {
                negated: false,
                items,
            } => match items.as_slice() {
                [Item::Range(first, last)] if first == last && first.is_ascii() => Some(
                    *first as u8,
                ),
                _ => None,
            },
            _ => None,
        }
    }

    /// Whether a scalar is in the class.
    #[inline(always)]
    pub(crate) fn contains(&self, scalar: char) -> bool
        ensures { result ≡ in_class (class_of self.now) scalar }
    {
        match self {
            Class::Dot => scalar != '\n' && scalar != '\r',
            Class::Members { negated, items } => {
                has_some_item(items.as_slice(), scalar) != *negated
            }
        }
    }
}
