//! The ASCII scalars of a class, as the bits of a word. Those of a range take no pass over them.

ghost use Rattle.std.specs.Prelude.{◌<◌, ◌==◌, ◌&&◌, nat_le, map};
ghost use Rattle.std.specs.List.{list_any};
ghost use Rattle.jp_model.specs.Pattern.Classes.{in_class, in_item, in_property};
ghost use Rattle.jp_iregexp.specs.Nodes.{class_of, item_of, property_of};
ghost use Rattle.jp_iregexp.specs.States.{AreCodes};

use crate::class::{Class, Item, Property, has_property};

/// The scalars of a class.
pub(crate) fn codes_of(class: &Class) -> u128
    ensures { AreCodes (in_class (class_of class.now)) result }
{
    match class {
        Class::Dot => !(up_to(10) & !up_to(9) | up_to(13) & !up_to(12)),
        Class::Members { negated, items } => {
            let codes = codes_of_items(items.as_slice());
            if *negated { !codes } else { codes }
        }
    }
}

/// The ASCII scalars in the union of the items.
fn codes_of_items(items: &[Item]) -> u128
    ensures { AreCodes (λ scalar. list_any (in_item scalar) (map item_of items.now)) result }
{
    let mut all = 0;
    for item in items {
        all |= codes_of_item(*item);
    }
    all
}

/// The ASCII scalars of a range, those with a property, or those without it.
fn codes_of_item(item: Item) -> u128
    ensures { AreCodes (λ scalar. in_item scalar (item_of item)) result }
{
    match item {
        Item::Range(first, last) => codes_of_range(first, last),
        Item::With(property) => codes_of_property(property),
        Item::Without(property) => !codes_of_property(property),
    }
}

/// The ASCII scalars from the first to the last, both included.
fn codes_of_range(first: char, last: char) -> u128
    ensures { AreCodes (λ scalar. nat_le first scalar && nat_le scalar last) result }
{
    if first == '\0' {
        up_to(last as u32)
    } else {
        up_to(last as u32) & !up_to(first as u32 - 1)
    }
}

/// The ASCII scalars up to this one, which is included.
fn up_to(last: u32) -> u128
    ensures { AreCodes (λ scalar. nat_le scalar last) result }
{
    if last >= 127 {
        u128::MAX
    } else {
        (1 << (last + 1)) - 1
    }
}

/// The ASCII scalars with the property. Each of the 128 is tried.
fn codes_of_property(property: Property) -> u128
    ensures { AreCodes (in_property (property_of property)) result }
{
    let mut all = 0;
    for code in 0u8..128 {
        if has_property(property, char::from(code)) {
            all |= 1 << code;
        }
    }
    all
}
