//! A data item as a value: `Item`.

ghost use Rattle.std.specs.Prelude.{◌≡◌};
ghost use Rattle.format_cbor.specs.Items.{item_head};
ghost use Rattle.format_cbor.specs.declared.item.Item.TheViews.{out-Item};

use crate::scalar::{head, head_of};
use crate::{Head, Kind, Scalar};

/// A data item (section 3.1).
#[derive(Debug, Drop)]
pub enum Item {
    /// An item that holds no other
    Scalar(Scalar),
    /// An array of items
    Array(Vec<Item>),
    /// A map: each key with its value, in the order of the bytes
    Map(Vec<(Item, Item)>),
    /// The number of a tag, and the item that it tags
    Tagged(u64, Box<Item>),
}

// Returns the head of the item.
pub(crate) fn item_head(item: &Item) -> Head
    ensures { result ≡ item_head (out-Item item.now) }
{
    match item {
        Item::Scalar(scalar) => head_of(scalar),
        Item::Array(items) => head(Kind::Array, items.len() as u64),
        Item::Map(entries) => head(Kind::Map, entries.len() as u64),
        Item::Tagged(number, _) => head(Kind::Tag, *number),
    }
}
