//! Items by number.
ghost use Rattle.std.specs.Prelude.{◌≡◌};
ghost use Rattle.model.specs.Image.{item_in, item_used, is_list, none_or_list, none_or_item};

use crate::Tables;
use model::{Item, ItemRow};
use rows::item::item_at;

impl<'a> Tables<'a> {
    /// Item n is the row with index n - 1, and 0 is no item.
    pub fn item_at(&self, item: Item) -> ItemRow
        ensures { result ≡ item_in self.now.items item.0 }
    {
        item_at(self.bytes, self.layout, item)
    }

    pub fn item_used(&self, item: Item) -> bool
        ensures { result ≡ item_used self.now.items item.0 }
    {
        if item.0 == 0 {
            return false;
        }
        item.0 <= self.layout.items.used
    }

    /// The item is an access list.
    pub fn is_list(&self, item: Item) -> bool
        ensures { result ≡ is_list self.now.items item.0 }
    {
        if !self.item_used(item) {
            return false;
        }
        let row = self.item_at(item);
        row.is_list()
    }

    /// The item is an access list, or 0 for none.
    pub fn none_or_list(&self, item: Item) -> bool
        ensures { result ≡ none_or_list self.now.items item.0 }
    {
        if item.0 == 0 {
            return true;
        }
        self.is_list(item)
    }

    /// The item is in use, or 0 for none.
    pub fn none_or_item(&self, item: Item) -> bool
        ensures { result ≡ none_or_item self.now.items item.0 }
    {
        if item.0 == 0 {
            return true;
        }
        self.item_used(item)
    }
}
