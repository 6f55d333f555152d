//! What a view shows of its items.
ghost use Rattle.std.specs.Prelude.{◌≡◌, []};
ghost use Rattle.album_items.specs.declared.values.Value.TheVariants.{Missing};

use album_items::{ItemId, Kind, Value};
use album_lists::AccessList;
use album_stamps::Stamp;
use album_views::View;
use std::alloc::Global;

/// A view, with a missing value for each item that it does not show, and an empty list for each list that it doesn't.
#[derive(Debug, Drop)]
pub struct ViewLookup<'a> {
    view: &'a View,
    missing: Value,
    no_entries: AccessList,
    ghost unseen: { missing ≡ Missing },
    ghost empty: { no_entries ≡ [] },
}

impl<'a> ViewLookup<'a> {
    ghost use Rattle.std.specs.Prelude.{◌≡◌};
    ghost use Rattle.std.specs.Option.{option_map_or};
    ghost use Rattle.album_items.specs.ItemIds.{list};
    ghost use Rattle.album_items.specs.Values.{entries_of};
    ghost use Rattle.album_reader.specs.Snapshots.{version_read};
    ghost use Rattle.album_views.specs.Seen.{seen};
    ghost use Rattle.album_listing.specs.ViewLookups.{stamp_seen, entries_named, list_named, stamp_named};

    /// What the view shows.
    #[tactic(auto, unfolding(album_lists::specs::Entries::access_list_of))]
    pub fn of(alloc: Global, view: &'a View) -> ViewLookup<'a>
        ensures { result.view.now ≡ view.now }
    {
        ViewLookup {
            view,
            missing: Value::Missing,
            no_entries: AccessList::new(Vec::new(alloc)).unwrap(),
        }
    }

    /// The view.
    pub fn view(&self) -> &View
        ensures { result.now ≡ self.now.view.now }
    {
        self.view
    }

    /// The value of the item; one that was not read is missing.
    #[tactic(auto, unfolding(album_views::specs::Seen::seen))]
    pub fn value(&self, item: ItemId) -> &Value
        ensures { result.now ≡ seen self.now.view.now.rows item }
    {
        match self.view.at(item) {
            Some((_, value)) => value,
            None => &self.missing,
        }
    }

    /// The stamp at which the item is seen; one that was not read is at 0.
    pub fn stamp(&self, item: ItemId) -> Stamp
        ensures { result ≡ stamp_seen self.now.view.now.rows item }
    {
        match self.view.at(item) {
            Some((stamp, _)) => stamp,
            None => Stamp::zero(),
        }
    }

    /// The list of the number; one that is missing has no entries.
    pub fn list(&self, number: u64) -> &AccessList
        ensures { result.now ≡ entries_of (seen self.now.view.now.rows (list number)) }
    {
        match self.value(ItemId::new(Kind::List, number)) {
            Value::List(list) => list,
            Value::Missing | Value::Picture(_) | Value::Album(_) | Value::Group(_) => {
                &self.no_entries
            }
        }
    }

    /// The list that the head of the item names; one that is missing has no entries.
    pub fn list_of(&self, item: ItemId) -> &AccessList
        ensures { result.now ≡ entries_named (seen self.now.view.now.rows) item }
    {
        match self.value(item).head() {
            Some(head) => self.list(head.list),
            None => &self.no_entries,
        }
    }

    /// The item of that list. What has no head is its own.
    pub fn list_named(&self, item: ItemId) -> ItemId
        ensures { result ≡ list_named (seen self.now.view.now.rows) item }
    {
        match self.value(item).head() {
            Some(head) => ItemId::new(Kind::List, head.list),
            None => item,
        }
    }

    /// The stamp at which that list is seen.
    pub fn stamp_of_list(&self, item: ItemId) -> Stamp
        ensures { result ≡ stamp_named self.now.view.now.rows item }
    {
        match self.value(item).head() {
            Some(head) => self.stamp(ItemId::new(Kind::List, head.list)),
            None => Stamp::zero(),
        }
    }
}
