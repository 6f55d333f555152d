//! The names of a snapshot that no ask has (docs/PROTOCOL.md, "A view").
use crate::asks::{Verb, ask_of};
use crate::store::{Is, Store, item_of, snapshot};
use album_items::Items;
use album_reader::Snapshot;
use album_stamps::Refusal;
use album_views::{Ask, names};
use std::alloc::Global;

const STORE: Store = &[("picture/0", Is::Picture(0)), ("list/0", Is::List(&[]))];

fn one_item(alloc: Global, text: &str) -> Result<Items, Refusal> {
    let mut items = Vec::new(alloc);
    items.push(item_of(text)?)?;
    Ok(Items::of(items))
}

/// A snapshot of this item.
fn snapshot_of(alloc: Global, text: &str) -> Result<Snapshot, Refusal> {
    let items = one_item(alloc, text)?;
    let snapshot = snapshot(alloc, STORE, &items);
    drop(items);
    snapshot
}

/// How many items the ruling on the ask looks at, by a snapshot of this item.
fn count(alloc: Global, ask: &Ask, text: &str) -> Result<usize, Refusal> {
    let snapshot = snapshot_of(alloc, text)?;
    let names = names(alloc, &snapshot, &None, ask);
    drop(snapshot);
    let names = names?;
    Ok(names.len())
}

/// The same, where the ask is a read of picture/0.
fn names_when(alloc: Global, text: &str) -> Result<usize, Refusal> {
    let ask = ask_of(alloc, Verb::Read, "picture/0")?;
    let count = count(alloc, &ask, text);
    drop(ask);
    count
}

/// The item of the snapshot, and how many are looked at.
const NAMED: &[(&str, usize)] = &[("picture/0", 3), ("list/0", 1)];

/// Only what was read names something: the picture its list and its head group, and the list alone nothing.
#[test]
fn names_without_the_object(rt: HostRuntime) {
    for (text, named) in NAMED {
        assert_eq!(rt; names_when(rt.alloc(), text), Ok(*named));
    }
}
