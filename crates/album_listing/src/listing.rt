//! What is listed of an album.
ghost use Rattle.std.specs.Prelude.{◌≡◌, ◌==◌, ◌++◌, ◌∷◌, [], false, IfOk, OnOk, IsOkUnless, IsTrue};
ghost use Rattle.std.specs.List.{filter_map};
ghost use Rattle.std.specs.Option.{option_copied, option_map_or};
ghost use Rattle.album_views.specs.Asks.{is_list};
ghost use Rattle.album_listing.specs.RulingContexts.{basis_of, IsSetOfGroups};
ghost use Rattle.album_listing.specs.Listing.{title_in, title_shown, row_for, listed, IsListing};
ghost use Rattle.album_listing.specs.Masks.{READ_ATTRIBUTES};
ghost use Rattle.album_listing.specs.Reasons.{is_granted_on};

use crate::groups::groups_in;
use crate::reasons::Alternative;
use crate::rows::{Row, Rows};
use crate::ruling_contexts::RulingContext;
use album_access::Mask;
use album_eval::{Policy, Principal};
use album_items::{ItemId, Title, Value};
use album_stamps::Refusal;
use album_views::{Ask, View};
use std::alloc::Global;
use std::collections::BTreeSet;

/// The children of the album that the ask of the view is to list, those on which the principal is granted
/// READ_ATTRIBUTES, in the order of the album. A child is listed where its home is this album. It is judged
/// under policy One; under each other the rows are the same.
///
/// # Errors
///
/// `OutOfMemory`.
pub fn list(alloc: Global, view: &View, principal: &Principal) -> Result<Rows, Refusal>
    requires { IsTrue (is_list view.now.ask) }
    ensures rows { IfOk result (λ rows. IsListing view.now principal.now rows) }
    ensures memory { IsOkUnless result Refusal.OutOfMemory }
{
    let groups = groups_in(alloc, view, principal)?;
    list_with(alloc, view, principal, &groups)
}

/// The same, with the groups that the principal is in by the view.
///
/// # Errors
///
/// `OutOfMemory`.
pub fn list_with(
    alloc: Global,
    view: &View,
    principal: &Principal,
    groups: &BTreeSet<u64>,
) -> Result<Rows, Refusal>
    requires asked { IsTrue (is_list view.now.ask) }
    requires groups { IsSetOfGroups view.now.rows principal.now groups.now }
    ensures rows { IfOk result (λ rows. IsListing view.now principal.now rows) }
    ensures memory { IsOkUnless result Refusal.OutOfMemory }
{
    let Ask::List { album } = view.ask() else {
        // The ask is a List: the caller has to see to that.
        unreachable!();
    };
    let context = RulingContext::of(alloc, view, principal, Policy::One, groups);
    let rows = listed(alloc, &context, *album);
    drop(context);
    Ok(Rows::of(rows?))
}

/// The rows of the children that have one.
fn listed(alloc: Global, context: &RulingContext, album: ItemId) -> Result<Vec<Row>, Refusal>
    ensures rows { IfOk result (λ rows. rows.items ≡ listed (basis_of context.now) album) }
    ensures memory { IsOkUnless result Refusal.OutOfMemory }
{
    let mut rows = Vec::new(alloc);
    for child in context.lookup().value(album).children() {
        add_row(&mut rows, context, album, *child)?;
    }
    Ok(rows)
}

/// Adds the row of the child, if its title is shown.
fn add_row(
    rows: &mut Vec<Row>,
    context: &RulingContext,
    album: ItemId,
    child: ItemId,
) -> Result<(), Refusal>
    ensures row { OnOk result (rows.new.items
        ≡ rows.old.items ++ filter_map (row_for (basis_of context.now) album) (child ∷ [])) }
    ensures memory { IsOkUnless result Refusal.OutOfMemory }
{
    if let Some(title) = title_shown(context, album, child) {
        rows.push(Row {
            item: child,
            title: title.copy()?,
        })?;
    }
    Ok(())
}

/// The title that is shown of the child.
fn title_shown<'a>(context: &'a RulingContext, album: ItemId, child: ItemId) -> Option<&'a Title>
    ensures { option_copied result ≡ title_shown (basis_of context.now) album child }
{
    let value = context.lookup().value(child);
    if !may_see(context, child, value) {
        return None;
    }
    title_in(album.number(), value)
}

/// Whether READ_ATTRIBUTES is granted on the child, which has this value.
fn may_see(context: &RulingContext, child: ItemId, value: &Value) -> bool
    requires { value.now ≡ (basis_of context.now).seen child }
    ensures { result ≡ is_granted_on (basis_of context.now) child READ_ATTRIBUTES }
{
    let alternative = Alternative {
        object: child,
        mask: Mask::READ_ATTRIBUTES,
    };
    match context.reason_by(alternative, value) {
        Some(reason) => reason.is_grant(),
        None => false,
    }
}

/// The title of what is there, and has the album of this number as its home.
fn title_in(home: u64, value: &Value) -> Option<&Title>
    ensures { option_copied result ≡ title_in home value.now }
{
    match value {
        Value::Picture(picture) => {
            if picture.home == home {
                Some(&picture.title)
            } else {
                None
            }
        }
        Value::Album(album) => {
            if is_home(album.home, home) {
                Some(&album.title)
            } else {
                None
            }
        }
        Value::Missing | Value::List(_) | Value::Group(_) => None,
    }
}

/// Whether the home is the album of this number.
fn is_home(home: Option<u64>, number: u64) -> bool
    ensures { result ≡ option_map_or (λ home. home == number) home false }
{
    match home {
        Some(home) => home == number,
        None => false,
    }
}
