//! What no ask is answered: a listing of an album that is missing (docs/FORMATS.md, "Asks").
use crate::asks::Verb;
use crate::ruling::{Asked, seen_by};
use crate::store::AMY;
use album_eval::Principal;
use album_listing::{Rows, list};
use album_stamps::Refusal;
use album_views::View;
use std::alloc::Global;

/// What is listed by the view; once more, where there was no memory.
fn listed(alloc: Global, view: &View, principal: &Principal) -> Result<Rows, Refusal> {
    if !view.ask().is_list() {
        return Err(Refusal::Clash);
    }
    match list(alloc, view, principal) {
        Ok(rows) => Ok(rows),
        Err(_) => list(alloc, view, principal),
    }
}

/// How many rows the listing of album/0 has, which is missing.
fn count(alloc: Global) -> Result<usize, Refusal> {
    let asked: Asked = (&[], AMY, Verb::List, "album/0");
    let (view, principal) = seen_by(alloc, asked)?;
    let listed = listed(alloc, &view, &principal);
    drop(view);
    drop(principal);
    let rows = listed?;
    Ok(rows.as_slice().len())
}

#[test]
fn a_missing_album_has_no_rows(rt: HostRuntime) {
    assert_eq!(rt; count(rt.alloc()), Ok(0));
}
