//! Hints that don't fit, and an ask that has none. One lacks what the ask looks at now. One names more than the ask
//! looks at. One has lost its place to another object's. Each ask gets the answer that a service without hints gives
//! (docs/PROTOCOL.md, "Hints" in "A service").
use crate::asked::Wish::{Delete, List, Read, SetGroup, SetLists};
use crate::asked::{Row, Wish, assert_answers};
use crate::gates::{Counting, Counts};
use crate::messages::item_of;
use crate::sessions::{OWNED, READABLE, list};
use crate::values::{album_of_two, picture};
use album_items::{FirstStamps, ItemId, ItemValues, Opening, Value};
use album_stamps::Refusal;
use album_threads::{Opened, OwnedSession, Service, ServiceNames, Visit, with_opened};
use std::alloc::Global;
use std::process::Abort;
use std::sync::{Arc, Wait};
use std::test::Fail;
use std::thread::Threads;
use std::time;

fn push(
    items: &mut Vec<(ItemId, Value)>,
    text: &str,
    value: Result<Value, Refusal>,
) -> Result<(), Refusal> {
    items.push((item_of(text)?, value?))?;
    Ok(())
}

/// Three pictures of amy's and an album. picture/0 and the lists 1 and 4 are placed at partition 0 of three; the others
/// and list/2 at 1; list/0 at 2. Group 0, which heads all, is missing and would be placed at 0.
fn items(alloc: Global) -> Result<ItemValues, Refusal> {
    let mut items = Vec::new(alloc);
    push(&mut items, "picture/0", picture(alloc, 0))?;
    push(&mut items, "picture/1", picture(alloc, 1))?;
    push(&mut items, "picture/31555", picture(alloc, 4))?;
    push(&mut items, "album/0", album_of_two(alloc))?;
    push(&mut items, "list/0", list(alloc, READABLE))?;
    push(&mut items, "list/1", list(alloc, OWNED))?;
    push(&mut items, "list/2", list(alloc, READABLE))?;
    push(&mut items, "list/4", list(alloc, OWNED))?;
    Ok(ItemValues::of(items))
}

/// This for one session, with hints or as a plain service.
fn opened(alloc: Global, plain: bool) -> Result<Opened, Refusal> {
    let opening = Opening {
        parts: 3,
        limit: 1000,
        policy: 1,
        checked: false,
        root: None,
        first: 0,
        items: items(alloc)?,
        stamps: FirstStamps::new(alloc),
    };
    let opened = Opened::new(alloc, &opening, 1)?;
    if plain {
        return Ok(opened.plain());
    }
    Ok(opened)
}

/// What is asked, and the answer, with hints and without. The numbers are of messages, with hints; and without, where
/// each read begins with the objects and asks in both rounds.
type Twice = (Wish, &'static str, (u64, u64), (u64, u64));

/// The first read is of picture/0, and then with it of list/0 and group/0; the second is of all three at once, by the
/// hint. Both lists are set by a read of the objects, each time: an ask of several objects has no hint and leaves none.
/// So the hint of picture/0 stays. By it bo is denied at once, and that replaces no hint: amy is served at once, too.
const WIDE: &[Twice] = &[
    (Read("bo@users", "picture/0"), "Sea at 0", (3, 1), (6, 2)),
    (Read("bo@users", "picture/0"), "Sea at 0", (2, 1), (6, 2)),
    (SetLists, "committed at 65537", (6, 3), (10, 4)),
    (
        Read("bo@users", "picture/0"),
        "denied picture/0 at the end",
        (2, 1),
        (6, 2),
    ),
    (Read("amy@users", "picture/0"), "Sea at 0", (2, 1), (6, 2)),
    (Read("bo@users", "picture/1"), "Sea at 0", (2, 0), (4, 0)),
    (SetLists, "committed at 131073", (6, 3), (10, 4)),
];

/// A listing reads the album, then its children with it, then their lists too. Once picture/0 is deleted its hint still
/// names it and list/0, at partition 2: both are read, and not listed.
const LISTED: &[Twice] = &[
    (
        List("amy@users", "album/0"),
        "listed picture/0 picture/1",
        (5, 1),
        (10, 2),
    ),
    (Delete("picture/0"), "committed at 65537", (7, 4), (12, 6)),
    (
        List("amy@users", "album/0"),
        "listed picture/1",
        (3, 1),
        (6, 0),
    ),
    (
        List("amy@users", "album/0"),
        "listed picture/1",
        (3, 1),
        (6, 0),
    ),
];

/// The head group becomes group/1, of partition 1. So what the hint names lacks it, and a read begins anew: after the
/// hinted read it reads picture/0, and then with it list/0 and group/1. The next one reads all three at once. Group 0
/// comes back: once more the hint lacks it.
const REGROUPED: &[Twice] = &[
    (Read("bo@users", "picture/0"), "Sea at 0", (3, 1), (6, 2)),
    (SetGroup(1), "committed at 65537", (4, 1), (8, 2)),
    (
        Read("bo@users", "picture/0"),
        "Sea at 65537",
        (4, 2),
        (4, 2),
    ),
    (
        Read("bo@users", "picture/0"),
        "Sea at 65537",
        (1, 1),
        (4, 2),
    ),
    (SetGroup(0), "committed at 131073", (3, 1), (6, 2)),
    (
        Read("bo@users", "picture/0"),
        "Sea at 131073",
        (4, 2),
        (6, 2),
    ),
    (
        Read("cy@users", "picture/0"),
        "Sea at 131073",
        (2, 1),
        (6, 2),
    ),
];

/// The hints of picture/0 and picture/31555 have one place of the 4,096, by the numbers of both: each takes that of the
/// other. That of picture/1 has another place.
const ONE_PLACE: &[Twice] = &[
    (Read("bo@users", "picture/0"), "Sea at 0", (3, 1), (6, 2)),
    (Read("bo@users", "picture/0"), "Sea at 0", (2, 1), (6, 2)),
    (
        Read("bo@users", "picture/1"),
        "denied picture/1 at the end",
        (2, 0),
        (4, 0),
    ),
    (Read("bo@users", "picture/0"), "Sea at 0", (2, 1), (6, 2)),
    (
        Read("bo@users", "picture/31555"),
        "denied picture/31555 at the end",
        (2, 0),
        (4, 0),
    ),
    (Read("bo@users", "picture/0"), "Sea at 0", (3, 1), (6, 2)),
    (Read("bo@users", "picture/0"), "Sea at 0", (2, 1), (6, 2)),
];

/// The row of a service with hints, or of a plain one.
fn row_of(twice: &Twice, plain: bool) -> Row {
    let (wish, expected, hinted, unhinted) = *twice;
    (wish, expected, if plain { unhinted } else { hinted })
}

/// A visit of one session, while the gate counts. The session gets the answers of the rows.
#[derive(Drop)]
struct Asking {
    counts: Arc<Counts, Global>,
    rows: &'static [Twice],
    plain: bool,
}

impl<R: Wait + time::Clock + Abort + Copy> Visit<R> for Asking {
    type Answer = Result<(), Fail>;

    fn visit<J: ServiceNames + Send + Sync>(
        self,
        rt: &R,
        alloc: Global,
        service: &Service<J>,
    ) -> Result<(), Fail> {
        let mut owned = OwnedSession::begin(rt, service)?;
        for row in self.rows {
            let row = row_of(row, self.plain);
            assert_answers(rt, alloc, &mut owned.session, &self.counts, &[row])?;
        }
        Ok(())
    }
}

fn assert_one<R: Threads + Wait + time::Clock + Abort + Copy + Send + Sync + 'static>(
    rt: R,
    alloc: Global,
    rows: &'static [Twice],
    plain: bool,
) -> Result<(), Fail> {
    let opened = opened(alloc, plain)?;
    let counts = Arc::new(alloc, Counts::new())?;
    let gate = Counting {
        counts: Arc::try_clone(&counts)?,
    };
    let visit = Asking {
        counts,
        rows,
        plain,
    };
    with_opened(rt, alloc, opened, gate, visit)?
}

/// A session gets these answers from a service with hints, and the same from a plain one.
fn assert_same_answers<R: Threads + Wait + time::Clock + Abort + Copy + Send + Sync + 'static>(
    rt: R,
    alloc: Global,
    rows: &'static [Twice],
) -> Result<(), Fail> {
    assert_one(rt, alloc, rows, false)?;
    assert_one(rt, alloc, rows, true)
}

#[test]
fn an_ask_of_several_objects(rt: HostRuntime) -> Result<(), Fail> {
    assert_same_answers(rt, rt.alloc(), WIDE)
}

#[test]
fn a_hint_that_names_what_is_deleted(rt: HostRuntime) -> Result<(), Fail> {
    assert_same_answers(rt, rt.alloc(), LISTED)
}

/// A hint that no longer names all that is looked at is let go.
#[test]
fn a_stale_hint(rt: HostRuntime) -> Result<(), Fail> {
    assert_same_answers(rt, rt.alloc(), REGROUPED)
}

#[test]
fn two_hints_of_one_place(rt: HostRuntime) -> Result<(), Fail> {
    assert_same_answers(rt, rt.alloc(), ONE_PLACE)
}
