//! A world and a service to which the same happens in the same order answer the same. In each order the asks are the
//! same, and the answers are others; they were worked out by hand from docs/PROTOCOL.md and docs/FORMATS.md.
//
// What can be followed is each order in which a partition takes its mails as they were sent. A gate can't let a mail
// overtake another one, nor hold a session between the Prepares that it sends to two partitions; so no order that
// aborts a write is here.
//
// An ask of bo's, one of amy's other than for two lists, and one for album/3 look so: its object is read twice at
// partition 0, and then with its list at 1 and group/0 at 3, twice again. amy's ask for two lists looks at two objects
// at 0 and 1, twice, and then at these with their lists at 1 and 2 and the group at 3, twice.
use crate::conducted::conduct;
use crate::mails::{Followed, follow};
use crate::messages::same;
use crate::scripts::Step::{Ask, Take};
use crate::scripts::Who::{Amy, Bo};
use crate::scripts::{Script, Step};
use std::alloc::Global;
use std::process::Abort;
use std::sync::Wait;
use std::test::Fail;
use std::thread::Threads;
use std::time;

/// All reads for an ask of one object.
const LOOK: Step = Take(&[0, 0, 0, 1, 3, 0, 1, 3]);

/// All reads for an ask of two.
const LOOK_AT_BOTH: Step = Take(&[0, 1, 0, 1, 0, 1, 2, 3, 0, 1, 2, 3]);

/// One after another, amy first. What bo asks second comes while amy's lists are written at one partition of two: he
/// sees the new list, and is denied. Once amy has added her picture there is no room for his.
const AMY_FIRST: Script = Script {
    steps: &[
        Ask(Amy),
        LOOK,
        Take(&[0, 0]),
        Ask(Bo),
        LOOK,
        Ask(Amy),
        LOOK_AT_BOTH,
        Take(&[1, 2, 1]),
        Ask(Bo),
        LOOK,
        Take(&[2]),
        Ask(Amy),
        LOOK,
        Take(&[0, 1, 3, 0, 1, 3]),
        Ask(Bo),
        LOOK,
        Ask(Bo),
        LOOK,
    ],
    answers: "amy: committed at 65537; committed at 131073; committed at 196609; \
        bo: Bay at 65537; denied picture/0 at the end; AlbumFull; denied picture/0 at the end; audited 3 and 2",
};

/// One after another, bo first. Each of his stamps has a counter above what he saw.
const BO_FIRST: Script = Script {
    steps: &[
        Ask(Bo),
        LOOK,
        Ask(Amy),
        LOOK,
        Take(&[0, 0]),
        Ask(Bo),
        LOOK,
        Take(&[1, 1]),
        Ask(Amy),
        LOOK_AT_BOTH,
        Take(&[1, 2, 1, 2]),
        Ask(Bo),
        LOOK,
        Take(&[0, 2, 0, 2]),
        Ask(Amy),
        LOOK,
        Ask(Bo),
        LOOK,
    ],
    answers: "amy: committed at 65537; committed at 196609; AlbumFull; \
        bo: Sea at 0; committed at 131074; committed at 196610; denied picture/0 at the end; audited 4 and 1",
};

/// Side by side. amy's new title is prepared between the two rounds of bo's read, and committed after it, so he reads
/// the old one. (He also does where it is committed between them: between_rounds.rt.) Then both look at one list before
/// either writes it. bo's stamp is the greater, so his list counts, although amy's comes later. Both see room in the
/// album, and both add to it.
const SIDE_BY_SIDE: Script = Script {
    steps: &[
        // amy looks, but for the last reply of partition 1; bo reads his first rounds
        Ask(Amy),
        Take(&[0, 0, 0, 1, 3, 0, 3]),
        Ask(Bo),
        Take(&[0, 0]),
        // amy has her view; bo reads the title, then the new one is prepared, he ends, and it is committed
        Take(&[1, 0, 1, 3, 0]),
        Take(&[0, 1, 3, 0]),
        // amy looks at both, but for the last reply of partition 2; bo looks, and begins to write
        Ask(Amy),
        Take(&[0, 1, 0, 1, 0, 1, 2, 3, 0, 1, 3]),
        Ask(Bo),
        LOOK,
        // amy begins too; bo's list is prepared, then amy's, and bo's is committed first
        Take(&[2, 1, 1, 1, 2, 1, 2]),
        // amy looks, but for the last reply of partition 1; bo reads his first rounds
        Ask(Amy),
        Take(&[0, 0, 0, 1, 3, 0, 3]),
        Ask(Bo),
        Take(&[0, 0, 0, 3]),
        // amy begins to write; bo sees what was before, and begins too
        Take(&[1, 1, 3, 0, 1, 0, 1, 3]),
        Take(&[0, 1, 3, 0, 2, 0, 2]),
        Ask(Bo),
        LOOK,
    ],
    answers: "amy: committed at 65537; committed at 131073; committed at 196609; \
        bo: Sea at 0; committed at 131074; committed at 196610; Bay at 65537; audited 5 and 0",
};

/// A world and a service give the answers of the script, and both exactly the same.
fn assert_same_answers<R: Threads + Wait + time::Clock + Abort + Copy + Send + Sync + 'static>(
    rt: R,
    alloc: Global,
    script: &Script,
) -> Result<(), Fail> {
    let Followed { answers, moves } = follow(alloc, script.steps)?;
    let conducted = conduct(rt, alloc, &moves)?;
    same(&rt, answers.text(alloc), script.answers)?;
    same(&rt, conducted.text(alloc), script.answers)?;
    assert!(rt;
        answers.has_answers_of(&conducted),
        "the same at {}",
        script.answers
    );
    Ok(())
}

#[test]
fn amy_first(rt: HostRuntime) -> Result<(), Fail> {
    assert_same_answers(rt, rt.alloc(), &AMY_FIRST)
}

#[test]
fn bo_first(rt: HostRuntime) -> Result<(), Fail> {
    assert_same_answers(rt, rt.alloc(), &BO_FIRST)
}

#[test]
fn side_by_side(rt: HostRuntime) -> Result<(), Fail> {
    assert_same_answers(rt, rt.alloc(), &SIDE_BY_SIDE)
}
