//! What passes see of three histories that may have two marks each (docs/PROTOCOL.md, "Cuts and passes").
use crate::messages::item_of;
use album_items::{FirstStamps, ItemValues, Opening};
use album_partition::Mark;
use album_passes::Desk;
use album_stamps::Refusal;
use std::alloc::Global;
use std::sync::Wait;

/// Three partitions.
fn opening(alloc: Global) -> Opening {
    Opening {
        parts: 3,
        limit: 2,
        policy: 1,
        checked: false,
        root: None,
        first: 0,
        items: ItemValues::of(Vec::new(alloc)),
        stamps: FirstStamps::new(alloc),
    }
}

/// The words of a desk as it opens.
#[tactic(auto, using(album_items::proofs::BaseLemmas::opening_is_base))]
fn first_words(alloc: Global) -> Result<Vec<u64>, Refusal> {
    let opening = opening(alloc);
    opening.check()?;
    let (desk, _owners, _pass) = Desk::open(alloc, &opening, 2)?;
    Ok(desk.close(alloc)?)
}

fn are_zeros(alloc: Global) -> Result<bool, Refusal> {
    Ok(first_words(alloc)?.as_slice() == [0, 0, 0].as_slice())
}

/// No history has a mark at first.
#[test]
fn a_new_desk_closes_with_zeros(rt: HostRuntime) {
    assert_eq!(rt; are_zeros(rt.alloc()), Ok(true));
}

/// The words of a desk whose partition 0 has made two marks.
#[tactic(auto, using(album_items::proofs::BaseLemmas::opening_is_base))]
fn words_of_two_marks(alloc: Global) -> Result<Vec<u64>, Refusal> {
    let opening = opening(alloc);
    opening.check()?;
    let (desk, mut owners, _pass) = Desk::open(alloc, &opening, 2)?;
    let mark = Mark::Trimmed(item_of("picture/0")?);
    let Some(owner) = owners.get_mut(0) else {
        return Err(Refusal::NoSuchPart);
    };
    owner.append(&desk, &mark)?;
    owner.append(&desk, &mark)?;
    Ok(desk.close(alloc)?)
}

fn are_two_zero_zero(alloc: Global) -> Result<bool, Refusal> {
    Ok(words_of_two_marks(alloc)?.as_slice() == [2, 0, 0].as_slice())
}

/// A desk closes with the number of marks of each history.
#[test]
fn a_closed_desk_counts_marks(rt: HostRuntime) {
    assert_eq!(rt; are_two_zero_zero(rt.alloc()), Ok(true));
}

/// The numbers that two passes draw, of two that there are, and why a third draws none.
#[tactic(auto, using(album_items::proofs::BaseLemmas::opening_is_base))]
fn drawn<R: Wait>(rt: &R, alloc: Global) -> Result<(u16, u16, Option<Refusal>), Refusal> {
    let opening = opening(alloc);
    opening.check()?;
    let (desk, _owners, mut one) = Desk::open(alloc, &opening, 2)?;
    let mut two = one.split(&desk);
    let mut three = one.split(&desk);
    let first = desk.draw(rt, &mut one)?.number();
    let second = desk.draw(rt, &mut two)?.number();
    Ok((first, second, desk.draw(rt, &mut three).err()))
}

/// Numbers rise from 1, until all are drawn.
#[test]
fn numbers_rise(rt: HostRuntime) {
    assert_eq!(rt;
        drawn(&rt, rt.alloc()),
        Ok((1, 2, Some(Refusal::SessionsSpent)))
    );
}

/// How many marks of partition 0 a pass has seen: before its owner makes one, before the owner's pass is
/// joined, and then.
#[tactic(auto, using(album_items::proofs::BaseLemmas::opening_is_base))]
fn seen(alloc: Global) -> Result<(u64, u64, u64), Refusal> {
    let opening = opening(alloc);
    opening.check()?;
    let (desk, mut owners, mut pass) = Desk::open(alloc, &opening, 2)?;
    let first = pass.length(0);
    let mark = Mark::Trimmed(item_of("picture/0")?);
    let Some(owner) = owners.get_mut(0) else {
        return Err(Refusal::NoSuchPart);
    };
    owner.append(&desk, &mark)?;
    let shown = owner.split(&desk);
    let second = pass.length(0);
    pass.join(&desk, shown);
    Ok((first, second, pass.length(0)))
}

/// What an owner does is seen by who joins its pass.
#[test]
fn a_join_brings_marks(rt: HostRuntime) {
    assert_eq!(rt; seen(rt.alloc()), Ok((0, 0, 1)));
}
