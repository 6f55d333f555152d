//! Refusals, stamps and clocks (docs/FORMATS.md, "Refusals" and "Limits").
use album_stamps::{ClientNo, Clock, MAX_COUNTER, Refusal, Stamp};

/// Counter 1 of client 1.
const LEAST: u64 = 65_537;

/// Counter 2^40 - 1 of client 65,535.
const GREATEST: u64 = 72_057_594_037_927_935;

#[test]
fn refusals(rt: HostRuntime) {
    let numbers = (Refusal::OutOfMemory.number(), Refusal::NotAdmin.number());

    assert_eq!(rt; numbers, (1, 24));
    assert_eq!(rt; Refusal::NotAdmin.name(), "NotAdmin");
}

/// The values of the least and the greatest stamp, and whether what lies outside is refused.
fn limits() -> Option<(u64, u64, bool)> {
    let first = ClientNo::of(1)?;
    let last = ClientNo::of(65535)?;
    let least = Stamp::of(1, first)?;
    let greatest = Stamp::of(MAX_COUNTER, last)?;
    let refused = Stamp::of(0, first).is_none()
        && Stamp::of(1 << 40, first).is_none()
        && Stamp::read(65536).is_none()
        && ClientNo::of(0).is_none();
    Some((least.value(), greatest.value(), refused))
}

#[test]
fn stamp_limits(rt: HostRuntime) {
    assert_eq!(rt; limits(), Some((LEAST, GREATEST, true)));
}

/// The first stamp that client 1's clock draws, and what it draws once it saw the greatest stamp.
fn drawn() -> Option<(u64, Result<Stamp, Refusal>)> {
    let greatest = Stamp::read(GREATEST)?;
    let mut clock = Clock::new(ClientNo::of(1)?);
    let least = clock.next().ok()?;
    clock.see(greatest);
    Some((least.value(), clock.next()))
}

#[test]
fn clock_is_spent(rt: HostRuntime) {
    assert_eq!(rt; drawn(), Some((LEAST, Err(Refusal::StampsSpent))));
}
