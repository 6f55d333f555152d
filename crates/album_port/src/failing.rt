//! Since when no session could be opened: a service in which none can be for a minute ends.
ghost use Rattle.std.specs.Prelude.{◌≡◌, ◌≤◌, ◌*◌, ◌-◌, ◌↔◌, None, Some, IsTrue};
ghost use Rattle.std.specs.Option.{unwrap_or};
ghost use Rattle.std.specs.Time.{instant_nanos};

use std::time::{Duration, Instant};

/// How many seconds a service goes on in which no session can be opened.
const MOST: u64 = 60;

/// When a session first couldn't be opened, if none was since.
#[derive(Clone, Copy)]
pub(crate) struct Failing {
    since: Option<Instant>,
}

impl Failing {
    /// Nothing has failed.
    pub(crate) fn new() -> Failing
        ensures { result.since ≡ None }
    {
        Failing { since: None }
    }

    /// A session was opened.
    pub(crate) fn end(&mut self)
        ensures { self.new.since ≡ None }
    {
        self.since = None;
    }

    /// None could be opened at this moment. Returns whether none could for a minute.
    pub(crate) fn fail(&mut self, now: Instant) -> bool
        ensures since { self.new.since ≡ Some (unwrap_or self.old.since now) }
        ensures late { IsTrue result
            ↔ (60 * 1000000000 ≤ instant_nanos now - instant_nanos (unwrap_or self.old.since now)) }
    {
        let since = self.since.unwrap_or(now);
        self.since = Some(since);
        now.saturating_duration_since(since) >= Duration::from_secs(MOST)
    }
}
