//! The thread of a log. It takes what there is, keeps it, and sends on the replies that waited for it.
ghost use Rattle.std.specs.Prelude.{All, OnOk};
ghost use Rattle.album_keepers.specs.declared.log_entries.LogEntry.{LogEntry as Entry};

use crate::breakage::Breakage;
use crate::gate::Gate;
use crate::held::HeldMail;
use crate::log_entries::{LogEntry, MarkLog, NotKept};
use crate::mailbox::Inbox;
use crate::names::DeskNames;
use std::alloc::{AllocError, Global};
use std::sync::Wait;
use std::time;

/// How many mails are kept together at most. The disk is waited for once for all of them.
const MOST: usize = 1024;

/// Keeps what the partitions hand over, until all of them have left. Where the log fails, or there is no memory for
/// what others wait for, it breaks the service, and ends: what it held is never sent.
pub(crate) fn run_log<J: DeskNames, L: MarkLog, R: Wait + time::Clock, G: Gate>(
    rt: &R,
    alloc: Global,
    log: &mut L,
    gate: &G,
    breakage: &Breakage,
    inbox: &mut Inbox<HeldMail<J>>,
) {
    for _ in rt.forever() {
        let Some(first) = inbox.next(rt) else {
            return;
        };
        if keep_group(rt, alloc, log, inbox, first).is_err() {
            breakage.set_by_log();
            gate.fail_log();
            return;
        }
    }
    // `forever` has no end.
    unreachable!()
}

/// Keeps what this mail waits for, and those that have come meanwhile, and sends their replies on.
///
/// # Errors
///
/// Where the log fails, or there is no memory. Then none of them is sent that isn't kept.
#[tactic(auto, using(crate::proofs::HeldLemmas::group_weaker))]
fn keep_group<J: DeskNames, L: MarkLog, R: Wait + time::Clock>(
    rt: &R,
    alloc: Global,
    log: &mut L,
    inbox: &mut Inbox<HeldMail<J>>,
    first: HeldMail<J>,
) -> Result<(), NotKept> {
    let mut group = Vec::new(alloc);
    add_mail(log, &mut group, first)?;
    for _ in 1..MOST {
        let Some(mail) = inbox.next_there(rt) else {
            break;
        };
        add_mail(log, &mut group, mail)?;
    }
    log.keep()?;
    release_all(rt, log, group)
}

/// Adds what the mail waits for to the log, and the mail to the group.
#[tactic(auto, using(crate::proofs::HeldLemmas::group_added))]
fn add_mail<J: DeskNames, L: MarkLog>(
    log: &mut L,
    group: &mut Vec<HeldMail<J>>,
    mail: HeldMail<J>,
) -> Result<(), NotKept>
    requires { All (All (L.adds log.old)) group.old.items }
    ensures { OnOk result (All (All (L.adds log.new)) group.new.items) }
{
    add_all(log, mail.entries())?;
    group.push(mail)?;
    Ok(())
}

/// Adds the entries to the log.
fn add_all<L: MarkLog>(log: &mut L, entries: &[LogEntry]) -> Result<(), NotKept>
    ensures added { OnOk result (All (L.adds log.new) entries.now) }
    ensures others { OnOk result ((other : Entry) → L.adds log.old other → L.adds log.new other) }
{
    for entry in entries {
        log.add(entry)?;
    }
    Ok(())
}

/// Sends the replies of each mail on.
fn release_all<J: DeskNames, L: MarkLog, R: Wait>(
    rt: &R,
    log: &L,
    group: Vec<HeldMail<J>>,
) -> Result<(), NotKept>
    requires { All (All (L.keeps log.now)) group.items }
{
    for mail in group {
        mail.release(rt, log)?;
    }
    Ok(())
}
