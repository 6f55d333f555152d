//! How the threads of a service start.
ghost use Rattle.std.specs.Prelude.{◌≡◌, ◌+◌, ◌<◌, ◌≤◌, OnOk};
ghost use Rattle.std.specs.Arc.{arc_value};
ghost use Rattle.album_stamps.specs.declared.limits.TheConstants.{MAX_PARTS};
ghost use Rattle.album_keepers.specs.Firsts.{AreFirst, AreFirstOwners};

use crate::breakage::Breakage;
use crate::gate::Gate;
use crate::held::HeldMail;
use crate::keeper::PartitionKeeper;
use crate::log_entries::MarkLog;
use crate::logger::run_log;
use crate::mailbox::{Inbox, PartitionMail};
use crate::names::DeskNames;
use crate::outbox::{Outbox, copies_of};
use crate::shared_keeper::SharedKeeper;
use crate::thread::PartitionLoop;
use album_partition::Partition;
use album_passes::{Desk, Owner};
use crossbeam_channel::{Receiver, Sender};
use std::alloc::{AllocError, Global};
use std::marker::PhantomData;
use std::sync::{Arc, Wait};
use std::thread::{JoinHandle, Threads, spawn};
use std::time;

/// Starts the threads of all partitions, as they open, the last one first, and puts them into
/// `threads`, and their keepers into `keepers`. What they prepare goes to the log, if there is one. Where a
/// thread can't be had, those that run stay there.
///
/// # Errors
///
/// `AllocError`, where there is no memory, `mails` has none left for a partition, or its thread
/// can't be had.
pub fn start_all<
    J: DeskNames + Send + 'static,
    R: Threads + Wait + time::Clock + Copy + Send + 'static,
    G: Gate + Drop + Send + Sync + 'static,
>(
    rt: R,
    alloc: Global,
    desk: &Arc<Desk, Global>,
    gate: &Arc<G, Global>,
    breakage: &Arc<Breakage, Global>,
    mut owners: Vec<Owner>,
    mut partitions: Vec<Partition>,
    mailboxes: &[Sender<PartitionMail<J>>],
    mut mails: Vec<Receiver<PartitionMail<J>>>,
    log: &Option<Sender<HeldMail<J>>>,
    threads: &mut Vec<JoinHandle<()>>,
    keepers: &mut Vec<Arc<SharedKeeper<J>, Global>>,
) -> Result<(), AllocError>
    requires table { (arc_value desk.now).table ≡ J.table }
    requires terms { (arc_value desk.now).terms ≡ J.terms }
    requires few { J.terms.parts ≤ MAX_PARTS }
    requires owners { AreFirstOwners (record { table = J.table; terms = J.terms }) J.terms.parts owners.items }
    requires partitions { AreFirst J.terms J.terms.parts partitions.items }
{
    let count = owners.len();
    for done in 0..count {
        let part = (count - 1 - done) as u16;
        start_last(
            rt,
            alloc,
            desk,
            gate,
            breakage,
            part,
            &mut owners,
            &mut partitions,
            mailboxes,
            &mut mails,
            log,
            threads,
            keepers,
        )?;
    }
    Ok(())
}

/// Starts the thread of the last of these partitions, which has this number, and takes it from them.
fn start_last<
    J: DeskNames + Send + 'static,
    R: Threads + Wait + time::Clock + Copy + Send + 'static,
    G: Gate + Drop + Send + Sync + 'static,
>(
    rt: R,
    alloc: Global,
    desk: &Arc<Desk, Global>,
    gate: &Arc<G, Global>,
    breakage: &Arc<Breakage, Global>,
    part: u16,
    owners: &mut Vec<Owner>,
    partitions: &mut Vec<Partition>,
    mailboxes: &[Sender<PartitionMail<J>>],
    mails: &mut Vec<Receiver<PartitionMail<J>>>,
    log: &Option<Sender<HeldMail<J>>>,
    threads: &mut Vec<JoinHandle<()>>,
    keepers: &mut Vec<Arc<SharedKeeper<J>, Global>>,
) -> Result<(), AllocError>
    requires table { (arc_value desk.now).table ≡ J.table }
    requires terms { (arc_value desk.now).terms ≡ J.terms }
    requires owners { AreFirstOwners (record { table = J.table; terms = J.terms }) (part + 1) owners.old.items }
    requires partitions { AreFirst J.terms (part + 1) partitions.old.items }
    ensures owners { OnOk result (AreFirstOwners (record { table = J.table; terms = J.terms }) part owners.new.items) }
    ensures partitions { OnOk result (AreFirst J.terms part partitions.new.items) }
{
    // Room first: a thread that runs is kept.
    threads.reserve(1)?;
    let logged = log.is_some();
    let shared = Shared::<J, G>::copied(alloc, desk, gate, breakage, mailboxes, log)?;
    let Ok(keeper) = last_keeper::<J>(part, owners, partitions) else {
        drop(shared);
        return Err(AllocError);
    };
    let Some(mails) = mails.pop() else {
        drop(keeper);
        drop(shared);
        return Err(AllocError);
    };
    let keeper = Arc::new(alloc, SharedKeeper::new(keeper, logged))?;
    keepers.push(Arc::try_clone(&keeper)?)?;
    threads.push_reserved(start(rt, alloc, part, keeper, shared, mails)?);
    Ok(())
}

/// The last of these partitions, which has this number, with its owner: both are taken from the others.
fn last_keeper<J: DeskNames>(
    part: u16,
    owners: &mut Vec<Owner>,
    partitions: &mut Vec<Partition>,
) -> Result<PartitionKeeper<J>, AllocError>
    requires owners { AreFirstOwners (record { table = J.table; terms = J.terms }) (part + 1) owners.old.items }
    requires partitions { AreFirst J.terms (part + 1) partitions.old.items }
    ensures owners { OnOk result (AreFirstOwners (record { table = J.table; terms = J.terms }) part owners.new.items) }
    ensures partitions { OnOk result (AreFirst J.terms part partitions.new.items) }
{
    let owner = owners.pop().ok_or(AllocError)?;
    let partition = partitions.pop().ok_or(AllocError)?;
    Ok(PartitionKeeper::new(part, partition, owner))
}

/// What a partition's thread shares with the others.
#[derive(Drop)]
struct Shared<J: DeskNames, G: Drop> {
    desk: Arc<Desk, Global>,
    gate: Arc<G, Global>,
    breakage: Arc<Breakage, Global>,
    outbox: Outbox<J>,
    ghost table_is: { (arc_value desk).table ≡ J.table },
    ghost terms_are: { (arc_value desk).terms ≡ J.terms },
}

impl<J: DeskNames, G: Drop> Shared<J, G> {
    /// The same once more, with the mailboxes of all partitions, and of no session.
    fn copied(
        alloc: Global,
        desk: &Arc<Desk, Global>,
        gate: &Arc<G, Global>,
        breakage: &Arc<Breakage, Global>,
        mailboxes: &[Sender<PartitionMail<J>>],
        log: &Option<Sender<HeldMail<J>>>,
    ) -> Result<Shared<J, G>, AllocError>
        requires table { (arc_value desk.now).table ≡ J.table }
        requires terms { (arc_value desk.now).terms ≡ J.terms }
    {
        let desk = Arc::try_clone(desk)?;
        let gate = Arc::try_clone(gate)?;
        let breakage = Arc::try_clone(breakage)?;
        let outbox = outbox_to(alloc, mailboxes, log)?;
        Ok(Shared {
            desk,
            gate,
            breakage,
            outbox,
        })
    }
}

fn outbox_to<J: DeskNames>(
    alloc: Global,
    mailboxes: &[Sender<PartitionMail<J>>],
    log: &Option<Sender<HeldMail<J>>>,
) -> Result<Outbox<J>, AllocError> {
    let parts = copies_of(alloc, mailboxes)?;
    let log = match log {
        None => None,
        Some(log) => Some(log.clone()?),
    };
    Ok(Outbox::new(alloc, parts, log))
}

/// Starts the thread of a partition.
fn start<
    J: DeskNames + Send + 'static,
    R: Threads + Wait + time::Clock + Copy + Send + 'static,
    G: Gate + Drop + Send + Sync + 'static,
>(
    rt: R,
    alloc: Global,
    part: u16,
    keeper: Arc<SharedKeeper<J>, Global>,
    shared: Shared<J, G>,
    mails: Receiver<PartitionMail<J>>,
) -> Result<JoinHandle<()>, AllocError> {
    let body = move || run_alone(rt, alloc, part, keeper, shared, mails);
    spawn(&rt, body).ok().ok_or(AllocError)
}

/// The body of the thread, which owns all it needs.
fn run_alone<J: DeskNames, R: Wait + time::Clock + Copy, G: Gate + Drop>(
    rt: R,
    alloc: Global,
    part: u16,
    keeper: Arc<SharedKeeper<J>, Global>,
    shared: Shared<J, G>,
    mails: Receiver<PartitionMail<J>>,
) {
    let Shared {
        desk,
        gate,
        breakage,
        outbox,
    } = shared;
    let mut post = PartitionLoop::new(part, keeper, outbox, breakage);
    let mut inbox = Inbox::new(mails);
    post.run(&rt, alloc, &desk, &*gate, &mut inbox);
    drop(inbox);
    drop(post);
    drop(gate);
    drop(desk);
}

/// Starts the thread of a log. It keeps what comes here, and ends once all who could send
/// it are gone.
///
/// # Errors
///
/// `AllocError`, also where the thread can't be had.
pub fn start_log<
    J: DeskNames + Send + 'static,
    L: MarkLog + Drop + Send + 'static,
    R: Threads + Wait + time::Clock + Copy + Send + 'static,
    G: Gate + Drop + Send + Sync + 'static,
>(
    rt: R,
    alloc: Global,
    log: L,
    gate: &Arc<G, Global>,
    breakage: &Arc<Breakage, Global>,
    mails: Receiver<HeldMail<J>>,
) -> Result<JoinHandle<()>, AllocError> {
    let gate = Arc::try_clone(gate)?;
    let breakage = Arc::try_clone(breakage)?;
    let shared = Logging {
        log,
        gate,
        breakage,
        of: PhantomData,
    };
    let body = move || log_alone(rt, alloc, shared, mails);
    spawn(&rt, body).ok().ok_or(AllocError)
}

/// What the thread of a log owns, and what it shares with the others.
#[derive(Drop)]
struct Logging<J: DeskNames, L: MarkLog + Drop, G: Drop> {
    log: L,
    gate: Arc<G, Global>,
    breakage: Arc<Breakage, Global>,
    of: PhantomData<J>,
}

/// The body of that thread.
fn log_alone<J: DeskNames, L: MarkLog + Drop, R: Wait + time::Clock + Copy, G: Gate + Drop>(
    rt: R,
    alloc: Global,
    shared: Logging<J, L, G>,
    mails: Receiver<HeldMail<J>>,
) {
    let Logging {
        mut log,
        gate,
        breakage,
        of: _,
    } = shared;
    let mut inbox = Inbox::new(mails);
    run_log(&rt, alloc, &mut log, &*gate, &*breakage, &mut inbox);
    drop(inbox);
    drop(log);
    drop(gate);
    drop(breakage);
}
