//! The threads of a service, and how they are reached.
ghost use Rattle.std.specs.Prelude.{◌≡◌, ◌≤◌, IfOk, IsOkUnless, length, vec_len};
ghost use Rattle.std.specs.Arc.{arc_value};
ghost use Rattle.album_stamps.specs.declared.limits.TheConstants.{MAX_PARTS};
ghost use Rattle.album_keepers.specs.Firsts.{AreFirst, AreFirstOwners};

use album_keepers::{
    Breakage, Gate, HeldMail, MarkLog, PartitionMail, SharedKeeper, start_all, start_log,
};
use album_partition::Partition;
use album_passes::{Desk, Owner};
use album_sessions::ServiceNames;
use album_stamps::Refusal;
use crossbeam_channel::{Receiver, SendError, Sender, unbounded};
use std::alloc::{AllocError, Global};
use std::sync::{Arc, Wait};
use std::thread::{JoinHandle, Threads};
use std::{thread, time};

/// The threads of the partitions, and that of the log, if there is one.
pub(crate) struct Running<J: ServiceNames> {
    /// Of the partitions, in order.
    pub(crate) mailboxes: Vec<Sender<PartitionMail<J>>>,
    threads: Vec<JoinHandle<()>>,
    logging: Option<JoinHandle<()>>,
    /// The keepers of the partitions, the last one first, where sessions may let them take messages.
    pub(crate) keepers: Vec<Arc<SharedKeeper<J>, Global>>,
}

impl<J: ServiceNames + Send + 'static> Running<J> {
    /// Starts a thread for each partition, and one for the log, if there is one.
    ///
    /// # Errors
    ///
    /// `OutOfMemory`, also where a thread can't be had. No thread runs then.
    pub(crate) fn begin<
        L: MarkLog + Drop + Send + 'static,
        R: Threads + Wait + time::Clock + Copy + Send + 'static,
        G: Gate + Drop + Send + Sync + 'static,
    >(
        rt: R,
        alloc: Global,
        desk: &Arc<Desk, Global>,
        gate: G,
        breakage: &Arc<Breakage, Global>,
        owners: Vec<Owner>,
        partitions: Vec<Partition>,
        log: Option<L>,
    ) -> Result<Running<J>, Refusal>
        requires table { (arc_value desk.now).table ≡ J.table }
        requires terms { (arc_value desk.now).terms ≡ J.terms }
        requires few { J.terms.parts ≤ MAX_PARTS }
        requires owners { AreFirstOwners (record { table = J.table; terms = J.terms }) J.terms.parts owners.items }
        requires partitions { AreFirst J.terms J.terms.parts partitions.items }
        ensures mailboxes { IfOk result (λ running. vec_len running.mailboxes ≡ vec_len owners) }
        ensures memory { IsOkUnless result Refusal.OutOfMemory }
    {
        let is_open = gate.is_open();
        let gate = Arc::new(alloc, gate)?;
        let (mailboxes, mails) = mailboxes_for(alloc, owners.len())?;
        let (mut threads, mut keepers) = (Vec::new(alloc), Vec::new(alloc));
        let (to_log, logging) = begin_log(rt, alloc, log, &gate, breakage)?;
        let started = start_all(
            rt,
            alloc,
            desk,
            &gate,
            breakage,
            owners,
            partitions,
            &mailboxes,
            mails,
            &to_log,
            &mut threads,
            &mut keepers,
        );
        // Its thread ends once the partitions' have, since nobody else can send to it.
        drop(to_log);
        if !is_open {
            keepers.clear();
        }
        let running = Running {
            mailboxes,
            threads,
            logging,
            keepers,
        };
        if started.is_err() {
            running.end(&rt);
            return Err(Refusal::OutOfMemory);
        }
        Ok(running)
    }
}

impl<J: ServiceNames> Running<J> {
    /// Has each partition's thread leave, and joins those that run, and then that of the log, which ends after them.
    pub(crate) fn end<R: Threads + Wait>(self, rt: &R) {
        let Running {
            mailboxes,
            threads,
            logging,
            keepers: _,
        } = self;
        for mailbox in &mailboxes {
            leave(rt, mailbox);
        }
        for thread in threads {
            thread.join(rt);
        }
        if let Some(thread) = logging {
            thread.join(rt);
        }
    }
}

/// The same mailboxes once more.
pub(crate) fn copies_of<J: ServiceNames>(
    alloc: Global,
    mailboxes: &[Sender<PartitionMail<J>>],
) -> Result<Vec<Sender<PartitionMail<J>>>, AllocError>
    ensures { IfOk result (λ copies. vec_len copies ≡ length mailboxes.now) }
{
    let mut copies = Vec::new(alloc);
    for mailbox in mailboxes {
        copies.push(mailbox.clone()?)?;
    }
    Ok(copies)
}

/// The same keepers once more, from the last to the first: so those of the first partitions come first.
pub(crate) fn in_order<J: ServiceNames>(
    alloc: Global,
    keepers: &[Arc<SharedKeeper<J>, Global>],
) -> Result<Vec<Arc<SharedKeeper<J>, Global>>, AllocError> {
    let mut copies = Vec::with_capacity(alloc, keepers.len())?;
    for keeper in keepers.iter().rev() {
        copies.push(Arc::try_clone(keeper)?)?;
    }
    Ok(copies)
}

/// `count` channels: senders and receivers.
fn mailboxes_for<J: ServiceNames>(
    alloc: Global,
    count: usize,
) -> Result<
    (
        Vec<Sender<PartitionMail<J>>>,
        Vec<Receiver<PartitionMail<J>>>,
    ),
    AllocError,
>
    ensures { IfOk result (λ both. vec_len both.0 ≡ count) }
{
    let mut mailboxes = Vec::new(alloc);
    let mut mails = Vec::new(alloc);
    for _made in 0..count {
        let (to, from) = unbounded(alloc)?;
        mailboxes.push(to)?;
        mails.push(from)?;
    }
    Ok((mailboxes, mails))
}

/// Starts the thread of the log, if there is one, and gives the mailbox to which the partitions send.
///
/// # Errors
///
/// `AllocError`, also where the thread can't be had.
fn begin_log<
    J: ServiceNames + Send + 'static,
    L: MarkLog + Drop + Send + 'static,
    R: Threads + Wait + time::Clock + Copy + Send + 'static,
    G: Gate + Drop + Send + Sync + 'static,
>(
    rt: R,
    alloc: Global,
    log: Option<L>,
    gate: &Arc<G, Global>,
    breakage: &Arc<Breakage, Global>,
) -> Result<(Option<Sender<HeldMail<J>>>, Option<JoinHandle<()>>), AllocError> {
    let Some(log) = log else {
        return Ok((None, None));
    };
    let (to_log, mails) = unbounded(alloc)?;
    let thread = start_log(rt, alloc, log, gate, breakage, mails)?;
    Ok((Some(to_log), Some(thread)))
}

/// Has a partition's thread leave, again until its mailbox takes it.
fn leave<J: ServiceNames, R: Wait>(rt: &R, mailbox: &Sender<PartitionMail<J>>) {
    for _ in rt.forever() {
        let sent = mailbox.send(rt, PartitionMail::Leave);
        let again = matches!(&sent, Err(SendError::OutOfMemory(_)));
        drop(sent);
        if !again {
            return;
        }
        thread::yield_now();
    }
    // `forever` has no end.
    unreachable!()
}
