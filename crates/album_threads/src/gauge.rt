//! What those who run a service look at: how much its partitions have, and what is noted.
use album_audit::{AuditBook, Totals};
use album_keepers::{Load, PartitionMail};
use album_partition::Figures;
use album_sessions::ServiceNames;
use album_stamps::Refusal;
use crossbeam_channel::{Receiver, SendError, Sender, unbounded};
use std::alloc::Global;
use std::sync::{Arc, Mutex, Wait};

/// The mailboxes of a service's partitions, and its audit book. Threads may share it.
pub struct Gauge<J: ServiceNames> {
    pub(crate) alloc: Global,
    /// Of the partitions, in order.
    pub(crate) mailboxes: Vec<Sender<PartitionMail<J>>>,
    pub(crate) book: Arc<Mutex<AuditBook<J>>, Global>,
}

// By hand, so that what lets it go is proved here, and not again in each crate above.
impl<J: ServiceNames> Drop for Gauge<J> {
    fn drop(self) {
        let Gauge {
            alloc: _,
            mailboxes,
            book,
        } = self;
        drop(mailboxes);
        drop(book);
    }
}

impl<J: ServiceNames> Gauge<J> {
    /// How much each partition has, in the order of their numbers.
    ///
    /// # Errors
    ///
    /// `OutOfMemory`; `Closed`, where a partition's thread has ended, or had no memory to answer.
    pub fn figures<R: Wait>(&self, rt: &R) -> Result<Vec<Figures>, Refusal> {
        let mut figures = Vec::with_capacity(self.alloc, self.mailboxes.len())?;
        for mailbox in &self.mailboxes {
            let (end, from) = unbounded(self.alloc)?;
            figures.push(answer_of(rt, mailbox, PartitionMail::Figures(end), &from)?)?;
        }
        Ok(figures)
    }

    /// How much of its epoch each partition has taken up, in the order of their numbers. Nothing is counted for it, so
    /// it may be asked for often.
    ///
    /// # Errors
    ///
    /// As `figures`.
    pub fn loads<R: Wait>(&self, rt: &R) -> Result<Vec<Load>, Refusal> {
        let mut loads = Vec::with_capacity(self.alloc, self.mailboxes.len())?;
        for mailbox in &self.mailboxes {
            let (end, from) = unbounded(self.alloc)?;
            loads.push(answer_of(rt, mailbox, PartitionMail::Load(end), &from)?)?;
        }
        Ok(loads)
    }

    /// The totals of the audit book so far.
    pub fn totals<R: Wait>(&self, rt: &R) -> Totals {
        self.book.lock(rt).totals()
    }
}

/// What the partition of this mailbox sends to the receiver, once it has this mail.
fn answer_of<J: ServiceNames, R: Wait, A: Drop>(
    rt: &R,
    mailbox: &Sender<PartitionMail<J>>,
    mail: PartitionMail<J>,
    from: &Receiver<A>,
) -> Result<A, Refusal> {
    match mailbox.send(rt, mail) {
        Ok(()) => from.recv(rt).map_err(|_| Refusal::Closed),
        Err(SendError::Disconnected(_)) => Err(Refusal::Closed),
        Err(SendError::OutOfMemory(_)) => Err(Refusal::OutOfMemory),
    }
}
