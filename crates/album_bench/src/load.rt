//! The partition that is measured, and the messages that it is sent.
use crate::draws::{Draws, spread};
use crate::plans::{Plan, Sort, Step};
use crate::tally::Tally;
use crate::values::value_of;
use album_calls::{Body, Message, Node, Reply, Request, Stamps, Vote};
use album_items::{ItemId, ItemValues, Items, Kind, Value};
use album_partition::Partition;
use album_stamps::{ClientNo, MAX_COUNTER, Refusal, Stamp};
use std::alloc::Global;

/// The sorts from which mixed messages are drawn: half of them read.
const MIXED: [Sort; 16] = [
    Sort::Get,
    Sort::Get,
    Sort::Get,
    Sort::Get,
    Sort::GetAt,
    Sort::GetAt,
    Sort::GetAt,
    Sort::GetAt,
    Sort::Prepare,
    Sort::Prepare,
    Sort::Prepare,
    Sort::Commit,
    Sort::Commit,
    Sort::Commit,
    Sort::Check,
    Sort::Trim,
];

/// The partition, and what its messages are drawn from.
#[derive(Drop)]
pub struct Load {
    alloc: Global,
    partition: Partition,
    /// What is written each time.
    value: Value,
    kind: Kind,
    items: u64,
    draws: Draws,
    writer: ClientNo,
    checker: ClientNo,
    /// The counters of the stamps that were prepared, and of those that were committed: the rest is pending.
    prepared: u64,
    committed: u64,
    /// How many late stamps were prepared, and how many unknown ones were asked for.
    late: u64,
    checked: u64,
    tally: Tally,
}

impl Load {
    /// A partition, opened as planned.
    pub fn new(alloc: Global, plan: Plan) -> Result<Load, Refusal> {
        let value = value_of(alloc, plan.entries)?;
        let kind = if plan.entries == 0 {
            Kind::Picture
        } else {
            Kind::List
        };
        Ok(Load {
            alloc,
            partition: opened(alloc, plan, kind, &value)?,
            value,
            kind,
            items: plan.items,
            draws: Draws::new(plan.seed),
            writer: client(1)?,
            checker: client(2)?,
            prepared: 0,
            committed: 0,
            late: 0,
            checked: 0,
            tally: Tally::default(),
        })
    }

    /// What was answered, and how many marks there are.
    pub fn tally(&self) -> Tally {
        let mut tally = self.tally;
        tally.marks = self.partition.history().len() as u64;
        tally
    }

    /// Sends what the step says.
    pub fn run(&mut self, step: Step) -> Result<(), Refusal> {
        for _ in 0..step.count {
            let sort = self.sort(step.sort);
            self.send(sort, step.part)?;
        }
        Ok(())
    }

    fn sort(&mut self, sort: Sort) -> Sort {
        match sort {
            Sort::Mixed => self.mixed(),
            _ => sort,
        }
    }

    fn mixed(&mut self) -> Sort {
        let index = self.draws.below(16) as usize;
        MIXED.get(index).copied().unwrap_or(Sort::Get)
    }

    fn send(&mut self, sort: Sort, part: u16) -> Result<(), Refusal> {
        match sort {
            Sort::Mixed => Ok(()),
            Sort::Write => self.write(part),
            Sort::Prepare => self.prepare(part),
            Sort::Late => self.prepare_late(part),
            Sort::Commit => self.commit(part),
            Sort::Get => self.get(part),
            Sort::GetAt => self.get_at(part),
            Sort::Check => self.check(part),
            Sort::Vote => self.vote(part, Vote::Prepared),
            Sort::Discard => self.vote(part, Vote::Never),
            Sort::Trim => Ok(self.trim()),
        }
    }

    fn write(&mut self, part: u16) -> Result<(), Refusal> {
        self.prepare(part)?;
        self.commit(part)
    }

    fn prepare(&mut self, part: u16) -> Result<(), Refusal> {
        self.prepared = self.prepared.wrapping_add(1);
        let stamp = self.stamp(self.prepared)?;
        let count = self.draws.below(4).wrapping_add(1);
        let items = self.items_of(self.prepared, count)?;
        self.ask_prepare(part, stamp, items)
    }

    fn prepare_late(&mut self, part: u16) -> Result<(), Refusal> {
        self.late = self.late.wrapping_add(1);
        let stamp = self.stamp(MAX_COUNTER.wrapping_sub(self.late))?;
        let items = self.items_of(self.late, 1)?;
        self.ask_prepare(part, stamp, items)
    }

    fn ask_prepare(&mut self, part: u16, stamp: Stamp, items: Vec<ItemId>) -> Result<(), Refusal> {
        let writes = self.writes(&items)?;
        self.tally.count_sent(items.len());
        self.ask(part, Request::Prepare(stamp, writes, Items::of(items)))
    }

    fn commit(&mut self, part: u16) -> Result<(), Refusal> {
        let stamp = self.next_pending()?;
        self.ask(part, Request::Commit(stamp))
    }

    fn get(&mut self, part: u16) -> Result<(), Refusal> {
        let item = ItemId::new(self.kind, self.draws.below(self.items));
        self.ask(part, Request::Get(item, Stamps::of(Vec::new(self.alloc))))
    }

    fn get_at(&mut self, part: u16) -> Result<(), Refusal> {
        let counter = self.draws.below(self.prepared).wrapping_add(1);
        let stamps = self.stamps(counter)?;
        self.ask(
            part,
            Request::Get(self.item(counter, 0), Stamps::of(stamps)),
        )
    }

    fn check(&mut self, part: u16) -> Result<(), Refusal> {
        self.checked = self.checked.wrapping_add(1);
        let stamp = stamp_of(self.checked, self.checker)?;
        self.ask(part, Request::Check(stamp))
    }

    fn vote(&mut self, part: u16, vote: Vote) -> Result<(), Refusal> {
        let stamp = self.next_pending()?;
        let body = Body::Reply(Reply::Status(stamp, vote));
        self.give(&Message::new(Node::Part(0), Node::Part(part), 0, body))
    }

    fn trim(&mut self) {
        let item = ItemId::new(self.kind, self.draws.below(self.items));
        if self.partition.trim(item).is_ok() {
            self.tally.count_trim();
        }
    }

    fn ask(&mut self, part: u16, request: Request) -> Result<(), Refusal> {
        let from = Node::Client(self.writer);
        let body = Body::Request(request);
        self.give(&Message::new(from, Node::Part(part), 0, body))
    }

    fn give(&mut self, message: &Message) -> Result<(), Refusal> {
        let reply = self.partition.receive(message)?;
        self.tally.count(&reply);
        Ok(())
    }

    fn stamp(&self, counter: u64) -> Result<Stamp, Refusal> {
        stamp_of(counter, self.writer)
    }

    /// The first stamp that is pending, which is settled with this.
    fn next_pending(&mut self) -> Result<Stamp, Refusal> {
        self.committed = self.committed.wrapping_add(1);
        self.stamp(self.committed)
    }

    /// An item of the write of this counter.
    fn item(&self, counter: u64, index: u64) -> ItemId {
        let first = spread(counter).wrapping_add(index.wrapping_mul(self.items / 5 + 1));
        ItemId::new(self.kind, first % self.items.max(1))
    }

    fn items_of(&self, counter: u64, count: u64) -> Result<Vec<ItemId>, Refusal> {
        let mut items = Vec::new(self.alloc);
        for index in 0..count {
            items.push(self.item(counter, index))?;
        }
        Ok(items)
    }

    fn writes(&self, items: &[ItemId]) -> Result<ItemValues, Refusal> {
        let mut rows = Vec::new(self.alloc);
        for item in items {
            rows.push((*item, self.value.copy()?))?;
        }
        Ok(ItemValues::of(rows))
    }

    /// The stamp of this counter, and up to two more.
    fn stamps(&mut self, counter: u64) -> Result<Vec<Stamp>, Refusal> {
        let mut stamps = Vec::new(self.alloc);
        stamps.push(self.stamp(counter)?)?;
        for _ in 0..self.draws.below(3) {
            let other = self.draws.below(self.prepared).wrapping_add(1);
            stamps.push(self.stamp(other)?)?;
        }
        Ok(stamps)
    }
}

fn client(number: u16) -> Result<ClientNo, Refusal> {
    ClientNo::of(number).ok_or(Refusal::BadRequest)
}

fn stamp_of(counter: u64, client: ClientNo) -> Result<Stamp, Refusal> {
    Stamp::of(counter, client).ok_or(Refusal::StampsSpent)
}

/// The partition 0 of 1. Every second item opens with the value.
fn opened(alloc: Global, plan: Plan, kind: Kind, value: &Value) -> Result<Partition, Refusal> {
    let rows = first_rows(alloc, plan.items / 2, kind, value)?;
    Ok(Partition::new(alloc, 0, 1, rows, plan.limit)?)
}

fn first_rows(alloc: Global, count: u64, kind: Kind, value: &Value) -> Result<ItemValues, Refusal> {
    let mut rows = Vec::new(alloc);
    for half in 0..count {
        rows.push((ItemId::new(kind, half.wrapping_mul(2)), value.copy()?))?;
    }
    Ok(ItemValues::of(rows))
}
