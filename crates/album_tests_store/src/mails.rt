//! A world in which each partition takes mails, as the threads of a service do (docs/PROTOCOL.md, "A service"): what
//! one event sends to a partition is one mail, and a partition takes its mails in the order in which they were sent.
use crate::answers::AllAnswers;
use crate::scripts::{PARTS, Step, Who, Wish, ask_of, opening};
use album_calls::Node;
use album_stamps::Refusal;
use album_world::{Event, Out, World};
use album_writer::Answer;
use std::alloc::Global;

/// A message that was sent to a partition.
#[derive(Clone, Copy)]
struct Posted {
    part: u16,
    number: u64,
    /// The number of the event that sent it.
    mail: u64,
    /// Whether it is sure that it has come by now, where all that one sees is who waits at a gate.
    is_sure: bool,
    is_taken: bool,
}

/// What is done to a service, so that the same happens there.
#[derive(Clone, Copy)]
pub enum Move {
    /// This client asks.
    Ask(Who),
    /// The partition continues until it has taken so many messages.
    Take(u16, u64),
    /// A message waits at the partition, which has taken so many.
    Await(u16, u64),
}

/// A world with its mails, the moves so far, and the answers and notes.
#[derive(Drop)]
struct MailWorld {
    alloc: Global,
    world: World,
    /// In the order in which they were sent.
    posted: Vec<Posted>,
    /// The numbers of replies that nobody has taken.
    replies: Vec<u64>,
    events: u64,
    /// How many asks amy and bo have made.
    asked: (usize, usize),
    moves: Vec<Move>,
    answers: AllAnswers,
}

/// The answers and notes of a world, and the moves that make the same happen in a service.
#[derive(Drop)]
pub struct Followed {
    pub answers: AllAnswers,
    pub moves: Vec<Move>,
}

/// The mail that the partition takes next.
fn next_mail(posted: &[Posted], part: u16) -> Option<u64> {
    for message in posted {
        if message.part == part && !message.is_taken {
            return Some(message.mail);
        }
    }
    None
}

/// How many messages the partition has taken.
fn taken_by(posted: &[Posted], part: u16) -> u64 {
    let mut count: u64 = 0;
    for message in posted {
        if message.part == part && message.is_taken {
            count = count.wrapping_add(1);
        }
    }
    count
}

/// Whether all that was sent to the partition is sure to have come, but for this mail.
fn are_sure(posted: &[Posted], part: u16, mail: u64) -> bool {
    posted.iter().all(|message| message.part != part || message.mail == mail || message.is_sure)
}

/// The mail waits at the partition. A session sends to lower partitions first, so what it sent to these has come too.
fn make_sure(posted: &mut [Posted], part: u16, mail: u64) {
    for message in posted {
        if message.mail == mail && message.part <= part {
            message.is_sure = true;
        }
    }
}

fn next_of(wishes: &[Wish], asked: &mut usize) -> Result<Wish, Refusal> {
    let wish = *wishes.get(*asked).ok_or(Refusal::BadRequest)?;
    *asked = asked.wrapping_add(1);
    Ok(wish)
}

fn ask_by(alloc: Global, who: Who, wish: Wish) -> Result<Event, Refusal> {
    let client = who.client()?;
    let principal = who.principal()?;
    Ok(Event::Ask(client, principal, ask_of(alloc, wish)?))
}

impl MailWorld {
    fn new(alloc: Global) -> Result<MailWorld, Refusal> {
        let opening = opening(alloc)?;
        let world = World::open(alloc, &opening)?;
        Ok(MailWorld {
            alloc,
            world,
            posted: Vec::new(alloc),
            replies: Vec::new(alloc),
            events: 0,
            asked: (0, 0),
            moves: Vec::new(alloc),
            answers: AllAnswers::new(alloc),
        })
    }

    /// The event happens.
    fn happen(&mut self, event: &Event) -> Result<(), Refusal> {
        self.events = self.events.wrapping_add(1);
        let outs = self.world.step(event)?;
        let heard = self.hear_all(&outs);
        drop(outs);
        heard
    }

    fn hear_all(&mut self, outs: &[Out]) -> Result<(), Refusal> {
        for out in outs {
            self.hear(out)?;
        }
        Ok(())
    }

    fn hear(&mut self, out: &Out) -> Result<(), Refusal> {
        match out {
            Out::Sent(number) => self.post(*number),
            Out::Noted(_, note) => {
                self.answers.note(note);
                Ok(())
            }
            Out::Answered(client, answer) => self.answer(client.number(), answer),
        }
    }

    fn answer(&mut self, client: u16, answer: &Answer) -> Result<(), Refusal> {
        if client == 1 {
            self.answers.amy.add(answer)
        } else {
            self.answers.bo.add(answer)
        }
    }

    /// The message is on its way.
    fn post(&mut self, number: u64) -> Result<(), Refusal> {
        let Some(message) = self.world.message(number) else {
            return Err(Refusal::NoSuchMessage);
        };
        match message.to() {
            Node::Client(_) => self.replies.push(number)?,
            Node::Part(part) => self.post_to(part, number)?,
        }
        Ok(())
    }

    /// It is refused where another mail may be on its way there, so that in a service either could come first.
    fn post_to(&mut self, part: u16, number: u64) -> Result<(), Refusal> {
        if !are_sure(&self.posted, part, self.events) {
            return Err(Refusal::Clash);
        }
        self.posted.push(Posted {
            part,
            number,
            mail: self.events,
            is_sure: false,
            is_taken: false,
        })?;
        Ok(())
    }

    fn deliver(&mut self, number: u64) -> Result<(), Refusal> {
        self.happen(&Event::Deliver(number))
    }

    /// This client asks for the next of its wishes.
    fn ask(&mut self, who: Who) -> Result<(), Refusal> {
        let wish = match who {
            Who::Amy => next_of(who.wishes(), &mut self.asked.0)?,
            Who::Bo => next_of(who.wishes(), &mut self.asked.1)?,
        };
        let event = ask_by(self.alloc, who, wish)?;
        let happened = self.happen(&event);
        drop(event);
        happened?;
        self.moves.push(Move::Ask(who))?;
        self.look()
    }

    /// The partition takes its next mail, one message after another, and then who sent it takes the replies.
    fn take(&mut self, part: u16) -> Result<(), Refusal> {
        let Some(mail) = next_mail(&self.posted, part) else {
            return Err(Refusal::NoSuchMessage);
        };
        for index in 0..self.posted.len() {
            self.take_one(index, part, mail)?;
        }
        let taken = taken_by(&self.posted, part);
        self.moves.push(Move::Take(part, taken))?;
        self.reply()?;
        self.look()
    }

    /// The partition takes the message at this index, if it is of the mail.
    fn take_one(&mut self, index: usize, part: u16, mail: u64) -> Result<(), Refusal> {
        let Some(message) = self.posted.get_mut(index) else {
            return Err(Refusal::NoSuchMessage);
        };
        if message.part != part || message.mail != mail {
            return Ok(());
        }
        message.is_taken = true;
        let number = message.number;
        self.deliver(number)
    }

    fn reply(&mut self) -> Result<(), Refusal> {
        for index in 0..self.replies.len() {
            let Some(number) = self.replies.get(index) else {
                return Err(Refusal::NoSuchMessage);
            };
            let number = *number;
            self.deliver(number)?;
        }
        self.replies.clear();
        Ok(())
    }

    /// At each partition to which something was sent, the next of it waits.
    fn look(&mut self) -> Result<(), Refusal> {
        for part in 0..PARTS {
            if let Some(mail) = next_mail(&self.posted, part) {
                make_sure(&mut self.posted, part, mail);
                let taken = taken_by(&self.posted, part);
                self.moves.push(Move::Await(part, taken))?;
            }
        }
        Ok(())
    }

    fn step(&mut self, step: Step) -> Result<(), Refusal> {
        match step {
            Step::Ask(who) => self.ask(who),
            Step::Take(parts) => self.take_all(parts),
        }
    }

    fn take_all(&mut self, parts: &[u16]) -> Result<(), Refusal> {
        for part in parts {
            self.take(*part)?;
        }
        Ok(())
    }
}

/// The answers and notes of a world in which these steps happen, and the moves.
pub fn follow(alloc: Global, steps: &[Step]) -> Result<Followed, Refusal> {
    let mut world = MailWorld::new(alloc)?;
    for step in steps {
        world.step(*step)?;
    }
    let MailWorld { answers, moves, .. } = world;
    Ok(Followed { answers, moves })
}
