//! The answers to clients, as texts, and what was audited.
use crate::refused::whole_text;
use album_eval::Verdict;
use album_items::ItemId;
use album_listing::{Reason, Row};
use album_permits::{Note, Served};
use album_stamps::Refusal;
use album_writer::Answer;
use std::alloc::Global;

/// The answers to one client, as short texts and whole.
#[derive(Drop)]
pub struct ClientAnswers {
    alloc: Global,
    short: String,
    whole: String,
}

fn verdict_text(alloc: Global, verdict: Verdict) -> Result<String, Refusal> {
    match verdict {
        Verdict::Granted => Ok(String::from_str(alloc, "granted")?),
        Verdict::DeniedBy(index) => Ok(format!(in alloc; "by {index}")?),
        Verdict::DeniedAtEnd => Ok(String::from_str(alloc, "at the end")?),
    }
}

fn reason_text(alloc: Global, reason: &Reason) -> Result<String, Refusal> {
    let object = reason.object.text(alloc)?;
    let verdict = verdict_text(alloc, reason.verdict)?;
    Ok(format!(in alloc; "denied {} {}", object.as_str(), verdict.as_str())?)
}

fn denied_text(alloc: Global, reasons: &[Reason]) -> Result<String, Refusal> {
    let mut text = String::new(alloc);
    for reason in reasons {
        let more = reason_text(alloc, reason)?;
        text.push_str(more.as_str())?;
    }
    Ok(text)
}

/// The items that are listed.
fn listed_text(alloc: Global, rows: &[Row]) -> Result<String, Refusal> {
    let mut text = String::from_str(alloc, "listed")?;
    for row in rows {
        let item = row.item.text(alloc)?;
        text.push_str(" ")?;
        text.push_str(item.as_str())?;
    }
    Ok(text)
}

fn served_text(alloc: Global, served: &Served) -> Result<String, Refusal> {
    match served {
        Served::Picture { stamp, title, .. } => {
            Ok(format!(in alloc; "{} at {}", title.as_str(), stamp.value())?)
        }
        Served::Listed { rows, .. } => listed_text(alloc, rows.as_slice()),
        _ => whole_text(alloc, served),
    }
}

fn missing_text(alloc: Global, object: ItemId) -> Result<String, Refusal> {
    let object = object.text(alloc)?;
    Ok(format!(in alloc; "missing {}", object.as_str())?)
}

/// The answer as a short text.
pub fn text_of(alloc: Global, answer: &Answer) -> Result<String, Refusal> {
    match answer {
        Answer::Served(served) => served_text(alloc, served),
        Answer::Denied(denial) => denied_text(alloc, denial.as_slice()),
        Answer::Committed(stamp) => Ok(format!(in alloc; "committed at {}", stamp.value())?),
        Answer::Aborted(stamp) => Ok(format!(in alloc; "aborted at {}", stamp.value())?),
        Answer::Missing(object) => missing_text(alloc, *object),
        Answer::Refused(refusal) => Ok(String::from_str(alloc, refusal.name())?),
        Answer::Unsettled(stamp, refusal) => {
            Ok(format!(in alloc; "{} at {}", refusal.name(), stamp.value())?)
        }
        _ => whole_text(alloc, answer),
    }
}

impl ClientAnswers {
    pub fn new(alloc: Global) -> ClientAnswers {
        ClientAnswers {
            alloc,
            short: String::new(alloc),
            whole: String::new(alloc),
        }
    }

    /// One answer more.
    pub fn add(&mut self, answer: &Answer) -> Result<(), Refusal> {
        let short = text_of(self.alloc, answer)?;
        let whole = whole_text(self.alloc, answer)?;
        self.short.push_str(short.as_str())?;
        self.short.push_str("; ")?;
        self.whole.push_str(whole.as_str())?;
        Ok(())
    }
}

/// The answers to amy and bo, and how many entries have audited what was granted and what was denied.
#[derive(Drop)]
pub struct AllAnswers {
    pub amy: ClientAnswers,
    pub bo: ClientAnswers,
    pub granted: u64,
    pub denied: u64,
}

impl AllAnswers {
    pub fn new(alloc: Global) -> AllAnswers {
        AllAnswers {
            amy: ClientAnswers::new(alloc),
            bo: ClientAnswers::new(alloc),
            granted: 0,
            denied: 0,
        }
    }

    /// One note more.
    pub fn note(&mut self, note: &Note) {
        if note.success {
            self.granted = self.granted.wrapping_add(1);
        } else {
            self.denied = self.denied.wrapping_add(1);
        }
    }

    /// All of it as a short text.
    pub fn text(&self, alloc: Global) -> Result<String, Refusal> {
        let (amy, bo) = (self.amy.short.as_str(), self.bo.short.as_str());
        let (granted, denied) = (self.granted, self.denied);
        Ok(format!(in alloc; "amy: {amy}bo: {bo}audited {granted} and {denied}")?)
    }

    /// Whether the other has exactly the same answers.
    pub fn has_answers_of(&self, other: &AllAnswers) -> bool {
        self.amy.whole == other.amy.whole && self.bo.whole == other.bo.whole
    }
}
