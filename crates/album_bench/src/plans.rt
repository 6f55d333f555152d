//! What the program's words and lines ask for.
use album_lists::whole_number;

/// How the partition opens.
#[derive(Clone, Copy)]
pub struct Plan {
    /// Where the draws begin.
    pub seed: u64,
    /// How many items there are. Every second one has a first value.
    pub items: u64,
    /// How many entries each value has: the items are lists then, and pictures where there are none.
    pub entries: u64,
    /// How many marks there may be.
    pub limit: u64,
}

/// What is sent.
#[derive(Clone, Copy)]
pub enum Sort {
    /// Any of those below but Late, Vote and Discard.
    Mixed,
    /// A Prepare of one to four items, and its Commit.
    Write,
    /// A Prepare of one to four items, at a stamp above all.
    Prepare,
    /// A Prepare of one item, at a stamp below that of the last such.
    Late,
    /// A Commit of the first stamp that is pending.
    Commit,
    /// A Get without stamps.
    Get,
    /// A Get with one to three stamps. The item is written at one of them.
    GetAt,
    /// A Check of a stamp that is unknown.
    Check,
    /// A vote that the first pending stamp is prepared, from the partition itself: it is the only participant.
    Vote,
    /// A vote that the first stamp that is pending never will be.
    Discard,
    /// No message, but a trim.
    Trim,
}

/// `count` messages of a sort, to the partition with the number `part`. There is only partition 0.
#[derive(Clone, Copy)]
pub struct Step {
    pub sort: Sort,
    pub count: u64,
    pub part: u16,
}

impl Plan {
    /// The plan that the first words are.
    pub fn read(words: &[String]) -> Option<Plan> {
        Some(Plan {
            seed: number(words, 1)?,
            items: number(words, 2)?,
            entries: number(words, 3)?,
            limit: number(words, 4)?,
        })
    }
}

fn number(words: &[String], index: usize) -> Option<u64> {
    whole_number(words.get(index)?.as_str())
}

impl Step {
    /// The step of this text, as `get:1000:0`.
    pub fn read(text: &str) -> Option<Step> {
        let (sort, rest) = text.split_once(':')?;
        let (count, part) = rest.split_once(':')?;
        Some(Step {
            sort: Sort::named(sort)?,
            count: whole_number(count)?,
            part: u16::try_from(whole_number(part)?).ok()?,
        })
    }
}

impl Sort {
    fn named(word: &str) -> Option<Sort> {
        match word {
            "mixed" => Some(Sort::Mixed),
            "write" => Some(Sort::Write),
            "prepare" => Some(Sort::Prepare),
            "late" => Some(Sort::Late),
            "commit" => Some(Sort::Commit),
            "get" => Some(Sort::Get),
            "get_at" => Some(Sort::GetAt),
            "check" => Some(Sort::Check),
            "vote" => Some(Sort::Vote),
            "discard" => Some(Sort::Discard),
            "trim" => Some(Sort::Trim),
            _ => None,
        }
    }
}
