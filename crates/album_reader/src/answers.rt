//! The answers of items, as far as they are there.
ghost use Rattle.std.specs.Prelude.{◌≡◌, ◌+◌, ◌<◌, ◌&&◌, drop, take, Some, None, IfOk, length, is_some, slice_index_or, slice_set};
ghost use Rattle.album_reader.specs.Answers.{are_there, answers_there};
ghost use Rattle.album_reader.specs.Rounds.{no_answers};
ghost use Rattle.album_reader.specs.StampSets.{stamps_of};

use crate::stamp_sets::add_stamp;
use album_calls::Stamps;
use album_items::{ItemId, SharedValue};
use album_stamps::Stamp;
use std::alloc::{AllocError, Global};
use std::marker::Model;

/// A version of an item, as the item's partition answered it.
#[derive(Debug, Drop)]
pub struct ReadVersion {
    pub item: ItemId,
    /// The stamp of the version that was read; the zero stamp is the opening's.
    pub stamp: Stamp,
    pub value: SharedValue,
}

impl Model for ReadVersion {
    ghost use Rattle.album_reader.specs.Answers.{ReadVersion as State};

    ghost Value = { State };

    ghost view = { λ a. record { item = a.item; stamp = a.stamp; value = a.value } };
}

// By hand, since the search doesn't find derived clones of answers in a list of options equal.
impl Clone for ReadVersion {
    ghost use Rattle.std.specs.Prelude.{◌≡◌};

    ghost is_clone = { λ answer copy. copy ≡ answer };

    fn clone(&self) -> Result<ReadVersion, AllocError> {
        Ok(ReadVersion {
            item: self.item,
            stamp: self.stamp,
            value: self.value.clone()?,
        })
    }
}

/// Of each item its answer, if it is there. Contracts see them in the order of the items.
#[derive(Clone, Debug, Drop)]
pub struct Answers {
    answers: Vec<Option<ReadVersion>>,
}

impl Model for Answers {
    ghost use Rattle.std.specs.Prelude.{List, Option};
    ghost use Rattle.album_reader.specs.Answers.{ReadVersion as State};

    ghost Value = { List (Option State) };

    ghost view = { λ a. a.answers.items };
}

impl Answers {
    /// No answer yet for any of the items.
    pub fn none(alloc: Global, items: &[ItemId]) -> Result<Answers, AllocError>
        ensures { IfOk result (λ answers. answers ≡ no_answers items.now) }
    {
        let answers = items.iter().map(|_item| None).collect(alloc)?;
        Ok(Answers { answers })
    }

    /// Whether the answer at the index is there.
    pub fn has(&self, index: usize) -> bool
        requires { index < length self.now }
        ensures { result ≡ is_some (slice_index_or self.now index None) }
    {
        self.answers[index].is_some()
    }

    /// Puts an answer at the index.
    pub fn put(&mut self, index: usize, answer: ReadVersion)
        requires { index < length self.old }
        ensures { self.new ≡ slice_set self.old index (Some answer) }
    {
        self.answers[index] = Some(answer);
    }

    /// Takes the answer at the index away.
    pub fn take_away(&mut self, index: usize)
        requires { index < length self.old }
        ensures { self.new ≡ slice_set self.old index None }
    {
        self.answers[index] = None;
    }

    /// Whether each answer is there.
    pub fn are_there(&self) -> bool
        ensures { result ≡ are_there self.now }
    {
        are_there(self.answers.as_slice())
    }

    /// Whether each answer is there but that at the index.
    pub fn are_there_but(&self, index: usize) -> bool
        requires { index < length self.now }
        ensures { result ≡ (are_there (take index self.now) && are_there (drop (index + 1) self.now)) }
    {
        are_there(&self.answers[..index]) && are_there(&self.answers[index + 1..])
    }

    /// The answers that are there, once more.
    pub fn there(&self, alloc: Global) -> Result<Vec<ReadVersion>, AllocError>
        ensures { IfOk result (λ there. there.items ≡ answers_there self.now) }
    {
        copies_there(alloc, self.answers.as_slice())
    }

    /// The stamps of the answers that are there, each once and rising.
    pub fn stamps(&self, alloc: Global) -> Result<Stamps, AllocError>
        ensures { IfOk result (λ stamps. stamps ≡ stamps_of (answers_there self.now)) }
    {
        let stamps = stamps_there(alloc, self.answers.as_slice())?;
        Ok(Stamps::of(stamps))
    }
}

fn are_there(answers: &[Option<ReadVersion>]) -> bool
    ensures { result ≡ are_there answers.now }
{
    answers.iter().all(|answer| answer.is_some())
}

fn copies_there(
    alloc: Global,
    answers: &[Option<ReadVersion>],
) -> Result<Vec<ReadVersion>, AllocError>
    ensures { IfOk result (λ there. there.items ≡ answers_there answers.now) }
{
    let mut there = Vec::with_capacity(alloc, answers.len())?;
    for answer in answers {
        if let Some(answer) = answer {
            there.push(answer.clone()?)?;
        }
    }
    Ok(there)
}

fn stamps_there(alloc: Global, answers: &[Option<ReadVersion>]) -> Result<Vec<Stamp>, AllocError>
    ensures { IfOk result (λ stamps. stamps.items ≡ stamps_of (answers_there answers.now)) }
{
    let mut stamps = Vec::new(alloc);
    for answer in answers {
        if let Some(answer) = answer {
            add_stamp(&mut stamps, answer.stamp)?;
        }
    }
    Ok(stamps)
}
