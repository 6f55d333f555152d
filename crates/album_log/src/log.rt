//! The log: its beginning, and an append.
ghost use Rattle.std.specs.Prelude.{◌≡◌, ◌+◌, ◌<◌, ◌≤◌, ◌^◌, ◌++◌, [], ℕ, List, length, take, IsTrue, IfOk, OnOk, OnErr, ◌↔◌, ◌⊎◌, is_ok, false, slice_index, EachIndex};
ghost use Rattle.sqlite_disk.specs.Disk.{Only};
ghost use Rattle.album_log.specs.Texts.{IsWholeText, whole_text};
ghost use Rattle.album_log.specs.Logs.{HadByte, IsLog, LeavesKept, HasCause};

use crate::LogError;
use crate::groups::append_group;
use crate::zeros::{PIECE, begin_zeros, zeros};
use sqlite_disk::Disk;
use std::alloc::Global;
use std::io;
use std::marker::Model;

/// A log of lines in one file. What is appended is durable once the call has returned.
#[derive(Drop)]
pub struct Log<D: Disk> {
    disk: D,
    /// Where the text ends.
    end: usize,
    /// How much of the file is known, the text and zeros behind it: all of it, if the disk is clean.
    size: usize,
    /// What is written ahead.
    zeros: Vec<u8>,
    /// Whether the disk was mixing as the log began.
    is_mixing: bool,
    /// Whether no call has failed.
    is_open: bool,
}

impl<D: Disk> Model for Log<D> {
    ghost use Rattle.std.specs.Prelude.{◌≡◌, ◌<◌, length, take, IsTrue, slice_index, EachIndex};
    ghost use Rattle.album_log.specs.Logs.{LogView, IsSound};

    ghost Value = { LogView D };

    ghost view = { λ l. record {
      text = take l.end (D.Disk.seen l.disk);
      disk = l.disk;
      is_open = l.is_open;
      is_mixing = l.is_mixing;
    } };

    ghost invariant = { λ l. (0 < length l.zeros.items)
        × EachIndex l.zeros.items (λ k. slice_index l.zeros.items k ≡ 0)
        × (IsTrue l.is_open → IsSound l.end l.size (D.Disk.seen l.disk) (D.Disk.may_leave l.disk)
        (D.Disk.is_clean l.disk) (D.Disk.is_usable l.disk)) };
}

impl<D: Disk> Log<D> {
    /// Begins a log in an empty file.
    ///
    /// # Errors
    ///
    /// `NotEmpty` where the file has a byte, `OutOfMemory`, or `Failed` as the disk fails.
    pub fn begin(alloc: Global, mut disk: D) -> Result<Log<D>, LogError>
    where
        D: Drop,
        requires { IsTrue (D.Disk.is_usable disk) }
        ensures text { IfOk result (λ log. log.text ≡ []) }
        ensures open { IfOk result (λ log. IsTrue log.is_open) }
        ensures usable { IfOk result (λ log. IsTrue (D.Disk.is_usable log.disk)) }
        ensures mixing { IfOk result (λ log. log.is_mixing ≡ D.Disk.is_mixing disk) }
        ensures empty { IfOk result (λ log. IsTrue (D.Disk.is_clean log.disk) → D.Disk.seen disk ≡ []) }
        ensures log { IfOk result (λ log. IsTrue (D.Disk.is_clean log.disk)
            → IsLog log.text (D.Disk.seen log.disk) (D.Disk.may_leave log.disk)) }
        ensures not_empty { result ≡ Err LogError.NotEmpty → HadByte D D.Disk.is_clean (D.Disk.seen disk) }
    {
        let is_mixing = disk.mixes();
        if disk.len()? != 0 {
            return Err(LogError::NotEmpty);
        }
        let zeros = zeros(alloc, PIECE)?;
        begin_zeros(&mut disk, &zeros)?;
        Ok(Log {
            disk,
            end: 0,
            size: PIECE,
            zeros,
            is_mixing,
            is_open: true,
        })
    }

    /// Appends a group of whole lines. After Ok, each crash leaves all of them. A crash on the way, or after an error,
    /// leaves whole lines of the group, from its first on, where the disk was mixing as the log began.
    ///
    /// # Errors
    ///
    /// `Full` where 64 bits don't count the text, or `Failed` as the disk fails or is mixing no more. The log is closed
    /// from then on, and each later call is `Closed` and changes nothing.
    pub fn append(&mut self, group: &[u8]) -> Result<(), LogError>
        requires { IsWholeText group.now }
        ensures text { OnOk result (self.new.text ≡ self.old.text ++ group.now) }
        ensures log { OnOk result (IsTrue (D.Disk.is_clean self.new.disk)
            → IsLog self.new.text (D.Disk.seen self.new.disk) (D.Disk.may_leave self.new.disk)) }
        ensures durable { OnOk result ((c : List ℕ) → D.Disk.may_leave self.new.disk c
            → whole_text c ≡ self.new.text) }
        ensures kept { IsTrue self.old.is_open → IsTrue self.old.is_mixing
            → LeavesKept self.old.text group.now (D.Disk.may_leave self.new.disk) }
        ensures open { self.new.is_open ≡ is_ok result }
        ensures closed { (result ≡ Err LogError.Closed) ↔ (self.old.is_open ≡ false) }
        ensures still { self.old.is_open ≡ false → self.new ≡ self.old }
        ensures full { result ≡ Err LogError.Full → 2 ^ 64 ≤ length self.old.text + length group.now + 1 }
        ensures cause { OnErr result ((result ≡ Err LogError.Closed) ⊎ (result ≡ Err LogError.Full)
            ⊎ HasCause self.old.is_mixing (D.Disk.is_mixing self.new.disk)
            (D.Disk.faults self.old.disk) (D.Disk.faults self.new.disk)) }
        ensures mixing { self.new.is_mixing ≡ self.old.is_mixing }
        ensures usable { OnOk result (IsTrue (D.Disk.is_usable self.new.disk)) }
        ensures clean { D.Disk.is_clean self.new.disk ≡ D.Disk.is_clean self.old.disk }
    {
        if !self.is_open {
            return Err(LogError::Closed);
        }
        self.is_open = false;
        let (end, size) = (self.end, self.size);
        self.size = append_group(
            &mut self.disk,
            &self.zeros,
            self.is_mixing,
            end,
            size,
            group,
        )?;
        self.end = end + group.len();
        self.is_open = true;
        Ok(())
    }

    /// Whether no call has failed.
    pub fn is_open(&self) -> bool
        ensures { result ≡ self.now.is_open }
    {
        self.is_open
    }

    /// For contracts alone: each crash leaves the text of an open log, which is whole. Nothing is computed.
    pub fn is_at_rest(&self)
        ensures only { IsTrue self.now.is_open → (c : List ℕ) → D.Disk.may_leave self.now.disk c
            → whole_text c ≡ self.now.text }
        ensures whole { IsTrue self.now.is_open → IsWholeText self.now.text }
    {
        let _open = self.is_open;
    }

    /// The disk, to look at.
    pub fn disk(&self) -> &D
        ensures { result.now ≡ self.now.disk }
    {
        &self.disk
    }

    /// Ends the log, and gives its disk back. That of an open log holds its text, as after an append.
    pub fn into_disk(self) -> D
        ensures disk { result ≡ self.disk }
        ensures usable { IsTrue self.is_open → IsTrue (D.Disk.is_usable result) }
        ensures log { IsTrue self.is_open → IsTrue (D.Disk.is_clean result)
            → IsLog self.text (D.Disk.seen result) (D.Disk.may_leave result) }
    {
        let Log {
            disk,
            end: _,
            size: _,
            zeros: _,
            is_mixing: _,
            is_open: _,
        } = self;
        disk
    }
}
