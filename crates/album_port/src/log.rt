//! What a service writes to its audit file: a line for each record, with when it was written, the principal that asked,
//! and what it asked; and a line for how a request has ended.
ghost use Rattle.std.specs.Prelude.{◌≡◌, ◌≢◌, ℕ, None, Some, OnOk, IfOk, IfSome, IsOkUnless, string_bytes, true, false, length, codes};
ghost use Rattle.std.specs.Io.KnownBytes.{Appends};
ghost use Rattle.album_port.specs.Audits.{named_in, who_in, asked_in, record_lines, ending_line};
ghost use Rattle.album_port.specs.Audits.{dated_record, put_before, put_behind, moment_member, ask_member, alarm_len, who_len};

use crate::ending_line::ending_line;
use album_audit::Record;
use album_eval::Principal;
use album_permits::Note;
use album_stamps::{ClientNo, Refusal};
use album_talk::{AskWord, Ending};
use album_wire::write_record;
use std::alloc::{AllocError, Global};
use std::collections::BTreeMap;
use std::io;
use std::io::Write;

/// A writer of lines, the principal that talks over each connection, and what it asks.
#[derive(Drop)]
pub(crate) struct Log<W> {
    pub to: W,
    /// By the numbers of their sessions.
    pub named: BTreeMap<u16, Principal>,
    pub asked: BTreeMap<u16, AskWord>,
}

/// Why a note isn't written.
#[derive(Drop)]
pub(crate) enum Unwritten {
    Memory,
    File(io::Error),
}

impl<W: Write> Log<W> {
    /// Nothing is written yet, and nobody is known.
    pub(crate) fn new(alloc: Global, to: W) -> Log<W>
        ensures to { result.to ≡ to }
        ensures nobody { (client : ℕ) → named_in result.named client ≡ None }
        ensures nothing { (client : ℕ) → asked_in result.asked client ≡ None }
    {
        Log {
            to,
            named: BTreeMap::new(alloc),
            asked: BTreeMap::new(alloc),
        }
    }

    /// The client, for which this principal talks, asks this from now on.
    ///
    /// # Errors
    ///
    /// `OutOfMemory`.
    pub(crate) fn begin(
        &mut self,
        client: ClientNo,
        who: &Principal,
        ask: AskWord,
    ) -> Result<(), Refusal>
        ensures named { OnOk result (named_in self.old.named client ≡ None
            → named_in self.new.named client ≡ Some who.now) }
        ensures asked { OnOk result (asked_in self.new.asked client ≡ Some ask) }
        ensures others { (other : ℕ) → other ≢ client → asked_in self.new.asked other ≡ asked_in self.old.asked other }
        ensures kept { self.new.to ≡ self.old.to }
        ensures memory { IsOkUnless result Refusal.OutOfMemory }
    {
        self.name(client, Some(who))?;
        let _ = self.asked.insert(client.number(), ask)?;
        Ok(())
    }

    /// Writes that the request of this client has ended so, at this moment.
    ///
    /// # Errors
    ///
    /// As `write`.
    pub(crate) fn end(
        &mut self,
        alloc: Global,
        client: ClientNo,
        moment: &str,
        ending: &Ending,
    ) -> Result<(), Unwritten>
        ensures written { OnOk result (Appends (W.contents self.old.to) (W.contents self.new.to)
            (ending_line moment.now client (who_in self.old.named client) ending.now)) }
        ensures named { self.new.named ≡ self.old.named }
        ensures asked { self.new.asked ≡ self.old.asked }
    {
        let who = self
            .named
            .get(&client.number())
            .unwrap_or(&Principal::Anonymous);
        let text = ending_line(alloc, moment, client, who, ending).map_err(|_| Unwritten::Memory)?;
        self.to.write_all(&text).map_err(Unwritten::File)
    }

    /// Writes the records, in their order, each with this moment, the principal that asked, and what it asked. The
    /// client is this principal from its first line on.
    ///
    /// # Errors
    ///
    /// Where there is no memory, or a write fails.
    pub(crate) fn write(
        &mut self,
        alloc: Global,
        client: ClientNo,
        who: Option<&Principal>,
        moment: &str,
        records: &[Record],
    ) -> Result<(), Unwritten>
        ensures written { OnOk result (Appends (W.contents self.old.to) (W.contents self.new.to)
            (record_lines moment.now (who_in self.new.named) (asked_in self.old.asked) records.now)) }
        ensures named { OnOk result (IfSome who.entry (λ principal. named_in self.old.named client ≡ None
            → named_in self.new.named client ≡ Some principal.now)) }
        ensures others { (other : ℕ) → other ≢ client → named_in self.new.named other ≡ named_in self.old.named other }
        ensures asked { self.new.asked ≡ self.old.asked }
    {
        self.name(client, who).map_err(|_| Unwritten::Memory)?;
        self.append_all(alloc, moment, records)
    }

    /// The client is this principal, if that isn't known yet.
    fn name(&mut self, client: ClientNo, who: Option<&Principal>) -> Result<(), Refusal>
        ensures named { OnOk result (IfSome who.entry (λ principal. named_in self.old.named client ≡ None
            → named_in self.new.named client ≡ Some principal.now)) }
        ensures others { (other : ℕ) → other ≢ client → named_in self.new.named other ≡ named_in self.old.named other }
        ensures kept { self.new.to ≡ self.old.to }
        ensures asked { self.new.asked ≡ self.old.asked }
        ensures memory { IsOkUnless result Refusal.OutOfMemory }
    {
        let number = client.number();
        if let Some(who) = who
            && !self.named.contains_key(&number)
        {
            let _ = self.named.insert(number, who.copy()?)?;
        }
        Ok(())
    }

    fn append_all(
        &mut self,
        alloc: Global,
        moment: &str,
        records: &[Record],
    ) -> Result<(), Unwritten>
        ensures written { OnOk result (Appends (W.contents self.old.to) (W.contents self.new.to)
            (record_lines moment.now (who_in self.old.named) (asked_in self.old.asked) records.now)) }
        ensures named { self.new.named ≡ self.old.named }
        ensures asked { self.new.asked ≡ self.old.asked }
    {
        for of in records {
            self.append(alloc, moment, *of)?;
        }
        Ok(())
    }

    fn append(&mut self, alloc: Global, moment: &str, of: Record) -> Result<(), Unwritten>
        ensures written { OnOk result (Appends (W.contents self.old.to) (W.contents self.new.to)
            (dated_record moment.now of.client (who_in self.old.named of.client) (asked_in self.old.asked of.client)
            of.note)) }
        ensures named { self.new.named ≡ self.old.named }
        ensures asked { self.new.asked ≡ self.old.asked }
    {
        let line = self
            .line_of(alloc, moment, of)
            .map_err(|_| Unwritten::Memory)?;
        self.to.write_all(&line).map_err(Unwritten::File)
    }

    /// The line of a record, written at this moment.
    ///
    /// # Errors
    ///
    /// `OutOfMemory`.
    fn line_of(&self, alloc: Global, moment: &str, of: Record) -> Result<Vec<u8>, Refusal>
        ensures { IfOk result (λ text. text.items ≡ dated_record moment.now of.client
            (who_in self.now.named of.client) (asked_in self.now.asked of.client) of.note) }
    {
        let Record { client, note } = of;
        // A client that has asked has named its principal before.
        let who = self
            .named
            .get(&client.number())
            .unwrap_or(&Principal::Anonymous);
        note_line(alloc, moment, client, who, self.ask_of(client), note)
    }

    /// What the client asks, if that is known.
    fn ask_of(&self, client: ClientNo) -> Option<AskWord>
        ensures { result ≡ asked_in self.now.asked client }
    {
        self.asked.get(&client.number()).copied()
    }
}

/// The line of a note that was taken of this client's ask, for this principal, written at this moment.
///
/// # Errors
///
/// `OutOfMemory`.
fn note_line(
    alloc: Global,
    moment: &str,
    client: ClientNo,
    who: &Principal,
    ask: Option<AskWord>,
    note: Note,
) -> Result<Vec<u8>, Refusal>
    ensures { IfOk result (λ text. text.items ≡ dated_record moment.now client who.now ask note) }
{
    let line = write_record(alloc, client, who, note)?;
    let line = asked(alloc, ask, note.alarm, &line)?;
    Ok(dated(alloc, moment, who, &line)?)
}

/// The line of a note with the word of what was asked behind its first key.
///
/// # Errors
///
/// `AllocError`.
fn asked(
    alloc: Global,
    ask: Option<AskWord>,
    alarm: bool,
    line: &[u8],
) -> Result<Vec<u8>, AllocError>
    ensures { IfOk result (λ text. text.items ≡ put_behind (ask_member ask) (alarm_len alarm) line.now) }
{
    let first = alarm_len(alarm).min(line.len());
    let (before, rest) = line.split_at(first);
    let member = ask_member(alloc, ask)?;
    let mut text = Vec::new(alloc);
    text.extend_from_slice(before)?;
    text.extend_from_slice(member.as_bytes())?;
    text.extend_from_slice(rest)?;
    Ok(text)
}

/// How many bytes the first key of a note's line takes, with its value, the brace and the comma.
fn alarm_len(alarm: bool) -> usize
    ensures { result ≡ alarm_len alarm }
{
    if alarm {
        "{\"alarm\":true,".len()
    } else {
        "{\"alarm\":false,".len()
    }
}

fn ask_member(alloc: Global, ask: Option<AskWord>) -> Result<String, AllocError>
    ensures { IfOk result (λ text. string_bytes text ≡ ask_member ask) }
{
    match ask {
        None => Ok(String::new(alloc)),
        Some(ask) => {
            let word = ask.as_str();
            format!(in alloc; "\"ask\":\"{word}\",")
        }
    }
}

/// The line of a record of this principal's, with the moment before its last key.
///
/// # Errors
///
/// `AllocError`.
fn dated(alloc: Global, moment: &str, who: &Principal, line: &[u8]) -> Result<Vec<u8>, AllocError>
    ensures { IfOk result (λ text. text.items ≡ put_before (moment_member moment.now) (who_len who.now) line.now) }
{
    let (before, last) = line.split_at(line.len().saturating_sub(who_len(who)));
    let mut text = Vec::new(alloc);
    text.extend_from_slice(before)?;
    text.extend_from_slice(b"\"time\":\"")?;
    text.extend_from_slice(moment.as_bytes())?;
    text.extend_from_slice(b"\",")?;
    text.extend_from_slice(last)?;
    Ok(text)
}

/// How many bytes the last key of a line takes, with this principal, the brace and the newline.
fn who_len(who: &Principal) -> usize
    ensures { result ≡ who_len who.now }
{
    match who {
        Principal::Anonymous => "\"who\":\"ANONYMOUS@\"}\n".len(),
        Principal::User(name) | Principal::Root(name) => {
            "\"who\":\"@users\"}\n".len() + name.as_str().len()
        }
    }
}
