//! `judge` and `replay` over readers and writers that give and take little, or fail.
use crate::runs::{Engine, Script, assert_kept, assert_read, stops_at_each_write};
use crate::streams::{Pieces, Taking};
use album_judge::{Fault, judge};
use album_replay::replay;
use std::alloc::Global;

#[derive(Drop)]
struct Judging;

impl Engine for Judging {
    fn run(
        &mut self,
        alloc: Global,
        reader: &mut Pieces,
        writer: &mut Taking,
        turns: u64,
    ) -> Result<(), Fault> {
        judge(alloc, reader, writer, turns)
    }
}

#[derive(Drop)]
struct Replaying;

impl Engine for Replaying {
    fn run(
        &mut self,
        alloc: Global,
        reader: &mut Pieces,
        writer: &mut Taking,
        turns: u64,
    ) -> Result<(), Fault> {
        replay(alloc, reader, writer, turns)
    }
}

/// A question, two blank lines, another question, and the beginning of a third.
const QUESTIONS: Script = Script {
    input: "{\"entries\":[[\"allow\",\"amy@users\",1,0]],\"group\":0,\"mask\":1,\
        \"owner\":\"bo@users\",\"who\":\"amy@users\"}\r\n \t\r\n\n\
        {\"entries\":[],\"group\":0,\"mask\":512,\"owner\":\"bo@users\",\"who\":\"amy@users\"}\n\
        {\"deliver\":",
    output: "{\"answer\":\"granted\"}\n{\"name\":\"BadMask\",\"refused\":5}\n{\"name\":\"BadLine\",\"refused\":2}\n",
    ends: &[(97, 21), (175, 52)],
    writes: &[21, 31, 31],
};

/// A world in a trace: an ask that sends two messages, deliveries of none, a client that is stopped twice, and the
/// beginning of a line.
const EVENTS: Script = Script {
    input: "{\"open\":{\"parts\":1,\"trace\":true}}\n{\"begin\":true}\n \r\n\
        {\"ask\":{\"do\":\"set_lists\",\"lists\":[[\"picture/0\",[]],[\"picture/1\",[]]]},\"client\":1,\
        \"who\":\"amy@users\"}\n\
        {\"deliver\":[3,9]}\n{\"deliver\":3}\n{\"stop\":1}\n{\"stop\":1}\n\
        {\"deliver\":",
    output: "{\"from\":\"c1\",\"item\":\"picture/0\",\"k\":1,\"say\":\"get\",\"stamps\":[],\"tag\":1,\"to\":\"p0\"}\n\
        {\"from\":\"c1\",\"item\":\"picture/1\",\"k\":2,\"say\":\"get\",\"stamps\":[],\"tag\":1,\"to\":\"p0\"}\n\
        {\"name\":\"NoSuchMessage\",\"refused\":14}\n{\"name\":\"Stopped\",\"refused\":16}\n\
        {\"name\":\"BadLine\",\"refused\":2}\n",
    ends: &[(152, 162), (184, 200), (206, 232)],
    writes: &[81, 81, 38, 32, 31],
};

/// Two restarts; the second one's line has no end.
const RESTARTS: Script = Script {
    input: "{\"open\":{\"parts\":1}}\n{\"begin\":true}\n{\"restart\":true}\n{\"restart\":true}",
    output: "{\"answer\":\"restarted\",\"epoch\":2}\n{\"answer\":\"restarted\",\"epoch\":3}\n",
    ends: &[(53, 33)],
    writes: &[33, 33],
};

/// An opening that is refused by its first line; the end of the second is in another piece.
const REFUSED: Script = Script {
    input: "{\"begin\":true}\n{\"begin\":true}\n",
    output: "{\"name\":\"BadRequest\",\"refused\":3}\n",
    ends: &[(15, 34)],
    writes: &[34],
};

#[test]
fn questions(rt: HostRuntime) {
    assert_kept(&rt, &mut Judging, rt.alloc(), &QUESTIONS);
}

#[test]
fn events(rt: HostRuntime) {
    assert_kept(&rt, &mut Replaying, rt.alloc(), &EVENTS);
}

#[test]
fn restarts(rt: HostRuntime) {
    assert_kept(&rt, &mut Replaying, rt.alloc(), &RESTARTS);
}

/// Once an opening is refused, nothing more is read: its first line ends in the third piece of seven bytes.
#[test]
fn refused_opening_ends_it(rt: HostRuntime) {
    assert_read(&rt, &mut Replaying, rt.alloc(), &REFUSED, 3);
    assert!(rt; stops_at_each_write(&mut Replaying, rt.alloc(), &REFUSED, true));
}
