//! Messages that are sent, and the outputs with their numbers.
ghost use Rattle.std.specs.Prelude.{◌≡◌, ◌+◌, ◌<◌, ◌≤◌, ◌^◌, ◌++◌, length, option_to_list, vec_len, vec_capacity, [], IfOk, OnOk, OnErr};
ghost use Rattle.album_world.specs.Runs.{numbers_after, sent_after};

use album_calls::Message;
use album_permits::Out;
use std::alloc::{AllocError, Global};

/// Adds outputs with the numbers of so many messages, which follow the messages that were sent before. There is room.
pub(crate) fn push_sent(outs: &mut Vec<Out>, before: u64, count: usize)
    requires many { before + count < 2 ^ 64 }
    requires room { vec_len outs.old + count ≤ vec_capacity outs.old }
    ensures items { outs.new.items ≡ outs.old.items ++ numbers_after before count }
    ensures len { vec_len outs.new ≡ vec_len outs.old + count }
    ensures capacity { vec_capacity outs.new ≡ vec_capacity outs.old }
{
    for index in 0..count {
        outs.push_reserved(Out::Sent(before + index as u64 + 1));
    }
}

/// The messages are sent once there is room for all of them, and their numbers are the outputs.
pub(crate) fn send_all(
    messages: &mut Vec<Message>,
    alloc: Global,
    sent: Vec<Message>,
) -> Result<Vec<Out>, AllocError>
    ensures messages { OnOk result (messages.new.items ≡ messages.old.items ++ sent.items) }
    ensures outs { IfOk result (λ outs. outs.items ≡ sent_after (length messages.old.items) sent.items) }
    ensures unchanged { OnErr result (messages.new.items ≡ messages.old.items) }
{
    match room_for(messages, alloc, sent.len()) {
        Ok(mut outs) => {
            push_sent(&mut outs, messages.len() as u64, sent.len());
            send(messages, sent);
            Ok(outs)
        }
        Err(error) => {
            drop(sent);
            Err(error)
        }
    }
}

/// Room for so many messages more, and for their outputs.
fn room_for(
    messages: &mut Vec<Message>,
    alloc: Global,
    count: usize,
) -> Result<Vec<Out>, AllocError>
    ensures room { OnOk result (vec_len messages.new + count ≤ vec_capacity messages.new) }
    ensures space { IfOk result (λ outs. count ≤ vec_capacity outs) }
    ensures none { IfOk result (λ outs. outs.items ≡ []) }
    ensures unchanged { messages.new.items ≡ messages.old.items }
{
    messages.reserve(count)?;
    Vec::with_capacity(alloc, count)
}

/// Sends the messages, for which there is room.
pub(crate) fn send(messages: &mut Vec<Message>, mut sent: Vec<Message>)
    requires { vec_len messages.old + length sent.items ≤ vec_capacity messages.old }
    ensures { messages.new.items ≡ messages.old.items ++ sent.items }
{
    // The append takes no memory, since there is room, so it doesn't fail.
    let _ = messages.append(&mut sent);
}

/// Sends the reply, if there is one, and outputs its number. There is room for both.
pub(crate) fn send_reply(
    messages: &mut Vec<Message>,
    mut outs: Vec<Out>,
    reply: Option<Message>,
) -> Vec<Out>
    requires room { vec_len messages.old + 1 ≤ vec_capacity messages.old }
    requires space { 1 ≤ vec_capacity outs }
    requires none { outs.items ≡ [] }
    ensures messages { messages.new.items ≡ messages.old.items ++ option_to_list reply }
    ensures outs { result.items ≡ sent_after (length messages.old.items) (option_to_list reply) }
{
    if let Some(reply) = reply {
        messages.push_reserved(reply);
        outs.push_reserved(Out::Sent(messages.len() as u64));
    }
    outs
}
