//! What a partition asks of the others.
ghost use Rattle.std.specs.Prelude.{◌≡◌, IfOk, IsOkUnless, map};
ghost use Rattle.album_terminate.specs.Asking.{check_to};

use album_calls::{Body, Message, Node, Request};
use album_stamps::{Refusal, Stamp};
use std::alloc::Global;

/// The Checks of this partition to the others, one for each and in their order. Each asks for the stamp's state there.
///
/// # Errors
///
/// `OutOfMemory`.
pub fn checks(
    alloc: Global,
    part: u16,
    others: &[u16],
    stamp: Stamp,
) -> Result<Vec<Message>, Refusal>
    ensures messages { IfOk result (λ messages. messages.items ≡ map (check_to part stamp) others.now) }
    ensures memory { IsOkUnless result Refusal.OutOfMemory }
{
    let mut messages = Vec::new(alloc);
    for other in others {
        messages.push(check_to(part, stamp, *other))?;
    }
    Ok(messages)
}

/// What one of the others is asked.
fn check_to(part: u16, stamp: Stamp, other: u16) -> Message
    ensures { result ≡ check_to part stamp other }
{
    let check = Body::Request(Request::Check(stamp));
    Message::new(Node::Part(part), Node::Part(other), 0, check)
}
