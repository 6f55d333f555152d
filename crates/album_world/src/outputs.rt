//! The outputs of a client's transition.
ghost use Rattle.std.specs.Prelude.{◌≡◌, ◌+◌, ◌<◌, ◌≤◌, ◌^◌, ◌++◌, map, option_map, option_to_list, vec_len, vec_capacity, IfOk};
ghost use Rattle.album_stamps.specs.declared.limits.TheConstants.{MAX_READ_ITEMS};
ghost use Rattle.album_world.specs.Runs.{numbers_after};

use crate::sending::push_sent;
use album_permits::{Answer, Note, Out};
use album_stamps::ClientNo;
use std::alloc::{AllocError, Global};

/// The notes of a transition as outputs, with room for so many outputs more.
pub fn noted(
    alloc: Global,
    number: ClientNo,
    notes: &[Note],
    room: usize,
) -> Result<Vec<Out>, AllocError>
    ensures notes { IfOk result (λ outs. outs.items ≡ map (Out.Noted number) notes.now) }
    ensures room { IfOk result (λ outs. vec_len outs + room ≤ vec_capacity outs) }
{
    let mut outs = Vec::new(alloc);
    for note in notes {
        outs.push(Out::Noted(number, *note))?;
    }
    outs.reserve(room)?;
    Ok(outs)
}

/// Adds the numbers of the messages that are sent, and then the answer. There is room for them.
pub fn push_outputs(
    outs: &mut Vec<Out>,
    before: u64,
    number: ClientNo,
    sent: usize,
    answer: Option<Answer>,
)
    requires many { before < 2 ^ 63 }
    requires few { sent ≤ MAX_READ_ITEMS }
    requires room { vec_len outs.old + sent + 1 ≤ vec_capacity outs.old }
    ensures { outs.new.items ≡ outs.old.items
        ++ (numbers_after before sent ++ option_to_list (option_map (Out.Answered number) answer)) }
{
    push_sent(outs, before, sent);
    if let Some(answer) = answer {
        outs.push_reserved(Out::Answered(number, answer));
    }
}
