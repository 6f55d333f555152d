//! An opening, line by line: the header comes first, then the items, and then a line that says that these are all.
ghost use Rattle.std.specs.Prelude.{◌≡◌};
ghost use Rattle.album_stamps.specs.Outcome.{Gives};
ghost use Rattle.album_lines.specs.Lines.{said};
ghost use Rattle.album_replay.specs.Replay.{first_line, later_line, opened_by, opening_line_read};
ghost use Rattle.album_replay.specs.Stages.{GoesOn};

use album_lines::LineIn;
use album_stamps::Refusal;
use album_wire::{FirstValues, Header, OpeningLine, read_opening_line};
use json::Scratch;
use std::alloc::Global;

/// What the lines of an opening have said so far.
#[derive(Drop)]
pub enum SoFar {
    /// This header, and after it these items.
    More(Header, FirstValues),
    /// The same, and that these are all.
    Whole(Header, FirstValues),
}

/// The header comes first.
///
/// # Errors
///
/// `BadLine` where the line is too long; else as `read_opening_line`; else `BadRequest` where the line isn't a header.
#[tactic(auto, using(crate::proofs::Standing::unread, crate::proofs::Standing::read_so))]
pub fn first_line(alloc: Global, scratch: &mut Scratch, line: &LineIn) -> Result<SoFar, Refusal>
    ensures { GoesOn (opened_by first_line (opening_line_read (said line.now))) result }
{
    let OpeningLine::Open(header) = opening_line(alloc, scratch, line)? else {
        return Err(Refusal::BadRequest);
    };
    Ok(SoFar::More(header, FirstValues::new(alloc)))
}

/// After it come the items, and then the line that says that these are all.
///
/// # Errors
///
/// `BadLine` where the line is too long; else as `read_opening_line`; else `BadRequest` where the line is a header
/// again, and `OutOfMemory` where there is none for the item.
#[tactic(auto, using(crate::proofs::Standing::unread, crate::proofs::Standing::read_so))]
pub fn later_line(
    alloc: Global,
    scratch: &mut Scratch,
    header: Header,
    mut values: FirstValues,
    line: &LineIn,
) -> Result<SoFar, Refusal>
    ensures { GoesOn (opened_by (later_line header values) (opening_line_read (said line.now))) result }
{
    match opening_line(alloc, scratch, line)? {
        OpeningLine::Open(_) => Err(Refusal::BadRequest),
        OpeningLine::Item(item, stamp, value) => {
            values.add(item, stamp, value)?;
            Ok(SoFar::More(header, values))
        }
        OpeningLine::Begin => Ok(SoFar::Whole(header, values)),
    }
}

/// What a line of the opening says. Of a line that is too long nothing is read.
fn opening_line(alloc: Global, scratch: &mut Scratch, line: &LineIn) -> Result<OpeningLine, Refusal>
    ensures { Gives (λ line. line) result (opening_line_read (said line.now)) }
{
    read_opening_line(alloc, scratch, line.bytes()?)
}
