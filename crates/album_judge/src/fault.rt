//! Why an engine ended early.
ghost use Rattle.std.specs.Prelude.{◌≡◌};
ghost use Rattle.album_judge.specs.declared.fault.Fault.TheVariants.{Memory};

use album_stamps::Refusal;
use thiserror::Error;

/// Why an engine ended early. What it wrote before is a prefix of what it would have written.
#[derive(Clone, Copy, Debug, PartialEq, Eq, Error)]
pub enum Fault {
    /// A read failed, or so many reads as were allowed did not come to the end.
    #[error("reading failed")]
    Reading,
    /// A write failed, or took no byte.
    #[error("writing failed")]
    Writing,
    /// There was no memory for a line or for its answer.
    #[error("out of memory")]
    Memory,
}

/// Callees of an engine fail for want of memory alone.
impl From<Refusal> for Fault {
    ghost from_gives = { λ _ e. e ≡ Memory };

    fn from(_refusal: Refusal) -> Fault {
        Fault::Memory
    }
}
