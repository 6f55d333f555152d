//! The explanations of lines of one kind.

use album_lines::LineIn;
use album_stamps::Refusal;
use json::Scratch;
use std::alloc::Global;

/// Explains lines of one kind, one after another. The explanation of a line may depend on the lines before it.
pub trait Explainer: Drop {
    ghost use Rattle.std.specs.Prelude.{ℕ, List, Bool, IfOk};
    ghost use Rattle.album_lines.specs.Lines.{Line, said};

    /// What an explanation of a line that isn't blank is: who explains it, the line's number, the line, whether it is
    /// refused, the explanation's text, and who explains the lines after it.
    ghost IsExplanation: { Self → ℕ → Line → Bool → List ℕ → Self → Type 0 };

    /// The explanation of a line that isn't blank, and whether the line is refused.
    ///
    /// # Errors
    ///
    /// `OutOfMemory`, where there is none for the text.
    fn explain(
        &mut self,
        alloc: Global,
        scratch: &mut Scratch,
        line: &LineIn,
        number: u64,
    ) -> Result<(Vec<u8>, bool), Refusal>
        ensures { IfOk result (λ text.
            IsExplanation self.old number (said line.now) text.1 text.0.items self.new) };

    /// Every line has an explanation, be it that memory ran out.
    ghost goes_on: { (old : Self) (number : ℕ) (line : Line)
        → (is_refused : Bool) × (text : List ℕ) × (new : Self)
        × IsExplanation old number line is_refused text new };
}
