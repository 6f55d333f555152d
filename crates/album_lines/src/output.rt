//! The lines that are written: {"answer": "granted"}, {"answer": "denied", "at": index or "end"}, {"name", "refused"}.
ghost use Rattle.std.specs.Prelude.{◌≡◌, ◌++◌, ℕ, codes, decimal, string_bytes, IfOk, IsOkUnless};
ghost use Rattle.album_stamps.specs.declared.refusals.Refusal.{Refusal};
ghost use Rattle.album_stamps.specs.Refusals.{name_of, number_of};
ghost use Rattle.album_lines.specs.Output.{refusal_line, verdict_line};

use album_eval::Verdict;
use album_stamps::Refusal;
use std::alloc::{AllocError, Global};

/// The line of a verdict.
///
/// # Errors
///
/// `OutOfMemory`.
pub fn write_verdict(alloc: Global, verdict: Verdict) -> Result<Vec<u8>, Refusal>
    ensures text { IfOk result (λ bytes. bytes.items ≡ verdict_line verdict) }
    ensures memory { IsOkUnless result Refusal.OutOfMemory }
{
    let text = verdict_text(alloc, verdict)?;
    Ok(text.into_bytes())
}

/// A law: the text of each verdict, byte for byte.
pub fn verdict_texts()
    ensures granted { verdict_line Verdict.Granted ≡ codes "{\"answer\":\"granted\"}\n" }
    ensures denied_by { (index : ℕ) → verdict_line (Verdict.DeniedBy index)
        ≡ codes "{\"answer\":\"denied\",\"at\":" ++ decimal index ++ codes "}\n" }
    ensures denied_at_end { verdict_line Verdict.DeniedAtEnd ≡ codes "{\"answer\":\"denied\",\"at\":\"end\"}\n" }
{}

fn verdict_text(alloc: Global, verdict: Verdict) -> Result<String, AllocError>
    ensures { IfOk result (λ text. string_bytes text ≡ verdict_line verdict) }
{
    match verdict {
        Verdict::Granted => String::from_str(alloc, "{\"answer\":\"granted\"}\n"),
        Verdict::DeniedBy(index) => {
            format!(in alloc; "{{\"answer\":\"denied\",\"at\":{index}}}\n")
        }
        Verdict::DeniedAtEnd => String::from_str(alloc, "{\"answer\":\"denied\",\"at\":\"end\"}\n"),
    }
}

/// The line of a refusal.
///
/// # Errors
///
/// `OutOfMemory`.
pub fn write_refusal(alloc: Global, refusal: Refusal) -> Result<Vec<u8>, Refusal>
    ensures text { IfOk result (λ bytes. bytes.items ≡ refusal_line refusal) }
    ensures memory { IsOkUnless result Refusal.OutOfMemory }
{
    let text = refusal_text(alloc, refusal)?;
    Ok(text.into_bytes())
}

/// A law: the text of each refusal, byte for byte.
pub fn refusal_texts()
    ensures { (refusal : Refusal) → refusal_line refusal
        ≡ codes "{\"name\":\"" ++ name_of refusal
        ++ codes "\",\"refused\":" ++ decimal (number_of refusal) ++ codes "}\n" }
{}

fn refusal_text(alloc: Global, refusal: Refusal) -> Result<String, AllocError>
    ensures { IfOk result (λ text. string_bytes text ≡ refusal_line refusal) }
{
    let name = refusal.name();
    let number = refusal.number();
    format!(in alloc; "{{\"name\":\"{name}\",\"refused\":{number}}}\n")
}
