//! Texts of items: an owner's name, a title, a content in hexadecimal.
ghost use Rattle.std.specs.Prelude.{◌≡◌};
ghost use Rattle.album_stamps.specs.Outcome.{Gives};
ghost use Rattle.album_wire.specs.ItemTexts.{owner_read, title_read, bytes_read, content_read};

use album_items::{Content, Title};
use album_lists::{Name, user_name};
use album_stamps::Refusal;
use bytes::Bytes;
use hex::FromHexError;
use std::alloc::Global;

/// The owner that the text is.
pub(crate) fn owner(text: &str) -> Result<Name, Refusal>
    ensures { result ≡ owner_read text.now }
{
    user_name(text)
}

/// The title that the text is.
pub(crate) fn title(alloc: Global, text: &str) -> Result<Title, Refusal>
    ensures { Gives (λ title. title) result (title_read text.now) }
{
    Title::of(alloc, text)
}

/// The content that the text spells in hexadecimal.
#[tactic(auto, unfolding(crate::specs::ItemTexts::content_read))]
pub(crate) fn content(alloc: Global, text: &str) -> Result<Content, Refusal>
    ensures { Gives (λ content. content) result (content_read text.now) }
{
    let bytes = Bytes::from_vec(bytes(alloc, text)?)?;
    Ok(Content::of(bytes)?)
}

#[tactic(auto, unfolding(crate::specs::ItemTexts::bytes_read))]
fn bytes(alloc: Global, text: &str) -> Result<Vec<u8>, Refusal>
    ensures { Gives (λ bytes. bytes.items) result (bytes_read text.now) }
{
    match hex::decode(alloc, text) {
        Ok(bytes) => Ok(bytes),
        Err(FromHexError::OutOfMemory) => Err(Refusal::OutOfMemory),
        Err(_) => Err(Refusal::BadText),
    }
}
