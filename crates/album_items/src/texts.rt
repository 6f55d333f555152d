//! Titles and contents.
ghost use Rattle.std.specs.Prelude.{◌≡◌, ◌≤◌, ◌↔◌, IsTrue, IsOk, IfOk, IfErr, IsOkUnless, length};
ghost use Rattle.std.specs.Option.{ok_or};
ghost use Rattle.std.specs.List.{list_all};
ghost use Rattle.album_stamps.specs.Outcome.{Makes};
ghost use Rattle.album_stamps.specs.declared.refusals.Refusal.TheVariants.{BadText};
ghost use Rattle.album_items.specs.Texts.{is_title, is_title_byte, title_of};

use album_stamps::{MAX_CONTENT, MAX_TITLE, Refusal, Refused};
use bytes::Bytes;
use std::alloc::Global;
use std::marker::Model;
use std::sync::ArcStr;

/// A title: at most `MAX_TITLE` bytes of UTF-8, with none of U+0000 to U+001F and U+007F, which its
/// copies share. Contracts see its bytes.
#[derive(Clone, Debug)]
pub struct Title {
    text: ArcStr<Global>,
}

impl Model for Title {
    ghost use Rattle.std.specs.Prelude.{List, ℕ, IsTrue};
    ghost use Rattle.std.specs.Arc.{arc_str_bytes};
    ghost use Rattle.album_items.specs.Texts.{is_title};

    ghost Value = { List ℕ };

    ghost view = { λ t. arc_str_bytes t.text };

    ghost invariant = { λ t. IsTrue (is_title (arc_str_bytes t.text)) };
}

// By hand, so that what lets it go is proved here, and not again in each crate above.
impl Drop for Title {
    fn drop(self) {
        let Title { text } = self;
        drop(text);
    }
}

impl Title {
    /// The title that the text is.
    ///
    /// # Errors
    ///
    /// `BadText` where the text is no title, and else `OutOfMemory`.
    pub fn of(alloc: Global, text: &str) -> Result<Title, Refusal>
        ensures { Makes (λ title. title) result (ok_or (title_of text.now) BadText) }
    {
        if !is_title(text) {
            return Err(Refusal::BadText);
        }
        let text = ArcStr::from_str(alloc, text)?;
        Ok(Title { text })
    }

    /// The text of the title.
    pub fn as_str(&self) -> &str
        ensures text { result.now ≡ self.now }
        ensures valid { IsTrue (is_title self.now) }
    {
        self.text.as_str()
    }

    /// The same title once more.
    ///
    /// # Errors
    ///
    /// `OutOfMemory`.
    pub fn copy(&self) -> Result<Title, Refusal>
        ensures copy { IfOk result (λ title. title ≡ self.now) }
        ensures memory { IsOkUnless result Refusal.OutOfMemory }
    {
        Ok(self.clone()?)
    }
}

fn is_title(text: &str) -> bool
    ensures { result ≡ is_title text.now }
{
    text.len() <= MAX_TITLE && has_title_bytes(text)
}

fn has_title_bytes(text: &str) -> bool
    ensures { result ≡ list_all is_title_byte text.now }
{
    text.bytes().all(is_title_byte)
}

fn is_title_byte(byte: u8) -> bool
    ensures { result ≡ is_title_byte byte }
{
    byte >= 32 && byte != 127
}

/// What a picture shows: at most `MAX_CONTENT` bytes, which its copies share. Contracts see them.
#[derive(Clone, Debug)]
pub struct Content {
    bytes: Bytes,
}

impl Model for Content {
    ghost use Rattle.std.specs.Prelude.{List, ℕ, ◌≤◌, length};
    ghost use Rattle.album_stamps.specs.declared.limits.TheConstants.{MAX_CONTENT};

    ghost Value = { List ℕ };

    ghost view = { λ c. c.bytes };

    ghost invariant = { λ c. length c.bytes ≤ MAX_CONTENT };
}

// By hand, so that what lets it go is proved here, and not again in each crate above.
impl Drop for Content {
    fn drop(self) {
        let Content { bytes } = self;
        drop(bytes);
    }
}

impl Content {
    /// The content of these bytes.
    ///
    /// # Errors
    ///
    /// `BadText` where they are more than `MAX_CONTENT`. The bytes are handed back.
    pub fn of(bytes: Bytes) -> Result<Content, Refused<Bytes>>
        ensures taken { IfOk result (λ content. content ≡ bytes) }
        ensures short { IsOk result ↔ (length bytes ≤ MAX_CONTENT) }
        ensures refused { IfErr result (λ e. e.refusal ≡ BadText) }
        ensures given { IfErr result (λ e. e.given ≡ bytes) }
    {
        if bytes.len() > MAX_CONTENT {
            return Err(Refused {
                refusal: Refusal::BadText,
                given: bytes,
            });
        }
        Ok(Content { bytes })
    }

    /// The bytes.
    pub fn as_slice(&self) -> &[u8]
        ensures bytes { result.now ≡ self.now }
        ensures short { length self.now ≤ MAX_CONTENT }
    {
        &self.bytes
    }

    /// The bytes, to be shared.
    pub fn bytes(&self) -> &Bytes
        ensures { result.now ≡ self.now }
    {
        &self.bytes
    }

    /// The same content once more.
    ///
    /// # Errors
    ///
    /// `OutOfMemory`.
    pub fn copy(&self) -> Result<Content, Refusal>
        ensures copy { IfOk result (λ content. content ≡ self.now) }
        ensures memory { IsOkUnless result Refusal.OutOfMemory }
    {
        Ok(self.clone()?)
    }
}
