//! What text a log takes.
ghost use Rattle.std.specs.Prelude.{◌↔◌, IsTrue};
ghost use Rattle.album_log.specs.Texts.{IsWholeText};

/// Whether these are whole lines: no byte is 0, and the last one is a newline.
pub fn is_whole_text(text: &[u8]) -> bool
    ensures { IsTrue result ↔ IsWholeText text.now }
{
    text.iter().all(|byte| *byte != 0) && (text.is_empty() || text[text.len() - 1] == b'\n')
}
