//! A law of logs: what a log keeps is read of it.
ghost use Rattle.std.specs.Prelude.{List, ℕ};
ghost use Rattle.std.specs.List.{Contains};
ghost use Rattle.album_keepers.specs.declared.log_entries.LogEntry.{LogEntry as Entry};
ghost use Rattle.album_data.specs.Recovery.{AreEntryLines};
ghost use Rattle.album_data.specs.Texts.{HasLine, IsSpellableEntry, entry_text};

use album_wire::marks_read_back;

/// A law: where a text is lines of entries, and has the line of an entry that a line spells, that entry is among them.
pub fn what_is_kept_is_read()
    ensures { (text : List ℕ) (entries : List Entry) (entry : Entry)
        → AreEntryLines text entries → HasLine text (entry_text entry) → IsSpellableEntry entry
        → Contains entries entry }
{
    marks_read_back();
}
