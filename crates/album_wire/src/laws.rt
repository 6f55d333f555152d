//! Laws of lines: what is read of one is what its bytes spell, and nothing is read of a line that spells nothing. The
//! law of judge lines, `questions_by_line`, is in `album_lines`.
ghost use Rattle.std.specs.Prelude.{◌≡◌, ◌↔◌, ◌++◌, [], ◌∷◌, List, ℕ, Ok, IsTrue};
ghost use Rattle.serde_json.specs.Written.{compact_text};
ghost use Rattle.album_eval.specs.declared.facts.Principal.{Principal};
ghost use Rattle.album_items.specs.declared.values.Value.{Value};
ghost use Rattle.album_lines.specs.Lines.{has_no_newline};
ghost use Rattle.album_wire.specs.EventLine.{event_line_of};
ghost use Rattle.album_wire.specs.EventSpelling.{IsEventLine};
ghost use Rattle.album_wire.specs.MarkLine.{mark_json, mark_line_of, mark_text};
ghost use Rattle.album_wire.specs.MarkSpelling.{IsMarkLine};
ghost use Rattle.album_wire.specs.OpeningJson.{opening_json, opening_text};
ghost use Rattle.album_wire.specs.OpeningLine.{opening_line_of};
ghost use Rattle.album_wire.specs.OpeningSpelling.{IsOpeningLine};
ghost use Rattle.album_wire.specs.Spellable.{IsSpellableLine, IsSpellableMark};
ghost use Rattle.album_wire.specs.TalkLine.{hello_line_of, talk_line_of};
ghost use Rattle.album_wire.specs.TalkSpelling.{IsHelloLine, IsTalkLine};
ghost use Rattle.album_wire.specs.declared.event_shape.Spelled.{Spelled};
ghost use Rattle.album_wire.specs.declared.mark_line.PreparedMark.{PreparedMark};
ghost use Rattle.album_wire.specs.declared.opening_line.OpeningLine.{OpeningLine};
ghost use Rattle.album_wire.specs.declared.talk_line.TalkLine.{TalkLine};

use album_items::items_by_text;

/// A law: what is read of a line of an opening is what it spells, and nothing is read of a line that spells nothing.
pub fn openings_by_line()
    ensures { (line : OpeningLine) (bytes : List ℕ) → (opening_line_of bytes ≡ Ok line) ↔ IsOpeningLine line bytes }
{
    items_by_text();
}

/// A law: so it is with the line of an event, and with the events that it spells.
pub fn events_by_line()
    ensures { (events : Spelled) (bytes : List ℕ) → (event_line_of bytes ≡ Ok events) ↔ IsEventLine events bytes }
{
    items_by_text();
}

/// A law: so it is with the first line of a connection, and with the principal that it names.
pub fn hellos_by_line()
    ensures { (who : Principal) (bytes : List ℕ) → (hello_line_of bytes ≡ Ok who) ↔ IsHelloLine who bytes }
{}

/// A law: so it is with a later line of a connection.
pub fn talks_by_line()
    ensures { (line : TalkLine) (bytes : List ℕ) → (talk_line_of bytes ≡ Ok line) ↔ IsTalkLine line bytes }
{
    items_by_text();
}

/// A law: so it is with the line of a mark.
pub fn marks_by_line()
    ensures { (mark : PreparedMark) (bytes : List ℕ) → (mark_line_of bytes ≡ Ok mark) ↔ IsMarkLine mark bytes }
{
    items_by_text();
}

/// A law: what is written of a line of an opening ends with its only newline, and is read back, without that, as what
/// it is.
pub fn openings_read_back()
    ensures text { (line : OpeningLine) → opening_text line ≡ compact_text (opening_json line) ++ 10 ∷ [] }
    ensures one_line { (line : OpeningLine) → IsSpellableLine line
        → IsTrue (has_no_newline (compact_text (opening_json line))) }
    ensures back { (line : OpeningLine) → IsSpellableLine line
        → opening_line_of (compact_text (opening_json line)) ≡ Ok line }
{
    items_by_text();
}

/// A law: so it is with the line of a mark, whose writes may be of missing values.
pub fn marks_read_back()
    ensures text { (part stamp : ℕ) (writes : List (ℕ × Value)) (items : List ℕ)
        → mark_text part stamp writes items ≡ compact_text (mark_json part stamp writes items) ++ 10 ∷ [] }
    ensures one_line { (mark : PreparedMark) → IsSpellableMark mark
        → IsTrue (has_no_newline (compact_text (mark_json mark.part mark.stamp mark.writes mark.items))) }
    ensures back { (mark : PreparedMark) → IsSpellableMark mark
        → mark_line_of (compact_text (mark_json mark.part mark.stamp mark.writes mark.items)) ≡ Ok mark }
{
    items_by_text();
}
